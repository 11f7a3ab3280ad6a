// Memory that is kept ready for the words of one record.
ghost use Rattle.std.specs.Prelude.{◌≡◌, ◌+◌, ◌≤◌, ◌<◌, [], ◌∷◌, ◌++◌, length, OnOk, OnErr};
ghost use Rattle.std.specs.Vec.{vec_len, vec_capacity};

use alto_words::List;
use std::alloc::{AllocError, Global};

/// An empty list with room for the words of any record.
#[derive(Drop)]
pub struct Block {
    words: Vec<u16>,
    ghost empty: { words.items ≡ [] },
    ghost capacity: { 256 ≤ vec_capacity words },
}

impl Block {
    /// The one call that takes memory.
    pub fn new(alloc: Global) -> Result<Block, AllocError> {
        Ok(Block {
            words: Vec::with_capacity(alloc, 256)?,
        })
    }

    /// The list of these words, in the block's room.
    pub fn filled(self, words: &[u16]) -> List<u16>
        requires { length words.now ≤ 256 }
        ensures { result ≡ words.now }
    {
        let mut list = self.words;
        if list.extend_from_slice(words).is_err() {
            unreachable!();
        }
        List::from_vec(list)
    }
}

/// Makes `blocks` at least `count` long. Without memory it may have grown by fewer.
pub fn fill_up(blocks: &mut Vec<Block>, alloc: Global, count: usize) -> Result<(), AllocError>
    ensures kept { vec_len blocks.old ≤ vec_len blocks.new }
    ensures ok { OnOk result (count ≤ vec_len blocks.new) }
    ensures err { OnErr result (vec_len blocks.old < count) }
{
    for _ in blocks.len()..count {
        blocks.push(Block::new(alloc)?)?;
    }
    Ok(())
}

/// Puts an item after the others, where there is room for it.
pub fn push_ready<T: Drop>(items: &mut Vec<T>, item: T)
    requires { vec_len items.old < vec_capacity items.old }
    ensures items { items.new.items ≡ items.old.items ++ item ∷ [] }
    ensures len { vec_len items.new ≡ vec_len items.old + 1 }
    ensures capacity { vec_capacity items.old ≤ vec_capacity items.new }
{
    if items.push(item).is_err() {
        unreachable!();
    }
}
