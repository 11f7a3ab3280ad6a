// `store`: a word into the memory.
ghost use Rattle.exec_memory.specs.Alone.{IsRefusalOrMemory, IsSameButWorld, MayTake, StaysFormed, TakesAlone};
ghost use Rattle.exec_words.specs.declared.line.Line.TheVariants as line;
ghost use Rattle.std.specs.Prelude.{IfErr, length, set, ◌<◌, ◌≡◌};

use crate::words::is_storable;
use exec_session::{Session, Stop, refused};
use exec_words::{Refusal, done_text};
use std::alloc::Global;
use world_swap::World;

/// The word at the address `at` is `word` now.
fn set_word(world: &mut World, at: u16, word: u16)
    requires { at < length world.old.memory }
    ensures { world.new ≡ record world.old { memory = set world.old.memory at word } }
{
    world.memory.as_vec()[usize::from(at)] = word;
}

/// The text of `store`: the word at the address `at` is `word` now.
///
/// NotABlock: the word is neither one of the user's, before word 1,024, nor a usable one of a used block. Memory: none was left for the text,
/// and the line may be done.
pub fn store_word(alloc: Global, session: &mut Session, at: u16, word: u16) -> Result<Vec<u8>, Stop>
    requires may { MayTake session.old (line.Store at word) }
    ensures turns { TakesAlone session.old session.new (line.Store at word) result }
    ensures formed { StaysFormed session.old session.new }
    ensures stops { IfErr result IsRefusalOrMemory }
    ensures alone { IsSameButWorld session.old session.new }
{
    if !is_storable(&session.world, at) {
        return refused(Refusal::NotABlock);
    }
    set_word(&mut session.world, at, word);
    Ok(done_text(alloc)?)
}
