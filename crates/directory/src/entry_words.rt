// The words that an entry has written in its room.
ghost use Rattle.std.specs.Prelude.{◌≡◌, ◌+◌, ◌<◌, ◌≤◌, ◌==◌, [], ◌∷◌, cond, length, take, true};
ghost use Rattle.alto_words.specs.Names.{is_stored_name};
ghost use Rattle.pack_model.specs.operations.PageWords.{entered_words};
ghost use Rattle.pack_model.specs.reading.Bytes.{put_at};

use alto_words::{Fid, Name};
use dir_slots::{MAX_ENTRY_WORDS, entry_words};
use leader_page::name_words;

/// The most words that an entry has written in its room: those of the longest entry, and the first one of a free slot after it.
pub(crate) const MAX_WRITTEN: usize = MAX_ENTRY_WORDS + 1;

/// Word 0 of an entry less its length: the type 1 times 1,024.
const ENTRY_TYPE: u16 = 1024;

/// The words before those of the name.
const NAME: usize = 6;

/// Puts these words in the place of others, from this one on.
pub(crate) fn put_words(value: &mut [u16], at: usize, words: &[u16])
    requires { at + length words.now ≤ length value.old }
    ensures { value.new ≡ put_at at words.now value.old }
{
    value[at..at + words.len()].copy_from_slice(words);
}

/// Puts the words of an entry first, and after them the first one of a free slot, if so many words of the room are left over. The answer is how
/// many words these are.
pub(crate) fn put_entry(
    words: &mut [u16; MAX_WRITTEN],
    fid: Fid,
    leader_at: u16,
    name: &Name,
    left: u16,
) -> usize
    ensures words { take result words.new ≡ entered_words fid leader_at name.now left }
    ensures least { 1 ≤ result }
    ensures most { result ≤ 27 }
    ensures stored { is_stored_name name.now ≡ true }
{
    let count = entry_words(name) as usize;
    let first = ENTRY_TYPE + count as u16;
    put_words(
        words,
        0,
        &[first, fid.high, fid.low, fid.version, 0, leader_at],
    );
    let filled = name_words(name);
    put_words(words, NAME, &filled[..count - NAME]);
    if left == 0 {
        return count;
    }
    put_words(words, count, &[left]);
    count + 1
}
