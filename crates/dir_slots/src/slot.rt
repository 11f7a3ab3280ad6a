// A slot of a directory, and how many words it has.
ghost use Rattle.std.specs.Prelude.{◌≡◌, ◌≤◌, ◌↔◌, IsTrue, length};
ghost use Rattle.pack_model.specs.reading.Slots.{entry_length};

use alto_words::{Fid, Name};

/// The most words of a free slot: its length has 10 bits.
pub const MAX_FREE_WORDS: u16 = 1023;

/// The most words of an entry: those of one whose name has 39 characters.
pub const MAX_ENTRY_WORDS: usize = 26;

/// A slot of a directory.
/// Source: a directory of names and full names is that of the SOSP 1979 paper; the layout is this project's choice.
#[derive(Clone, Copy, Debug, PartialEq, Eq)]
pub enum Slot {
    /// So many words, 1 to 1,023, that no entry has; the first of them is their number.
    Free {
        words: u16,
    },
    /// The entry of a file under a name. `leader_at` is the virtual address of the file's leader: a hint.
    Entry {
        fid: Fid,
        leader_at: u16,
        name: Name,
    },
}

impl Slot {
    ghost use Rattle.std.specs.Prelude.{◌≡◌, ◌↔◌, IsTrue};
    ghost use Rattle.pack_model.specs.reading.Slots.{item_words};
    ghost use Rattle.dir_slots.specs.Items.{item_of, IsInRange};

    /// How many words the slot has: 1 to 1,023 of a free one that is in range, 8 to 26 of an entry.
    pub fn words(&self) -> u16
        ensures { result ≡ item_words (item_of self.now) }
    {
        match self {
            Slot::Free { words } => *words,
            Slot::Entry { name, .. } => entry_words(name),
        }
    }

    /// Whether the slot can be written: a free one has 1 to 1,023 words; an entry's serial without the directory mark is at least
    /// 1, and its version is 1 to 0xFFFE.
    pub fn is_in_range(&self) -> bool
        ensures { IsTrue result ↔ IsInRange self.now }
    {
        match self {
            Slot::Free { words } => 1 <= *words && *words <= MAX_FREE_WORDS,
            Slot::Entry { fid, .. } => fid.is_full_name(),
        }
    }
}

/// How many words the entry of a file under this name has: 6 + (characters + 2)/2, rounded down, so 8 to 26.
pub fn entry_words(name: &Name) -> u16
    ensures words { result ≡ entry_length (length name.now) }
    ensures least { 8 ≤ result }
    ensures most { result ≤ 26 }
{
    let characters = name.as_bytes().len() as u16;
    6 + (characters + 2) / 2
}
