// An entry where it stands.
ghost use Rattle.std.specs.Prelude.{◌≡◌, ◌≤◌};

use alto_words::{Fid, Name};
use dir_slots::entry_words;

/// An entry of a directory, where it stands.
#[derive(Clone, Copy, Debug, PartialEq, Eq)]
pub struct PlacedEntry {
    /// The directory.
    pub dir: Fid,
    /// The place of its first word among the words of the directory, counted from 0.
    pub place: u32,
    /// The file that it names.
    pub fid: Fid,
    /// The virtual address of that file's leader page, a hint.
    pub leader_at: u16,
    /// The name.
    pub name: Name,
}

impl PlacedEntry {
    ghost use Rattle.std.specs.Prelude.{◌≡◌, ◌≤◌, length};
    ghost use Rattle.pack_model.specs.reading.Slots.{entry_length};

    /// Its words, 8 to 26.
    pub(crate) fn words(&self) -> u16
        ensures words { result ≡ entry_length (length self.now.name) }
        ensures least { 8 ≤ result }
        ensures most { result ≤ 26 }
    {
        entry_words(&self.name)
    }
}
