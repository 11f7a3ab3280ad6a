// An entry that was met.
ghost use Rattle.std.specs.Prelude.{◌<◌};
ghost use Rattle.directory.specs.Bounds.{most_words};

use alto_words::{Fid, Name};

/// An entry of a directory, where it stands.
#[derive(Clone, Copy, Debug, PartialEq, Eq)]
pub(crate) struct EntryFound {
    /// Its file.
    pub fid: Fid,
    /// The name that it has.
    pub name: Name,
    /// The place of its slot's first word among the words of the directory.
    pub place: u32,
    /// The virtual address of its file's leader: a hint.
    pub leader_at: u16,
    pub ghost low: { place < most_words },
}
