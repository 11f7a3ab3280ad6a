// Where a new entry goes.
ghost use Rattle.std.specs.Prelude.{◌+◌, ◌≤◌};
ghost use Rattle.directory.specs.Bounds.{most_words};

use crate::free_row::RoomWords;

/// The room for an entry, where it is in a directory.
#[derive(Clone, Copy, Debug, PartialEq, Eq)]
pub(crate) struct RoomFound {
    /// The place of its first word among the words of the directory.
    pub place: u32,
    /// How many words it has.
    pub words: RoomWords,
    pub ghost low: { place + words.total ≤ most_words },
    pub ghost some: { 1 ≤ words.total },
}
