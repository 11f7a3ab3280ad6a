//! What a line needs of free sectors and of SysDir when it begins, so that each crash point of it can be scavenged.

ghost use Rattle.laws_line.specs.LineLaws.{ChangesLeaveRoom, DropLeavesRoom, NewFileLeavesRoom, ReadyHasRoom, RenameLeavesRoom, SoundIsSettled};

/// A ready model has room for its files, as the Scavenger will find them.
pub fn ready_has_room()
    ensures { ReadyHasRoom }
{}

/// A sound pack is read as a model in which SysDir is there with its slots, every file has a name, and the files have their pages.
pub fn sound_is_settled()
    ensures { SoundIsSettled }
{}

/// From a settled model puts within a file, growths, cuts, titles, dates and widenings leave a ready one after each, if there is room for
/// the pages that they add.
pub fn changes_leave_room()
    ensures { ChangesLeaveRoom }
{}

/// From a settled model a file that isn't a system file, and has no entries of its own, goes and leaves a ready one, with no page more.
pub fn drop_leaves_room()
    ensures { DropLeavesRoom }
{}

/// From a settled model a new file that is made, entered and changed leaves a ready one after each operation, if there is room for the
/// line's pages, with one for SysDir where it has no run of free words for the longest entry.
pub fn new_file_leaves_room()
    ensures { NewFileLeavesRoom }
{}

/// From a settled model a file that is renamed leaves a ready one after each operation, if there is room for the pages of the line, with
/// one for SysDir where it has no run of free words for the longest entry.
pub fn rename_leaves_room()
    ensures { RenameLeavesRoom }
{}
