//! What is so after a line, as the next line needs it: every file has a name, and directories have their slots.

ghost use Rattle.laws_line.specs.AfterLaws.{DirectoriesAreRead, PrefixReady, NewDirectory, RootIsDirectory, SettledAfterChanges, SettledAfterDrop, SettledAfterNewFile, SettledAfterRename};

/// From a settled model with room for the pages that they add, puts within a file, growths, cuts, titles, dates and widenings leave a
/// settled one.
pub fn settled_after_changes()
    ensures { SettledAfterChanges }
{}

/// From a settled model a file that isn't a system file, and has no entries of its own, goes and leaves a settled one.
pub fn settled_after_drop()
    ensures { SettledAfterDrop }
{}

/// From a settled model with room for the pages that the line adds, a file that is made and entered in a directory of the model leaves a
/// settled one: its entry finds room.
pub fn settled_after_new_file()
    ensures { SettledAfterNewFile }
{}

/// From a settled model with room for the pages that the line adds, a file that is renamed into a directory of the model leaves a settled
/// one, with its new name.
pub fn settled_after_rename()
    ensures { SettledAfterRename }
{}

/// Any pack is read as a model whose directories are there with their slots.
pub fn directories_are_read()
    ensures { DirectoriesAreRead }
{}

/// SysDir is a directory of a model in which every file has a name.
pub fn root_is_directory()
    ensures { RootIsDirectory }
{}

/// A new file with a directory's full name is a directory after its line.
pub fn new_directory()
    ensures { NewDirectory }
{}

/// A line that keeps the model ready does so in each prefix.
pub fn prefix_ready()
    ensures { PrefixReady }
{}
