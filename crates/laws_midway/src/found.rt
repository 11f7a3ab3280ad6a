//! What a caller knows of an entry that it looked up, and of its file.

ghost use Rattle.laws_midway.specs.FoundLaws.{EntriesStandApart, EntryNamesALivingFile, FoundEntryMayGo, FoundFileHasItsName, FoundFileIsEntered, FoundFileLives, NameIsItsOwn};

/// On any pack each entry of the model names a living file.
pub fn entry_names_a_living_file()
    ensures { EntryNamesALivingFile }
{}

/// On a whole and tidy pack a file that was found lives.
pub fn found_file_lives()
    ensures { FoundFileLives }
{}

/// On a tidy pack the entry that is meant is the first of its directory with its name.
pub fn found_file_is_entered()
    ensures { FoundFileIsEntered }
{}

/// On a tidy pack the file of the entry that is meant has the entry's name in the model (`HasName`).
pub fn found_file_has_its_name()
    ensures { FoundFileHasItsName }
{}

/// On any pack the entry that is meant in a living directory, and the sector of its slot's first word, are what a leaving and the last
/// value of a drop want (`HasEntry`).
pub fn found_entry_may_go()
    ensures { FoundEntryMayGo }
{}

/// The address word of an entry is none of the words of another file's slot.
pub fn entries_stand_apart()
    ensures { EntriesStandApart }
{}

/// Each name is the same as itself, in whatever case.
pub fn name_is_its_own()
    ensures { NameIsItsOwn }
{}
