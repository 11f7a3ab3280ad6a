//! Entries and names of directories.
//!
//! An entry is apart where it clashes with none: no entry has its file, and none its name in its directory. It is one of three things
//! that entering asks for (`apart` of `MayEnter`); the others are that the file lives and that the entry fits.

ghost use Rattle.laws_operation.specs.EntryLaws.{BytesLeadersAndWideningsKeepEntries, EntriesNameLivingFiles, ItemsAreSlots, ReadEntriesAreKept};

/// On a tidy pack the slots of a living directory in the model are those of the directory's words.
pub fn items_are_slots()
    ensures { ItemsAreSlots }
{}

/// All entries of what any pack is read as are kept.
pub fn read_entries_are_kept()
    ensures { ReadEntriesAreKept }
{}

/// On any pack no entry of the model has a file that doesn't live.
pub fn entries_name_living_files()
    ensures { EntriesNameLivingFiles }
{}

/// On any model a put, a growth, a cut, a title, a stamp and a widening leave all entries.
pub fn bytes_leaders_and_widenings_keep_entries()
    ensures { BytesLeadersAndWideningsKeepEntries }
{}
