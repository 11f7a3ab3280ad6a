//! The laws of record writes of a directory's words, on any pack.

ghost use Rattle.laws_record.specs.DirLaws.{CutAtSlots, EntryOfASystemFile, FreeSlotsMadeOne, LooseWords, SlotThatIsNotKept};
ghost use Rattle.laws_record.specs.QuietLaws.{ReadsSame};

/// Other words inside a free slot, and other addresses of entries: the pack is read as before.
pub fn loose_words_reads_same()
    ensures { LooseWords ReadsSame }
{}

/// Adjacent free slots are made one: the pack is viewed as before.
pub fn free_slots_made_one()
    ensures { FreeSlotsMadeOne }
{}

/// The slot of an entry that isn't kept is made free: the pack is read as before.
pub fn slot_that_is_not_kept()
    ensures { SlotThatIsNotKept }
{}

/// The entry of a system file is entered in free words: the pack is viewed as before.
pub fn entry_of_a_system_file()
    ensures { EntryOfASystemFile }
{}

/// A directory's last page counts fewer bytes, so that its bytes end with its slots: the pack is read as before.
pub fn cut_at_slots_reads_same()
    ensures { CutAtSlots ReadsSame }
{}
