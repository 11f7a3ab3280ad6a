//! Record writes of directories when entries are entered, on any pack: what a scavenge keeps, where sector 1 may still become SysDir's
//! leader, and which entries are lacking then.

ghost use Rattle.laws_room.specs.NextLaws.{FreeSlotsMadeOneKeeps, MoreRoomKeeps, NextEntryKeeps, SlotThatIsNotKeptKeeps};

/// On any pack making free the slot of an entry that isn't kept, both system files taken for living, keeps what a scavenge keeps.
pub fn slot_that_is_not_kept_keeps()
    ensures { SlotThatIsNotKeptKeeps }
{}

/// On any pack the next entry that is lacking, in its room in SysDir, keeps what a scavenge keeps, if it may be entered; then the others
/// are lacking.
pub fn next_entry_keeps()
    ensures { NextEntryKeeps }
{}

/// On any pack making free slots of SysDir one keeps what a scavenge keeps, if the next entry that is lacking is placed as before; then the
/// same entries are lacking.
pub fn free_slots_made_one_keeps()
    ensures { FreeSlotsMadeOneKeeps }
{}

/// On any pack a free slot of 256 words more for SysDir, where the next entry that is lacking has no room, keeps what a scavenge keeps;
/// then the same entries are lacking.
pub fn more_room_keeps()
    ensures { MoreRoomKeeps }
{}
