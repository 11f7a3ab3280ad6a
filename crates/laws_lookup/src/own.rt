//! What becomes of a directory's own slots in a leaving, an entering and a widening, and of the entries beside them.

ghost use Rattle.laws_lookup.specs.OwnLaws.{EnterReplacesSlots, EntryBesideStands, EntryStandsOutsideOfFreeSlots, FreeingReplacesSlots, LeaveReplacesSlots, ReplacingTurnsRound, WidenReplacesSlots};

/// Slots that are made one free slot stand in the place of those that they were, on any pack.
pub fn freeing_replaces_slots()
    ensures { FreeingReplacesSlots }
{}

/// A leaving puts one free slot in the place of its entry's, on any pack.
pub fn leave_replaces_slots()
    ensures { LeaveReplacesSlots }
{}

/// An entering puts an entry, and a free slot for the words left over, in the place of its room.
pub fn enter_replaces_slots()
    ensures { EnterReplacesSlots }
{}

/// A widening puts one free slot of 256 words after all slots.
pub fn widen_replaces_slots()
    ensures { WidenReplacesSlots }
{}

/// If slots come in the place of others from one pack to another, those come in the place of these from the second pack to the first.
pub fn replacing_turns_round()
    ensures { ReplacingTurnsRound }
{}

/// The address word of an entry outside of the slots that go is a hint still, for the same page.
pub fn entry_beside_stands()
    ensures { EntryBesideStands }
{}

/// The address word of each entry of a directory is a hint still, for the same page, if only free slots go.
pub fn entry_stands_outside_of_free_slots()
    ensures { EntryStandsOutsideOfFreeSlots }
{}
