//! The entry that an operand means, by the slots of a directory that are met one at a time.

ghost use Rattle.laws_lookup.specs.SlotLaws.{AbsentNameIsOpen, EntryAtIsASlot, EntryAtIsTheEntryWanted, FoundEntryHasTheName, FoundEntrySplitsTheSlots, FoundEntryStands, GreatestIsTheModels, HeldAtIsHeld, HeldGoesOn, HeldIsTheModels, LookupGoesOn, LookupIsTheModels, VersionMetIsTheGreatest, WalkBegins, WalkEnds, WalkGoesOn};

/// A walk that has met no slot begins at word 0.
pub fn walk_begins()
    ensures { WalkBegins }
{}

/// A walk goes on by each slot that can be read at its place.
pub fn walk_goes_on()
    ensures { WalkGoesOn }
{}

/// A walk has met all slots where none can be read.
pub fn walk_ends()
    ensures { WalkEnds }
{}

/// The entry that is meant among one slot more follows from the one meant among those before it.
pub fn lookup_goes_on()
    ensures { LookupGoesOn }
{}

/// A base is held among one slot more if it was among those before it, or this one holds it.
pub fn held_goes_on()
    ensures { HeldGoesOn }
{}

/// The entry that is meant, without its place and its address, is the one that is wanted among the items.
pub fn entry_at_is_the_entry_wanted()
    ensures { EntryAtIsTheEntryWanted }
{}

/// A base is held among slots where they stand if and only if it is among the items.
pub fn held_at_is_held()
    ensures { HeldAtIsHeld }
{}

/// On a tidy pack the entry that is meant in a living directory is the one that is wanted in the model.
pub fn lookup_is_the_models()
    ensures { LookupIsTheModels }
{}

/// On a tidy pack the bases that are held in a living directory are those that are held in the model.
pub fn held_is_the_models()
    ensures { HeldIsTheModels }
{}

/// The version of the entry that is meant by a base is the greatest of the base among the items, 0 if no entry has it.
pub fn version_met_is_the_greatest()
    ensures { VersionMetIsTheGreatest }
{}

/// On a tidy pack the version of the entry that is meant by a base in a living directory is the greatest of the base in the model, 0 if no
/// entry has it.
pub fn greatest_is_the_models()
    ensures { GreatestIsTheModels }
{}

/// The entry that is meant stands in one of the slots.
pub fn entry_at_is_a_slot()
    ensures { EntryAtIsASlot }
{}

/// The address word of an entry that was found is a hint, which means the leader of its file.
pub fn found_entry_stands()
    ensures { FoundEntryStands }
{}

/// An entry that was found parts the slots: its place is the words of those before it, its address a word of the directory.
pub fn found_entry_splits_the_slots()
    ensures { FoundEntrySplitsTheSlots }
{}

/// An entry that was found has the name, or the base, that was wanted.
pub fn found_entry_has_the_name()
    ensures { FoundEntryHasTheName }
{}

/// A name that no entry of a directory has is open to every file.
pub fn absent_name_is_open()
    ensures { AbsentNameIsOpen }
{}
