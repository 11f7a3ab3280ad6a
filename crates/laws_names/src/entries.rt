//! Entries that stand where they stood while names are mended, and those that come with a true address.

ghost use Rattle.laws_names.specs.EntriesLaws.{EntriesStayOn, LeadersAreListed, NamesAreMended, NewSlotsKeepEntries, NothingKeepsEntries, SlotSplits, WideningKeepsEntries};

/// On a pack to which nothing is written all entries stand.
pub fn nothing_keeps_entries()
    ensures { NothingKeepsEntries }
{}

/// Entries that stand from a first pack to a second, and from that to a third, stand from the first to the third.
pub fn entries_stay_on()
    ensures { EntriesStayOn }
{}

/// If of one directory's slots free ones alone go, and entries with true addresses come in their place, all entries stand.
pub fn new_slots_keep_entries()
    ensures { NewSlotsKeepEntries }
{}

/// If a directory gets a page more, all entries stand.
pub fn widening_keeps_entries()
    ensures { WideningKeepsEntries }
{}

/// A slot of a directory stands among the slots, after those before it, where their words end.
pub fn slot_splits()
    ensures { SlotSplits }
{}

/// Packs with the same leaders have the same living files in the same order.
pub fn leaders_are_listed()
    ensures { LeadersAreListed }
{}

/// Names are mended if pages are, each entry is kept, each living file has one and every address is true.
pub fn names_are_mended()
    ensures { NamesAreMended }
{}
