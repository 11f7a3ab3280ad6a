//! The record writes of a mending of names, each a value of one page of a directory: what they keep and what they leave.

ghost use Rattle.laws_names.specs.WriteLaws.{AddressIsWritten, LooseWordsLeave, NextEntryIsEntered, RoomIsFound, RoomIsMadeOne, RoomWordsLeave, StandingWordsWriteNothing, UnkeptSlotIsFreed, WrittenWordsStand};

/// On a pack whose pages are mended the first word by which the slot of an entry that isn't kept is a free one keeps what a mending of
/// names keeps; the pack is read and found as before.
pub fn unkept_slot_is_freed()
    ensures { UnkeptSlotIsFreed }
{}

/// On a pack whose pages are mended other words inside free slots, and other addresses of entries, keep what a mending of names keeps; the
/// pack is read and found as before, with the same slots.
pub fn loose_words_leave()
    ensures { LooseWordsLeave }
{}

/// The room that is found for an entry stands among the slots: those before it, its own free ones, and those after it.
pub fn room_is_found()
    ensures { RoomIsFound }
{}

/// On a tidy pack whose pages are mended the word that makes the free slots of the next entry's room one keeps what a mending of names
/// keeps; it is its room again, and the same are lacking.
pub fn room_is_made_one()
    ensures { RoomIsMadeOne }
{}

/// On a pack whose pages are mended words of a free slot after its first one keep what a mending of names keeps; the pack is read and found
/// as before, and all entries stand where they stood.
pub fn room_words_leave()
    ensures { RoomWordsLeave }
{}

/// On a tidy pack whose pages are mended the first words of the next entry, whose others stand in the next page, keep what a mending of
/// names keeps; it stands with a true address, the others are lacking, and the pack is tidy.
pub fn next_entry_is_entered()
    ensures { NextEntryIsEntered }
{}

/// On a pack whose pages are mended another address in an entry keeps what a mending of names keeps; the pack is read and found as before,
/// and every other slot has its own address.
pub fn address_is_written()
    ensures { AddressIsWritten }
{}

/// Words of a directory that were written stand there.
pub fn written_words_stand()
    ensures { WrittenWordsStand }
{}

/// Words that stand in a sector's value already change nothing.
pub fn standing_words_write_nothing()
    ensures { StandingWordsWriteNothing }
{}
