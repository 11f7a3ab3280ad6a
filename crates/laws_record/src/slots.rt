//! The laws of slots: how far words are slots, when a reader knows the next one, and where an entry's room is.

ghost use Rattle.laws_record.specs.SlotLaws.{LengthIsRead, ReadsToTheEnd, EntryWritesBack, MoreAfter, NotYet, OneByOne, ReadsOn, FoundIsPlaced};

/// The longest prefix of words that slots fill to its end has as many words as they have together.
pub fn length_is_read()
    ensures { LengthIsRead }
{}

/// Words are slots to their end if and only if the slots that are read have as many words together.
pub fn reads_to_the_end()
    ensures { ReadsToTheEnd }
{}

/// An entry that was read is written as the words that it was read from, if with the address that stands there.
pub fn entry_writes_back()
    ensures { EntryWritesBack }
{}

/// The slot at the head of words is there whatever words follow them.
pub fn more_after()
    ensures { MoreAfter }
{}

/// Where no slot can be read at the head of words, one that can be with more words after them is longer than they are.
pub fn not_yet()
    ensures { NotYet }
{}

/// The slots of words are the first one, if it can be read, and the slots of the words after it.
pub fn one_by_one()
    ensures { OneByOne }
{}

/// After words that are slots to their end come the slots of the rest: of all these words they are the slots.
pub fn reads_on()
    ensures { ReadsOn }
{}

/// An item is placed among slots if and only if a room for its words is found, and where this room is: between the slots before it
/// and those after it, with a free slot of the words left over.
pub fn found_is_placed()
    ensures { FoundIsPlaced }
{}
