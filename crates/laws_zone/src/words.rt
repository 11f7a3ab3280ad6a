//! Words that may be stored to, in the memory.

ghost use Rattle.laws_zone.specs.WordLaws.{BlockWordsAreStored, StorableWordsAreRead, StoresInsideLeaveAMemory, UserWordsAreStored};

/// The word that may be stored to is the word of the memory at its address.
pub fn storable_words_are_read()
    ensures { StorableWordsAreRead }
{}

/// Another word in the place of one of a used block is another in that block; the other blocks and the user's words stay.
pub fn block_words_are_stored()
    ensures { BlockWordsAreStored }
{}

/// Another word in the place of one of the user's leaves the zone and the user's other words.
pub fn user_words_are_stored()
    ensures { UserWordsAreStored }
{}

/// Another word in the place of any that may be stored to leaves a memory with a zone.
pub fn stores_inside_leave_a_memory()
    ensures { StoresInsideLeaveAMemory }
{}
