//! Files that were found: they stay found, and a leader that isn't there shows that the hint misleads.

ghost use Rattle.laws_lookup.specs.SourceLaws.{FoundFileStaysFound, FoundFileStaysFoundBesideSlots, LeaderThatIsNotThereMisleads, LookedUpFileIsFound};

/// A file is found by the address word of an entry that was looked up.
pub fn looked_up_file_is_found()
    ensures { LookedUpFileIsFound }
{}

/// If the sector with the address that a file was found by doesn't carry its leader, the hint misleads, and what is found is the label
/// there.
pub fn leader_that_is_not_there_misleads()
    ensures { LeaderThatIsNotThereMisleads }
{}

/// A file that was found stays found over an operation on another file, or on itself if its leader stays in its place.
pub fn found_file_stays_found()
    ensures { FoundFileStaysFound }
{}

/// A file that was found stays found while slots of a directory come in the place of others that don't have its entry.
pub fn found_file_stays_found_beside_slots()
    ensures { FoundFileStaysFoundBesideSlots }
{}
