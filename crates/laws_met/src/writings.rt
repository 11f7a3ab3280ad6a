//! The premises of calls are met: all record writes of an operation, as calls name them; a drop by two calls; values of 256 words; a cache
//! that lists a new file.

ghost use Rattle.laws_met.specs.Crowded.{EnteringOverAPagesEndIsWritten};
ghost use Rattle.laws_met.specs.Naming.{FreeingIsMet, NamingIsMet};
ghost use Rattle.laws_met.specs.Dropping.{DropByTwoCallsIsMet, HeldFileStaysFound};
ghost use Rattle.laws_met.specs.Writings.{MakeIsWritten, NewPagesAreListed, ValuesAreFull, WritingsAreMet};

/// On the small pack with files and a directory each operation on a file or a directory that is there has its record writes as calls name
/// them: bytes put in place, also with a word past the file's end, and another date.
pub fn writings_are_met()
    ensures { WritingsAreMet }
{}

/// After its new serial a make has its record writes as calls name them.
pub fn make_is_written()
    ensures { MakeIsWritten }
{}

/// On a small whole pack whose SysDir has two pages an entry may come that goes over the end of the first, into two free slots that are
/// joined: its record writes, as calls name them, are three values.
pub fn entering_over_a_pages_end_is_written()
    ensures { EnteringOverAPagesEndIsWritten }
{}

/// On the small pack each sector has records as those of a disk, so that each page has a value of 256 words.
pub fn values_are_full()
    ensures { ValuesAreFull }
{}

/// A cache that lists both pages of a new file meets what the law of its hints asks for, and they are handy once it is made.
pub fn new_pages_are_listed()
    ensures { NewPagesAreListed }
{}

/// On the small pack a file goes by two calls, which are one drop, and between which its entry stands.
pub fn drop_by_two_calls_is_met<T, E>()
    ensures { DropByTwoCallsIsMet T E }
{}

/// On the small pack a file that was found by a held address is found by it after its own entry left.
pub fn held_file_stays_found()
    ensures { HeldFileStaysFound }
{}

/// On the small pack whose SysDir has two pages the entry of a file without one is lacking, and comes by three values, each of which meets
/// what its law asks for.
pub fn naming_is_met()
    ensures { NamingIsMet }
{}

/// On the same pack, where two entries name one file, the second isn't kept, and the first word of its slot meets what its law asks for.
pub fn freeing_is_met()
    ensures { FreeingIsMet }
{}
