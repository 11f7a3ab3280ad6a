//! What stays known of entries and of hints over an operation.

ghost use Rattle.laws_lookup.specs.StayLaws.{AddressMisledBefore, EntriesOfAnotherDirectoryStand, EntriesStandBesideAnOrdinaryFile, LinkMisledBefore, PagesOfAnotherFileStay, SlotsOfAnotherDirectoryStay, ValuesLeaveNextLinks, ValuesMisledBefore};

/// An operation on one file leaves the slots of every other directory.
pub fn slots_of_another_directory_stay()
    ensures { SlotsOfAnotherDirectoryStay }
{}

/// Before and after an operation on one file the same address words of another directory mean the same pages.
pub fn entries_of_another_directory_stand()
    ensures { EntriesOfAnotherDirectoryStand }
{}

/// Before and after an operation on a file that is no directory the same address words mean the same pages.
pub fn entries_stand_beside_an_ordinary_file()
    ensures { EntriesStandBesideAnOrdinaryFile }
{}

/// After an operation on one file the pages of every other are carried by the same sectors.
pub fn pages_of_another_file_stay()
    ensures { PagesOfAnotherFileStay }
{}

/// An entry's address that misleads after an operation on a file that isn't its directory misled before it.
pub fn address_misled_before()
    ensures { AddressMisledBefore }
{}

/// A next link that misleads after an operation on another file misled before it.
pub fn link_misled_before()
    ensures { LinkMisledBefore }
{}

/// A next link that misleads after values misled before them, on any pack.
pub fn values_leave_next_links()
    ensures { ValuesLeaveNextLinks }
{}

/// A hint that misleads after values of a file that is no directory misled before them.
pub fn values_misled_before()
    ensures { ValuesMisledBefore }
{}
