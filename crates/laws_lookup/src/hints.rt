//! Hints that mislead, and hints that never do.

ghost use Rattle.laws_lookup.specs.HintLaws.{HeldAddressNeverMisleads, HintMisledBefore, HintNamesOneSector, LabelOfAnotherPageMisleads, LinkMeansTheNextPage, NoSectorMisleads, PlaceMeansOnePage, RootNeverMisleads, TrueHintsNeverMislead};

/// On a whole and tidy pack with true links and full values no entry's address and no next link misleads.
pub fn true_hints_never_mislead()
    ensures { TrueHintsNeverMislead }
{}

/// On a whole pack the fixed address of SysDir's leader never misleads.
pub fn root_never_misleads()
    ensures { RootNeverMisleads }
{}

/// An address that was checked never misleads while its sector carries the page.
pub fn held_address_never_misleads()
    ensures { HeldAddressNeverMisleads }
{}

/// A hint word names one sector at most: a link, as a real address, is that of one virtual one.
pub fn hint_names_one_sector()
    ensures { HintNamesOneSector }
{}

/// A hint word whose sector doesn't carry the page that is wanted misleads, and what is found is the label there.
pub fn label_of_another_page_misleads()
    ensures { LabelOfAnotherPageMisleads }
{}

/// A hint word that names no usable sector misleads, and nothing is found.
pub fn no_sector_misleads()
    ensures { NoSectorMisleads }
{}

/// The next link of a leader, or of a page of 512 bytes, means the page after it.
pub fn link_means_the_next_page()
    ensures { LinkMeansTheNextPage }
{}

/// A hint that misleads after some record writes misled before them, where it stood then and each sector that carried the page that is
/// wanted carries it still.
pub fn hint_misled_before()
    ensures { HintMisledBefore }
{}

/// A hint word on the disk is one word, and means one page.
pub fn place_means_one_page()
    ensures { PlaceMeansOnePage }
{}
