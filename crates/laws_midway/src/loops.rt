//! What stays known of the sectors to come midway in a call's own loop.

ghost use Rattle.laws_midway.specs.LoopLaws.{CarriedIsApartFromFree, ClaimsLeaveCarriedPages, ClaimsLeaveOtherSectors, EachSectorStays, RelabelLeavesOtherSectors, ReleasesLeaveOtherSectors, ReleasesLeaveTheRest};

/// Releases leave each sector that isn't one of theirs.
pub fn releases_leave_other_sectors()
    ensures { ReleasesLeaveOtherSectors }
{}

/// Once the first pages of a row are released, the rest bear theirs still.
pub fn releases_leave_the_rest()
    ensures { ReleasesLeaveTheRest }
{}

/// Claims leave each sector that isn't one of theirs.
pub fn claims_leave_other_sectors()
    ensures { ClaimsLeaveOtherSectors }
{}

/// A sector that carries a page is none of free ones.
pub fn carried_is_apart_from_free()
    ensures { CarriedIsApartFromFree }
{}

/// A page is carried by its sector still after claims of free sectors.
pub fn claims_leave_carried_pages()
    ensures { ClaimsLeaveCarriedPages }
{}

/// Another label and a value leave each other sector.
pub fn relabel_leaves_other_sectors()
    ensures { RelabelLeavesOtherSectors }
{}

/// A pack with a sector for each address has one after any events.
pub fn each_sector_stays()
    ensures { EachSectorStays }
{}
