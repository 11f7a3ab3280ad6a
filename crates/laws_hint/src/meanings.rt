//! What it is for a table of busy bits to be true.
//!
//! In page_alloc's term a table is true where it is busy exactly at the sectors that aren't free: sector 0 and bad sectors are busy,
//! whatever their labels say. The true map of pack_model is busy exactly at the sectors that aren't available.

ghost use Rattle.laws_hint.specs.MapMeanings.{FreeSectorsAreAvailable, FreeTableIsTrue, OnlyFreeTableIsCompleteAndTrue, TrueTableIsFreeTable, WholePackHasOneKindOfTrueTable};

/// On any pack the map of the free sectors alone is true in page_alloc's term: busy exactly at the sectors that aren't free.
pub fn free_table_is_true()
    ensures { FreeTableIsTrue }
{}

/// On a pack with a sector for each address a table with a bit for each sector is true in page_alloc's term if and only if it is the map
/// of the free sectors.
pub fn only_free_table_is_complete_and_true()
    ensures { OnlyFreeTableIsCompleteAndTrue }
{}

/// On any pack what is free in the map of the free sectors is free in the true map too.
pub fn free_sectors_are_available()
    ensures { FreeSectorsAreAvailable }
{}

/// On a whole pack the true map, which is busy at what isn't available, is the map of the free sectors.
pub fn true_table_is_free_table()
    ensures { TrueTableIsFreeTable }
{}

/// On a whole pack with a sector for each address a table with a bit for each sector is busy exactly at the sectors that aren't free,
/// as page_alloc calls it true, if and only if it is the true map.
pub fn whole_pack_has_one_kind_of_true_table()
    ensures { WholePackHasOneKindOfTrueTable }
{}
