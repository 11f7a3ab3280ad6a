//! Closing, and the hints after it.
//!
//! Closing with any map, true or not.

ghost use Rattle.laws_hint.specs.ClosingLaws.{ClosingLeavesACleanPack, ClosingLeavesHintsTrue};
ghost use Rattle.laws_hint.specs.MapClosing.{ClosedMapIsReadBack, ClosedMapIsTrueWhereItWas, ClosingDescribesItsMap};

/// On a whole and tidy pack where all links are true and the mark isn't clean, closing with the true map leaves all hints true, the pack
/// clean, and sound if it was.
pub fn closing_leaves_hints_true()
    ensures { ClosingLeavesHintsTrue }
{}

/// Where the mark is clean closing writes nothing.
pub fn closing_leaves_a_clean_pack()
    ensures { ClosingLeavesACleanPack }
{}

/// Closing a whole and tidy pack whose mark isn't clean, with any map, leaves a DiskDescriptor with the map's words, the number of its
/// bits that aren't busy, the last serial and the clean mark.
pub fn closing_describes_its_map()
    ensures { ClosingDescribesItsMap }
{}

/// After closing a whole and tidy pack whose mark isn't clean, with a map that has a bit for each sector, the map that DiskDescriptor
/// says is that one.
pub fn closed_map_is_read_back()
    ensures { ClosedMapIsReadBack }
{}

/// On a whole and tidy pack with a sector for each address, whose mark isn't clean, closing with a map that has a bit for each sector
/// leaves DiskDescriptor's map true if and only if that map was the true one before.
pub fn closed_map_is_true_where_it_was()
    ensures { ClosedMapIsTrueWhereItWas }
{}
