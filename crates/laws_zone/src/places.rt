//! Blocks in the place of others in the words of a memory, and a zone that ends elsewhere.

ghost use Rattle.laws_zone.specs.PlaceLaws.{OnlyTheZoneChanges, OtherBlocksStandInPlace, ZonesGrow, ZonesShrink};

/// A memory that has these blocks then, and the user's words as they were, is the old one with the words of the blocks in its zone.
pub fn only_the_zone_changes()
    ensures { OnlyTheZoneChanges }
{}

/// The words of other blocks in the place of some, where all then fill the zone, leave the blocks before and after them and the user's words.
pub fn other_blocks_stand_in_place()
    ensures { OtherBlocksStandInPlace }
{}

/// A free block from the last one of the zone up to a later end makes the zone the longer one, of which the words between have joined it.
pub fn zones_grow()
    ensures { ZonesGrow }
{}

/// The last free block, cut at an earlier end past which no used block stands, with zeros after it makes the zone the shorter one.
pub fn zones_shrink()
    ensures { ZonesShrink }
{}
