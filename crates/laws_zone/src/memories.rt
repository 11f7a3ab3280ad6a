//! A memory with a zone, and the words of its blocks.

ghost use Rattle.laws_zone.specs.MemoryLaws.{MemoriesAreTheirBlocks, MemoriesHaveSuchZones, ZonesReadBack};

/// The zone of each memory is of even blocks that fill it, and of which no free one follows a free one; before it are the user's words.
pub fn memories_have_such_zones()
    ensures { MemoriesHaveSuchZones }
{}

/// Blocks of even sizes that fill the zone, and of which no free one follows a free one, are read back from their words, which are a memory
/// with the user's before and zeros after them.
pub fn zones_read_back()
    ensures { ZonesReadBack }
{}

/// A memory with a zone is its user's words, those of its blocks, and zeros.
pub fn memories_are_their_blocks()
    ensures { MemoriesAreTheirBlocks }
{}
