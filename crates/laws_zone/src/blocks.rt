//! The blocks of a zone, as one is taken or given back, or a word of one is another.

ghost use Rattle.laws_zone.specs.BlockLaws.{FreedBlocksJoin, GivenBackFillsTheZone, TakenFillsTheZone, WordFillsTheZone};

/// After a block is taken the blocks fill the same zone.
pub fn taken_fills_the_zone()
    ensures { TakenFillsTheZone }
{}

/// After a block is given back the blocks fill the same zone, and adjacent free ones are joined.
pub fn given_back_fills_the_zone()
    ensures { GivenBackFillsTheZone }
{}

/// Blocks of which a word is another fill the same zone.
pub fn word_fills_the_zone()
    ensures { WordFillsTheZone }
{}

/// A used block of a zone that becomes free is one with the free blocks beside it, and no other block changes.
pub fn freed_blocks_join()
    ensures { FreedBlocksJoin }
{}
