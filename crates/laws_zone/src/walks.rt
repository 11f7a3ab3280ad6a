//! A walk over the blocks of a zone, by the tags in the words of the memory.

ghost use Rattle.laws_zone.specs.WalkLaws.{WalksBegin, WalksGoOn, WalksMeetABlock, WalksPassAll};

/// At the start of the zone a walk has passed no block, and all are ahead of it.
pub fn walks_begin()
    ensures { WalksBegin }
{}

/// Before the end of the zone a block is ahead, whose tag stands there and says its size and whether it is free; it ends within the zone.
pub fn walks_meet_a_block()
    ensures { WalksMeetABlock }
{}

/// After the words of the block ahead a walk has passed it, too.
pub fn walks_go_on()
    ensures { WalksGoOn }
{}

/// At the end of the zone no block is ahead, and all are passed.
pub fn walks_pass_all()
    ensures { WalksPassAll }
{}
