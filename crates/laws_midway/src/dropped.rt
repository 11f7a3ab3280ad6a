//! All other files after a whole drop.

ghost use Rattle.laws_midway.specs.DroppedLaws.{DropLeavesOthers};

/// On a whole and tidy pack a drop, its releases and then the slot of its entry, leaves all files except the one that goes and its entry's
/// directory, whose pages stay in their places.
pub fn drop_leaves_others()
    ensures { DropLeavesOthers }
{}
