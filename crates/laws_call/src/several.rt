//! Several operations that are done by calls one after another.

ghost use Rattle.laws_call.specs.SeveralLaws.{DoneMisledBefore, DoneStands};

/// After operations that are done from a whole and tidy pack, the pack is whole and tidy again, and read as the model after them.
pub fn done_stands<E>()
    ensures { DoneStands E }
{}

/// After operations that are done from a whole and tidy pack, each hint on the disk that misleads misled before the first of them.
pub fn done_misled_before<E>()
    ensures { DoneMisledBefore E }
{}
