//! From the tests that a line made, in their order, to what it is refused for.

ghost use Rattle.laws_session.specs.RefusedLaws.{RefusedByTests, RefusedForRoom, RefusedInOrder};

/// A line that is taken up is refused for the first of some tests that holds, whatever the others say; if none of these holds, for the
/// first of the others.
pub fn refused_in_order()
    ensures { RefusedInOrder }
{}

/// If a line is taken up, and of its other tests none holds, it is refused for the first of some tests that holds, or not at all.
pub fn refused_by_tests()
    ensures { RefusedByTests }
{}

/// If a line is taken up, and none of its tests before that of the room holds, it is refused for room, or not at all.
pub fn refused_for_room()
    ensures { RefusedForRoom }
{}
