//! Worlds with a memory: the zone of a world in the words that a session keeps.

ghost use Rattle.laws_session.specs.ZoneLaws.{FreshWorldsHaveAMemory, KeptWorldsHaveAMemory, LinesLeaveAMemory, LoadedWorldsHaveAMemory, WorldsAreKept};

/// A session that keeps the words of a world whose blocks fill its zone, and the rest of it, keeps that world.
pub fn worlds_are_kept()
    ensures { WorldsAreKept }
{}

/// A world that is kept with a memory of its level has the user's words and blocks that fill its zone.
pub fn kept_worlds_have_a_memory()
    ensures { KeptWorldsHaveAMemory }
{}

/// The world of a session as it begins has the user's words and blocks that fill its zone.
pub fn fresh_worlds_have_a_memory()
    ensures { FreshWorldsHaveAMemory }
{}

/// The world that a file of a whole world holds has the user's words and blocks that fill its zone, whatever message it finds.
pub fn loaded_worlds_have_a_memory()
    ensures { LoadedWorldsHaveAMemory }
{}

/// The world after any line has the user's words and blocks that fill its zone, where the world before it had.
pub fn lines_leave_a_memory()
    ensures { LinesLeaveAMemory }
{}
