//! How a line that wrote nothing is a turn: each law is what a function of its name ensures. The functions do nothing.
ghost use Rattle.exec_session.specs.Turned.{LineIsRefused, LineLeavesAnotherWorld, LineStopsUnwritten, LineWritesNothing, TurnedIsATurn};

/// What a line owes as a turn, with its bound on sector commands, is the turn.
pub fn turned_is_a_turn()
    ensures { TurnedIsATurn }
{}

/// A line that writes nothing, since it is refused or only reads, is answered by its plain reply.
pub fn line_writes_nothing()
    ensures { LineWritesNothing }
{}

/// A line that writes nothing and leaves the world that the model has after it is answered by its plain reply.
pub fn line_leaves_another_world()
    ensures { LineLeavesAnotherWorld }
{}

/// A line that the model refuses is answered by its refusal.
pub fn line_is_refused()
    ensures { LineIsRefused }
{}

/// A line that stopped before it wrote anything is answered by a fault, by out of memory, or by a hint that misled.
pub fn line_stops_unwritten()
    ensures { LineStopsUnwritten }
{}
