//! The laws of record writes that make moves of a model, and of turns, each of which makes moves and then shows its text.
//!
//! They hold of any meaning of moves. `Puts` is one: a move puts bytes in a stored file.

ghost use Rattle.pack_laws.specs.TurnLaws.{AcknowledgedAreDone, CallsAreTurns, CallsJoin, CrashOfRun, CrashOfTurns, FaultsLeaveAPrefix, RulerLaws, RunBreaksOff, RunsJoin, TurnsAreShown, TurnsJoin, WritesAreMade};
ghost use Rattle.pack_model.specs.sessions.Moves.{Meaning};
ghost use Rattle.pack_model.specs.operations.Puts.{Put, putting};
ghost use Rattle.pack_model.specs.reading.Stored.{StoredFiles};
ghost use Rattle.std.specs.Prelude.{ℕ};

/// A meaning of moves, of which the laws are stated. It has no functions.
pub trait Moves {
    /// The type of the models.
    ghost models: { Type 0 };

    /// The type of the moves.
    ghost moves: { Type 0 };

    /// The effect of a move, the model of a pack, what a pack stands for, and which write makes a move.
    ghost means: { Meaning models moves };

    /// The number of operations that a move is: 1 where it commits one, else 0.
    ghost weight: { moves → ℕ };
}

/// Puts of bytes: the model of a pack is its stored files, and each put is an operation.
pub struct Puts;

impl Moves for Puts {
    ghost models = { StoredFiles };

    ghost moves = { Put };

    ghost means = { putting };

    ghost weight = { λ put. 1 };
}

/// Two runs of record writes, the second from where the first ends, are one run.
pub fn runs_join<X: Moves>()
    ensures { RunsJoin X.means }
{}

/// A pack after a prefix of the writes of a run stands for the model after as many moves.
pub fn crash_of_run<X: Moves>()
    ensures { CrashOfRun X.means }
{}

/// A prefix of the record writes of a run makes a prefix of its moves.
pub fn run_breaks_off<X: Moves>()
    ensures { RunBreaksOff X.means }
{}

/// Where one call has made all its moves and the next goes on from there, the two are one call that is to make the moves of both.
pub fn calls_join<X: Moves, T, U, E, F>()
    ensures { CallsJoin T U E F X.means }
{}

/// A call that names its record writes leaves, at every error and every crash point, what a prefix of its moves makes.
pub fn faults_leave_a_prefix<X: Moves, T, E>()
    ensures { FaultsLeaveAPrefix T E X.means }
{}

/// Two runs of turns, the second from where the first ends, are one run.
pub fn turns_join<X: Moves>()
    ensures { TurnsJoin X.means }
{}

/// The shown bytes of some turns are their texts, there are as many record writes as moves, and the model left is the one after all
/// of them.
pub fn turns_are_shown<X: Moves>()
    ensures { TurnsAreShown X.means }
{}

/// A call that makes a turn's moves and another that shows its text are the turn; where the display failed all moves are made and a
/// prefix of the text is shown, and where the moves broke off nothing is.
pub fn calls_are_turns<X: Moves, T, E, F>()
    ensures { CallsAreTurns T E F X.means }
{}

/// Turns that stop at any crash point leave a pack that stands for the model after the moves so far, with every acknowledged operation in
/// it.
pub fn crash_of_turns<X: Moves>()
    ensures { CrashOfTurns X.weight X.means }
{}

/// The moves that the shown bytes acknowledge are the first ones of those that have been made, at every crash point.
pub fn acknowledged_are_done<X: Moves>()
    ensures { AcknowledgedAreDone X.means }
{}

/// Each record write of some turns makes the next one of their moves, and no other move is made.
pub fn writes_are_made<X: Moves>()
    ensures { WritesAreMade X.means }
{}

/// The number of operations done grows from 0 to all those of the turns: at each record write by the weight of the move that it
/// makes, and at no other event.
pub fn ruler_laws<X: Moves>()
    ensures { RulerLaws X.weight X.means }
{}
