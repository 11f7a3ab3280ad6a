//! The laws of tallies: how many operations took effect, by the moves that were made and the machine's count of record writes.

ghost use Rattle.pack_laws.specs.TallyLaws.{CountTellsWhatWasWritten, OneCommitIsCounted, QuietMovesAreNotCounted, TalliesJoin, TalliesOfTurnsJoin, TallyByTheCount, TallyInNumbers, TallyIsTheRuler};
ghost use Rattle.pack_model.specs.sessions.Meanings.{session};

/// Moves and then more of them are counted one after another, also where only a prefix of the later was made.
pub fn tallies_join()
    ensures { TalliesJoin }
{}

/// Turns and then more of them are counted one after another.
pub fn tallies_of_turns_join()
    ensures { TalliesOfTurnsJoin }
{}

/// Moves that are no operations leave the tally as it is.
pub fn quiet_moves_are_not_counted()
    ensures { QuietMovesAreNotCounted }
{}

/// An operation of which a prefix of its record writes was made is counted if and only if the one that commits it is among them.
pub fn one_commit_is_counted()
    ensures { OneCommitIsCounted }
{}

/// A tally has risen by the number of operations, and by those among the machine's first `limit` record writes.
pub fn tally_in_numbers()
    ensures { TallyInNumbers }
{}

/// A machine's count of record writes, which stands still at its end, may stand for their number where a tally is told in numbers.
pub fn tally_by_the_count()
    ensures { TallyByTheCount }
{}

/// A modelled machine's count says whether the nth record write of a call was made, unless it stands at its end.
pub fn count_tells_what_was_written()
    ensures { CountTellsWhatWasWritten }
{}

/// Over the turns of a session on a machine that had no record write, the tally is the number of their operations, and the ruler at
/// the place of the limit.
pub fn tally_is_the_ruler()
    ensures { TallyIsTheRuler session }
{}
