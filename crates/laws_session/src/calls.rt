//! The calls of a session one after another, and true hints from its beginning to its end.

ghost use Rattle.laws_session.specs.CallLaws.{AnswersNameAFailedHint, CallsKeep, CallsKeepNeed, HintsStayTrue, RefusalsNameNoHint, SessionsEndWithTrueHints, TrueHintsFailNoCall};

/// What is kept is right after each call that answers, until the session is over.
pub fn calls_keep()
    ensures { CallsKeep }
{}

/// Links and the table that are true as a session begins are true after each call that answers; once it is over all hints are true, where
/// no scavenge is needed.
pub fn hints_stay_true()
    ensures { HintsStayTrue }
{}

/// If no turn fails over calls that answer, one after another, no scavenge is needed after them, where none was before.
pub fn calls_keep_need()
    ensures { CallsKeepNeed }
{}

/// If links and the table are true as a session begins that needs no scavenge, no turn fails over calls that answer, one after another, on
/// packs with full values.
pub fn true_hints_fail_no_call()
    ensures { TrueHintsFailNoCall }
{}

/// A session that begins on a pack whose hints are all true, and in which no turn fails, leaves a pack whose hints are all true.
pub fn sessions_end_with_true_hints()
    ensures { SessionsEndWithTrueHints }
{}

/// No line is refused by the model for a hint.
pub fn refusals_name_no_hint()
    ensures { RefusalsNameNoHint }
{}

/// Over calls that answer, an answer that names a hint is that of a turn that failed: the hint misled, and a scavenge is needed then.
pub fn answers_name_a_failed_hint()
    ensures { AnswersNameAFailedHint }
{}
