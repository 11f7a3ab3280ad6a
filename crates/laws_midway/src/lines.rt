//! Hints in the middle of a line.

ghost use Rattle.laws_midway.specs.LineHintLaws.{LaterAnswerMisledBefore, LaterMisledBefore};

/// Each hint that misleads after two lists of record writes misled before both, if it did so over each of them.
pub fn later_misled_before()
    ensures { LaterMisledBefore }
{}

/// A later call of a line that answers that a hint misled answers so for the line as a whole.
pub fn later_answer_misled_before()
    ensures { LaterAnswerMisledBefore }
{}
