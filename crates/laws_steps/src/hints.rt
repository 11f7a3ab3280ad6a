//! Hints on the disk: which files they mean, and one hint over the record writes of a part of a line.

ghost use Rattle.laws_steps.specs.HintLaws.{NoHintMeansAnAbsentFile, OneLaterAnswerMisledBefore, OneLaterMisledBefore, ReleasedAnswerMisledBefore, ReleasedOthersMisledBefore};

/// On a whole and tidy pack each hint on the disk means a page of a file that lives: none means a file that is to be made.
pub fn no_hint_means_an_absent_file()
    ensures { NoHintMeansAnAbsentFile }
{}

/// One hint misled before two lists of record writes, if it did so over each of them.
pub fn one_later_misled_before()
    ensures { OneLaterMisledBefore }
{}

/// A later call of a line that answers that a hint misled answers so for the line, if this hint misled before the earlier calls.
pub fn one_later_answer_misled_before()
    ensures { OneLaterAnswerMisledBefore }
{}

/// After the releases of a drop each hint for another file that misleads misled as the line began.
pub fn released_others_misled_before()
    ensures { ReleasedOthersMisledBefore }
{}

/// Between the two calls of a drop an answer that a hint for another file misled, as of the directory with the entry, is one for the line.
pub fn released_answer_misled_before()
    ensures { ReleasedAnswerMisledBefore }
{}
