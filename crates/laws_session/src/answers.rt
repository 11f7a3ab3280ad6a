//! The answer of a call on a session, and then its text, as a turn.

ghost use Rattle.laws_session.specs.AnswerLaws.{AnswersAreTurns, CallBreaksOff, TextBreaksOff, TextMakesATurn};

/// A turn that is made is whole once its text is shown, in whichever way a session shows its texts.
pub fn text_makes_a_turn()
    ensures { TextMakesATurn }
{}

/// A turn that is made and whose text is shown in part broke off.
pub fn text_breaks_off()
    ensures { TextBreaksOff }
{}

/// A call that ends with a fault or out of memory after a prefix of its turn's record writes is a turn that broke off.
pub fn call_breaks_off()
    ensures { CallBreaksOff }
{}

/// An answer with a text is a whole turn once the text is shown, and broke off if a prefix is; an answer without one broke off.
pub fn answers_are_turns()
    ensures { AnswersAreTurns }
{}
