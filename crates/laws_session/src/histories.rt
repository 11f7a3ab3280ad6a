//! Histories as turns one after another, and their crash points.

ghost use Rattle.laws_session.specs.HistoryLaws.{CrashesOfAHistory, CrashesShowTheRuledModel, HistoriesAreShown, HistoriesAreTurns, SettledOnceIsSettled, TallyOfAHistory};

/// A history that shows its texts is turns one after another, also if the last one broke off.
pub fn histories_are_turns()
    ensures { HistoriesAreTurns }
{}

/// The shown bytes of a history are the texts of its turns, and it has as many record writes as moves.
pub fn histories_are_shown()
    ensures { HistoriesAreShown }
{}

/// Each crash point of a history stands for the model after as many moves, can be mended, and has every acknowledged operation.
pub fn crashes_of_a_history()
    ensures { CrashesOfAHistory }
{}

/// Each crash point of a history shows the model after as many operations as the ruler says there.
pub fn crashes_show_the_ruled_model()
    ensures { CrashesShowTheRuledModel }
{}

/// Settling again what is settled changes nothing.
pub fn settled_once_is_settled()
    ensures { SettledOnceIsSettled }
{}

/// The tally of a history, on a machine that had no record write, is the number of its operations, and the ruler at the limit.
pub fn tally_of_a_history()
    ensures { TallyOfAHistory }
{}
