//! Handy hints stay handy over the operations of a session.

ghost use Rattle.laws_hint.specs.HandyLaws.{HandyAfterCut, HandyAfterGrowth, HandyAfterLeaderValue, HandyAfterValues, HandyAfterWidening, HandyOfOthers, HandyWherePagesCome, HandyWherePagesStayOrGo};

/// Hints of a file are handy still if each of its pages stays where it is or goes, and the words of its leader stay.
pub fn handy_where_pages_stay_or_go()
    ensures { HandyWherePagesStayOrGo }
{}

/// Values that aren't written into a file's leader leave its hints handy.
pub fn handy_after_values()
    ensures { HandyAfterValues }
{}

/// A value of a file's leader leaves the file's hints handy, if it has the same flag, and last-page words that are right.
pub fn handy_after_leader_value()
    ensures { HandyAfterLeaderValue }
{}

/// Hints of a file that gets pages are handy still if they speak of none but old pages, or of new ones where these are.
pub fn handy_where_pages_come()
    ensures { HandyWherePagesCome }
{}

/// Where all other files are left as they were, as an operation on one file of a whole and tidy pack leaves them, their hints are handy
/// still.
pub fn handy_of_others()
    ensures { HandyOfOthers }
{}

/// On a whole pack a cut of a file leaves the file's own hints handy.
pub fn handy_after_cut()
    ensures { HandyAfterCut }
{}

/// On a whole and tidy pack a growth of a living file leaves its own hints handy, if they speak of its old pages alone and the flag is 0.
pub fn handy_after_growth()
    ensures { HandyAfterGrowth }
{}

/// On a whole and tidy pack a widening of a living directory leaves its own hints handy, if they speak of its old pages alone and the flag
/// is 0.
pub fn handy_after_widening()
    ensures { HandyAfterWidening }
{}
