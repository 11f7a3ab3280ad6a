//! The entry that a name means, over operations that keep entries.

ghost use Rattle.laws_steps.specs.EnteredLaws.{EnteredIsMeant, EnteredStays};

/// The first entry under a name is the one that the name means.
pub fn entered_is_meant()
    ensures { EnteredIsMeant }
{}

/// On any model the first entry under a name is so still after an operation on bytes or a leader, and after a widening.
pub fn entered_stays()
    ensures { EnteredStays }
{}
