//! Names that no entry has, and the room for an entry, over operations.

ghost use Rattle.laws_steps.specs.NameLaws.{AbsentNameStaysAbsent, LeaveKeepsRoom};

/// A name that no entry of a directory has is one that none has after an operation that doesn't enter it there.
pub fn absent_name_stays_absent()
    ensures { AbsentNameStaysAbsent }
{}

/// After an entry left, at least as many words of a directory are free in a row as before.
pub fn leave_keeps_room()
    ensures { LeaveKeepsRoom }
{}
