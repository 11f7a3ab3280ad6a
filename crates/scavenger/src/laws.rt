//! What a scavenge is in a session: each law is what a function of its name ensures. The functions do nothing.
ghost use Rattle.scavenger.specs.Turning.{FirstLineMayScavenge, ScavengeIsATurn};

/// A scavenge that a line of a session asks for isn't refused, and is the turn over that line: at Ok a whole one once its report is shown,
/// else one that broke off, after any prefix of its record writes, all of them too.
pub fn scavenge_is_a_turn()
    ensures { ScavengeIsATurn }
{}

/// On a sound pack the first line of a session may ask for a scavenge.
pub fn first_line_may_scavenge()
    ensures { FirstLineMayScavenge }
{}
