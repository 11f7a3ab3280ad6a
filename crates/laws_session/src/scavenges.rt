//! A scavenge as a turn of a session.

ghost use Rattle.laws_session.specs.ScavengeLaws.{CrashesOfAScavenge, QuietWritesObey, ScavengesAreTurns, ScavengesBreakOff, ScavengesCure, ScavengesObey};

/// A pack that a scavenge keeps stands for the model of the session as the pack before it did.
pub fn crashes_of_a_scavenge()
    ensures { CrashesOfAScavenge }
{}

/// Record writes at each crash point of which the pack stands for the model are quiet moves of the session.
pub fn quiet_writes_obey()
    ensures { QuietWritesObey }
{}

/// The record writes of a scavenge are quiet moves of the session, and then the end of a scavenge.
pub fn scavenges_obey()
    ensures { ScavengesObey }
{}

/// A scavenge that is asked for and done is a turn that is made.
pub fn scavenges_are_turns()
    ensures { ScavengesAreTurns }
{}

/// A scavenge that stops after any prefix of its record writes, all of them too, and shows nothing is a turn that broke off.
pub fn scavenges_break_off()
    ensures { ScavengesBreakOff }
{}

/// After a scavenge that is asked for and not refused no file is lost, no hint misleads, and no scavenge is needed.
pub fn scavenges_cure()
    ensures { ScavengesCure }
{}
