//! Mendings one after another, broken off, and what they come to. What a mending keeps is what a scavenge keeps, what is viewed, and that
//! there is no clean mark where there was none.

ghost use Rattle.laws_mend.specs.JoinLaws.{NothingTends, TendingEnds, TendsBreaksOff, TendsJoin, TendsOn};

/// A pack to which nothing is written keeps what a mending keeps.
pub fn nothing_tends()
    ensures { NothingTends }
{}

/// What a mending keeps from a first pack to a second, and from that to a third, it keeps from the first to the third.
pub fn tends_on()
    ensures { TendsOn }
{}

/// Two lists of record writes, the second from the pack that the first leaves, keep at each crash point together what a mending keeps, if
/// each of them does.
pub fn tends_join()
    ensures { TendsJoin }
{}

/// Record writes that keep at each crash point what a mending keeps do so if they break off.
pub fn tends_breaks_off()
    ensures { TendsBreaksOff }
{}

/// Record writes that keep at each crash point what a mending keeps leave as many names to give, keep at each crash point what a scavenge
/// keeps, and make no pack clean if there was no clean mark.
pub fn tending_ends()
    ensures { TendingEnds }
{}
