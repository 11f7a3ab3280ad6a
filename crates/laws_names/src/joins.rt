//! Mendings of names one after another, broken off, and what they come to. What such a mending keeps is what a scavenge keeps, and that
//! there is no clean mark if there was none.

ghost use Rattle.laws_names.specs.JoinLaws.{KeepsOpenBreaksOff, KeepsOpenEnds, KeepsOpenJoin, KeepsOpenOn, NothingKeepsOpen, OneKeepsOpen, TendingKeepsOpen};

/// A pack to which nothing is written keeps what a mending of names keeps.
pub fn nothing_keeps_open()
    ensures { NothingKeepsOpen }
{}

/// What a mending of names keeps from a first pack to a second, and from that to a third, it keeps from the first to the third.
pub fn keeps_open_on()
    ensures { KeepsOpenOn }
{}

/// Two lists of record writes, the second from the pack that the first leaves, keep at each crash point together what a mending of names
/// keeps, if each of them does.
pub fn keeps_open_join()
    ensures { KeepsOpenJoin }
{}

/// Record writes that keep at each crash point what a mending of names keeps do so if they break off.
pub fn keeps_open_breaks_off()
    ensures { KeepsOpenBreaksOff }
{}

/// One record write keeps at each crash point what a mending of names keeps, if the pack that it leaves does.
pub fn one_keeps_open()
    ensures { OneKeepsOpen }
{}

/// Record writes that keep at each crash point what a mending of pages keeps do so for a mending of names.
pub fn tending_keeps_open()
    ensures { TendingKeepsOpen }
{}

/// Record writes that keep at each crash point what a mending of names keeps do so in the end, keep at each crash point what a scavenge
/// keeps, and make no pack clean if there was no clean mark.
pub fn keeps_open_ends()
    ensures { KeepsOpenEnds }
{}
