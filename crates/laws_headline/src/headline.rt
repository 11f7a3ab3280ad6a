//! The headline.

ghost use Rattle.laws_headline.specs.Headline.{StoppedSessionsRecover};

/// A session on a sound and clean pack, stopped at any crash point, and scavenged: the pack is sound, clean and entered by the next
/// session, with the names and bytes after as many operations as the ruler says, every acknowledged one among them.
pub fn stopped_sessions_recover()
    ensures { StoppedSessionsRecover }
{}
