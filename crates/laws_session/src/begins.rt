//! What a session keeps as it begins.

ghost use Rattle.laws_session.specs.BeginLaws.{FreshMemoryIsKept, SessionsBegin, SoundPacksAreReady};

/// The world of a session that keeps a fresh memory is the fresh world.
pub fn fresh_memory_is_kept()
    ensures { FreshMemoryIsKept }
{}

/// A session that keeps a fresh world and what DiskDescriptor says is right for a sound pack as it opens.
pub fn sessions_begin()
    ensures { SessionsBegin }
{}

/// A sound pack is ready to be entered if and only if its mark is clean; nothing else keeps it from being entered.
pub fn sound_packs_are_ready()
    ensures { SoundPacksAreReady }
{}
