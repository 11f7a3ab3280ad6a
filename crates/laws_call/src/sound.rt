//! Calls that are a line from a sound pack.

ghost use Rattle.laws_call.specs.SoundCalls.{CallsOnASoundPack};

/// On a sound pack, if calls do a line of the operating system with the sectors for it, each crash point can be scavenged for every answer,
/// the moves are a prefix of the line's, and at Ok it is done and the pack sound.
pub fn calls_on_a_sound_pack<T, E>()
    ensures { CallsOnASoundPack T E }
{}
