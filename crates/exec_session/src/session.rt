// A session: what is kept from one line to the next.
ghost use Rattle.std.specs.Prelude.{◌≡◌};

use crate::streams::SessionStreams;
use disk_descriptor::Descriptor;
use disk_records::Tally;
use hint_cache::Hints;
use world_swap::World;

/// What a session keeps from one line to the next.
#[derive(Drop)]
pub struct Session {
    /// DiskDescriptor's shape, last serial, mark and sectors.
    pub descriptor: Descriptor,
    /// The allocation map and the addresses that were seen: hints.
    pub hints: Hints,
    /// The operations that took effect, counted up to a limit of record writes.
    pub tally: Tally,
    /// The moment of later dates, in seconds since the start of 1901.
    pub moment: u32,
    /// The memory, and the highest level of service that is in it.
    pub world: World,
    /// The open streams.
    pub streams: SessionStreams,
    /// Whether a hint failed since the pack was opened or scavenged.
    pub need: bool,
}

/// The number of record writes up to which a session's tally counts: a number of 64 bits. A step reads it before its call, so that this is
/// known of it.
pub fn limit_of(session: &Session) -> u64
    ensures { result ≡ session.now.tally.limit }
{
    session.tally.limit
}

impl Session {
    /// The operations that took effect, counted up to the limit that the session was given.
    pub fn tally(&self) -> Tally
        ensures { result ≡ self.now.tally }
    {
        self.tally
    }

    /// The highest level of service that is in memory, 1 to 8.
    pub fn level(&self) -> u8
        ensures { result ≡ self.now.world.level }
    {
        self.world.level
    }

    /// Whether a hint failed since the pack was opened or scavenged: only `scavenge`, `counterjunta` and `quit` are obeyed then.
    pub fn needs_scavenge(&self) -> bool
        ensures { result ≡ self.now.need }
    {
        self.need
    }
}
