// The moment of a run.
ghost use Rattle.std.specs.Prelude.{◌≡◌, ◌+◌, ◌-◌, ◌/◌, ◌^◌, min, MatchResult};
ghost use Rattle.std.specs.Time.{system_time_nanos};

use std::io;
use std::rt::Clock;
use std::time::{SystemTime, UNIX_EPOCH};

/// The seconds from the start of 1901 to the start of 1970.
const SECONDS_BEFORE_1970: u64 = 2_177_452_800;

/// The seconds of a time since the start of 1970. A time before it isn't one that a clock reads.
fn seconds_of(time: SystemTime) -> u64
    ensures { result ≡ system_time_nanos time / 1_000_000_000 }
{
    match time.duration_since(UNIX_EPOCH) {
        Ok(since) => since.as_secs(),
        Err(_) => 0,
    }
}

/// The moment so many seconds after the start of 1970: seconds since the start of 1901, at most 2^32 - 1.
fn moment_at(seconds: u64) -> u32
    ensures { result ≡ min (seconds + 2_177_452_800) (2 ^ 32 - 1) }
{
    u32::try_from(seconds.saturating_add(SECONDS_BEFORE_1970)).unwrap_or(u32::MAX)
}

/// The moment of a reading of the clock; 0 where the clock can't be read.
pub fn moment_of(reading: io::Result<SystemTime>) -> u32
    ensures { MatchResult reading (λ time. result ≡ min (system_time_nanos time / 1_000_000_000 + 2_177_452_800) (2 ^ 32 - 1)) (λ _. result ≡ 0) }
{
    match reading {
        Ok(time) => moment_at(seconds_of(time)),
        Err(_unread) => 0,
    }
}

/// Reads the clock once.
pub fn read_moment(clock: &impl Clock) -> u32 {
    moment_of(SystemTime::now(clock))
}
