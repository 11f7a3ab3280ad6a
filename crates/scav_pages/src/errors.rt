// Why a pass over all rows ends early.
ghost use Rattle.std.specs.Prelude.{◌≡◌};
ghost use Rattle.scav_pages.specs.declared.errors.Stop.TheVariants.{Memory};
ghost use Rattle.scav_pages.specs.Stops.{stop_of_guard, stop_of_look, stop_of_sweep};

use alto_words::Memory;
use label_check::{GuardError, LookError};
use scav_table::SweepError;

/// Why a pass along the rows of a pack, or any other part of the Scavenger's work, ends before all of it is done.
#[derive(Clone, Copy, Debug, PartialEq, Eq, Drop)]
pub enum Stop {
    /// The device failed, and its count of faults rose.
    DiskFault,
    /// No memory was left: the device wanted it for record writes, or what the part keeps of the rows did, where it keeps anything.
    Memory,
    /// A sector shows another page than a moment ago, or a free sector that has to be there isn't. This never comes on a machine that is
    /// modelled, if the pack can be scavenged.
    Astray,
}

impl From<SweepError> for Stop {
    ghost from_gives = { λ error stop. stop ≡ stop_of_sweep error };

    fn from(error: SweepError) -> Self {
        match error {
            SweepError::DiskFault => Stop::DiskFault,
            SweepError::Memory => Stop::Memory,
        }
    }
}

impl From<GuardError> for Stop {
    ghost from_gives = { λ error stop. stop ≡ stop_of_guard error };

    fn from(error: GuardError) -> Self {
        match error {
            GuardError::Wrong { .. } => Stop::Astray,
            GuardError::DiskFault => Stop::DiskFault,
            GuardError::Memory => Stop::Memory,
        }
    }
}

impl From<LookError> for Stop {
    ghost from_gives = { λ error stop. stop ≡ stop_of_look error };

    fn from(error: LookError) -> Self {
        match error {
            LookError::DiskFault => Stop::DiskFault,
            LookError::Memory => Stop::Memory,
        }
    }
}

impl From<Memory> for Stop {
    ghost from_gives = { λ _ stop. stop ≡ Memory };

    fn from(_: Memory) -> Self {
        Stop::Memory
    }
}
