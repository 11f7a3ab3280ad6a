// Why sectors aren't swept.
ghost use Rattle.std.specs.Prelude.{◌≡◌};
ghost use Rattle.label_check.specs.declared.errors.LookError.{LookError};
ghost use Rattle.scav_table.specs.Causes.{error_of_look};
ghost use Rattle.scav_table.specs.declared.errors.SweepError.TheVariants.{Memory};

use label_check::LookError;

/// Why a table has no window.
#[derive(Clone, Copy, Debug, PartialEq, Eq, Drop)]
pub enum SweepError {
    /// The device failed, and its count of faults rose.
    DiskFault,
    /// No memory was left.
    Memory,
}

impl From<LookError> for SweepError {
    ghost from_gives = { λ error refusal. refusal ≡ error_of_look error };

    fn from(error: LookError) -> Self {
        match error {
            LookError::DiskFault => SweepError::DiskFault,
            LookError::Memory => SweepError::Memory,
        }
    }
}

impl From<std::alloc::AllocError> for SweepError {
    ghost from_gives = { λ _ refusal. refusal ≡ Memory };

    fn from(_: std::alloc::AllocError) -> Self {
        SweepError::Memory
    }
}
