// Why a pack wasn't read.
ghost use Rattle.std.specs.Prelude.{◌≡◌};
ghost use Rattle.label_check.specs.declared.errors.LookError.{LookError};
ghost use Rattle.pack_reading.specs.Errors.{error_of_look};
ghost use Rattle.pack_reading.specs.declared.error.ReadingError.TheVariants.{Memory};

use alto_words::Memory;
use label_check::LookError;

/// Why a pack wasn't read to its end.
#[derive(Clone, Copy, Debug, PartialEq, Eq, Drop)]
pub enum ReadingError {
    /// The device failed, and its count of faults rose.
    DiskFault,
    /// No memory was left for what the pack shows.
    Memory,
}

impl From<LookError> for ReadingError {
    ghost from_gives = { λ error reading. reading ≡ error_of_look error };

    fn from(error: LookError) -> Self {
        match error {
            LookError::DiskFault => ReadingError::DiskFault,
            LookError::Memory => ReadingError::Memory,
        }
    }
}

impl From<Memory> for ReadingError {
    ghost from_gives = { λ _ reading. reading ≡ Memory };

    fn from(_: Memory) -> Self {
        ReadingError::Memory
    }
}
