// Why free sectors aren't answered.
ghost use Rattle.std.specs.Prelude.{◌≡◌};
ghost use Rattle.label_check.specs.declared.errors.LookError.{LookError};
ghost use Rattle.page_alloc.specs.Inside.{error_of_look};
ghost use Rattle.page_alloc.specs.declared.errors.AllocError.TheVariants.{Memory};

use alto_words::Memory;
use label_check::LookError;

/// Why `reserve` answers no addresses. None of these takes a sector: a bit of the table has changed only to what a label said.
#[derive(Clone, Copy, Debug, PartialEq, Eq, Drop)]
pub enum AllocError {
    /// Fewer sectors are free, by their labels, than were asked for: the number asked for, and that of all free sectors.
    Full { needed: u16, free: u16 },
    /// The device failed, and its count of faults rose.
    DiskFault,
    /// No memory was left.
    Memory,
}

impl From<LookError> for AllocError {
    ghost from_gives = { λ error refusal. refusal ≡ error_of_look error };

    fn from(error: LookError) -> Self {
        match error {
            LookError::DiskFault => AllocError::DiskFault,
            LookError::Memory => AllocError::Memory,
        }
    }
}

impl From<std::alloc::AllocError> for AllocError {
    ghost from_gives = { λ _ refusal. refusal ≡ Memory };

    fn from(_: std::alloc::AllocError) -> Self {
        AllocError::Memory
    }
}

impl From<Memory> for AllocError {
    ghost from_gives = { λ _ refusal. refusal ≡ Memory };

    fn from(_: Memory) -> Self {
        AllocError::Memory
    }
}
