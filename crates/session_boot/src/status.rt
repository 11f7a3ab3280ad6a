// How a call of the program ends, and the faults on the way there.
ghost use Rattle.session_boot.specs.Faults.{status_of, status_of_need};
ghost use Rattle.session_boot.specs.declared.status.Fault.TheVariants.{Memory};
ghost use Rattle.std.specs.Prelude.{◌≡◌};

use alto_words::Memory;
use std::alloc::{AllocError, AllocFailed};

/// How a call of the program ended; its number is the exit code.
#[derive(Clone, Copy, Debug, PartialEq, Eq)]
pub enum Status {
    /// What was asked for is done; of a session, that it was ended and the pack closed.
    Done = 0,
    /// The words of the command line ask for nothing.
    Usage = 1,
    /// The pack isn't entered until it is scavenged, or the session ended after a hint failed.
    NeedsScavenge = 2,
    /// The disk failed before what was asked for was done. What was acknowledged stands on the pack, if it was sound and clean.
    DiskFault = 3,
    /// The keyboard failed. The lines that ended before have their replies.
    KeyFault = 4,
    /// The display failed. Modelled, no record write follows the first byte that wasn't shown; else lines typed ahead may have been obeyed.
    DisplayFault = 5,
    /// No memory was left. What was acknowledged stands on the pack, if it was sound and clean.
    Memory = 6,
    /// The pack can't be scavenged: the text says why, and nothing was written.
    CannotScavenge = 7,
}

/// What ends a session before its input does.
#[derive(Clone, Copy, Debug, PartialEq, Eq, Drop)]
pub enum Fault {
    /// The disk failed.
    Disk,
    /// The keyboard failed.
    Key,
    /// The display failed.
    Display,
    /// No memory was left.
    Memory,
}

impl Fault {
    /// The status that the session ends with.
    pub fn status(self) -> Status
        ensures { result ≡ status_of self }
    {
        match self {
            Fault::Disk => Status::DiskFault,
            Fault::Key => Status::KeyFault,
            Fault::Display => Status::DisplayFault,
            Fault::Memory => Status::Memory,
        }
    }
}

/// The status of a session that was ended, by whether a scavenge is needed.
pub(crate) fn status_of_need(need: bool) -> Status
    ensures { result ≡ status_of_need need }
{
    if need {
        Status::NeedsScavenge
    } else {
        Status::Done
    }
}

impl From<Memory> for Fault {
    ghost from_gives = { λ _ fault. fault ≡ Memory };

    fn from(_: Memory) -> Self {
        Fault::Memory
    }
}

impl From<AllocError> for Fault {
    ghost from_gives = { λ _ fault. fault ≡ Memory };

    fn from(_: AllocError) -> Self {
        Fault::Memory
    }
}

impl<T: Drop> From<AllocFailed<T>> for Fault {
    ghost from_gives = { λ _ fault. fault ≡ Memory };

    fn from(_: AllocFailed<T>) -> Self {
        Fault::Memory
    }
}
