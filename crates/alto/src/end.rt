// How a run ends: its exit code, and what it says on standard error.
ghost use Rattle.std.specs.Prelude.{◌≡◌};
ghost use Rattle.alto.specs.Ends.{code_of, complaint_of, end_code, end_complaint};
ghost use Rattle.alto.specs.declared.end.Stop.TheVariants.{Pack, Memory};

use alto_top::Status;
use disk_image::ReachError;
use std::alloc::AllocError;
use thiserror::Error;

/// The exit code of a run without a session for its pack files: one wasn't reached or made, or is in use, or two are unlike. The others are
/// those of statuses.
const NO_PACK: u8 = 8;

/// What ends a run that has no session.
#[derive(Clone, Copy, Debug, PartialEq, Eq)]
pub enum Stop {
    /// The words aren't `[--cylinders C] [--second PACK2] PACK WORDS`, or one of them isn't UTF-8.
    Words,
    /// No machine was made over the pack files.
    Pack(ReachError),
    /// The help can't be written to standard output.
    Display,
    /// No memory was left for the words or the help.
    Memory,
}

/// What is said on standard error; its text is the line that is printed.
#[derive(Clone, Copy, Debug, PartialEq, Eq, Error)]
pub enum Complaint {
    /// The words are no command line.
    #[error("usage")]
    Usage,
    /// A pack file wasn't reached or made, or two are unlike.
    #[error(transparent)]
    Pack(ReachError),
}

impl Stop {
    /// The exit code: that of `usage`, of no pack, or of the status with this cause.
    pub fn code(self) -> u8
        ensures { result ≡ code_of self }
    {
        match self {
            Stop::Words => Status::Usage as u8,
            Stop::Pack(ReachError::NoFile) => NO_PACK,
            Stop::Pack(ReachError::InUse) => NO_PACK,
            Stop::Pack(ReachError::BadLength { .. }) => NO_PACK,
            Stop::Pack(ReachError::Unlike { .. }) => NO_PACK,
            Stop::Pack(ReachError::Memory) => Status::Memory as u8,
            Stop::Display => Status::DisplayFault as u8,
            Stop::Memory => Status::Memory as u8,
        }
    }

    /// What is said of it on standard error. Nothing is said where memory ran out or the display failed.
    pub fn complaint(self) -> Option<Complaint>
        ensures { result ≡ complaint_of self }
    {
        match self {
            Stop::Words => Some(Complaint::Usage),
            Stop::Pack(ReachError::Memory) => None,
            Stop::Pack(error) => Some(Complaint::Pack(error)),
            Stop::Display => None,
            Stop::Memory => None,
        }
    }
}

impl From<ReachError> for Stop {
    ghost from_gives = { λ error stop. stop ≡ Pack error };

    fn from(error: ReachError) -> Self {
        Stop::Pack(error)
    }
}

impl From<AllocError> for Stop {
    ghost from_gives = { λ _ stop. stop ≡ Memory };

    fn from(_: AllocError) -> Self {
        Stop::Memory
    }
}

/// The exit code of a run: the number of its status, or of what stopped it.
pub fn exit_code(end: Result<Status, Stop>) -> u8
    ensures { result ≡ end_code end }
{
    match end {
        Ok(status) => status as u8,
        Err(stop) => stop.code(),
    }
}

/// What a run says on standard error. A session says nothing there.
pub fn exit_complaint(end: Result<Status, Stop>) -> Option<Complaint>
    ensures { result ≡ end_complaint end }
{
    match end {
        Ok(_) => None,
        Err(stop) => stop.complaint(),
    }
}
