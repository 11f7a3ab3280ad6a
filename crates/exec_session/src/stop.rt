// Why a line isn't done.
ghost use Rattle.std.specs.Prelude.{◌≡◌};
ghost use Rattle.exec_session.specs.Stops.{misfit, stop_of_alloc, stop_of_desc, stop_of_dir, stop_of_file, stop_of_list, stop_of_look, stop_entered, stop_written, refused as refuses};
ghost use Rattle.exec_session.specs.declared.stop.Stop.TheVariants.{Memory};

use alto_words::{Fid, Memory};
use directory::{DirError, ListError};
use disk_descriptor::DescError;
use disk_records::{Page, Place};
use exec_words::Refusal;
use label_check::LookError;
use page_alloc::AllocError;
use page_seeking::{FileError, FileRef};

/// Why a line isn't done.
#[derive(Clone, Copy, Debug, PartialEq, Eq, Drop)]
pub enum Stop {
    /// The line is refused, by what the pack is read as and what the session keeps. Nothing was written.
    Refused {
        refusal: Refusal,
    },
    /// The hint at `place` is `at`, and names no usable sector or one that doesn't carry the page `wanted`. `found` is the label there,
    /// None where there is none.
    Misled {
        place: Place,
        at: u16,
        wanted: Page,
        found: Option<[u16; 8]>,
    },
    /// The device failed, and its count of faults rose.
    DiskFault,
    /// No memory was left.
    Memory,
}

/// The line is refused so.
pub fn refused<T: Drop>(refusal: Refusal) -> Result<T, Stop>
    ensures { result ≡ refuses refusal }
{
    Err(Stop::Refused { refusal })
}

/// A directory or a file isn't as it was found before the line wrote. On a modelled disk whose pack is sound this never comes.
fn misfit(file: &FileRef) -> Stop
    ensures { result ≡ misfit file.now }
{
    Stop::Misled {
        place: Place::Held { at: file.leader_at },
        at: file.leader_at,
        wanted: Page {
            fid: file.fid,
            number: 0,
        },
        found: None,
    }
}

/// The answer of a call that wrote to a file. That the file ends before is none that is refused: it was tested before.
pub fn written(file: &FileRef, answer: Result<(), FileError>) -> Result<(), Stop>
    ensures { result ≡ stop_written file.now answer }
{
    match answer {
        Ok(()) => Ok(()),
        Err(FileError::Beyond { .. }) => Err(misfit(file)),
        Err(error) => Err(Stop::from(error)),
    }
}

/// The answer of a call that wrote to a directory. What its slots say was tested before, and is none that is refused.
pub fn entered(dir: &FileRef, answer: Result<(), DirError>) -> Result<(), Stop>
    ensures { result ≡ stop_entered dir.now answer }
{
    match answer {
        Ok(()) => Ok(()),
        Err(DirError::File { fault }) => written(dir, Err(fault)),
        Err(DirError::NoSuchName) => Err(misfit(dir)),
        Err(DirError::NameTaken) => Err(misfit(dir)),
        Err(DirError::NoSlot { .. }) => Err(misfit(dir)),
    }
}

impl From<FileError> for Stop {
    ghost from_gives = { λ error stop. stop ≡ stop_of_file error };

    fn from(error: FileError) -> Self {
        match error {
            FileError::Misled {
                place,
                at,
                wanted,
                found,
            } => Stop::Misled {
                place,
                at,
                wanted,
                found,
            },
            FileError::Beyond { length } => Stop::Refused {
                refusal: Refusal::Beyond { length },
            },
            FileError::DiskFault => Stop::DiskFault,
            FileError::Memory => Stop::Memory,
        }
    }
}

impl From<DirError> for Stop {
    ghost from_gives = { λ error stop. stop ≡ stop_of_dir error };

    fn from(error: DirError) -> Self {
        match error {
            DirError::NoSuchName => Stop::Refused {
                refusal: Refusal::NoSuchName,
            },
            DirError::NameTaken => Stop::Refused {
                refusal: Refusal::NameTaken,
            },
            DirError::NoSlot { .. } => Stop::Refused {
                refusal: Refusal::NameTaken,
            },
            DirError::File { fault } => Stop::from(fault),
        }
    }
}

impl From<ListError> for Stop {
    ghost from_gives = { λ error stop. stop ≡ stop_of_list error };

    fn from(error: ListError) -> Self {
        match error {
            ListError::File { fault } => Stop::from(fault),
            ListError::Memory => Stop::Memory,
        }
    }
}

impl From<AllocError> for Stop {
    ghost from_gives = { λ error stop. stop ≡ stop_of_alloc error };

    fn from(error: AllocError) -> Self {
        match error {
            AllocError::Full { needed, free } => Stop::Refused {
                refusal: Refusal::Full { needed, free },
            },
            AllocError::DiskFault => Stop::DiskFault,
            AllocError::Memory => Stop::Memory,
        }
    }
}

impl From<DescError> for Stop {
    ghost from_gives = { λ error stop. stop ≡ stop_of_desc error };

    fn from(error: DescError) -> Self {
        match error {
            DescError::Spent { last } => Stop::Refused {
                refusal: Refusal::SerialsSpent { last },
            },
            DescError::Held { at, found } => Stop::Misled {
                place: Place::Held { at },
                at,
                wanted: Page {
                    fid: Fid::DISK_DESCRIPTOR,
                    number: 1,
                },
                found,
            },
            DescError::DiskFault => Stop::DiskFault,
            DescError::Memory => Stop::Memory,
        }
    }
}

impl From<LookError> for Stop {
    ghost from_gives = { λ error stop. stop ≡ stop_of_look error };

    fn from(error: LookError) -> Self {
        match error {
            LookError::DiskFault => Stop::DiskFault,
            LookError::Memory => Stop::Memory,
        }
    }
}

impl From<Memory> for Stop {
    ghost from_gives = { λ _ refusal. refusal ≡ Memory };

    fn from(_: Memory) -> Self {
        Stop::Memory
    }
}

impl From<std::alloc::AllocError> for Stop {
    ghost from_gives = { λ _ refusal. refusal ≡ Memory };

    fn from(_: std::alloc::AllocError) -> Self {
        Stop::Memory
    }
}
