// How files are named, and why a call on one isn't done.
ghost use Rattle.std.specs.Prelude.{◌≡◌};
ghost use Rattle.label_check.specs.declared.errors.LookError.{LookError};
ghost use Rattle.page_seeking.specs.declared.refs.FileError.{FileError};
ghost use Rattle.page_seeking.specs.declared.refs.FileError.TheVariants.{Memory};
ghost use Rattle.page_seeking.specs.Inside.{error_at, error_of_look};

use alto_words::Fid;
use disk_records::{Page, Place};
use label_check::{GuardError, LookError};
use std::alloc::AllocError;

/// A file, with the virtual address of its leader page and where that was taken from.
#[derive(Clone, Copy, Debug, PartialEq, Eq)]
pub struct FileRef {
    /// Its full name.
    pub fid: Fid,
    /// The virtual address of its leader page: a hint.
    pub leader_at: u16,
    /// Where this address was taken from: never a link.
    pub from: Place,
}

/// Why a call on a file isn't done.
#[derive(Clone, Copy, Debug, PartialEq, Eq, Drop)]
pub enum FileError {
    /// The hint at `place` is `at`, and names no usable sector or one that doesn't carry the page `wanted`. `found` is the label there,
    /// None where there is none.
    Misled {
        place: Place,
        at: u16,
        wanted: Page,
        found: Option<[u16; 8]>,
    },
    /// The file has no such page or byte. `length` is its length in bytes.
    Beyond {
        length: u32,
    },
    /// The device failed, and its count of faults rose.
    DiskFault,
    /// No memory was left.
    Memory,
}

impl From<LookError> for FileError {
    ghost from_gives = { λ error refusal. refusal ≡ error_of_look error };

    fn from(error: LookError) -> Self {
        match error {
            LookError::DiskFault => FileError::DiskFault,
            LookError::Memory => FileError::Memory,
        }
    }
}

impl From<AllocError> for FileError {
    ghost from_gives = { λ _ refusal. refusal ≡ Memory };

    fn from(_: AllocError) -> Self {
        FileError::Memory
    }
}

/// The answer of a guarded call where the hint at this place has this address and means this page.
pub(crate) fn error_at(place: Place, at: u16, wanted: Page, error: GuardError) -> FileError
    ensures { result ≡ error_at place at wanted error }
{
    match error {
        GuardError::Wrong { found } => FileError::Misled {
            place,
            at,
            wanted,
            found,
        },
        GuardError::DiskFault => FileError::DiskFault,
        GuardError::Memory => FileError::Memory,
    }
}
