// Why a call on a directory isn't done.
ghost use Rattle.std.specs.Prelude.{◌≡◌};
ghost use Rattle.directory.specs.declared.errors.DirError.TheVariants.{File};
ghost use Rattle.directory.specs.Errors.{list_error};

use page_seeking::FileError;

/// Why a call on a directory isn't done.
#[derive(Clone, Copy, Debug, PartialEq, Eq, Drop)]
pub enum DirError {
    /// The directory has no entry that is meant.
    NoSuchName,
    /// The directory has an entry of this name, in whatever case of its letters.
    NameTaken,
    /// No free slots in a row have room for the entry: `largest` is the greatest number of free words in a row.
    NoSlot { largest: u32 },
    /// The directory's pages weren't read or written, as `fault` says, which is never Beyond.
    File { fault: FileError },
}

impl From<FileError> for DirError {
    ghost from_gives = { λ fault error. error ≡ File fault };

    fn from(fault: FileError) -> Self {
        DirError::File { fault }
    }
}

/// Why the slots of a directory aren't listed.
#[derive(Clone, Copy, Debug, PartialEq, Eq, Drop)]
pub enum ListError {
    /// The directory's pages weren't read, as `fault` says: Misled or DiskFault.
    File { fault: FileError },
    /// No memory was left.
    Memory,
}

impl From<FileError> for ListError {
    ghost from_gives = { λ fault error. error ≡ list_error fault };

    fn from(fault: FileError) -> Self {
        match fault {
            FileError::Memory => ListError::Memory,
            FileError::Misled { .. } => ListError::File { fault },
            FileError::Beyond { .. } => ListError::File { fault },
            FileError::DiskFault => ListError::File { fault },
        }
    }
}
