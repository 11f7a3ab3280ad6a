// What a call on a directory answers, by what a call on it as a file answers.
ghost use Rattle.std.specs.Prelude.{◌≡◌};
ghost use Rattle.directory.specs.Answers.{in_directory, unlocated, unplaced};

use crate::{DirError, FileError};

/// The answer of a call on the directory as a file, as that of a call on a directory.
pub(crate) fn in_directory(answer: Result<(), FileError>) -> Result<(), DirError>
    ensures { result ≡ in_directory answer }
{
    match answer {
        Ok(()) => Ok(()),
        Err(fault) => Err(DirError::File { fault }),
    }
}

/// What is answered if the page of an entry that was found isn't located. Beyond, which comes only where the machine isn't modelled, is an
/// entry that is gone.
pub(crate) fn unlocated(error: FileError) -> DirError
    ensures { result ≡ unlocated error }
{
    match error {
        FileError::Beyond { .. } => DirError::NoSuchName,
        FileError::Misled {
            place,
            at,
            wanted,
            found,
        } => DirError::File {
            fault: FileError::Misled {
                place,
                at,
                wanted,
                found,
            },
        },
        FileError::DiskFault => DirError::File {
            fault: FileError::DiskFault,
        },
        FileError::Memory => DirError::File {
            fault: FileError::Memory,
        },
    }
}

/// What is answered if a page of the room that was found isn't located. Beyond, which comes only where the machine isn't modelled, is a room that
/// is gone.
pub(crate) fn unplaced(error: FileError) -> DirError
    ensures { result ≡ unplaced error }
{
    match error {
        FileError::Beyond { .. } => DirError::NoSlot { largest: 0 },
        FileError::Misled {
            place,
            at,
            wanted,
            found,
        } => DirError::File {
            fault: FileError::Misled {
                place,
                at,
                wanted,
                found,
            },
        },
        FileError::DiskFault => DirError::File {
            fault: FileError::DiskFault,
        },
        FileError::Memory => DirError::File {
            fault: FileError::Memory,
        },
    }
}
