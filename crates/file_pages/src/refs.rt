// Why a guarded command of a call on a file isn't done, and which page a sector is for.
ghost use Rattle.std.specs.Prelude.{◌≡◌};
ghost use Rattle.file_pages.specs.Inside.{error_at};

use alto_words::Fid;
use disk_records::{Page, Place};
use label_check::GuardError;
use page_seeking::FileError;

/// The page of the file with this number.
pub(crate) fn page_of_file(fid: Fid, number: u16) -> Page
    ensures { result ≡ record { fid = fid; number = number } }
{
    Page { fid, number }
}

/// The answer of a guarded call where the hint at this place has this address and means this page.
pub(crate) fn error_at(place: Place, at: u16, wanted: Page, error: GuardError) -> FileError
    ensures { result ≡ error_at place at wanted error }
{
    match error {
        GuardError::Wrong { found } => FileError::Misled {
            place,
            at,
            wanted,
            found,
        },
        GuardError::DiskFault => FileError::DiskFault,
        GuardError::Memory => FileError::Memory,
    }
}
