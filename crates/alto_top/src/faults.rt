// The faults of the calls below, as faults of a word.
ghost use Rattle.alto_top.specs.Faults.{fault_of_format, fault_of_reading};
ghost use Rattle.std.specs.Prelude.{◌≡◌};

use disk_descriptor::FormatError;
use pack_reading::ReadingError;
use session_boot::Fault;

/// Why a pack wasn't formatted, or a drive prepared.
pub(crate) fn fault_of_format(error: FormatError) -> Fault
    ensures { result ≡ fault_of_format error }
{
    match error {
        FormatError::DiskFault => Fault::Disk,
        FormatError::Memory => Fault::Memory,
    }
}

/// Why a pack wasn't read.
pub(crate) fn fault_of_reading(error: ReadingError) -> Fault
    ensures { result ≡ fault_of_reading error }
{
    match error {
        ReadingError::DiskFault => Fault::Disk,
        ReadingError::Memory => Fault::Memory,
    }
}
