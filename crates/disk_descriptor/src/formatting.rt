// Formatting a pack: every sector is written, whole, in rising order.
ghost use Rattle.std.specs.Prelude.{◌≡◌, ◌<◌, IfOk, IsTrue, OnOk};
ghost use Rattle.disk_records.specs.Addresses.{pages_of};
ghost use Rattle.disk_records.specs.Causes.{HasCause};
ghost use Rattle.disk_records.specs.Tapes.{DiskAlone, pack};
ghost use Rattle.pack_model.specs.sessions.Format.{format_writes, free_after_format, sector_writes};
ghost use Rattle.disk_descriptor.specs.Causes.{cause_of_format};
ghost use Rattle.disk_descriptor.specs.Formatting.{IsFormatted};
ghost use Rattle.disk_descriptor.specs.Writing.{Writes};

use crate::FormatError;
use crate::fresh::{Fresh, sectors_used};
use disk_records::{Disk, DiskError, Plan, Sector};

/// Writes a whole sector. One sector command.
pub(crate) fn write_sector<D: Disk>(
    disk: &mut D,
    at: u16,
    sector: &Sector,
) -> Result<(), FormatError>
    requires { at < pages_of (D.tape disk.old).form }
    ensures writes { IsTrue D.told → Writes FormatError.Memory (sector_writes at sector.now) 1 (D.tape disk.old) (D.tape disk.new) result }
    ensures cause { HasCause cause_of_format (D.tape disk.old) (D.tape disk.new) result }
    ensures alone { DiskAlone (D.tape disk.old) (D.tape disk.new) }
{
    let mut buf = *sector;
    match disk.run(at, Plan::WRITE_ALL, &mut buf) {
        Ok(()) => Ok(()),
        // nothing is checked
        Err(DiskError::Mismatch { .. }) => unreachable!(),
        Err(DiskError::Failed) => Err(FormatError::DiskFault),
        Err(DiskError::Memory) => Err(FormatError::Memory),
    }
}

/// Formats the pack, whatever stands on it: every sector is written whole, in rising order, one sector command each. `number` is the
/// pack's number, which stands in each header; the leaders of both system files have `moment` as their dates, in seconds since the start
/// of 1901. Answers the number of free sectors. It takes no memory of its own.
///
/// DiskFault: the device failed. Memory: the device wanted some for its record writes, and had none. After each of them the
/// pack is to be formatted again; on a modelled disk a prefix of the record writes was done.
pub fn format<D: Disk>(disk: &mut D, number: u16, moment: u32) -> Result<u16, FormatError>
    ensures leaves { IsTrue D.told → OnOk result (IsFormatted (D.tape disk.old).form number moment (pack (D.tape disk.new))) }
    ensures free { IfOk result (λ free. free ≡ free_after_format (D.tape disk.old).form) }
    ensures writes { IsTrue D.told → Writes FormatError.Memory (format_writes (D.tape disk.old).form number moment) (pages_of (D.tape disk.old).form) (D.tape disk.old) (D.tape disk.new) result }
    ensures cause { HasCause cause_of_format (D.tape disk.old) (D.tape disk.new) result }
    ensures alone { DiskAlone (D.tape disk.old) (D.tape disk.new) }
{
    let shape = disk.shape();
    let fresh = Fresh {
        shape,
        number,
        moment,
    };
    for at in 0..shape.pages() {
        write_sector(disk, at, &fresh.sector(at))?;
    }
    Ok(shape.pages() - sectors_used(shape))
}
