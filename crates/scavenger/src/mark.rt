// The mark is opened first.
ghost use Rattle.std.specs.Prelude.{◌≡◌, ◌<◌, ◌≤◌, [], IsTrue};
ghost use Rattle.disk_records.specs.Addresses.{pages_of};
ghost use Rattle.disk_records.specs.Causes.{HasCause};
ghost use Rattle.disk_records.specs.Frames.{WritesUsable};
ghost use Rattle.disk_records.specs.Commands.{value_writes};
ghost use Rattle.disk_records.specs.Tapes.{DiskAlone, pack};
ghost use Rattle.label_check.specs.Causes.{cause_of_guard};
ghost use Rattle.label_check.specs.Guarded.{Carries, Guarded};
ghost use Rattle.scav_pages.specs.Stops.{cause_of_stop};
ghost use Rattle.scavenger.specs.Marks.{IsMarkSector};
ghost use Rattle.scavenger.specs.Runs.{Opens};

use alto_words::Fid;
use disk_records::{Disk, Page, Sector};
use label_check::{GuardError, read_page, write_value};
use scav_pages::Stop;

/// The word of DiskDescriptor that is the mark.
const MARK: usize = 6;

/// The mark of a pack that isn't closed.
const OPEN: u16 = 2;

/// Writes the value of the sector at the virtual address `at`, which is to carry this page, and has the device take it before anything that
/// comes. Two sector commands, one record write.
fn write_mark<D: Disk>(
    disk: &mut D,
    at: u16,
    page: Page,
    value: &[u16; 256],
) -> Result<(), GuardError>
    requires first { 1 ≤ at }
    requires place { at < pages_of (D.tape disk.old).form }
    ensures guarded { IsTrue D.told → Guarded (Carries at page) at [] (value_writes at value.now) 2 (D.tape disk.old) (D.tape disk.new) result }
    ensures cause { HasCause cause_of_guard (D.tape disk.old) (D.tape disk.new) result }
    ensures alone { DiskAlone (D.tape disk.old) (D.tape disk.new) }
{
    write_value(disk, at, page, value)?;
    match disk.settle() {
        Ok(()) => Ok(()),
        Err(_) => Err(GuardError::DiskFault),
    }
}

/// Opens the mark in this sector, the lowest that carries DiskDescriptor's first data page; 0 where none does, and then nothing is written. The device has
/// taken it before anything else is written.
pub(crate) fn open_mark<D: Disk>(disk: &mut D, at: u16) -> Result<(), Stop>
    requires place { at < pages_of (D.tape disk.old).form }
    ensures opens { IsTrue D.told → IsMarkSector (pack (D.tape disk.old)) at → Opens (D.tape disk.old) (D.tape disk.new) result }
    ensures cause { HasCause cause_of_stop (D.tape disk.old) (D.tape disk.new) result }
    ensures frame { WritesUsable D.told (D.tape disk.old) (D.tape disk.new) }
    ensures alone { DiskAlone (D.tape disk.old) (D.tape disk.new) }
{
    if at == 0 {
        return Ok(());
    }
    let page = Page {
        fid: Fid::DISK_DESCRIPTOR,
        number: 1,
    };
    let mut buf = Sector::ZEROS;
    read_page(disk, at, page, &mut buf)?;
    buf.value[MARK] = OPEN;
    write_mark(disk, at, page, &buf.value)?;
    Ok(())
}
