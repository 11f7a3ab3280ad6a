// Writing a sector that carries a page.
ghost use Rattle.std.specs.Prelude.{◌≡◌, ◌<◌, ◌≤◌, IsTrue, None, Some, []};
ghost use Rattle.disk_records.specs.Addresses.{pages_of};
ghost use Rattle.disk_records.specs.Causes.{HasCause};
ghost use Rattle.disk_records.specs.Checks.{is_legal, mismatch, writes_of};
ghost use Rattle.disk_records.specs.Commands.{value_writes, relabel_writes, release_writes};
ghost use Rattle.disk_records.specs.Labels.{page_of};
ghost use Rattle.disk_records.specs.Packs.{sector_at};
ghost use Rattle.disk_records.specs.Tapes.{DiskAlone, pack};
ghost use Rattle.label_check.specs.Causes.{cause_of_guard};
ghost use Rattle.label_check.specs.Guarded.{Carries, Guarded};
ghost use Rattle.label_check.specs.Steps.{Finished};

use crate::GuardError;
use crate::read::look_for;
use disk_records::{Disk, DiskError, Page, Plan, Sector};

/// The second sector command of a guarded call, on a sector that matches. Wrong comes where the disk isn't modelled and answers
/// that it doesn't.
pub(crate) fn finish<D: Disk>(
    disk: &mut D,
    at: u16,
    plan: Plan,
    buf: &mut Sector,
) -> Result<(), GuardError>
    requires place { at < pages_of (D.tape disk.old).form }
    requires legal { IsTrue (is_legal plan) }
    ensures finished { IsTrue D.told → mismatch plan buf.old (sector_at (pack (D.tape disk.old)) at) ≡ None → Finished (writes_of at plan buf.old) (D.tape disk.old) (D.tape disk.new) result }
    ensures cause { HasCause cause_of_guard (D.tape disk.old) (D.tape disk.new) result }
    ensures alone { DiskAlone (D.tape disk.old) (D.tape disk.new) }
{
    match disk.run(at, plan, buf) {
        Ok(()) => Ok(()),
        Err(DiskError::Mismatch { .. }) => Err(GuardError::Wrong { found: None }),
        Err(DiskError::Failed) => Err(GuardError::DiskFault),
        Err(DiskError::Memory) => Err(GuardError::Memory),
    }
}

/// Writes the value of the sector at the virtual address `at`, which is to carry this page. Two sector commands, one record
/// write.
pub fn write_value<D: Disk>(
    disk: &mut D,
    at: u16,
    page: Page,
    value: &[u16; 256],
) -> Result<(), GuardError>
    requires first { 1 ≤ at }
    requires place { at < pages_of (D.tape disk.old).form }
    ensures guarded { IsTrue D.told → Guarded (Carries at page) at [] (value_writes at value.now) 2 (D.tape disk.old) (D.tape disk.new) result }
    ensures cause { HasCause cause_of_guard (D.tape disk.old) (D.tape disk.new) result }
    ensures alone { DiskAlone (D.tape disk.old) (D.tape disk.new) }
{
    let mut buf = Sector::ZEROS;
    look_for(disk, at, page, &mut buf)?;
    buf.value = *value;
    finish(disk, at, Plan::WRITE_VALUE, &mut buf)
}

/// Gives the sector at the virtual address `at`, which is to carry this page, another label for the same page, and writes the
/// value that stands there again. Two sector commands, two record writes.
pub fn relabel<D: Disk>(
    disk: &mut D,
    at: u16,
    page: Page,
    label: [u16; 8],
) -> Result<(), GuardError>
    requires first { 1 ≤ at }
    requires place { at < pages_of (D.tape disk.old).form }
    requires same { page_of label ≡ Some page }
    ensures guarded { IsTrue D.told → Guarded (Carries at page) at [] (relabel_writes at label (sector_at (pack (D.tape disk.old)) at).value) 2 (D.tape disk.old) (D.tape disk.new) result }
    ensures cause { HasCause cause_of_guard (D.tape disk.old) (D.tape disk.new) result }
    ensures alone { DiskAlone (D.tape disk.old) (D.tape disk.new) }
{
    let mut buf = Sector::ZEROS;
    look_for(disk, at, page, &mut buf)?;
    buf.label = label;
    finish(disk, at, Plan::WRITE_LABEL, &mut buf)
}

/// Makes the sector at the virtual address `at`, which is to carry this page, free: ones in its label and its value. Two sector
/// commands, two record writes.
pub fn release<D: Disk>(disk: &mut D, at: u16, page: Page) -> Result<(), GuardError>
    requires first { 1 ≤ at }
    requires place { at < pages_of (D.tape disk.old).form }
    ensures guarded { IsTrue D.told → Guarded (Carries at page) at [] (release_writes at) 2 (D.tape disk.old) (D.tape disk.new) result }
    ensures cause { HasCause cause_of_guard (D.tape disk.old) (D.tape disk.new) result }
    ensures alone { DiskAlone (D.tape disk.old) (D.tape disk.new) }
{
    let mut free = Sector::ZEROS;
    look_for(disk, at, page, &mut free)?;
    free.label = [0xFFFF; 8];
    free.value = [0xFFFF; 256];
    finish(disk, at, Plan::WRITE_LABEL, &mut free)
}
