// Taking a free sector.
ghost use Rattle.std.specs.Prelude.{◌≡◌, ◌<◌, ◌≤◌, IsTrue, OnOk, true, []};
ghost use Rattle.disk_records.specs.Addresses.{pages_of};
ghost use Rattle.disk_records.specs.Causes.{HasCause, IsCause};
ghost use Rattle.disk_records.specs.Frames.{IsFreeSector};
ghost use Rattle.disk_records.specs.Commands.{claim_writes, value_writes};
ghost use Rattle.disk_records.specs.Labels.{tag, in_range};
ghost use Rattle.disk_records.specs.Packs.{sector_at};
ghost use Rattle.disk_records.specs.Tapes.{DiskAlone, Looks, pack};
ghost use Rattle.label_check.specs.Causes.{cause_of_guard};
ghost use Rattle.label_check.specs.Guarded.{Guarded};
ghost use Rattle.label_check.specs.Steps.{Refused, asks_free};

use crate::GuardError;
use crate::read::look;
use crate::write::finish;
use disk_records::{Disk, DiskError, Plan, Sector, Shape};

/// What a free label is checked against. The three words that make a label free aren't 0, so the disk compares each of them;
/// the others are 0 and match any word.
const FREE: [u16; 8] = [0, 0, 0, 0, 0, 0xFFFF, 0xFFFF, 0xFFFF];

/// The memory side of a command that writes this value to the sector at `at` if it is free. The real address isn't 0 from sector 1
/// on, so the disk compares it; the pack number is 0 and matches any.
fn free_sector(shape: Shape, at: u16, value: &[u16; 256]) -> Sector
    requires { at < pages_of shape }
    ensures { result ≡ asks_free shape at value.now }
{
    Sector {
        header: [0, shape.real_of(at)],
        label: FREE,
        value: *value,
    }
}

/// The answer for a sector that isn't free: its label is read. One sector command.
fn refusal<D: Disk>(disk: &mut D, at: u16, buf: &mut Sector) -> GuardError
    requires first { 1 ≤ at }
    requires place { at < pages_of (D.tape disk.old).form }
    ensures refused { IsTrue D.told → Refused at (D.tape disk.old) (D.tape disk.new) result }
    ensures cause { IsCause (D.tape disk.old) (D.tape disk.new) (cause_of_guard result) }
    ensures looks { Looks D.told 1 (D.tape disk.old) (D.tape disk.new) }
{
    match look(disk, at, buf) {
        Ok(true) => GuardError::Wrong {
            found: Some(buf.label),
        },
        Ok(false) => GuardError::Wrong { found: None },
        Err(error) => GuardError::from(error),
    }
}

/// Writes the value in `buf` to a free sector. One sector command, or two where Wrong. At Ok `buf` has the header that stands there,
/// and its value as before.
fn fill<D: Disk>(disk: &mut D, at: u16, buf: &mut Sector) -> Result<(), GuardError>
    requires first { 1 ≤ at }
    requires place { at < pages_of (D.tape disk.old).form }
    requires asks_free { buf.old ≡ asks_free (D.tape disk.old).form at buf.old.value }
    ensures guarded { IsTrue D.told → Guarded (λ p. IsFreeSector p at) at [] (value_writes at buf.old.value) 1 (D.tape disk.old) (D.tape disk.new) result }
    ensures header { IsTrue D.told → OnOk result (buf.new.header ≡ (sector_at (pack (D.tape disk.new)) at).header) }
    ensures value { IsTrue D.told → OnOk result (buf.new.value ≡ buf.old.value) }
    ensures cause { HasCause cause_of_guard (D.tape disk.old) (D.tape disk.new) result }
    ensures alone { DiskAlone (D.tape disk.old) (D.tape disk.new) }
{
    match disk.run(at, Plan::WRITE_VALUE, buf) {
        Ok(()) => Ok(()),
        Err(DiskError::Mismatch { .. }) => Err(refusal(disk, at, buf)),
        Err(DiskError::Failed) => Err(GuardError::DiskFault),
        Err(DiskError::Memory) => Err(GuardError::Memory),
    }
}

/// Takes the sector at the virtual address `at`, which is to be free: writes its value while it is still free, then this label
/// and the equal value. Two sector commands, three record writes.
pub fn claim<D: Disk>(
    disk: &mut D,
    at: u16,
    label: [u16; 8],
    value: &[u16; 256],
) -> Result<(), GuardError>
    requires first { 1 ≤ at }
    requires place { at < pages_of (D.tape disk.old).form }
    requires label { in_range (tag label) ≡ true }
    ensures guarded { IsTrue D.told → Guarded (λ p. IsFreeSector p at) at (value_writes at value.now) (claim_writes at label value.now) 2 (D.tape disk.old) (D.tape disk.new) result }
    ensures cause { HasCause cause_of_guard (D.tape disk.old) (D.tape disk.new) result }
    ensures alone { DiskAlone (D.tape disk.old) (D.tape disk.new) }
{
    let mut buf = free_sector(disk.shape(), at, value);
    fill(disk, at, &mut buf)?;
    buf.label = label;
    finish(disk, at, Plan::WRITE_LABEL, &mut buf)
}
