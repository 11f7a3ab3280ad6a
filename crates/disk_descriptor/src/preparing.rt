// Preparing the second drive of a pack: each of its sectors becomes a free one.
ghost use Rattle.std.specs.Prelude.{◌≡◌, ◌+◌, ◌*◌, ◌<◌, ◌≤◌, IfOk, IsTrue, OnOk, ℕ};
ghost use Rattle.disk_records.specs.Addresses.{disks_of, pages_of};
ghost use Rattle.disk_records.specs.Causes.{HasCause};
ghost use Rattle.disk_records.specs.Commands.{release_writes};
ghost use Rattle.disk_records.specs.Packs.{crash};
ghost use Rattle.disk_records.specs.Tapes.{DiskAlone, added, pack};
ghost use Rattle.laws_format.specs.Preparing.{HasUnusedDrive, IsPrepared, drive_pages, prepare_writes, prepared_writes};
ghost use Rattle.pack_model.specs.showing.Settling.{show};
ghost use Rattle.disk_descriptor.specs.Causes.{cause_of_format};
ghost use Rattle.disk_descriptor.specs.Writing.{Writes};

use crate::FormatError;
use crate::formatting::write_sector;
use disk_records::{Act, Disk, DiskError, Plan, Sector};

/// Writes label and value, whatever the header is.
const WRITE_REST: Plan = Plan {
    header: Act::Read,
    label: Act::Write,
    value: Act::Write,
};

/// Makes the label and the value of a sector free, whatever its header is. One sector command, two record writes.
fn clear_sector<D: Disk>(disk: &mut D, at: u16) -> Result<(), FormatError>
    requires { at < pages_of (D.tape disk.old).form }
    ensures writes { IsTrue D.told → Writes FormatError.Memory (release_writes at) 1 (D.tape disk.old) (D.tape disk.new) result }
    ensures cause { HasCause cause_of_format (D.tape disk.old) (D.tape disk.new) result }
    ensures alone { DiskAlone (D.tape disk.old) (D.tape disk.new) }
{
    let mut buf = Sector {
        header: [0; 2],
        label: [0xFFFF; 8],
        value: [0xFFFF; 256],
    };
    match disk.run(at, WRITE_REST, &mut buf) {
        Ok(()) => Ok(()),
        // nothing is checked
        Err(DiskError::Mismatch { .. }) => unreachable!(),
        Err(DiskError::Failed) => Err(FormatError::DiskFault),
        Err(DiskError::Memory) => Err(FormatError::Memory),
    }
}

/// Makes a sector free, its label and value first and its header only then, so that a sector whose header was wrong shows no page of old.
/// Two sector commands, five record writes.
fn prepare_sector<D: Disk>(disk: &mut D, number: u16, at: u16) -> Result<(), FormatError>
    requires { at < pages_of (D.tape disk.old).form }
    ensures writes { IsTrue D.told → Writes FormatError.Memory (prepared_writes (D.tape disk.old).form number at) 2 (D.tape disk.old) (D.tape disk.new) result }
    ensures cause { HasCause cause_of_format (D.tape disk.old) (D.tape disk.new) result }
    ensures alone { DiskAlone (D.tape disk.old) (D.tape disk.new) }
{
    let real = disk.shape().real_of(at);
    clear_sector(disk, at)?;
    let sector = Sector {
        header: [number, real],
        label: [0xFFFF; 8],
        value: [0xFFFF; 256],
    };
    write_sector(disk, at, &sector)
}

/// Prepares the second drive of a pack of two: each of its sectors becomes a free one, in rising order, two sector commands and five
/// record writes each. `number` is the pack's number, which stands in each header. A pack of which no sector of the second drive carries
/// a page shows at each crash point what it showed before. Answers the number of sectors of the drive. It takes no memory of its own.
///
/// DiskFault: the device failed. Memory: the device wanted some for its record writes, and had none. After each of them the
/// drive is to be prepared again; on a modelled disk a prefix of the record writes was done.
pub fn prepare<D: Disk>(disk: &mut D, number: u16) -> Result<u16, FormatError>
    requires two { disks_of (D.tape disk.old).form ≡ 2 }
    ensures frees { IsTrue D.told → OnOk result (IsPrepared (pack (D.tape disk.old)) (pack (D.tape disk.new))) }
    ensures shows { (k : ℕ) → IsTrue D.told → HasUnusedDrive (pack (D.tape disk.old)) → show (crash (pack (D.tape disk.old)) (added (D.tape disk.old) (D.tape disk.new)) k) ≡ show (pack (D.tape disk.old)) }
    ensures pages { IfOk result (λ pages. pages ≡ drive_pages (D.tape disk.old).form) }
    ensures writes { IsTrue D.told → Writes FormatError.Memory (prepare_writes (D.tape disk.old).form number) (pages_of (D.tape disk.old).form) (D.tape disk.old) (D.tape disk.new) result }
    ensures cause { HasCause cause_of_format (D.tape disk.old) (D.tape disk.new) result }
    ensures alone { DiskAlone (D.tape disk.old) (D.tape disk.new) }
{
    let shape = disk.shape();
    let first = shape.pages() / 2;
    for at in first..shape.pages() {
        prepare_sector(disk, number, at)?;
    }
    Ok(first)
}
