// The two parts of a sector command in the file of its drive: what it reads, and what it writes.
//
// A sector that isn't kept is read with its whole cylinder, by one read call, and the cylinder is kept. Where there is no memory
// for it, or it can't be read whole, the records that the command reads are read alone. A command that writes hands its sector to the
// file whole, so that what it writes touches what was written of the neighbouring sectors.
ghost use Rattle.std.specs.Prelude.{◌≡◌, ◌/◌, ◌≤◌, None, IfOk, IfSome, IfNone, OnOk, IsTrue};
ghost use Rattle.disk_records.specs.Checks.{is_legal, is_checked, mismatch, memory_after};
ghost use Rattle.disk_image.specs.Kept.{kept_at, ReadsKept, NoOtherChanges};
ghost use Rattle.disk_image.specs.Records.{writes_after_all};

use crate::codec::CYLINDER_BYTES;
use crate::kept::KeptSectors;
use crate::placed::{Failed, Placed};
use crate::records::{read_cylinder, read_front, seek_to, seek_to_cylinder, write_back};
use crate::spot::{CYLINDER_SECTORS, Spot};
use disk_records::{Plan, Sector, first_mismatch, update_memory};
use std::io::{Read, Seek};
use std::os::unix::fs::FileExt;

/// Reads and checks the records before the first Write, of a sector that isn't kept: those of its cylinder, which is read into memory that
/// is lent and kept from now on, else its own alone. Answers the first word that differs, if one does.
pub(crate) fn read_in_file<F: Read + Seek>(
    file: &mut F,
    spot: Spot,
    plan: Plan,
    buf: &mut Sector,
    kept: &mut KeptSectors,
    memory: &mut [u8],
) -> Result<Option<(u8, u16)>, Failed>
    requires legal { IsTrue (is_legal plan) }
    requires not_kept { kept_at kept.old spot.at ≡ None }
    ensures checked { IfOk result (λ found. IfSome found (λ place. IsTrue (is_checked plan place.0))) }
    ensures kept { ReadsKept spot.at plan buf.old buf.new kept.old kept.new result }
{
    keep_cylinder_of(file, spot, kept, memory);
    match kept.sector(spot.at) {
        Some(disk) => Ok(compare(plan, buf, disk)),
        None => compare_in_file(file, spot, plan, buf),
    }
}

/// Reads and checks the records before the first Write, of a sector whose cylinder can't be kept.
fn compare_in_file<F: Read + Seek>(
    file: &mut F,
    spot: Spot,
    plan: Plan,
    buf: &mut Sector,
) -> Result<Option<(u8, u16)>, Failed>
    requires { IsTrue (is_legal plan) }
    ensures { IfOk result (λ found. IfSome found (λ place. IsTrue (is_checked plan place.0))) }
{
    seek_to(file, spot.ahead)?;
    let disk = read_front(file, plan)?;
    Ok(compare(plan, buf, &disk))
}

/// Keeps the cylinder of a sector, which is read into memory that is lent. Where there is no memory for it, or it can't be read whole, all
/// that is kept stays as it was.
fn keep_cylinder_of<F: Read + Seek>(
    file: &mut F,
    spot: Spot,
    kept: &mut KeptSectors,
    memory: &mut [u8],
)
    ensures { NoOtherChanges (spot.at / 24) kept.old kept.new }
{
    let cylinder = spot.at / CYLINDER_SECTORS;
    let is_lent = memory.len() == CYLINDER_BYTES as usize;
    if is_lent && kept.has_room(cylinder) && seek_to_cylinder(file, spot.ahead).is_ok() {
        let _ = read_cylinder(file, cylinder, kept, memory);
    }
}

/// The first word of memory that differs from the disk's. Where there is none, memory gets the records that the command reads or checks.
pub(crate) fn compare(plan: Plan, memory: &mut Sector, disk: &Sector) -> Option<(u8, u16)>
    ensures found { result ≡ mismatch plan memory.old disk.now }
    ensures same { IfNone result (memory.new ≡ memory_after plan memory.old disk.now) }
{
    let found = first_mismatch(plan, memory, disk);
    if found.is_none() {
        update_memory(plan, memory, disk);
    }
    found
}

/// Writes a sector to its place in the file, and counts the records whose act is Write. The others were read or compared, so that memory
/// has them as they stand.
pub(crate) fn write_in_file<F: FileExt + Seek>(
    file: &mut Placed<F>,
    ahead: u16,
    plan: Plan,
    sector: &Sector,
    writes: &mut u64,
) -> Result<(), Failed>
    ensures count { OnOk result (writes.new ≡ writes_after_all plan writes.old) }
    ensures rise { writes.old ≤ writes.new }
{
    seek_to(file, ahead)?;
    write_back(file, plan, sector, writes)
}
