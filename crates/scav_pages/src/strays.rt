// Labels that are neither free nor in range.
ghost use Rattle.std.specs.Prelude.{◌<◌, ◌≤◌, IsTrue};
ghost use Rattle.disk_records.specs.Addresses.{pages_of};
ghost use Rattle.disk_records.specs.Causes.{HasCause};
ghost use Rattle.disk_records.specs.Frames.{WritesUsable};
ghost use Rattle.disk_records.specs.Tapes.{DiskAlone, pack};
ghost use Rattle.pack_model.specs.reading.Sights.{sights};
ghost use Rattle.pack_model.specs.states.Sentences.{EachOnce};
ghost use Rattle.scav_pages.specs.Does.{Does};
ghost use Rattle.scav_pages.specs.Parts.{StrayReleased, StraysReleased};
ghost use Rattle.scav_pages.specs.Stops.{cause_of_stop};

use crate::errors::Stop;
use disk_records::{Disk, DiskError, Plan, Sector, is_free_label, page_of};
use label_check::look;

/// Releases each sector from 1 on whose header is right and whose label is neither free nor in range. Answers their number.
pub(crate) fn release_strays<D: Disk>(disk: &mut D) -> Result<u32, Stop>
    ensures does { IsTrue D.told → EachOnce (sights (pack (D.tape disk.old))) → Does StraysReleased (D.tape disk.old) (D.tape disk.new) result }
    ensures cause { HasCause cause_of_stop (D.tape disk.old) (D.tape disk.new) result }
    ensures frame { WritesUsable D.told (D.tape disk.old) (D.tape disk.new) }
    ensures alone { DiskAlone (D.tape disk.old) (D.tape disk.new) }
{
    let mut buf = Sector::ZEROS;
    let mut freed = 0u32;
    let end = disk.shape().pages();
    for at in 1..end {
        if release_stray(disk, at, &mut buf)? {
            freed = freed.saturating_add(1);
        }
    }
    Ok(freed)
}

/// Releases this sector, if its label is neither free nor in range and its header right. Answers whether it did.
fn release_stray<D: Disk>(disk: &mut D, at: u16, buf: &mut Sector) -> Result<bool, Stop>
    requires first { 1 ≤ at }
    requires place { at < pages_of (D.tape disk.old).form }
    ensures does { IsTrue D.told → EachOnce (sights (pack (D.tape disk.old))) → Does (StrayReleased at) (D.tape disk.old) (D.tape disk.new) result }
    ensures cause { HasCause cause_of_stop (D.tape disk.old) (D.tape disk.new) result }
    ensures frame { WritesUsable D.told (D.tape disk.old) (D.tape disk.new) }
    ensures alone { DiskAlone (D.tape disk.old) (D.tape disk.new) }
{
    let right = look(disk, at, buf)?;
    if !right || page_of(&buf.label).is_some() || is_free_label(&buf.label) {
        return Ok(false);
    }
    buf.label = [0xFFFF; 8];
    buf.value = [0xFFFF; 256];
    match disk.run(at, Plan::WRITE_LABEL, buf) {
        Ok(()) => Ok(true),
        // the header is the one that was read
        Err(DiskError::Mismatch { .. }) => Err(Stop::Astray),
        Err(DiskError::Failed) => Err(Stop::DiskFault),
        Err(DiskError::Memory) => Err(Stop::Memory),
    }
}
