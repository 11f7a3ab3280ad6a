// Second copies of pages.
ghost use Rattle.std.specs.Prelude.{IsTrue};
ghost use Rattle.disk_records.specs.Causes.{HasCause};
ghost use Rattle.disk_records.specs.Frames.{WritesUsable};
ghost use Rattle.disk_records.specs.Tapes.{DiskAlone};
ghost use Rattle.scav_pages.specs.Does.{Does};
ghost use Rattle.scav_pages.specs.Parts.{CopiesReleased};
ghost use Rattle.scav_pages.specs.Stops.{cause_of_stop};

use crate::errors::Stop;
use crate::rows::next_row;
use disk_records::Disk;
use label_check::release;
use scav_table::{Pass, Table};

/// Releases each sector whose page a lower one carries. Answers their number.
pub(crate) fn release_copies<D: Disk>(disk: &mut D, table: &mut Table) -> Result<u32, Stop>
    ensures does { IsTrue D.told → Does CopiesReleased (D.tape disk.old) (D.tape disk.new) result }
    ensures cause { HasCause cause_of_stop (D.tape disk.old) (D.tape disk.new) result }
    ensures frame { WritesUsable D.told (D.tape disk.old) (D.tape disk.new) }
    ensures alone { DiskAlone (D.tape disk.old) (D.tape disk.new) }
{
    let mut pass = Pass::begin(disk, table)?;
    let mut last = None;
    let mut freed = 0u32;
    while let Some(row) = next_row(disk, table, &mut pass)? {
        if last == Some(row.page) {
            release(disk, row.at, row.page)?;
            freed = freed.saturating_add(1);
        }
        last = Some(row.page);
    }
    Ok(freed)
}
