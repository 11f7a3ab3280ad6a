// One pass along all rows that counts pages.
ghost use Rattle.std.specs.Prelude.{◌≡◌, ◌+◌, ◌*◌, ◌≤◌, ◌<◌, [], IsTrue, IfOk, IsErrOf};
ghost use Rattle.disk_records.specs.Addresses.{pages_of};
ghost use Rattle.disk_records.specs.Causes.{HasCause};
ghost use Rattle.disk_records.specs.Tapes.{DiskAlone, added, pack};
ghost use Rattle.scav_pages.specs.Stops.{cause_of_stop};
ghost use Rattle.scavenger.specs.Counting.{Counted};

use crate::counts::Counts;
use crate::system::look_at_system;
use disk_records::Disk;
use scav_pages::{Directory, Stop, meet_page, next_row};
use scav_table::{Pass, Table};

/// Counts the pages of a pack, whatever stands on it and at whatever window the table is. It takes no memory.
///
/// DiskFault: the disk failed. Memory: the disk wanted memory, and had none. Astray: a sector shows another page than a moment ago. Neither
/// of the last two comes on a machine that is modelled.
pub(crate) fn count_pages<D: Disk>(disk: &mut D, table: &mut Table) -> Result<Counts, Stop>
    ensures counted { IsTrue D.told → IfOk result (Counted (pack (D.tape disk.old))) }
    ensures mark { IfOk result (λ counts. counts.mark_at < pages_of (D.tape disk.old).form) }
    ensures found { IsTrue D.told → IsErrOf result Stop.Astray → ⊥ }
    ensures cause { HasCause cause_of_stop (D.tape disk.old) (D.tape disk.new) result }
    ensures alone { DiskAlone (D.tape disk.old) (D.tape disk.new) }
    ensures silent { IsTrue D.told → added (D.tape disk.old) (D.tape disk.new) ≡ [] }
{
    let system = look_at_system(disk)?;
    let shape = disk.shape();
    let mut pass = Pass::begin(disk, table)?;
    let mut counts = Counts::new();
    let mut dir = Directory::new();
    while let Some(row) = next_row(disk, table, &mut pass)? {
        if dir.walk.leaves(&row) {
            counts.close(shape, &system, &dir);
            dir = Directory::new();
        }
        meet_page(disk, &row, &mut dir)?;
    }
    counts.close(shape, &system, &dir);
    Ok(counts.finish(shape, &system))
}
