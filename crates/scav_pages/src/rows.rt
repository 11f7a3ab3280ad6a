// The rows of a pass, each with a sector that the disk has.
ghost use Rattle.std.specs.Prelude.{◌≡◌, ◌-◌, ◌<◌, ◌≤◌, IsTrue, IfOk, IfSome, IsErrOf, OnOk};
ghost use Rattle.std.specs.Option.{option_or};
ghost use Rattle.disk_records.specs.Addresses.{pages_of};
ghost use Rattle.disk_records.specs.Causes.{HasCause};
ghost use Rattle.disk_records.specs.Tapes.{Looks, pack};
ghost use Rattle.scav_table.specs.Laws.{IsNextRow};
ghost use Rattle.scav_table.specs.Passes.{Stands, IsNext};
ghost use Rattle.scav_pages.specs.Stops.{cause_of_stop};
ghost use Rattle.scav_pages.specs.Walks.{AreWords};

use crate::errors::Stop;
use disk_records::Disk;
use scav_table::{Pass, Row, Table};

/// The next row of a pass over the pages of a pack, in the order of their files and numbers, with a sector that the disk has: the first row
/// above the last one that the pass gave, of the pack as it is in this call. None if there is no such row.
///
/// At most one sector command for each sector after sector 0, and none except at the end of a window. Nothing is written. DiskFault: the
/// disk failed. Memory: no memory was left. Astray: the row tells a sector that the disk hasn't. Neither of the last two comes on a machine
/// that is modelled. After each of them the pass is over.
pub fn next_row<D: Disk>(
    disk: &mut D,
    table: &mut Table,
    pass: &mut Pass,
) -> Result<Option<Row>, Stop>
    requires { Stands D.told (pack (D.tape disk.old)) table.old pass.old }
    ensures stands { OnOk result (Stands D.told (pack (D.tape disk.new)) table.new pass.new) }
    ensures next { IsTrue D.told → IfOk result (IsNextRow (pack (D.tape disk.old)) pass.old.last) }
    ensures last { IfOk result (λ row. pass.new.last ≡ option_or row pass.old.last) }
    ensures rises { IfOk result (IsNext pass.old.last) }
    ensures words { IfOk result (λ next. IfSome next AreWords) }
    ensures place { IfOk result (λ next. IfSome next (λ row. (1 ≤ row.at) × (row.at < pages_of (D.tape disk.old).form))) }
    ensures want { IsTrue D.told → IsErrOf result Stop.Memory → ⊥ }
    ensures found { IsTrue D.told → IsErrOf result Stop.Astray → ⊥ }
    ensures cause { HasCause cause_of_stop (D.tape disk.old) (D.tape disk.new) result }
    ensures looks { Looks D.told (pages_of (D.tape disk.old).form - 1) (D.tape disk.old) (D.tape disk.new) }
{
    let Some(row) = pass.next(disk, table)? else {
        return Ok(None);
    };
    if row.at < 1 || row.at >= disk.shape().pages() {
        return Err(Stop::Astray);
    }
    Ok(Some(row))
}
