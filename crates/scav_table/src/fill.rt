// One sweep of all labels, for the least rows above a bound.
ghost use Rattle.std.specs.Prelude.{◌≡◌, ◌-◌, ◌≤◌, cond, IsTrue, IfOk, IfSome, IsErrOf, length, take};
ghost use Rattle.std.specs.List.Sorted.{IsNonDecreasingBy};
ghost use Rattle.disk_records.specs.Addresses.{pages_of};
ghost use Rattle.disk_records.specs.Causes.{HasCause};
ghost use Rattle.disk_records.specs.Labels.{page_of};
ghost use Rattle.disk_records.specs.Tapes.{Looks};
ghost use Rattle.disk_records.specs.Words.{word};
ghost use Rattle.scav_table.specs.Causes.{cause_of_sweep};
ghost use Rattle.scav_table.specs.Filled.{Filled, IsRowAt};
ghost use Rattle.scav_table.specs.Rows.{rank, placed, is_above, row_in};

use crate::insert::insert;
use crate::row::NO_ROW;
use crate::{Row, SweepError};
use disk_records::{Disk, Sector, bytes_in, page_of};
use label_check::look;

/// The row of a sector with this label, if it names a page.
fn row_in(at: u16, label: &[u16; 8]) -> Option<Row>
    requires { 1 ≤ at }
    ensures row { result ≡ row_in at (word label.now 3) (page_of label.now) }
    ensures low { IfSome result (IsRowAt at) }
{
    let page = page_of(label)?;
    Some(Row {
        page,
        at,
        bytes: bytes_in(label),
    })
}

/// Takes a row, where it is above the bound.
fn offer(window: &mut [Row], above: Option<Row>, row: Row)
    requires { IsNonDecreasingBy rank window.old }
    ensures { window.new ≡ cond (is_above above row) (take (length window.old) (placed row window.old)) window.old }
{
    if above.is_none_or(|bound| bound.is_below(&row)) {
        insert(window, row);
    }
}

/// Fills the window with the least rows above the bound, and answers the number of sectors from 1 on that have a wrong header. One
/// sector command a sector. After an error what the window holds is open.
pub(crate) fn fill<D: Disk>(
    disk: &mut D,
    above: Option<Row>,
    window: &mut [Row],
) -> Result<u16, SweepError>
    ensures filled { IfOk result (λ bad. Filled D.told (D.tape disk.old) above bad window.new) }
    ensures cause { HasCause cause_of_sweep (D.tape disk.old) (D.tape disk.new) result }
    ensures want { IsTrue D.told → IsErrOf result SweepError.Memory → ⊥ }
    ensures looks { Looks D.told (pages_of (D.tape disk.old).form - 1) (D.tape disk.old) (D.tape disk.new) }
{
    window.fill(NO_ROW);
    let mut buf = Sector::ZEROS;
    let mut bad = 0;
    let end = disk.shape().pages();
    for at in 1..end {
        if look(disk, at, &mut buf)? {
            if let Some(row) = row_in(at, &buf.label) {
                offer(window, above, row);
            }
        } else {
            bad += 1;
        }
    }
    Ok(bad)
}
