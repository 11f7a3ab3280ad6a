// A window of the rows of a pack.
ghost use Rattle.std.specs.Prelude.{◌≡◌, ◌-◌, ◌≤◌, [], replicate, IsTrue, IfOk, IsErrOf, OnOk, OnErr, None, length};
ghost use Rattle.disk_records.specs.Addresses.{pages_of};
ghost use Rattle.disk_records.specs.Causes.{HasCause};
ghost use Rattle.disk_records.specs.Tapes.{Looks};
ghost use Rattle.scav_table.specs.Causes.{cause_of_sweep};
ghost use Rattle.scav_table.specs.Filled.{Filled};
ghost use Rattle.scav_table.specs.Rows.{last_or, no_row};
ghost use Rattle.scav_table.specs.Windows.{IsWindow, IsFilled, given};

use crate::fill::fill;
use crate::row::NO_ROW;
use crate::{Row, SweepError};
use alto_words::List;
use disk_records::Disk;
use std::alloc::Global;
use std::marker::Model;

/// The rows of a window.
pub(crate) const WINDOW: usize = 1024;

/// A window of the rows of a pack: at most 1,024, with the last row that it gave as its bound. Its list always has 1,024 items, so only
/// `sweep` takes memory.
#[derive(Drop)]
pub struct Table {
    /// The rows, and no rows after them.
    window: List<Row>,
    /// The last row that was given, if there was one.
    bound: Option<Row>,
    /// The sectors from 1 on with a wrong header, as the last sweep saw them.
    bad: u16,
}

impl Model for Table {
    ghost use Rattle.scav_table.specs.Windows.{Window, IsWindow, given};

    ghost Value = { Window };

    ghost view = { λ table. record { rows = given table.window; bound = table.bound; bad = table.bad } };

    ghost invariant = { λ table. IsWindow 1024 table.window };
}

/// Lets the window have no rows.
fn clear(window: &mut List<Row>)
    ensures { window.new ≡ replicate (length window.old) no_row }
{
    window.as_vec().as_mut_slice().fill(NO_ROW);
}

/// Fills the items of a list with the least rows above the bound. After an error it has no rows.
fn fill_items<D: Disk>(
    disk: &mut D,
    above: Option<Row>,
    items: &mut List<Row>,
) -> Result<u16, SweepError>
    ensures filled { IfOk result (λ bad. Filled D.told (D.tape disk.old) above bad items.new) }
    ensures size { length items.new ≡ length items.old }
    ensures empty { OnErr result (items.new ≡ replicate (length items.old) no_row) }
    ensures cause { HasCause cause_of_sweep (D.tape disk.old) (D.tape disk.new) result }
    ensures want { IsTrue D.told → IsErrOf result SweepError.Memory → ⊥ }
    ensures looks { Looks D.told (pages_of (D.tape disk.old).form - 1) (D.tape disk.old) (D.tape disk.new) }
{
    match fill(disk, above, items.as_vec().as_mut_slice()) {
        Ok(bad) => Ok(bad),
        Err(error) => {
            clear(items);
            Err(error)
        }
    }
}

/// The same of a window.
fn refill<D: Disk>(
    disk: &mut D,
    above: Option<Row>,
    window: &mut List<Row>,
) -> Result<u16, SweepError>
    requires { length window.old ≡ 1024 }
    ensures window { IsWindow 1024 window.new }
    ensures filled { IfOk result (IsFilled D.told (D.tape disk.old) above (given window.new)) }
    ensures empty { OnErr result (given window.new ≡ []) }
    ensures cause { HasCause cause_of_sweep (D.tape disk.old) (D.tape disk.new) result }
    ensures want { IsTrue D.told → IsErrOf result SweepError.Memory → ⊥ }
    ensures looks { Looks D.told (pages_of (D.tape disk.old).form - 1) (D.tape disk.old) (D.tape disk.new) }
{
    fill_items(disk, above, window)
}

/// The last of these rows, and the bound where there is none.
fn last_or(bound: Option<Row>, rows: &[Row]) -> Option<Row>
    ensures { result ≡ last_or bound rows.now }
{
    match rows {
        [.., last] => Some(*last),
        [] => bound,
    }
}

/// The rows of a window: its items before the first without an address.
fn given(list: &[Row]) -> &[Row]
    requires { IsWindow 1024 list.now }
    ensures rows { result.now ≡ given list.now }
    ensures most { length result.now ≤ 1024 }
{
    &list[..list.partition_point(|row| row.at != 0)]
}

/// Takes the memory of a table, and fills its first window. At most one sector command a sector.
///
/// DiskFault: the disk failed. Memory: no memory was left for the table.
pub fn sweep<D: Disk>(alloc: Global, disk: &mut D) -> Result<Table, SweepError>
    ensures window { IfOk result (λ table. IsFilled D.told (D.tape disk.old) None table.rows table.bad) }
    ensures bound { IfOk result (λ table. table.bound ≡ last_or None table.rows) }
    ensures cause { HasCause cause_of_sweep (D.tape disk.old) (D.tape disk.new) result }
    ensures looks { Looks D.told (pages_of (D.tape disk.old).form - 1) (D.tape disk.old) (D.tape disk.new) }
{
    let mut window = List::from_vec(vec![in alloc; NO_ROW; WINDOW]?);
    let bad = refill(disk, None, &mut window)?;
    let bound = last_or(None, given(window.as_slice()));
    Ok(Table { window, bound, bad })
}

impl Table {
    ghost use Rattle.std.specs.Prelude.{◌↔◌, ◌<◌};
    ghost use Rattle.scav_table.specs.Rows.{Rises};

    /// The rows of the window, at most 1,024, which rise by full name, page number and address.
    pub fn rows(&self) -> &[Row]
        ensures rows { result.now ≡ self.now.rows }
        ensures most { length result.now ≤ 1024 }
        ensures rising { Rises None result.now }
    {
        given(self.window.as_slice())
    }

    /// The bad sectors: those from 1 on with a wrong header, as the last sweep saw them.
    pub fn bad(&self) -> u16
        ensures { result ≡ self.now.bad }
    {
        self.bad
    }

    /// Fills the window with the first rows above the bound, of the pack as it is in this call, and answers whether there is one: else
    /// the bound stays. It takes no memory, and at most one sector command a sector.
    ///
    /// DiskFault: the disk failed. Memory: no memory was left, which never comes on a machine that is modelled. After either of them
    /// there are no rows, and the bound and the number of bad sectors are as before.
    pub fn advance<D: Disk>(&mut self, disk: &mut D) -> Result<bool, SweepError>
        ensures window { OnOk result (IsFilled D.told (D.tape disk.old) self.old.bound self.new.rows self.new.bad) }
        ensures more { IfOk result (λ more. IsTrue more ↔ (0 < length self.new.rows)) }
        ensures bound { OnOk result (self.new.bound ≡ last_or self.old.bound self.new.rows) }
        ensures empty { OnErr result ((self.new.rows ≡ []) × (self.new.bound ≡ self.old.bound) × (self.new.bad ≡ self.old.bad)) }
        ensures cause { HasCause cause_of_sweep (D.tape disk.old) (D.tape disk.new) result }
        ensures want { IsTrue D.told → IsErrOf result SweepError.Memory → ⊥ }
        ensures looks { Looks D.told (pages_of (D.tape disk.old).form - 1) (D.tape disk.old) (D.tape disk.new) }
    {
        self.bad = refill(disk, self.bound, &mut self.window)?;
        let rows = given(self.window.as_slice());
        let more = !rows.is_empty();
        self.bound = last_or(self.bound, rows);
        Ok(more)
    }

    /// Fills the window with the first rows of the pack as it is in this call. It takes no memory, and at most one sector command a
    /// sector.
    ///
    /// DiskFault: the disk failed. Memory: no memory was left, which never comes on a machine that is modelled. After either of them
    /// there are no rows, and the bound and the number of bad sectors are as before.
    pub fn rewind<D: Disk>(&mut self, disk: &mut D) -> Result<(), SweepError>
        ensures window { OnOk result (IsFilled D.told (D.tape disk.old) None self.new.rows self.new.bad) }
        ensures bound { OnOk result (self.new.bound ≡ last_or None self.new.rows) }
        ensures empty { OnErr result ((self.new.rows ≡ []) × (self.new.bound ≡ self.old.bound) × (self.new.bad ≡ self.old.bad)) }
        ensures cause { HasCause cause_of_sweep (D.tape disk.old) (D.tape disk.new) result }
        ensures want { IsTrue D.told → IsErrOf result SweepError.Memory → ⊥ }
        ensures looks { Looks D.told (pages_of (D.tape disk.old).form - 1) (D.tape disk.old) (D.tape disk.new) }
    {
        self.bad = refill(disk, None, &mut self.window)?;
        self.bound = last_or(None, given(self.window.as_slice()));
        Ok(())
    }
}

#[cfg(test)]
mod tests;
