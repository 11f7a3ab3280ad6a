// A pass along all rows, window by window.
ghost use Rattle.std.specs.Prelude.{◌≡◌, ◌-◌, ◌<◌, IsTrue, IfOk, IsErrOf, OnErr, OnOk, None};
ghost use Rattle.std.specs.Option.{option_or};
ghost use Rattle.disk_records.specs.Addresses.{pages_of};
ghost use Rattle.disk_records.specs.Causes.{HasCause};
ghost use Rattle.disk_records.specs.Tapes.{Looks, pack};
ghost use Rattle.pack_model.specs.reading.Sights.{sights};
ghost use Rattle.pack_model.specs.states.InUse.{bad_sectors};
ghost use Rattle.scav_table.specs.Causes.{cause_of_sweep};
ghost use Rattle.scav_table.specs.Passes.{Stands, IsNext, first_of};
ghost use Rattle.scav_table.specs.Rows.{rows_above};

use crate::table::WINDOW;
use crate::{Row, SweepError, Table};
use disk_records::Disk;

/// A pass along all rows of a pack. Whoever makes one may write between two rows at or below the row in hand: the rows above it stay, so
/// each of them comes once.
#[derive(Clone, Copy, Debug, PartialEq, Eq)]
pub struct Pass {
    /// The rows of the window that were given.
    place: usize,
    /// The row in hand.
    last: Option<Row>,
}

impl Pass {
    /// A pass before the first row, and the table's first window. At most one sector command a sector. The table's bad sectors are counted
    /// anew.
    ///
    /// DiskFault: the disk failed. Memory: no memory was left, which never comes on a machine that is modelled. After either of them the
    /// number of bad sectors is as before.
    pub fn begin<D: Disk>(disk: &mut D, table: &mut Table) -> Result<Pass, SweepError>
        ensures stands { IfOk result (Stands D.told (pack (D.tape disk.new)) table.new) }
        ensures first { IfOk result (λ pass. pass.last ≡ None) }
        ensures bad { IsTrue D.told → OnOk result (table.new.bad ≡ bad_sectors (sights (pack (D.tape disk.old)))) }
        ensures kept { OnErr result (table.new.bad ≡ table.old.bad) }
        ensures cause { HasCause cause_of_sweep (D.tape disk.old) (D.tape disk.new) result }
        ensures want { IsTrue D.told → IsErrOf result SweepError.Memory → ⊥ }
        ensures looks { Looks D.told (pages_of (D.tape disk.old).form - 1) (D.tape disk.old) (D.tape disk.new) }
    {
        table.rewind(disk)?;
        Ok(Pass {
            place: 0,
            last: None,
        })
    }

    /// Goes on to the next window at the end of a full one. A window that isn't full is the last one.
    fn turn<D: Disk>(&mut self, disk: &mut D, table: &mut Table) -> Result<(), SweepError>
        requires { Stands D.told (pack (D.tape disk.old)) table.old self.old }
        ensures stands { OnOk result (Stands D.told (pack (D.tape disk.new)) table.new self.new) }
        ensures last { self.new.last ≡ self.old.last }
        ensures short { OnOk result (self.new.place < 1024) }
        ensures bad { IsTrue D.told → table.old.bad ≡ bad_sectors (sights (pack (D.tape disk.old))) → table.new.bad ≡ bad_sectors (sights (pack (D.tape disk.old))) }
        ensures cause { HasCause cause_of_sweep (D.tape disk.old) (D.tape disk.new) result }
        ensures want { IsTrue D.told → IsErrOf result SweepError.Memory → ⊥ }
        ensures looks { Looks D.told (pages_of (D.tape disk.old).form - 1) (D.tape disk.old) (D.tape disk.new) }
    {
        if self.place == WINDOW {
            table.advance(disk)?;
            self.place = 0;
        }
        Ok(())
    }

    /// The next row: the first above the row in hand, of the pack as it is in this call. It becomes the row in hand. None where there is
    /// no such row. At most one sector command a sector, and none except at the end of a window. If the table's number of bad sectors was
    /// that of the pack, it still is, whatever the answer.
    ///
    /// DiskFault: the disk failed. Memory: no memory was left, which never comes on a machine that is modelled. After either of them the
    /// pass is over.
    pub fn next<D: Disk>(
        &mut self,
        disk: &mut D,
        table: &mut Table,
    ) -> Result<Option<Row>, SweepError>
        requires { Stands D.told (pack (D.tape disk.old)) table.old self.old }
        ensures stands { OnOk result (Stands D.told (pack (D.tape disk.new)) table.new self.new) }
        ensures next { IsTrue D.told → IfOk result (λ row. row ≡ first_of (rows_above (pack (D.tape disk.old)) self.old.last)) }
        ensures last { IfOk result (λ row. self.new.last ≡ option_or row self.old.last) }
        ensures rises { IfOk result (IsNext self.old.last) }
        ensures bad { IsTrue D.told → table.old.bad ≡ bad_sectors (sights (pack (D.tape disk.old))) → table.new.bad ≡ bad_sectors (sights (pack (D.tape disk.old))) }
        ensures cause { HasCause cause_of_sweep (D.tape disk.old) (D.tape disk.new) result }
        ensures want { IsTrue D.told → IsErrOf result SweepError.Memory → ⊥ }
        ensures looks { Looks D.told (pages_of (D.tape disk.old).form - 1) (D.tape disk.old) (D.tape disk.new) }
    {
        self.turn(disk, table)?;
        let Some(row) = table.rows().get(self.place).copied() else {
            return Ok(None);
        };
        self.place += 1;
        self.last = Some(row);
        Ok(Some(row))
    }
}
