// A bit that is corrected by its sector's label, and the list of what is found.
ghost use Rattle.std.specs.Prelude.{◌≡◌, ◌≢◌, ℕ, not, ◌+◌, ◌<◌, ◌≤◌, ◌++◌, ◌∷◌, ◌&&◌, Bool, cond, [], IsTrue, IfOk, OnOk, length, nat_lt};
ghost use Rattle.disk_records.specs.Addresses.{pages_of};
ghost use Rattle.disk_records.specs.Causes.{HasCause};
ghost use Rattle.disk_records.specs.Packs.{is_free_at};
ghost use Rattle.disk_records.specs.Tapes.{Looks, pack};
ghost use Rattle.hint_cache.specs.Bits.{busy_at};
ghost use Rattle.page_alloc.specs.Causes.{cause_of_finding};
ghost use Rattle.page_alloc.specs.Free.{IsCorrected};
ghost use Rattle.page_alloc.specs.Inside.{listed};

use crate::AllocError;
use crate::count::is_free;
use alto_words::Memory;
use disk_records::{Disk, Sector};
use hint_cache::BitTable;

/// Looks at a sector, and marks it in the table as its label says. At most one sector command.
pub(crate) fn correct<D: Disk>(
    disk: &mut D,
    table: &mut BitTable,
    at: u16,
    buf: &mut Sector,
) -> Result<bool, AllocError>
    requires first { 1 ≤ at }
    requires place { at < pages_of (D.tape disk.old).form }
    requires sized { length table.old ≡ pages_of (D.tape disk.old).form }
    ensures free { IsTrue D.told → IfOk result (λ free. free ≡ is_free_at (pack (D.tape disk.old)) at) }
    ensures here { IsTrue D.told → OnOk result (busy_at table.new at ≡ not (is_free_at (pack (D.tape disk.old)) at)) }
    ensures cause { HasCause cause_of_finding (D.tape disk.old) (D.tape disk.new) result }
    ensures sized { length table.new ≡ length table.old }
    ensures others { (k : ℕ) → k ≢ at → busy_at table.new k ≡ busy_at table.old k }
    ensures corrected { IsTrue D.told → IsCorrected (pack (D.tape disk.old)) table.old table.new }
    ensures looks { Looks D.told 1 (D.tape disk.old) (D.tape disk.new) }
{
    let free = is_free(disk, at, buf)?;
    table.set(at, !free);
    Ok(free)
}

/// Appends the address of a free sector, unless the list has as many addresses as are wanted.
pub(crate) fn list_free(
    found: &mut Vec<u16>,
    wanted: u16,
    at: u16,
    free: bool,
) -> Result<(), Memory>
    ensures { OnOk result (found.new.items ≡ listed wanted at free found.old.items) }
{
    if free && found.len() < wanted as usize {
        found.push(at)?;
    }
    Ok(())
}
