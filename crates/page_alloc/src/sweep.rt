// A sweep of all labels.
ghost use Rattle.std.specs.Prelude.{◌≡◌, ℕ, not, ◌+◌, ◌<◌, ◌≤◌, Bool, cond, IsTrue, IfOk, length, take, min};
ghost use Rattle.disk_records.specs.Addresses.{pages_of};
ghost use Rattle.disk_records.specs.Causes.{HasCause};
ghost use Rattle.disk_records.specs.Packs.{is_free_at};
ghost use Rattle.disk_records.specs.Tapes.{Looks, pack};
ghost use Rattle.hint_cache.specs.Bits.{busy_at};
ghost use Rattle.page_alloc.specs.Causes.{cause_of_finding};
ghost use Rattle.page_alloc.specs.Free.{below, free_addresses, IsCorrected, IsRising};
ghost use Rattle.page_alloc.specs.Inside.{IsCheckedAt, AreChecked, is_left};

use crate::AllocError;
use crate::bits::{correct, list_free};
use crate::count::counted;
use disk_records::{Disk, Sector};
use hint_cache::BitTable;
use std::alloc::Global;

/// Whether a sector is free. At most one sector command, and none where it was offered: its label was looked at then, and its bit
/// says since what that says.
fn is_free_by_now<D: Disk>(
    disk: &mut D,
    table: &mut BitTable,
    offers: &BitTable,
    at: u16,
    buf: &mut Sector,
) -> Result<bool, AllocError>
    requires first { 1 ≤ at }
    requires place { at < pages_of (D.tape disk.old).form }
    requires sized { length table.old ≡ pages_of (D.tape disk.old).form }
    requires offers { length offers.now ≡ pages_of (D.tape disk.old).form }
    requires checked { IsTrue D.told → IsCheckedAt (pack (D.tape disk.old)) offers.now table.old at }
    ensures free { IsTrue D.told → IfOk result (λ free. free ≡ is_free_at (pack (D.tape disk.old)) at) }
    ensures cause { HasCause cause_of_finding (D.tape disk.old) (D.tape disk.new) result }
    ensures sized { length table.new ≡ length table.old }
    ensures corrected { IsTrue D.told → IsCorrected (pack (D.tape disk.old)) table.old table.new }
    ensures looks { Looks D.told (cond (busy_at offers.now at) 1 0) (D.tape disk.old) (D.tape disk.new) }
{
    if offers.is_busy(at) {
        correct(disk, table, at, buf)
    } else {
        Ok(!table.is_busy(at))
    }
}

/// What a sweep of all labels finds.
#[derive(Drop)]
pub(crate) struct Swept {
    /// The lowest free sectors, as many as are wanted or there are.
    pub(crate) lowest: Vec<u16>,
    /// The number of all free sectors.
    pub(crate) free: u16,
}

/// Looks at every sector but the first that wasn't offered, and marks it in the table as its label says. Those that were offered
/// have been looked at.
pub(crate) fn sweep<D: Disk>(
    alloc: Global,
    disk: &mut D,
    table: &mut BitTable,
    offers: &BitTable,
    wanted: u16,
    buf: &mut Sector,
) -> Result<Swept, AllocError>
    requires sized { length table.old ≡ pages_of (D.tape disk.old).form }
    requires offers { length offers.now ≡ pages_of (D.tape disk.old).form }
    requires checked { IsTrue D.told → AreChecked (pack (D.tape disk.old)) offers.now table.old (pages_of (D.tape disk.old).form) }
    ensures rising { IfOk result (λ swept. IsRising (pages_of (D.tape disk.old).form) swept.lowest.items) }
    ensures count { IfOk result (λ swept. length swept.lowest.items ≡ min wanted swept.free) }
    ensures free { IsTrue D.told → IfOk result (λ swept. swept.free ≡ length (free_addresses (pack (D.tape disk.old)))) }
    ensures lowest { IsTrue D.told → IfOk result (λ swept. swept.lowest.items ≡ take wanted (free_addresses (pack (D.tape disk.old)))) }
    ensures cause { HasCause cause_of_finding (D.tape disk.old) (D.tape disk.new) result }
    ensures sized { length table.new ≡ length table.old }
    ensures corrected { IsTrue D.told → IsCorrected (pack (D.tape disk.old)) table.old table.new }
    ensures looks { Looks D.told (length (below (is_left offers.now) (pages_of (D.tape disk.old).form))) (D.tape disk.old) (D.tape disk.new) }
{
    let end = disk.shape().pages();
    let mut lowest = Vec::with_capacity(alloc, wanted.min(end) as usize)?;
    let mut free = 0;
    for at in 1..end {
        let is_free = is_free_by_now(disk, table, offers, at, buf)?;
        list_free(&mut lowest, wanted, at, is_free)?;
        free = counted(free, is_free);
    }
    Ok(Swept { lowest, free })
}
