// Taking free sectors.
ghost use Rattle.std.specs.Prelude.{◌≡◌, ℕ, ◌+◌, ◌-◌, ◌*◌, ◌<◌, ◌≤◌, ◌⊎◌, true, [], IsTrue, IsErrOf, IfOk, OnOk, OnErr, length, take, All, Contains};
ghost use Rattle.disk_records.specs.Addresses.{pages_of};
ghost use Rattle.disk_records.specs.Causes.{HasCause};
ghost use Rattle.disk_records.specs.Packs.{is_free_at};
ghost use Rattle.disk_records.specs.Tapes.{Looks, pack};
ghost use Rattle.hint_cache.specs.Bits.{busy_at};
ghost use Rattle.page_alloc.specs.Causes.{cause_of_alloc};
ghost use Rattle.page_alloc.specs.Free.{IsReserved, free_addresses, offered_sectors, offered_free, IsTrueTable, IsCorrected, IsCorrectedBut, IsRising, IfFull};

use crate::AllocError;
use crate::offers::{Offered, gather_offered, offers_kept};
use crate::sweep::sweep;
use disk_records::{Disk, Sector};
use hint_cache::BitTable;
use std::alloc::Global;

/// Free sectors in rising order, first of those that the table offers. Where these are too few, all other labels are swept.
fn find_free<D: Disk>(
    alloc: Global,
    disk: &mut D,
    table: &mut BitTable,
    wanted: u16,
    buf: &mut Sector,
) -> Result<Vec<u16>, AllocError>
    requires sized { length table.old ≡ pages_of (D.tape disk.old).form }
    ensures rising { IfOk result (λ found. IsRising (pages_of (D.tape disk.old).form) found.items) }
    ensures count { IfOk result (λ found. length found.items ≡ wanted) }
    ensures free { IsTrue D.told → IfOk result (λ found. All (λ at. is_free_at (pack (D.tape disk.old)) at ≡ true) found.items) }
    ensures lowest { IsTrue D.told → IsTrueTable (pack (D.tape disk.old)) table.old → IfOk result (λ found. found.items ≡ take wanted (free_addresses (pack (D.tape disk.old)))) }
    ensures cause { HasCause cause_of_alloc (D.tape disk.old) (D.tape disk.new) result }
    ensures full { IfFull result (λ needed free. (needed ≡ wanted) × (free < wanted)) }
    ensures few { IsTrue D.told → length (free_addresses (pack (D.tape disk.old))) < wanted → OnOk result ⊥ }
    ensures counted { IsTrue D.told → IfFull result (λ needed free. free ≡ length (free_addresses (pack (D.tape disk.old)))) }
    ensures sized { length table.new ≡ length table.old }
    ensures corrected { IsTrue D.told → IsCorrected (pack (D.tape disk.old)) table.old table.new }
    ensures looks { Looks D.told (pages_of (D.tape disk.old).form - 1) (D.tape disk.old) (D.tape disk.new) }
    ensures soon { IsTrue D.told → IsTrueTable (pack (D.tape disk.old)) table.old → OnOk result ((D.tape disk.new).runs ≤ (D.tape disk.old).runs + wanted) }
    ensures offered { IsTrue D.told → wanted ≤ length (offered_free (pack (D.tape disk.old)) table.old) → (D.tape disk.new).runs ≤ (D.tape disk.old).runs + length (offered_sectors table.old) }
{
    let Offered { found, offers } = gather_offered(alloc, disk, table, wanted, buf)?;
    if found.len() == wanted as usize {
        return Ok(found);
    }
    // A sweep is to pass over each sector that was offered, and the bits of wrong offers have changed.
    let offers = offers_kept(alloc, offers, table)?;
    let swept = sweep(alloc, disk, table, &offers, wanted, buf)?;
    if swept.free < wanted {
        return Err(AllocError::Full {
            needed: wanted,
            free: swept.free,
        });
    }
    Ok(swept.lowest)
}

/// Marks these sectors as busy.
fn mark_busy(table: &mut BitTable, taken: &[u16])
    requires { All (λ at. at < length table.old) taken.now }
    ensures busy { All (λ at. busy_at table.new at ≡ true) taken.now }
    ensures sized { length table.new ≡ length table.old }
    ensures others { (at : ℕ) → (busy_at table.new at ≡ busy_at table.old at) ⊎ Contains taken.now at }
{
    for at in taken {
        table.set(*at, true);
    }
}

/// Takes `n` free sectors: answers their addresses, distinct and in rising order, each read as free in this call, and marks them
/// as busy in the table. Nothing is written on the disk. The table must have as many bits as the disk has sectors; what they say
/// is a hint. First the sectors are looked at that the table has as free, until enough are found; where these are too few, all
/// other labels are swept, so there are fewer sector commands than sectors. With a true table the answer is the lowest free
/// sectors, in at most `n` sector commands.
///
/// Full: fewer than `n` sectors are free by their labels. DiskFault: the device failed. Memory: no memory was left. After each
/// of these no sector is taken, and a bit of the table has changed only to what its sector's label says.
pub fn reserve<D: Disk>(
    alloc: Global,
    disk: &mut D,
    table: &mut BitTable,
    n: u16,
) -> Result<Vec<u16>, AllocError>
    requires sized { length table.old ≡ pages_of (D.tape disk.old).form }

    // So many addresses, busy from now on; where the machine is modelled, of free sectors, and with a true table of the lowest.
    ensures reserved { IfOk result (λ taken. IsReserved (pages_of (D.tape disk.old).form) n table.new taken.items) }
    ensures free { IsTrue D.told → IfOk result (λ taken. All (λ at. is_free_at (pack (D.tape disk.old)) at ≡ true) taken.items) }
    ensures lowest { IsTrue D.told → IsTrueTable (pack (D.tape disk.old)) table.old → IfOk result (λ taken. taken.items ≡ take n (free_addresses (pack (D.tape disk.old)))) }

    // Full comes if and only if fewer are free, with both numbers.
    ensures few { IsTrue D.told → length (free_addresses (pack (D.tape disk.old))) < n → OnOk result ⊥ }
    ensures full { IfFull result (λ needed free. (needed ≡ n) × (free < n) × (IsTrue D.told → free ≡ length (free_addresses (pack (D.tape disk.old))))) }
    ensures cause { HasCause cause_of_alloc (D.tape disk.old) (D.tape disk.new) result }

    // What changes: bits of the table, each to what its label says, and those of the addresses taken.
    ensures sized { length table.new ≡ length table.old }
    ensures others { IsTrue D.told → IfOk result (λ taken. IsCorrectedBut (pack (D.tape disk.old)) taken.items table.old table.new) }
    ensures refused { IsTrue D.told → OnErr result (IsCorrected (pack (D.tape disk.old)) table.old table.new) }
    ensures looks { Looks D.told (pages_of (D.tape disk.old).form - 1) (D.tape disk.old) (D.tape disk.new) }

    // With a true table each is found at once; with one whose offers are enough there are no more sector commands than offers.
    ensures soon { IsTrue D.told → IsTrueTable (pack (D.tape disk.old)) table.old → OnOk result ((D.tape disk.new).runs ≤ (D.tape disk.old).runs + n) }
    ensures offered { IsTrue D.told → n ≤ length (offered_free (pack (D.tape disk.old)) table.old) → (D.tape disk.new).runs ≤ (D.tape disk.old).runs + length (offered_sectors table.old) }
{
    let mut buf = Sector::ZEROS;
    let taken = find_free(alloc, disk, table, n, &mut buf)?;
    mark_busy(table, &taken);
    Ok(taken)
}
