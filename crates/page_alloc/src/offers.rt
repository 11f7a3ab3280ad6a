// Free sectors among those that the table offers.
ghost use Rattle.std.specs.Prelude.{◌≡◌, ◌≢◌, ℕ, not, ◌+◌, ◌<◌, ◌≤◌, ◌++◌, ◌∷◌, false, cond, [], IsTrue, IfOk, OnOk, OnErr, length, take};
ghost use Rattle.disk_records.specs.Addresses.{pages_of};
ghost use Rattle.disk_records.specs.Causes.{HasCause};
ghost use Rattle.disk_records.specs.Tapes.{Looks, pack};
ghost use Rattle.hint_cache.specs.Bits.{busy_at};
ghost use Rattle.page_alloc.specs.Causes.{cause_of_finding};
ghost use Rattle.page_alloc.specs.Free.{offered_sectors, offered_free, IsTrueTable, IsCorrected, IsRising};
ghost use Rattle.page_alloc.specs.Inside.{AreChecked, first_offers};

use crate::AllocError;
use crate::count::is_free;
use alto_words::Memory;
use disk_records::{Disk, Sector};
use hint_cache::BitTable;
use std::alloc::Global;

/// What a walk over the offers of a table finds.
#[derive(Drop)]
pub(crate) struct Offered {
    /// The addresses of those that are free, in rising order.
    pub(crate) found: Vec<u16>,
    /// The table as it was, where a bit of it has changed since.
    pub(crate) offers: Option<BitTable>,
}

/// The table before its first bit changed: the one that was kept, or a copy where none has changed. Memory: none was left for that.
pub(crate) fn offers_kept(
    alloc: Global,
    kept: Option<BitTable>,
    table: &BitTable,
) -> Result<BitTable, Memory>
    ensures { IfOk result (λ offers. offers ≡ first_offers kept table.now) }
{
    match kept {
        Some(offers) => Ok(offers),
        None => table.copied(alloc),
    }
}

/// Lists an offered sector that is free. One that isn't is marked as busy, and the table is kept before its first bit changes.
fn settle(
    alloc: Global,
    table: &mut BitTable,
    offered: &mut Offered,
    at: u16,
    free: bool,
) -> Result<(), Memory>
    requires place { at < length table.old }
    requires offered { busy_at table.old at ≡ false }
    ensures found { OnOk result (offered.new.found.items ≡ offered.old.found.items ++ cond free (at ∷ []) []) }
    ensures offers { OnOk result (first_offers offered.new.offers table.new ≡ first_offers offered.old.offers table.old) }
    ensures here { OnOk result (busy_at table.new at ≡ not free) }
    ensures others { (k : ℕ) → k ≢ at → busy_at table.new k ≡ busy_at table.old k }
    ensures sized { length table.new ≡ length table.old }
    ensures refused { OnErr result (table.new ≡ table.old) }
{
    if free {
        offered.found.push(at)?;
    } else {
        let offers = offers_kept(alloc, offered.offers.take(), table)?;
        offered.offers = Some(offers);
        table.set(at, true);
    }
    Ok(())
}

/// Up to `wanted` free sectors in rising order, of those that the table offers. Each of these is looked at until enough are
/// found, and marked as busy where its label says so. While no offer is wrong no bit changes, and the table isn't copied.
pub(crate) fn gather_offered<D: Disk>(
    alloc: Global,
    disk: &mut D,
    table: &mut BitTable,
    wanted: u16,
    buf: &mut Sector,
) -> Result<Offered, AllocError>
    requires sized { length table.old ≡ pages_of (D.tape disk.old).form }
    ensures rising { IfOk result (λ offered. IsRising (pages_of (D.tape disk.old).form) offered.found.items) }
    ensures most { IfOk result (λ offered. length offered.found.items ≤ wanted) }
    ensures found { IsTrue D.told → IfOk result (λ offered. offered.found.items ≡ take wanted (offered_free (pack (D.tape disk.old)) table.old)) }
    ensures offers { IfOk result (λ offered. first_offers offered.offers table.new ≡ table.old) }
    ensures cause { HasCause cause_of_finding (D.tape disk.old) (D.tape disk.new) result }
    ensures sized { length table.new ≡ length table.old }
    ensures corrected { IsTrue D.told → IsCorrected (pack (D.tape disk.old)) table.old table.new }
    ensures checked { IsTrue D.told → IfOk result (λ offered. length offered.found.items < wanted → AreChecked (pack (D.tape disk.old)) table.old table.new (pages_of (D.tape disk.old).form)) }
    ensures looks { Looks D.told (length (offered_sectors table.old)) (D.tape disk.old) (D.tape disk.new) }
    ensures soon { IsTrue D.told → IsTrueTable (pack (D.tape disk.old)) table.old → IfOk result (λ offered. (D.tape disk.new).runs ≤ (D.tape disk.old).runs + length offered.found.items) }
{
    let end = disk.shape().pages();
    let found = Vec::with_capacity(alloc, wanted.min(end) as usize)?;
    let mut offered = Offered {
        found,
        offers: None,
    };
    let mut from = 1;
    while offered.found.len() < wanted as usize {
        let Some(at) = table.next_free(from) else {
            return Ok(offered);
        };
        let free = is_free(disk, at, buf)?;
        settle(alloc, table, &mut offered, at, free)?;
        from = at + 1;
    }
    Ok(offered)
}
