// Pages that are sought by hints which are passed over where the label disagrees.
ghost use Rattle.std.specs.Prelude.{◌≡◌, ◌+◌, ◌≤◌, ℕ, IsTrue, IsErrOf, None, Some};
ghost use Rattle.disk_records.specs.Packs.{carried};
ghost use Rattle.disk_records.specs.Tapes.{pack};
ghost use Rattle.hint_cache.specs.Caches.{address_in};
ghost use Rattle.page_seeking.specs.Inside.{Sought, Confirmed, IfFound, IfMissed};
ghost use Rattle.disk_records.specs.Causes.{HasCause};
ghost use Rattle.label_check.specs.Causes.{cause_of_look};

use crate::look::look_at;
use crate::notes::note_seen;
use disk_records::{Disk, Page, Sector};
use hint_cache::HintCache;
use label_check::{GuardError, LookError, PageInfo};

/// A page that was found: the virtual address of its sector, and what its label says.
#[derive(Clone, Copy, Debug, PartialEq, Eq)]
pub(crate) struct Found {
    pub at: u16,
    pub info: PageInfo,
}

/// Reads the page at an address that may be wrong, and notes it. None: it isn't there, and the cache is as it was.
pub(crate) fn try_at<D: Disk>(
    disk: &mut D,
    cache: &mut HintCache,
    at: u16,
    page: Page,
    buf: &mut Sector,
) -> Result<Option<Found>, LookError>
    ensures sought { Sought D.told 1 (D.tape disk.old) (D.tape disk.new) cache.old cache.new }
    ensures found { IfFound result (Confirmed D.told page (D.tape disk.old) cache.old cache.new buf.new) }
    ensures cause { HasCause cause_of_look (D.tape disk.old) (D.tape disk.new) result }
    ensures want { IsTrue D.told → IsErrOf result LookError.Memory → ⊥ }
    ensures missed { IfMissed result (cache.new ≡ cache.old) }
    ensures here { IsTrue D.told → carried (pack (D.tape disk.old)) at ≡ Some page → IfMissed result ⊥ }
{
    let shape = disk.shape();
    match look_at(disk, at, page, buf) {
        Ok(info) => {
            note_seen(cache, shape, page, at, info);
            Ok(Some(Found { at, info }))
        }
        Err(GuardError::Wrong { .. }) => Ok(None),
        Err(GuardError::DiskFault) => Err(LookError::DiskFault),
        Err(GuardError::Memory) => Err(LookError::Memory),
    }
}

/// Reads the page at the address that the cache has for it. None: it has none, or the page isn't there; then it has none any more.
pub(crate) fn try_cached<D: Disk>(
    disk: &mut D,
    cache: &mut HintCache,
    page: Page,
    buf: &mut Sector,
) -> Result<Option<Found>, LookError>
    ensures sought { Sought D.told 1 (D.tape disk.old) (D.tape disk.new) cache.old cache.new }
    ensures found { IfFound result (Confirmed D.told page (D.tape disk.old) cache.old cache.new buf.new) }
    ensures cause { HasCause cause_of_look (D.tape disk.old) (D.tape disk.new) result }
    ensures want { IsTrue D.told → IsErrOf result LookError.Memory → ⊥ }
    ensures here { (at : ℕ) → IsTrue D.told → address_in cache.old.entries page ≡ Some at → carried (pack (D.tape disk.old)) at ≡ Some page → IfMissed result ⊥ }
    ensures unlisted { IsTrue D.told → address_in cache.old.entries page ≡ None → (D.tape disk.new).runs ≤ (D.tape disk.old).runs }
{
    let Some(at) = cache.recall(page) else {
        return Ok(None);
    };
    match try_at(disk, cache, at, page, buf)? {
        Some(found) => Ok(Some(found)),
        None => {
            cache.forget(page);
            Ok(None)
        }
    }
}

/// Reads the page at an address that may be wrong, if there is one.
pub(crate) fn try_hint<D: Disk>(
    disk: &mut D,
    cache: &mut HintCache,
    at: Option<u16>,
    page: Page,
    buf: &mut Sector,
) -> Result<Option<Found>, LookError>
    ensures sought { Sought D.told 1 (D.tape disk.old) (D.tape disk.new) cache.old cache.new }
    ensures found { IfFound result (Confirmed D.told page (D.tape disk.old) cache.old cache.new buf.new) }
    ensures cause { HasCause cause_of_look (D.tape disk.old) (D.tape disk.new) result }
    ensures want { IsTrue D.told → IsErrOf result LookError.Memory → ⊥ }
    ensures here { (i : ℕ) → IsTrue D.told → at ≡ Some i → carried (pack (D.tape disk.old)) i ≡ Some page → IfMissed result ⊥ }
    ensures unlisted { IsTrue D.told → at ≡ None → (D.tape disk.new).runs ≤ (D.tape disk.old).runs }
{
    match at {
        Some(at) => try_at(disk, cache, at, page, buf),
        None => Ok(None),
    }
}
