// Pages of a file that are released: all after one whose label was read, found one by one by the next links.
ghost use Rattle.std.specs.Prelude.{None, ◌/◌, ◌≡◌, ◌≢◌, ◌⊎◌, ◌+◌, ◌*◌, ◌<◌, ◌≤◌, ℕ, List, set, true, false, IfOk, IsErrOf, IsTrue, OnErr, OnOk, length};
ghost use Rattle.disk_records.specs.Addresses.{pages_of};
ghost use Rattle.disk_records.specs.Causes.{HasCause};
ghost use Rattle.disk_records.specs.Frames.{IsPageOf, WritesIn};
ghost use Rattle.disk_records.specs.Commands.{release_writes};
ghost use Rattle.disk_records.specs.Events.{IsFirstOf};
ghost use Rattle.disk_records.specs.Packs.{Pack, carried};
ghost use Rattle.disk_records.specs.Tapes.{DiskAlone, Looks, added, pack};
ghost use Rattle.hint_cache.specs.Caches.{address_in};
ghost use Rattle.pack_model.specs.operations.Committing.{page_of_byte};
ghost use Rattle.pack_model.specs.states.Whole.{Whole};
ghost use Rattle.page_seeking.specs.Causes.{cause_of_length};
ghost use Rattle.page_seeking.specs.Refs.{IfMisled, IsOwnLink};
ghost use Rattle.page_seeking.specs.Seeking.{file_length, IsFull, Seen, Stands, page_after, page_number};
ghost use Rattle.page_seeking.specs.declared.refs.FileError.TheVariants as error;
ghost use Rattle.file_pages.specs.Releasing.{AreAfter, Follows, Forgotten, KeepsEachHandy, KeepsOrFrees, KeepsOthers, ListsNoMore, ListsNoneGone, MisledSince, OnlyGo, ReleasesAll, ReleasesNext};

use crate::FileError;
use crate::refs::error_at;
use alto_words::Fid;
use disk_records::{Disk, PAGE_BYTES, Page, Place, Sector};
use hint_cache::{HintCache, Hints};
use label_check::{PageInfo, read_page, release};

/// Whether another page comes after this one.
pub(crate) fn goes_on(number: u16, info: PageInfo) -> bool
    ensures full { result ≡ true → (number ≡ 0) ⊎ (info.bytes ≡ 512) }
    ensures short { result ≡ false → (1 ≤ number) × (info.bytes ≢ 512) }
{
    number == 0 || info.bytes == PAGE_BYTES
}

/// Reads the page after one whose label was read, by its next link: this can mislead. One sector command. Answers the virtual address of
/// its sector, and its label's words.
pub(crate) fn read_after<D: Disk>(
    disk: &mut D,
    page: Page,
    at: u16,
    info: PageInfo,
    buf: &mut Sector,
) -> Result<(u16, PageInfo), FileError>
    requires more { page.number < 65535 }
    ensures seen { IfOk result (λ next. Seen (D.tape disk.old).form (page_after page) next.0 next.1 buf.new) }
    ensures stands { IsTrue D.told → IfOk result (λ next. Stands (pack (D.tape disk.old)) (page_after page) next.0 buf.new) }
    ensures misled { (p : Pack) → IsTrue D.told → Follows p (pack (D.tape disk.old)) page at info → IsFull page info.bytes → IfMisled result (MisledSince p (pack (D.tape disk.old)) page.fid) }
    ensures link { IfMisled result (λ place at wanted found. IsOwnLink page.fid place wanted) }
    ensures want { IsTrue D.told → IsErrOf result error.Memory → ⊥ }
    ensures cause { HasCause cause_of_length (D.tape disk.old) (D.tape disk.new) result }
    ensures looks { Looks D.told 1 (D.tape disk.old) (D.tape disk.new) }
{
    let after = Page {
        fid: page.fid,
        number: page.number + 1,
    };
    let shape = disk.shape();
    // sector 0 carries no page
    let to = shape.virtual_of(info.next).unwrap_or(0);
    if to == 0 {
        return Err(FileError::Misled {
            place: Place::Next { at },
            at: info.next,
            wanted: after,
            found: None,
        });
    }
    match read_page(disk, to, after, buf) {
        Ok(next) => Ok((to, next)),
        Err(error) => Err(error_at(Place::Next { at }, info.next, after, error)),
    }
}

/// Takes the entry of a page out of the cache, if there is one. It comes before the page's release: whatever that answers, the page isn't
/// listed then.
pub(crate) fn forget_page(cache: &mut HintCache, page: Page)
    ensures refused { cache.new.refused ≡ cache.old.refused }
    ensures handy { KeepsEachHandy cache.old cache.new }
    ensures forgotten { address_in cache.new.entries page ≡ None }
    ensures no_more { ListsNoMore cache.old cache.new }
    ensures others { KeepsOthers page cache.old cache.new }
{
    cache.forget(page);
}

/// Releases the page after one whose label was read. Three sector commands, two record writes. Answers its address and its label's words.
fn release_after<D: Disk>(
    disk: &mut D,
    hints: &mut Hints,
    page: Page,
    at: u16,
    info: PageInfo,
    buf: &mut Sector,
) -> Result<(u16, PageInfo), FileError>
    requires more { page.number < 65535 }
    requires sized { length hints.old.table ≡ pages_of (D.tape disk.old).form }
    ensures released { (p : Pack) → IsTrue D.told → Follows p (pack (D.tape disk.old)) page at info → IfOk result (λ next. ReleasesNext p page next.0 next.1 (D.tape disk.old) (D.tape disk.new) hints.old.table hints.new.table) }
    ensures breaks { (p : Pack) (to : ℕ) → IsTrue D.told → Follows p (pack (D.tape disk.old)) page at info → ((i : ℕ) → carried p i ≡ Some (page_after page) → i ≡ to) → OnErr result (IsFirstOf (release_writes to) (added (D.tape disk.old) (D.tape disk.new))) }
    ensures misled { (p : Pack) → IsTrue D.told → Follows p (pack (D.tape disk.old)) page at info → IsFull page info.bytes → IfMisled result (MisledSince p (pack (D.tape disk.new)) page.fid) }
    ensures link { IfMisled result (λ place at wanted found. IsOwnLink page.fid place wanted) }
    ensures want { IsTrue D.told → IsErrOf result error.Memory → (D.tape disk.old).spare < 2 }
    ensures cause { HasCause cause_of_length (D.tape disk.old) (D.tape disk.new) result }
    ensures alone { DiskAlone (D.tape disk.old) (D.tape disk.new) }
    ensures runs { IsTrue D.told → (D.tape disk.new).runs ≤ (D.tape disk.old).runs + 3 }
    ensures frame { IsTrue D.told → WritesIn (IsPageOf page.fid (pack (D.tape disk.old))) (added (D.tape disk.old) (D.tape disk.new)) }
    ensures bits { IsTrue D.told → KeepsOrFrees (pack (D.tape disk.new)) hints.old.table hints.new.table }
    ensures sized { length hints.new.table ≡ length hints.old.table }
    ensures refused { hints.new.cache.refused ≡ hints.old.cache.refused }
    ensures handy { KeepsEachHandy hints.old.cache hints.new.cache }
    ensures forgotten { IfOk result (λ next. address_in hints.new.cache.entries (page_after page) ≡ None) }
    ensures no_more { ListsNoMore hints.old.cache hints.new.cache }
    ensures others { KeepsOthers (page_after page) hints.old.cache hints.new.cache }
    ensures gone { IsTrue D.told → ListsNoneGone (pack (D.tape disk.old)) (pack (D.tape disk.new)) hints.new.cache }
{
    let after = Page {
        fid: page.fid,
        number: page.number + 1,
    };
    match read_after(disk, page, at, info, buf) {
        Ok((to, next)) => {
            forget_page(&mut hints.cache, after);
            match release(disk, to, after) {
                Ok(()) => {
                    hints.table.set(to, false);
                    Ok((to, next))
                }
                Err(error) => Err(error_at(Place::Next { at }, info.next, after, error)),
            }
        }
        Err(error) => Err(error),
    }
}

/// Releases all pages of a file after the one with this number, whose label was read, rising: each is found by the next link of the page
/// before it, which can mislead. Three sector commands a page.
pub(crate) fn release_rest<D: Disk>(
    disk: &mut D,
    hints: &mut Hints,
    fid: Fid,
    number: u16,
    at: u16,
    info: PageInfo,
    buf: &mut Sector,
) -> Result<(), FileError>
    requires sized { length hints.old.table ≡ pages_of (D.tape disk.old).form }
    ensures releases { (p : Pack) (pages : List ℕ) → IsTrue D.told → Follows p (pack (D.tape disk.old)) (page_number fid number) at info → AreAfter p fid number pages → ReleasesAll pages (D.tape disk.old) (D.tape disk.new) hints.old.table hints.new.table result }
    ensures only { (p : Pack) → IsTrue D.told → Follows p (pack (D.tape disk.old)) (page_number fid number) at info → OnOk result (OnlyGo p (pack (D.tape disk.new))) }
    ensures misled { (p : Pack) → IsTrue D.told → Follows p (pack (D.tape disk.old)) (page_number fid number) at info → IfMisled result (MisledSince p (pack (D.tape disk.new)) fid) }
    ensures link { IfMisled result (λ place at wanted found. IsOwnLink fid place wanted) }
    ensures cause { HasCause cause_of_length (D.tape disk.old) (D.tape disk.new) result }
    ensures alone { DiskAlone (D.tape disk.old) (D.tape disk.new) }
    ensures runs { (p : Pack) → IsTrue D.told → Follows p (pack (D.tape disk.old)) (page_number fid number) at info → Whole p → (D.tape disk.new).runs + 3 * number ≤ (D.tape disk.old).runs + 3 * page_of_byte (file_length p fid) }
    ensures frame { IsTrue D.told → WritesIn (IsPageOf fid (pack (D.tape disk.old))) (added (D.tape disk.old) (D.tape disk.new)) }
    ensures bits { IsTrue D.told → KeepsOrFrees (pack (D.tape disk.new)) hints.old.table hints.new.table }
    ensures sized { length hints.new.table ≡ length hints.old.table }
    ensures refused { hints.new.cache.refused ≡ hints.old.cache.refused }
    ensures handy { KeepsEachHandy hints.old.cache hints.new.cache }
    ensures forgotten { (p : Pack) → IsTrue D.told → Follows p (pack (D.tape disk.old)) (page_number fid number) at info → Whole p → file_length p fid / 512 < 65535 → OnOk result (Forgotten hints.new.cache fid number (page_of_byte (file_length p fid))) }
    ensures no_more { ListsNoMore hints.old.cache hints.new.cache }
    ensures here { address_in hints.new.cache.entries (page_number fid number) ≡ address_in hints.old.cache.entries (page_number fid number) }
    ensures gone { IsTrue D.told → ListsNoneGone (pack (D.tape disk.old)) (pack (D.tape disk.new)) hints.new.cache }
{
    let mut here = at;
    let mut last = info;
    for lower in number..u16::MAX {
        if !goes_on(lower, last) {
            return Ok(());
        }
        match release_after(disk, hints, Page { fid, number: lower }, here, last, buf) {
            Ok((to, next)) => {
                here = to;
                last = next;
            }
            Err(error) => return Err(error),
        }
    }
    Ok(())
}
