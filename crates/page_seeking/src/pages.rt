// Pages of files, by their numbers.
ghost use Rattle.std.specs.Prelude.{◌≡◌, ℕ, ◌+◌, ◌-◌, ◌<◌, ◌≤◌, IsTrue, IsErrOf, IfOk, OnOk, Some, []};
ghost use Rattle.disk_records.specs.Causes.{HasCause};
ghost use Rattle.disk_records.specs.Packs.{carried};
ghost use Rattle.disk_records.specs.Tapes.{Looks, pack};
ghost use Rattle.hint_cache.specs.Caches.{address_in};
ghost use Rattle.pack_model.specs.hints.Misled.{IsOnDisk};
ghost use Rattle.pack_model.specs.states.Whole.{Whole};
ghost use Rattle.page_seeking.specs.Causes.{cause_of_file};
ghost use Rattle.page_seeking.specs.Refs.{FileIsFrom, FileIsRooted, IfMisled, IfBeyond, IsOwnHint, MisledBy, FileStands};
ghost use Rattle.pack_model.specs.hints.Links.{LinksTrue};
ghost use Rattle.page_seeking.specs.Seeking.{Seen, Stands, Lists, KeepsHandy, Quick, QuickCache, IsEnd, IsInARow, IsLengthBelow, page_number};
ghost use Rattle.page_seeking.specs.Inside.{Sought, Confirmed, Known, Eases, Finds};
ghost use Rattle.label_check.specs.Causes.{cause_of_look};

use crate::leader::{locate_leader, try_leader_hints};
use crate::links::{Below, climb};
use crate::seek::{Found, try_at, try_cached};
use crate::{FileError, FileRef};
use disk_records::{Disk, Page, Sector};
use hint_cache::{HintCache, Hints};
use label_check::{LookError, PageInfo};

/// The most entries of the cache that are tried for one page: as many as it has.
pub(crate) const MAX_TRIED: usize = 48;

/// The nearest page below one that the cache knows and that is there, after so many tries at most; the leader, if there is no other. `buf`
/// holds it, if it isn't the leader. An entry that is wrong is taken out. At most one sector command a try, and one if the cache is handy.
pub(crate) fn nearest_below<D: Disk>(
    disk: &mut D,
    cache: &mut HintCache,
    page: Page,
    leader: Found,
    most: usize,
    buf: &mut Sector,
) -> Result<Below, LookError>
    requires above { 1 ≤ page.number }
    ensures sought { Sought D.told most (D.tape disk.old) (D.tape disk.new) cache.old cache.new }
    ensures lower { IfOk result (λ below. below.number < page.number) }
    ensures found { IfOk result (λ below. 1 ≤ below.number → Confirmed D.told (page_number page.fid below.number) (D.tape disk.old) cache.old cache.new buf.new below.found) }
    ensures known { IsTrue D.told → Known D.told (pack (D.tape disk.old)) (D.tape disk.old).form (page_number page.fid 0) leader → IfOk result (λ below. Known D.told (pack (D.tape disk.old)) (D.tape disk.old).form (page_number page.fid below.number) below.found) }
    ensures cause { HasCause cause_of_look (D.tape disk.old) (D.tape disk.new) result }
    ensures want { IsTrue D.told → IsErrOf result LookError.Memory → ⊥ }
    ensures quick { (at : ℕ) → IsTrue D.told → Eases (pack (D.tape disk.old)) page.fid page.number at cache.old → IfOk result (λ below. (D.tape disk.new).runs + (page.number - below.number) ≤ (D.tape disk.old).runs + page.number) }
{
    let mut above = page.number;
    let mut left = most;
    while let Some(entry) = cache.highest_below(page.fid, above) {
        if entry.page.number == 0 || left == 0 {
            break;
        }
        if let Some(found) = try_at(disk, cache, entry.at, entry.page, buf)? {
            return Ok(Below {
                number: entry.page.number,
                found,
            });
        }
        cache.forget(entry.page);
        above = entry.page.number;
        left -= 1;
    }
    Ok(Below {
        number: 0,
        found: leader,
    })
}

/// Locates a data page that the cache doesn't know, from the file's leader on.
fn seek_from_leader<D: Disk>(
    disk: &mut D,
    cache: &mut HintCache,
    file: &FileRef,
    number: u16,
    buf: &mut Sector,
) -> Result<Found, FileError>
    requires first { 1 ≤ number }
    ensures sought { Sought D.told (number + 52) (D.tape disk.old) (D.tape disk.new) cache.old cache.new }
    ensures found { IfOk result (Confirmed D.told (page_number file.now.fid number) (D.tape disk.old) cache.old cache.new buf.new) }
    ensures cause { HasCause cause_of_file (D.tape disk.old) (D.tape disk.new) result }
    ensures want { IsTrue D.told → IsErrOf result FileError.Memory → ⊥ }
    ensures misled { IsTrue D.told → FileIsFrom (pack (D.tape disk.old)) file.now → IfMisled result (MisledBy (pack (D.tape disk.old)) [] file.now.fid) }
    ensures on_disk { IsTrue D.told → FileIsRooted (pack (D.tape disk.old)) file.now → IfMisled result (λ place at wanted found. IsOnDisk place) }
    ensures hint { IfMisled result (IsOwnHint file.now) }
    ensures ends { IsTrue D.told → IfBeyond result (IsEnd (pack (D.tape disk.old)) file.now.fid number) }
    ensures never_beyond { number ≤ 1 → IfBeyond result (λ length. ⊥) }
    ensures quick { (at : ℕ) → IsTrue D.told → Eases (pack (D.tape disk.old)) file.now.fid number at cache.old → OnOk result ((D.tape disk.new).runs ≤ (D.tape disk.old).runs + (number + 1)) }
    ensures row { (at : ℕ) → IsTrue D.told → Eases (pack (D.tape disk.old)) file.now.fid number at cache.old → IsInARow (pack (D.tape disk.old)) file.now.fid → OnOk result ((D.tape disk.new).runs ≤ (D.tape disk.old).runs + 2) }
{
    let page = Page {
        fid: file.fid,
        number,
    };
    let leader = locate_leader(disk, cache, file, buf)?;
    match try_leader_hints(disk, cache, leader.at, page, buf)? {
        Some(found) => Ok(found),
        None => {
            let below = nearest_below(disk, cache, page, leader, MAX_TRIED, buf)?;
            climb(disk, cache, file.fid, below, number, buf)
        }
    }
}

/// Locates a page of a file, as `locate` says.
pub(crate) fn seek_page<D: Disk>(
    disk: &mut D,
    cache: &mut HintCache,
    file: &FileRef,
    number: u16,
    buf: &mut Sector,
) -> Result<Found, FileError>
    ensures sought { Sought D.told (number + 53) (D.tape disk.old) (D.tape disk.new) cache.old cache.new }
    ensures found { IfOk result (Confirmed D.told (page_number file.now.fid number) (D.tape disk.old) cache.old cache.new buf.new) }
    ensures cause { HasCause cause_of_file (D.tape disk.old) (D.tape disk.new) result }
    ensures want { IsTrue D.told → IsErrOf result FileError.Memory → ⊥ }
    ensures misled { IsTrue D.told → FileIsFrom (pack (D.tape disk.old)) file.now → IfMisled result (MisledBy (pack (D.tape disk.old)) [] file.now.fid) }
    ensures on_disk { IsTrue D.told → FileIsRooted (pack (D.tape disk.old)) file.now → IfMisled result (λ place at wanted found. IsOnDisk place) }
    ensures hint { IfMisled result (IsOwnHint file.now) }
    ensures ends { IsTrue D.told → IfBeyond result (IsEnd (pack (D.tape disk.old)) file.now.fid number) }
    ensures never_beyond { number ≤ 1 → IfBeyond result (λ length. ⊥) }
    ensures soon { (at : ℕ) → IsTrue D.told → address_in cache.old.entries (page_number file.now.fid number) ≡ Some at → carried (pack (D.tape disk.old)) at ≡ Some (page_number file.now.fid number) → (D.tape disk.new).runs ≤ (D.tape disk.old).runs + 1 }
    ensures quick { (at : ℕ) → IsTrue D.told → Eases (pack (D.tape disk.old)) file.now.fid number at cache.old → OnOk result ((D.tape disk.new).runs ≤ (D.tape disk.old).runs + (number + 1)) }
    ensures row { (at : ℕ) → IsTrue D.told → Eases (pack (D.tape disk.old)) file.now.fid number at cache.old → IsInARow (pack (D.tape disk.old)) file.now.fid → OnOk result ((D.tape disk.new).runs ≤ (D.tape disk.old).runs + 2) }
    ensures leader { (at : ℕ) → IsTrue D.told → number ≡ 0 → Finds (pack (D.tape disk.old)) file.now.fid 0 at cache.old → (D.tape disk.new).runs ≤ (D.tape disk.old).runs + 1 }
{
    if number == 0 {
        return locate_leader(disk, cache, file, buf);
    }
    let page = Page {
        fid: file.fid,
        number,
    };
    match try_cached(disk, cache, page, buf)? {
        Some(found) => Ok(found),
        None => seek_from_leader(disk, cache, file, number, buf),
    }
}

/// Locates a page of a file, by its number: page 0 is the leader page. It is sought by the cache, then from the leader as one of pages in a
/// row and as the last page, and then by the next links from the nearest lower page that is known. Of these the address that the file is
/// named with and the links can mislead; all others are passed over where the label disagrees. `buf` holds the page then, and the answer
/// is the virtual address of its sector, and its label's words. The cache lists it from then on, and the page after it by its link. Nothing
/// is written.
///
/// Misled: the named address, or a next link of the file, names no usable sector, or one that doesn't carry the page. Beyond: the file has
/// no page with this number, since a page before it isn't full; it never comes of pages 0 and 1. DiskFault: the device failed. Memory: no
/// memory was left, which no disk that is modelled answers here. After each of these what `buf` holds is open.
pub fn locate<D: Disk>(
    disk: &mut D,
    hints: &mut Hints,
    file: &FileRef,
    number: u16,
    buf: &mut Sector,
) -> Result<(u16, PageInfo), FileError>
    // What is answered: on every disk, and where the machine is modelled.
    ensures seen { IfOk result (λ found. Seen (D.tape disk.old).form (page_number file.now.fid number) found.0 found.1 buf.new) }
    ensures stands { IsTrue D.told → IfOk result (λ found. Stands (pack (D.tape disk.old)) (page_number file.now.fid number) found.0 buf.new) }

    // Which error comes when.
    ensures misled { IsTrue D.told → FileIsFrom (pack (D.tape disk.old)) file.now → IfMisled result (MisledBy (pack (D.tape disk.old)) [] file.now.fid) }
    ensures on_disk { IsTrue D.told → FileIsRooted (pack (D.tape disk.old)) file.now → IfMisled result (λ place at wanted found. IsOnDisk place) }
    ensures hint { IfMisled result (IsOwnHint file.now) }
    ensures beyond { IsTrue D.told → Whole (pack (D.tape disk.old)) → IfBeyond result (IsLengthBelow (pack (D.tape disk.old)) file.now.fid number) }
    ensures ends { IsTrue D.told → IfBeyond result (IsEnd (pack (D.tape disk.old)) file.now.fid number) }
    ensures never_beyond { number ≤ 1 → IfBeyond result (λ length. ⊥) }
    ensures true_links { IsTrue D.told → FileStands (pack (D.tape disk.old)) file.now → LinksTrue (pack (D.tape disk.old)) → IfMisled result (λ place at wanted found. ⊥) }
    ensures cause { HasCause cause_of_file (D.tape disk.old) (D.tape disk.new) result }
    ensures want { IsTrue D.told → IsErrOf result FileError.Memory → ⊥ }

    // Nothing is written, and with any hints there are so many sector commands at most; one, if the cache has the page's sector; with true
    // links and handy hints one more than the page's number, and two if the flag of the leader is set that its pages lie in a row; and for
    // the leader page one, if true links and a handy cache are all there is.
    ensures looks { Looks D.told (number + 53) (D.tape disk.old) (D.tape disk.new) }
    ensures soon { (at : ℕ) → IsTrue D.told → address_in hints.old.cache.entries (page_number file.now.fid number) ≡ Some at → carried (pack (D.tape disk.old)) at ≡ Some (page_number file.now.fid number) → (D.tape disk.new).runs ≤ (D.tape disk.old).runs + 1 }
    ensures quick { IsTrue D.told → Quick (pack (D.tape disk.old)) file.now.fid hints.old.cache → OnOk result ((D.tape disk.new).runs ≤ (D.tape disk.old).runs + (number + 1)) }
    ensures row { IsTrue D.told → Quick (pack (D.tape disk.old)) file.now.fid hints.old.cache → IsInARow (pack (D.tape disk.old)) file.now.fid → OnOk result ((D.tape disk.new).runs ≤ (D.tape disk.old).runs + 2) }
    ensures leader { IsTrue D.told → number ≡ 0 → QuickCache (pack (D.tape disk.old)) file.now.fid hints.old.cache → OnOk result ((D.tape disk.new).runs ≤ (D.tape disk.old).runs + 1) }

    // What becomes of the hints.
    ensures table { hints.new.table ≡ hints.old.table }
    ensures listed { IfOk result (λ found. Lists (D.tape disk.old).form (page_number file.now.fid number) found.0 found.1 hints.old.cache hints.new.cache) }
    ensures refused { hints.old.cache.refused ≤ hints.new.cache.refused }
    ensures handy { IsTrue D.told → KeepsHandy (pack (D.tape disk.old)) hints.old.cache hints.new.cache }
{
    match seek_page(disk, &mut hints.cache, file, number, buf) {
        Ok(found) => Ok((found.at, found.info)),
        Err(error) => Err(error),
    }
}
