// A file that is cut: a prefix of its bytes is kept.
ghost use Rattle.std.specs.Prelude.{◌≡◌, ◌≢◌, ◌+◌, ◌*◌, ◌<◌, ◌≤◌, ◌/◌, ℕ, List, [], false, Some, IfNone, IfSome, IsErrOf, IsTrue, OnOk, length as list_length};
ghost use Rattle.disk_records.specs.Addresses.{pages_of};
ghost use Rattle.disk_records.specs.Causes.{HasCause};
ghost use Rattle.disk_records.specs.Frames.{IsPageOf, WritesIn};
ghost use Rattle.disk_records.specs.Commands.{relabel_writes};
ghost use Rattle.disk_records.specs.Labels.{page_of};
ghost use Rattle.disk_records.specs.Packs.{Pack, carried, sector_at};
ghost use Rattle.disk_records.specs.Tapes.{DiskAlone, added, pack};
ghost use Rattle.hint_cache.specs.Caches.{address_in};
ghost use Rattle.laws_call.specs.Acting.{IsQuiet, Operates, around};
ghost use Rattle.laws_hint.specs.MapChanges.{marked};
ghost use Rattle.laws_operation.specs.ByteLaws.{IsOrdinary};
ghost use Rattle.pack_model.specs.hints.Links.{LinksTrue, no_link};
ghost use Rattle.pack_model.specs.operations.Committing.{page_of_byte};
ghost use Rattle.pack_model.specs.operations.PageWords.{relabelled};
ghost use Rattle.pack_model.specs.states.Whole.{Whole};
ghost use Rattle.page_seeking.specs.Causes.{cause_of_file, cause_of_length};
ghost use Rattle.page_seeking.specs.Parts.{IsPast, ListsNext};
ghost use Rattle.page_seeking.specs.Refs.{FileStands, IfBeyond, IfMisled, IsOwnHint, MisledBy};
ghost use Rattle.page_seeking.specs.Seeking.{Quick, file_length, length_at, page_number};
ghost use Rattle.page_seeking.specs.declared.refs.FileError.TheVariants as error;
ghost use Rattle.file_pages.specs.Calls.{IsHintOrFound, IsLinkOrFound, WasHeld};
ghost use Rattle.file_pages.specs.Cutting.{Cuts, IsRead, later_pages, to_cut};
ghost use Rattle.file_pages.specs.Releasing.{AreAfter, CommitsAndReleases, CommitsFirst, Forgotten, KeepsEachHandy, KeepsOrFrees, ListsNoneGone, MisledSince, OnlyGo};
ghost use Rattle.file_pages.specs.Values.{LeavesHandy};

use crate::refs::error_at;
use crate::releasing::release_rest;
use crate::tallying::count_operation;
use crate::{FileError, FileRef};
use disk_records::{Disk, PAGE_BYTES, Page, Place, Sector, Tally};
use hint_cache::Hints;
use label_check::{PageInfo, relabel};
use page_seeking::locate;

/// The link at either end of a file.
const NO_LINK: u16 = 0xFFFF;

/// The number of the page in which a file of so many bytes ends. None: no page can have it.
fn last_page_of(length: u32) -> Option<u16>
    ensures some { IfSome result (λ number. number ≡ page_of_byte length) }
    ensures none { IfNone result (65535 ≤ length / 512) }
{
    let number = length / PAGE_BYTES as u32 + 1;
    if number <= u16::MAX as u32 {
        Some(number as u16)
    } else {
        None
    }
}

/// The length of a file whose last page has this number and counts so many bytes.
fn length_at(number: u16, bytes: u16) -> u32
    requires { 1 ≤ number }
    ensures { result ≡ length_at number bytes }
{
    (number as u32 - 1) * PAGE_BYTES as u32 + bytes as u32
}

/// A page's label with another count, and without a next link.
fn last_label(label: &[u16; 8], bytes: u16) -> [u16; 8]
    ensures { result ≡ relabelled label.now bytes no_link }
{
    [
        NO_LINK, label[1], 0, bytes, label[4], label[5], label[6], label[7],
    ]
}

/// Gives the page in a sector another label, by which a cut is committed, and counts it. Two sector commands, two record writes.
fn shorten<D: Disk>(
    disk: &mut D,
    tally: &mut Tally,
    at: u16,
    page: Page,
    label: [u16; 8],
) -> Result<(), FileError>
    requires first { 1 ≤ at }
    requires place { at < pages_of (D.tape disk.old).form }
    requires same { page_of label ≡ Some page }
    ensures commits { IsTrue D.told → carried (pack (D.tape disk.old)) at ≡ Some page → CommitsFirst (relabel_writes at label (sector_at (pack (D.tape disk.old)) at).value) (D.tape disk.old) (D.tape disk.new) tally.old tally.new result }
    ensures misled { IsTrue D.told → carried (pack (D.tape disk.old)) at ≡ Some page → IfMisled result (λ place at wanted found. ⊥) }
    ensures held { IfMisled result (WasHeld at page) }
    ensures frame { IsTrue D.told → WritesIn (IsPageOf page.fid (pack (D.tape disk.old))) (added (D.tape disk.old) (D.tape disk.new)) }
    ensures cause { HasCause cause_of_length (D.tape disk.old) (D.tape disk.new) result }
    ensures alone { DiskAlone (D.tape disk.old) (D.tape disk.new) }
    ensures runs { IsTrue D.told → (D.tape disk.new).runs ≤ (D.tape disk.old).runs + 2 }
{
    let before = disk.writes();
    let written = relabel(disk, at, page, label);
    let now = disk.writes();
    count_operation(tally, before, 1, now, &written);
    match written {
        Ok(()) => Ok(()),
        Err(error) => Err(error_at(Place::Held { at }, at, page, error)),
    }
}

/// Ends a file in the page that `buf` holds, after so many of its bytes, and releases all later pages.
fn end_in_page<D: Disk>(
    disk: &mut D,
    hints: &mut Hints,
    tally: &mut Tally,
    page: Page,
    at: u16,
    info: PageInfo,
    bytes: u16,
    buf: &mut Sector,
) -> Result<(), FileError>
    requires sized { list_length hints.old.table ≡ pages_of (D.tape disk.old).form }
    requires few { bytes ≤ 512 }
    requires first { 1 ≤ at }
    requires place { at < pages_of (D.tape disk.old).form }
    requires named { page_of buf.old.label ≡ Some page }
    ensures cuts { (p : Pack) (later : List ℕ) → IsTrue D.told → pack (D.tape disk.old) ≡ p → IsRead p page at info buf.old → AreAfter p page.fid page.number later → CommitsAndReleases (relabel_writes at (relabelled (sector_at p at).label bytes no_link) (sector_at p at).value) later (D.tape disk.old) (D.tape disk.new) tally.old tally.new result }
    ensures table { (p : Pack) (later : List ℕ) → IsTrue D.told → pack (D.tape disk.old) ≡ p → IsRead p page at info buf.old → AreAfter p page.fid page.number later → OnOk result (hints.new.table ≡ marked false later hints.old.table) }
    ensures only { (p : Pack) → IsTrue D.told → pack (D.tape disk.old) ≡ p → IsRead p page at info buf.old → OnOk result (OnlyGo p (pack (D.tape disk.new))) }
    ensures misled { (p : Pack) → IsTrue D.told → pack (D.tape disk.old) ≡ p → IsRead p page at info buf.old → IfMisled result (MisledSince p (pack (D.tape disk.new)) page.fid) }
    ensures given { IfMisled result (IsLinkOrFound page.fid) }
    ensures frame { IsTrue D.told → WritesIn (IsPageOf page.fid (pack (D.tape disk.old))) (added (D.tape disk.old) (D.tape disk.new)) }
    ensures cause { HasCause cause_of_length (D.tape disk.old) (D.tape disk.new) result }
    ensures alone { DiskAlone (D.tape disk.old) (D.tape disk.new) }
    ensures bits { IsTrue D.told → KeepsOrFrees (pack (D.tape disk.new)) hints.old.table hints.new.table }
    ensures sized { list_length hints.new.table ≡ list_length hints.old.table }
    ensures refused { hints.new.cache.refused ≡ hints.old.cache.refused }
    ensures handy { KeepsEachHandy hints.old.cache hints.new.cache }
    ensures forgotten { (p : Pack) → IsTrue D.told → pack (D.tape disk.old) ≡ p → IsRead p page at info buf.old → Whole p → file_length p page.fid / 512 < 65535 → OnOk result (Forgotten hints.new.cache page.fid page.number (page_of_byte (file_length p page.fid))) }
    ensures here { address_in hints.new.cache.entries page ≡ address_in hints.old.cache.entries page }
    ensures gone { (p : Pack) → IsTrue D.told → pack (D.tape disk.old) ≡ p → IsRead p page at info buf.old → ListsNoneGone p (pack (D.tape disk.new)) hints.new.cache }
    ensures runs { (p : Pack) → IsTrue D.told → pack (D.tape disk.old) ≡ p → IsRead p page at info buf.old → Whole p → (D.tape disk.new).runs + 3 * page.number ≤ (D.tape disk.old).runs + (3 * page_of_byte (file_length p page.fid) + 2) }
{
    let label = last_label(&buf.label, bytes);
    match shorten(disk, tally, at, page, label) {
        Ok(()) => release_rest(disk, hints, page.fid, page.number, at, info, buf),
        Err(error) => Err(error),
    }
}

/// Cuts an ordinary file to its first `length` bytes. The page in which they end is located, and gets a label that counts fewer bytes and
/// has no next link, which commits; then each later page is released, rising, found by the next link of the page before it. Of the page
/// that becomes the last two record writes, of each later one two, by three sector commands. A cut to the file's own length writes nothing. The sectors of later
/// pages are free in the table then, and the cache has forgotten these pages; after an error it has forgotten those that went. The cache
/// lists the page in which the file ends then. On any pack, and whatever the answer is, each record write is in a page of the file, and each
/// bit of the table is as it was, or free as its sector is. `buf` is used, and what it holds then is open.
///
/// Beyond: the file is shorter; nothing was written. Misled: the address that the file is named with misleads, or a next link of the file:
/// then nothing was written, or the file is cut and later pages are left, which a scavenge releases; where the machine isn't modelled also
/// the sector in which this call found a page of the file, if it no longer carries it. DiskFault: the device failed. Memory: no memory was
/// left for a record write, so never for a cut to the file's own length. After these two a prefix of the record writes was done.
pub fn cut<D: Disk>(
    disk: &mut D,
    hints: &mut Hints,
    tally: &mut Tally,
    file: &FileRef,
    length: u32,
    buf: &mut Sector,
) -> Result<(), FileError>
    requires sized { list_length hints.old.table ≡ pages_of (D.tape disk.old).form }
    ensures operates { IsTrue D.told → FileStands (pack (D.tape disk.old)) file.now → IsOrdinary file.now.fid → length ≢ file_length (pack (D.tape disk.old)) file.now.fid → Operates error.DiskFault error.Memory (to_cut file.now.fid length) [] (around (D.tape disk.old) hints.old.table tally.old) (around (D.tape disk.new) hints.new.table tally.new) result }
    ensures cuts { (later : List ℕ) → IsTrue D.told → length ≢ file_length (pack (D.tape disk.old)) file.now.fid → AreAfter (pack (D.tape disk.old)) file.now.fid (page_of_byte length) later → Cuts (pack (D.tape disk.old)) file.now.fid length later (around (D.tape disk.old) hints.old.table tally.old) (around (D.tape disk.new) hints.new.table tally.new) result }
    ensures own_length { IsTrue D.told → FileStands (pack (D.tape disk.old)) file.now → length ≡ file_length (pack (D.tape disk.old)) file.now.fid → IsQuiet (around (D.tape disk.old) hints.old.table tally.old) (around (D.tape disk.new) hints.new.table tally.new) }
    ensures want { IsTrue D.told → FileStands (pack (D.tape disk.old)) file.now → length ≡ file_length (pack (D.tape disk.old)) file.now.fid → IsErrOf result error.Memory → ⊥ }
    ensures within { IsTrue D.told → FileStands (pack (D.tape disk.old)) file.now → OnOk result (length ≤ file_length (pack (D.tape disk.old)) file.now.fid) }
    ensures beyond { IsTrue D.told → FileStands (pack (D.tape disk.old)) file.now → IfBeyond result (IsPast (pack (D.tape disk.old)) file.now.fid length) }
    ensures misled { IsTrue D.told → FileStands (pack (D.tape disk.old)) file.now → IfMisled result (MisledBy (pack (D.tape disk.old)) (added (D.tape disk.old) (D.tape disk.new)) file.now.fid) }
    ensures hint { IsTrue D.told → IfMisled result (IsOwnHint file.now) }
    ensures given { IfMisled result (IsHintOrFound file.now) }
    ensures true_links { IsTrue D.told → FileStands (pack (D.tape disk.old)) file.now → LinksTrue (pack (D.tape disk.old)) → IfMisled result (λ place at wanted found. ⊥) }
    ensures frame { IsTrue D.told → WritesIn (IsPageOf file.now.fid (pack (D.tape disk.old))) (added (D.tape disk.old) (D.tape disk.new)) }
    ensures cause { HasCause cause_of_file (D.tape disk.old) (D.tape disk.new) result }
    ensures alone { DiskAlone (D.tape disk.old) (D.tape disk.new) }
    ensures bits { IsTrue D.told → KeepsOrFrees (pack (D.tape disk.new)) hints.old.table hints.new.table }
    ensures sized { list_length hints.new.table ≡ list_length hints.old.table }
    ensures refused { hints.old.cache.refused ≤ hints.new.cache.refused }
    ensures forgotten { IsTrue D.told → FileStands (pack (D.tape disk.old)) file.now → OnOk result (Forgotten hints.new.cache file.now.fid (page_of_byte length) (page_of_byte (file_length (pack (D.tape disk.old)) file.now.fid))) }
    ensures gone { IsTrue D.told → ListsNoneGone (pack (D.tape disk.old)) (pack (D.tape disk.new)) hints.new.cache }
    ensures listed { OnOk result (ListsNext D.told (pack (D.tape disk.old)) file.now.fid length hints.old.cache hints.new.cache) }
    ensures handy { IsTrue D.told → FileStands (pack (D.tape disk.old)) file.now → OnOk result (LeavesHandy (pack (D.tape disk.old)) (pack (D.tape disk.new)) hints.old.cache hints.new.cache) }

    // Sector commands: three for each page that goes, two for the one that becomes the last, and those that find it. With any hints the
    // latter are 53 more than its number at most; one, if the cache has its sector; with true links and handy hints one more than its number.
    ensures runs { IsTrue D.told → Whole (pack (D.tape disk.old)) → (D.tape disk.new).runs ≤ (D.tape disk.old).runs + (page_of_byte length + (3 * later_pages (pack (D.tape disk.old)) file.now.fid length + 55)) }
    ensures soon { (at : ℕ) → IsTrue D.told → Whole (pack (D.tape disk.old)) → address_in hints.old.cache.entries (page_number file.now.fid (page_of_byte length)) ≡ Some at → carried (pack (D.tape disk.old)) at ≡ Some (page_number file.now.fid (page_of_byte length)) → OnOk result ((D.tape disk.new).runs ≤ (D.tape disk.old).runs + (3 * later_pages (pack (D.tape disk.old)) file.now.fid length + 3)) }
    ensures quick { IsTrue D.told → Quick (pack (D.tape disk.old)) file.now.fid hints.old.cache → OnOk result ((D.tape disk.new).runs ≤ (D.tape disk.old).runs + (page_of_byte length + (3 * later_pages (pack (D.tape disk.old)) file.now.fid length + 3))) }
{
    let Some(number) = last_page_of(length) else {
        return match page_seeking::length(disk, hints, file, buf) {
            Ok(length) => Err(FileError::Beyond { length }),
            Err(error) => Err(error),
        };
    };
    match locate(disk, hints, file, number, buf) {
        Ok((at, info)) => {
            let bytes = (length % PAGE_BYTES as u32) as u16;
            if info.bytes < bytes {
                return Err(FileError::Beyond {
                    length: length_at(number, info.bytes),
                });
            }
            if info.bytes == bytes {
                return Ok(());
            }
            let page = Page {
                fid: file.fid,
                number,
            };
            end_in_page(disk, hints, tally, page, at, info, bytes, buf)
        }
        Err(error) => Err(error),
    }
}
