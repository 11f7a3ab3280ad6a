// A file that goes: all of its sectors are released.
ghost use Rattle.std.specs.Prelude.{None, ◌≡◌, ◌+◌, ◌*◌, ◌<◌, ◌/◌, ◌≤◌, ◌∷◌, ℕ, List, Some, false, IsTrue, OnOk, length};
ghost use Rattle.disk_records.specs.Addresses.{pages_of};
ghost use Rattle.disk_records.specs.Causes.{HasCause};
ghost use Rattle.disk_records.specs.Frames.{IsFreeSector, IsPageOf, WritesIn};
ghost use Rattle.disk_records.specs.Commands.{release_writes};
ghost use Rattle.disk_records.specs.Packs.{Pack, carried};
ghost use Rattle.disk_records.specs.Tapes.{DiskAlone, added, pack};
ghost use Rattle.laws_call.specs.Acting.{Releases, around};
ghost use Rattle.laws_hint.specs.MapChanges.{marked};
ghost use Rattle.hint_cache.specs.Caches.{address_in};
ghost use Rattle.pack_model.specs.hints.Links.{LinksTrue};
ghost use Rattle.pack_model.specs.operations.Committing.{page_of_byte};
ghost use Rattle.pack_model.specs.states.Whole.{Whole};
ghost use Rattle.page_seeking.specs.Causes.{cause_of_length};
ghost use Rattle.page_seeking.specs.Refs.{FileStands, IfMisled, IsOwnHint, MisledBy};
ghost use Rattle.page_seeking.specs.Seeking.{QuickCache, file_length, page_number};
ghost use Rattle.page_seeking.specs.declared.refs.FileError.TheVariants as error;
ghost use Rattle.file_pages.specs.Calls.{IsHintOrFound, IsLinkOrFound, WasHeld};
ghost use Rattle.file_pages.specs.Cutting.{IsRead};
ghost use Rattle.file_pages.specs.Dropping.{Drops, DropsButSlot, MayBeDropped};
ghost use Rattle.file_pages.specs.Releasing.{AreAfter, CommitsAndReleases, CommitsFirst, Forgotten, KeepsEachHandy, KeepsOrFrees, ListsNoneGone, MisledSince, OnlyGo};
ghost use Rattle.file_pages.specs.Values.{LeavesHandy};

use crate::refs::error_at;
use crate::releasing::{forget_page, release_rest};
use crate::tallying::count_operation;
use crate::{FileError, FileRef};
use alto_words::Fid;
use disk_records::{Disk, Page, Place, Sector, Tally};
use hint_cache::Hints;
use label_check::{PageInfo, release};
use page_seeking::locate;

/// Releases the leader of a file, by which its drop is committed, and counts it. Two sector commands, two record writes.
fn release_leader<D: Disk>(
    disk: &mut D,
    tally: &mut Tally,
    at: u16,
    leader: Page,
) -> Result<(), FileError>
    requires first { 1 ≤ at }
    requires place { at < pages_of (D.tape disk.old).form }
    ensures commits { IsTrue D.told → carried (pack (D.tape disk.old)) at ≡ Some leader → CommitsFirst (release_writes at) (D.tape disk.old) (D.tape disk.new) tally.old tally.new result }
    ensures is_free { IsTrue D.told → OnOk result (IsFreeSector (pack (D.tape disk.new)) at) }
    ensures misled { IsTrue D.told → carried (pack (D.tape disk.old)) at ≡ Some leader → IfMisled result (λ place at wanted found. ⊥) }
    ensures held { IfMisled result (WasHeld at leader) }
    ensures frame { IsTrue D.told → WritesIn (IsPageOf leader.fid (pack (D.tape disk.old))) (added (D.tape disk.old) (D.tape disk.new)) }
    ensures cause { HasCause cause_of_length (D.tape disk.old) (D.tape disk.new) result }
    ensures alone { DiskAlone (D.tape disk.old) (D.tape disk.new) }
    ensures runs { IsTrue D.told → (D.tape disk.new).runs ≤ (D.tape disk.old).runs + 2 }
{
    let before = disk.writes();
    let released = release(disk, at, leader);
    let now = disk.writes();
    count_operation(tally, before, 1, now, &released);
    match released {
        Ok(()) => Ok(()),
        Err(error) => Err(error_at(Place::Held { at }, at, leader, error)),
    }
}

/// Releases all sectors of a file whose leader was read.
fn drop_pages<D: Disk>(
    disk: &mut D,
    hints: &mut Hints,
    tally: &mut Tally,
    fid: Fid,
    at: u16,
    info: PageInfo,
    buf: &mut Sector,
) -> Result<(), FileError>
    requires sized { length hints.old.table ≡ pages_of (D.tape disk.old).form }
    requires first { 1 ≤ at }
    requires place { at < pages_of (D.tape disk.old).form }
    ensures drops { (p : Pack) (pages : List ℕ) → IsTrue D.told → pack (D.tape disk.old) ≡ p → IsRead p (page_number fid 0) at info buf.old → AreAfter p fid 0 pages → CommitsAndReleases (release_writes at) pages (D.tape disk.old) (D.tape disk.new) tally.old tally.new result }
    ensures table { (p : Pack) (pages : List ℕ) → IsTrue D.told → pack (D.tape disk.old) ≡ p → IsRead p (page_number fid 0) at info buf.old → AreAfter p fid 0 pages → OnOk result (hints.new.table ≡ marked false (at ∷ pages) hints.old.table) }
    ensures only { (p : Pack) → IsTrue D.told → pack (D.tape disk.old) ≡ p → IsRead p (page_number fid 0) at info buf.old → OnOk result (OnlyGo p (pack (D.tape disk.new))) }
    ensures misled { (p : Pack) → IsTrue D.told → pack (D.tape disk.old) ≡ p → IsRead p (page_number fid 0) at info buf.old → IfMisled result (MisledSince p (pack (D.tape disk.new)) fid) }
    ensures given { IfMisled result (IsLinkOrFound fid) }
    ensures frame { IsTrue D.told → WritesIn (IsPageOf fid (pack (D.tape disk.old))) (added (D.tape disk.old) (D.tape disk.new)) }
    ensures cause { HasCause cause_of_length (D.tape disk.old) (D.tape disk.new) result }
    ensures alone { DiskAlone (D.tape disk.old) (D.tape disk.new) }
    ensures bits { IsTrue D.told → KeepsOrFrees (pack (D.tape disk.new)) hints.old.table hints.new.table }
    ensures sized { length hints.new.table ≡ length hints.old.table }
    ensures refused { hints.new.cache.refused ≡ hints.old.cache.refused }
    ensures handy { KeepsEachHandy hints.old.cache hints.new.cache }
    ensures forgotten { (p : Pack) → IsTrue D.told → pack (D.tape disk.old) ≡ p → IsRead p (page_number fid 0) at info buf.old → Whole p → file_length p fid / 512 < 65535 → OnOk result (Forgotten hints.new.cache fid 0 (page_of_byte (file_length p fid))) }
    ensures leader { OnOk result (address_in hints.new.cache.entries (page_number fid 0) ≡ None) }
    ensures gone { (p : Pack) → IsTrue D.told → pack (D.tape disk.old) ≡ p → IsRead p (page_number fid 0) at info buf.old → ListsNoneGone p (pack (D.tape disk.new)) hints.new.cache }
    ensures runs { (p : Pack) → IsTrue D.told → pack (D.tape disk.old) ≡ p → IsRead p (page_number fid 0) at info buf.old → Whole p → (D.tape disk.new).runs ≤ (D.tape disk.old).runs + (3 * page_of_byte (file_length p fid) + 2) }
{
    let leader = Page { fid, number: 0 };
    forget_page(&mut hints.cache, leader);
    match release_leader(disk, tally, at, leader) {
        Ok(()) => {
            hints.table.set(at, false);
            release_rest(disk, hints, fid, 0, at, info, buf)
        }
        Err(error) => Err(error),
    }
}

/// Releases all sectors of a file that has no entries of its own and isn't a system file: its leader, whose label commits, and then its
/// data pages, rising, each found by the next link of the page before it. It is the drop of the file except for the slot of its entry,
/// which the directory frees next. Two record writes of each page, by three sector commands. The sectors are free in the table then, and the cache has forgotten the
/// pages; after an error it has forgotten those that went. On any pack, and whatever the answer is, each record write is in a page of the
/// file, and each bit of the table is as it was, or free as its sector is. `buf` is used, and what it holds then is open.
///
/// Misled: the address that the file is named with misleads, or a next link of the file: then nothing was written, or the file is gone and
/// later pages are left, which a scavenge releases; where the machine isn't modelled also the sector in which this call found a page of the
/// file, if it no longer carries it. DiskFault: the device failed. Memory: no memory was left for a record write. After these two a prefix
/// of the record writes was done. Beyond never comes.
pub fn drop_file<D: Disk>(
    disk: &mut D,
    hints: &mut Hints,
    tally: &mut Tally,
    file: &FileRef,
    buf: &mut Sector,
) -> Result<(), FileError>
    requires sized { length hints.old.table ≡ pages_of (D.tape disk.old).form }
    ensures releases { IsTrue D.told → FileStands (pack (D.tape disk.old)) file.now → MayBeDropped (pack (D.tape disk.old)) file.now.fid → Releases error.DiskFault error.Memory file.now.fid (around (D.tape disk.old) hints.old.table tally.old) (around (D.tape disk.new) hints.new.table tally.new) result }
    ensures drops { (pages : List ℕ) → IsTrue D.told → AreAfter (pack (D.tape disk.old)) file.now.fid 0 pages → Drops (pack (D.tape disk.old)) file.now.fid pages (around (D.tape disk.old) hints.old.table tally.old) (around (D.tape disk.new) hints.new.table tally.new) result }
    ensures goes { IsTrue D.told → FileStands (pack (D.tape disk.old)) file.now → MayBeDropped (pack (D.tape disk.old)) file.now.fid → DropsButSlot (pack (D.tape disk.old)) file.now.fid (added (D.tape disk.old) (D.tape disk.new)) result }
    ensures misled { IsTrue D.told → FileStands (pack (D.tape disk.old)) file.now → IfMisled result (MisledBy (pack (D.tape disk.old)) (added (D.tape disk.old) (D.tape disk.new)) file.now.fid) }
    ensures hint { IsTrue D.told → IfMisled result (IsOwnHint file.now) }
    ensures given { IfMisled result (IsHintOrFound file.now) }
    ensures true_links { IsTrue D.told → FileStands (pack (D.tape disk.old)) file.now → LinksTrue (pack (D.tape disk.old)) → IfMisled result (λ place at wanted found. ⊥) }
    ensures frame { IsTrue D.told → WritesIn (IsPageOf file.now.fid (pack (D.tape disk.old))) (added (D.tape disk.old) (D.tape disk.new)) }
    ensures cause { HasCause cause_of_length (D.tape disk.old) (D.tape disk.new) result }
    ensures alone { DiskAlone (D.tape disk.old) (D.tape disk.new) }
    ensures bits { IsTrue D.told → KeepsOrFrees (pack (D.tape disk.new)) hints.old.table hints.new.table }
    ensures sized { length hints.new.table ≡ length hints.old.table }
    ensures refused { hints.old.cache.refused ≤ hints.new.cache.refused }
    ensures forgotten { IsTrue D.told → FileStands (pack (D.tape disk.old)) file.now → OnOk result (Forgotten hints.new.cache file.now.fid 0 (page_of_byte (file_length (pack (D.tape disk.old)) file.now.fid))) }
    ensures leader { OnOk result (address_in hints.new.cache.entries (page_number file.now.fid 0) ≡ None) }
    ensures gone { IsTrue D.told → ListsNoneGone (pack (D.tape disk.old)) (pack (D.tape disk.new)) hints.new.cache }
    ensures handy { IsTrue D.told → FileStands (pack (D.tape disk.old)) file.now → OnOk result (LeavesHandy (pack (D.tape disk.old)) (pack (D.tape disk.new)) hints.old.cache hints.new.cache) }

    // Sector commands: three for each data page, two for the leader, and those that find it: 53 at most with any hints; one, if the cache
    // has its sector, or with true links and a handy cache.
    ensures runs { IsTrue D.told → Whole (pack (D.tape disk.old)) → (D.tape disk.new).runs ≤ (D.tape disk.old).runs + (3 * page_of_byte (file_length (pack (D.tape disk.old)) file.now.fid) + 55) }
    ensures soon { (at : ℕ) → IsTrue D.told → Whole (pack (D.tape disk.old)) → address_in hints.old.cache.entries (page_number file.now.fid 0) ≡ Some at → carried (pack (D.tape disk.old)) at ≡ Some (page_number file.now.fid 0) → (D.tape disk.new).runs ≤ (D.tape disk.old).runs + (3 * page_of_byte (file_length (pack (D.tape disk.old)) file.now.fid) + 3) }
    ensures quick { IsTrue D.told → QuickCache (pack (D.tape disk.old)) file.now.fid hints.old.cache → OnOk result ((D.tape disk.new).runs ≤ (D.tape disk.old).runs + (3 * page_of_byte (file_length (pack (D.tape disk.old)) file.now.fid) + 3)) }
{
    match locate(disk, hints, file, 0, buf) {
        Ok((at, info)) => drop_pages(disk, hints, tally, file.fid, at, info, buf),
        Err(error) => Err(error),
    }
}
