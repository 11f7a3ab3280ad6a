// The leader page of a file, and what it says of where pages are.
ghost use Rattle.std.specs.Prelude.{◌≡◌, ◌≢◌, ◌+◌, ◌≤◌, ℕ, Some, IsTrue, IsErrOf, IfOk, [], ◌<◌};
ghost use Rattle.disk_records.specs.Tapes.{pack};
ghost use Rattle.disk_records.specs.Packs.{carried};
ghost use Rattle.disk_records.specs.Words.{word};
ghost use Rattle.hint_cache.specs.Caches.{address_in};
ghost use Rattle.pack_model.specs.hints.Handy.{last_at_word, last_number_word, row_word};
ghost use Rattle.pack_model.specs.hints.Misled.{IsOnDisk, leader_page};
ghost use Rattle.page_seeking.specs.Refs.{FileIsFrom, FileIsRooted, IfMisled, IfBeyond, MisledBy, IsOwnAddress};
ghost use Rattle.page_seeking.specs.Inside.{Sought, Confirmed, IfFound, IfMissed, EndsAt, Finds, IsNoneOr, LeadsTo, LiesAt};
ghost use Rattle.disk_records.specs.Causes.{HasCause};
ghost use Rattle.label_check.specs.Causes.{cause_of_look};
ghost use Rattle.page_seeking.specs.Causes.{cause_of_file};

use crate::look::look_at;
use crate::notes::note_seen;
use crate::refs::error_at;
use crate::seek::{Found, try_cached, try_hint};
use crate::{FileError, FileRef};
use disk_records::{Disk, Page, Sector};
use hint_cache::HintCache;
use label_check::LookError;

/// The word that isn't 0 if the pages of a file may lie in a row after the leader.
const ROW: usize = 247;

/// The words with the address and the number of a page that may be the last.
const LAST_AT: usize = 253;

const LAST_NUMBER: usize = 254;

/// Reads the leader at the address that the file is named with: this can mislead.
fn look_at_leader<D: Disk>(
    disk: &mut D,
    cache: &mut HintCache,
    file: &FileRef,
    buf: &mut Sector,
) -> Result<Found, FileError>
    ensures sought { Sought D.told 1 (D.tape disk.old) (D.tape disk.new) cache.old cache.new }
    ensures found { IfOk result (Confirmed D.told (leader_page file.now.fid) (D.tape disk.old) cache.old cache.new buf.new) }
    ensures cause { HasCause cause_of_file (D.tape disk.old) (D.tape disk.new) result }
    ensures want { IsTrue D.told → IsErrOf result FileError.Memory → ⊥ }
    ensures misled { IsTrue D.told → FileIsFrom (pack (D.tape disk.old)) file.now → IfMisled result (MisledBy (pack (D.tape disk.old)) [] file.now.fid) }
    ensures on_disk { IsTrue D.told → FileIsRooted (pack (D.tape disk.old)) file.now → IfMisled result (λ place at wanted found. IsOnDisk place) }
    ensures never_beyond { IfBeyond result (λ length. ⊥) }
    ensures hint { IfMisled result (λ place at wanted found. IsOwnAddress file.now place at wanted) }
{
    let shape = disk.shape();
    let page = Page {
        fid: file.fid,
        number: 0,
    };
    let at = file.leader_at;
    match look_at(disk, at, page, buf) {
        Ok(info) => {
            note_seen(cache, shape, page, at, info);
            Ok(Found { at, info })
        }
        Err(error) => Err(error_at(file.from, at, page, error)),
    }
}

/// Locates the leader: by the cache, and then by the address that the file is named with. `buf` holds it. At most two sector commands,
/// and one if the cache is handy.
pub(crate) fn locate_leader<D: Disk>(
    disk: &mut D,
    cache: &mut HintCache,
    file: &FileRef,
    buf: &mut Sector,
) -> Result<Found, FileError>
    ensures sought { Sought D.told 2 (D.tape disk.old) (D.tape disk.new) cache.old cache.new }
    ensures found { IfOk result (Confirmed D.told (leader_page file.now.fid) (D.tape disk.old) cache.old cache.new buf.new) }
    ensures cause { HasCause cause_of_file (D.tape disk.old) (D.tape disk.new) result }
    ensures want { IsTrue D.told → IsErrOf result FileError.Memory → ⊥ }
    ensures misled { IsTrue D.told → FileIsFrom (pack (D.tape disk.old)) file.now → IfMisled result (MisledBy (pack (D.tape disk.old)) [] file.now.fid) }
    ensures on_disk { IsTrue D.told → FileIsRooted (pack (D.tape disk.old)) file.now → IfMisled result (λ place at wanted found. IsOnDisk place) }
    ensures never_beyond { IfBeyond result (λ length. ⊥) }
    ensures soon { (at : ℕ) → IsTrue D.told → address_in cache.old.entries (leader_page file.now.fid) ≡ Some at → carried (pack (D.tape disk.old)) at ≡ Some (leader_page file.now.fid) → (D.tape disk.new).runs ≤ (D.tape disk.old).runs + 1 }
    ensures quick { (at : ℕ) → IsTrue D.told → Finds (pack (D.tape disk.old)) file.now.fid 0 at cache.old → (D.tape disk.new).runs ≤ (D.tape disk.old).runs + 1 }
    ensures hint { IfMisled result (λ place at wanted found. IsOwnAddress file.now place at wanted) }
{
    let page = Page {
        fid: file.fid,
        number: 0,
    };
    match try_cached(disk, cache, page, buf)? {
        Some(found) => Ok(found),
        None => look_at_leader(disk, cache, file, buf),
    }
}

/// Reads the page where the leader, which is in `buf` and at this address, says that it may be: in a row, and as the last page. At most
/// two sector commands, and one if what it says is handy.
pub(crate) fn try_leader_hints<D: Disk>(
    disk: &mut D,
    cache: &mut HintCache,
    leader_at: u16,
    page: Page,
    buf: &mut Sector,
) -> Result<Option<Found>, LookError>
    ensures sought { Sought D.told 2 (D.tape disk.old) (D.tape disk.new) cache.old cache.new }
    ensures found { IfFound result (Confirmed D.told page (D.tape disk.old) cache.old cache.new buf.new) }
    ensures cause { HasCause cause_of_look (D.tape disk.old) (D.tape disk.new) result }
    ensures want { IsTrue D.told → IsErrOf result LookError.Memory → ⊥ }
    ensures quick { (at : ℕ) → IsTrue D.told → carried (pack (D.tape disk.old)) at ≡ Some page → LeadsTo buf.old leader_at page.number at → (D.tape disk.new).runs ≤ (D.tape disk.old).runs + 1 }
    ensures in_a_row { (at : ℕ) → IsTrue D.told → carried (pack (D.tape disk.old)) at ≡ Some page → LeadsTo buf.old leader_at page.number at → word buf.old.value row_word ≢ 0 → IfMissed result ⊥ }
    ensures passed { (at : ℕ) → IsTrue D.told → carried (pack (D.tape disk.old)) at ≡ Some page → LeadsTo buf.old leader_at page.number at → IfMissed result ((D.tape disk.new).runs ≤ (D.tape disk.old).runs) }
{
    let row = row_address(buf, leader_at, page.number);
    let last = last_address(buf, page.number);
    match try_hint(disk, cache, row, page, buf)? {
        Some(found) => Ok(Some(found)),
        None => try_hint(disk, cache, last, page, buf),
    }
}

/// The address of a page if the leader has pages in a row.
fn row_address(leader: &Sector, leader_at: u16, number: u16) -> Option<u16>
    ensures right { (at : ℕ) → at < 65536 → LiesAt leader.now leader_at number at → IsNoneOr at result }
    ensures set { (at : ℕ) → at < 65536 → LiesAt leader.now leader_at number at → word leader.now.value row_word ≢ 0 → result ≡ Some at }
{
    if leader.value[ROW] == 0 {
        return None;
    }
    leader_at.checked_add(number)
}

/// The address of a data page if the leader has it as the last.
pub(crate) fn last_address(leader: &Sector, number: u16) -> Option<u16>
    ensures right { (at : ℕ) → EndsAt leader.now number at → IsNoneOr at result }
    ensures named { 1 ≤ number → word leader.now.value last_number_word ≡ number → result ≡ Some (word leader.now.value last_at_word) }
{
    if number != 0 && leader.value[LAST_NUMBER] == number {
        Some(leader.value[LAST_AT])
    } else {
        None
    }
}

/// The number of the page that the leader has as the last: 0 is none.
pub(crate) fn last_number(leader: &Sector) -> u16
    ensures { result ≡ word leader.now.value last_number_word }
{
    leader.value[LAST_NUMBER]
}
