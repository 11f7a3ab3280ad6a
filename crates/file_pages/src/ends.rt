// Where a file ends.
ghost use Rattle.std.specs.Prelude.{◌≡◌, ◌≢◌, ◌+◌, ◌-◌, ◌<◌, ◌≤◌, ℕ, IfOk, IfSome, IsErrOf, IsTrue, None, OnOk, Some, [], length};
ghost use Rattle.disk_records.specs.Addresses.{pages_of};
ghost use Rattle.disk_records.specs.Causes.{HasCause};
ghost use Rattle.disk_records.specs.Packs.{carried, sector_at};
ghost use Rattle.disk_records.specs.Tapes.{Looks, pack};
ghost use Rattle.page_seeking.specs.Causes.{cause_of_length};
ghost use Rattle.page_seeking.specs.Refs.{FileStands, IfMisled, IsOwnHint, IsOwnLink, MisledBy};
ghost use Rattle.page_seeking.specs.Seeking.{EndsAtPage, IsLast, KeepsHandy, LastNamed, NamedNearEnd, Quick, QuickCache, page_number};
ghost use Rattle.page_seeking.specs.declared.refs.FileError.TheVariants as error;
ghost use Rattle.pack_model.specs.states.Whole.{Whole};
ghost use Rattle.file_pages.specs.Ends.{IsDataPage, ListsEndAt};
ghost use Rattle.file_pages.specs.Releasing.{KeepsEachHandy};

use crate::new_hints::note_one;
use crate::refs::page_of_file;
use crate::releasing::{forget_page, goes_on, read_after};
use crate::{FileError, FileRef};
use alto_words::Fid;
use disk_records::{Disk, Page, Sector};
use hint_cache::{HintCache, Hints};
use label_check::{GuardError, PageInfo, read_page};
use page_seeking::{LastPage, last_page, locate};

/// The words of a leader page with the address and the number of the last page.
const LAST_AT: usize = 253;

const LAST_NUMBER: usize = 254;

/// A data page of a file that was read.
#[derive(Clone, Copy)]
struct DataPage {
    /// Its number, from 1.
    number: u16,
    /// The virtual address of its sector.
    at: u16,
    /// What its label says.
    info: PageInfo,
}

/// The data page of a file with this number, if it is at this address. At most one sector command; what `buf` holds is open.
fn data_page_at<D: Disk>(
    disk: &mut D,
    fid: Fid,
    number: u16,
    at: u16,
    buf: &mut Sector,
) -> Result<Option<DataPage>, FileError>
    ensures number { IfOk result (λ found. IfSome found (λ here. here.number ≡ number)) }
    ensures page { IfOk result (λ found. IfSome found (λ here. IsDataPage D.told (pack (D.tape disk.old)) fid here.number here.at here.info)) }
    ensures there { IsTrue D.told → 1 ≤ number → carried (pack (D.tape disk.old)) at ≡ Some (page_number fid number) → IfOk result (λ found. found ≢ None) }
    ensures misled { IfMisled result (λ place at wanted found. ⊥) }
    ensures cause { HasCause cause_of_length (D.tape disk.old) (D.tape disk.new) result }
    ensures want { IsTrue D.told → IsErrOf result error.Memory → ⊥ }
    ensures looks { Looks D.told 1 (D.tape disk.old) (D.tape disk.new) }
{
    if number == 0 || at == 0 || at >= disk.shape().pages() {
        return Ok(None);
    }
    match read_page(disk, at, page_of_file(fid, number), buf) {
        Ok(info) => Ok(Some(DataPage { number, at, info })),
        Err(GuardError::Wrong { .. }) => Ok(None),
        Err(GuardError::DiskFault) => Err(FileError::DiskFault),
        Err(GuardError::Memory) => Err(FileError::Memory),
    }
}

/// The highest page of a file that the cache lists, if it comes after this one and is there; else this one. An entry that is wrong is
/// taken out. At most one sector command; what `buf` holds is open.
fn highest_listed<D: Disk>(
    disk: &mut D,
    cache: &mut HintCache,
    fid: Fid,
    here: DataPage,
    buf: &mut Sector,
) -> Result<DataPage, FileError>
    requires page { IsDataPage D.told (pack (D.tape disk.old)) fid here.number here.at here.info }
    ensures page { IfOk result (λ near. IsDataPage D.told (pack (D.tape disk.old)) fid near.number near.at near.info) }
    ensures above { IfOk result (λ near. here.number ≤ near.number) }
    ensures misled { IfMisled result (λ place at wanted found. ⊥) }
    ensures cause { HasCause cause_of_length (D.tape disk.old) (D.tape disk.new) result }
    ensures want { IsTrue D.told → IsErrOf result error.Memory → ⊥ }
    ensures looks { Looks D.told 1 (D.tape disk.old) (D.tape disk.new) }
    ensures refused { cache.old.refused ≤ cache.new.refused }
    ensures handy { KeepsEachHandy cache.old cache.new }
{
    let highest = match cache.highest_below(fid, u16::MAX) {
        Some(entry) if entry.page.number > here.number => entry,
        _ => return Ok(here),
    };
    match data_page_at(disk, fid, highest.page.number, highest.at, buf) {
        Ok(Some(near)) => Ok(near),
        Ok(None) => {
            forget_page(cache, highest.page);
            Ok(here)
        }
        Err(error) => Err(error),
    }
}

/// Follows next links from a data page of a file up to the last one: these can mislead. One sector command for each page after it; what
/// `buf` holds is open.
fn climb_to_end<D: Disk>(
    disk: &mut D,
    fid: Fid,
    from: DataPage,
    buf: &mut Sector,
) -> Result<LastPage, FileError>
    requires page { IsDataPage D.told (pack (D.tape disk.old)) fid from.number from.at from.info }
    ensures page { IfOk result (λ end. IsDataPage D.told (pack (D.tape disk.old)) fid end.number end.at end.info) }
    ensures ends { IfOk result (λ end. EndsAtPage end.number end.info.bytes) }
    ensures misled { IsTrue D.told → IfMisled result (MisledBy (pack (D.tape disk.old)) [] fid) }
    ensures link { IfMisled result (λ place at wanted found. IsOwnLink fid place wanted) }
    ensures cause { HasCause cause_of_length (D.tape disk.old) (D.tape disk.new) result }
    ensures want { IsTrue D.told → IsErrOf result error.Memory → ⊥ }
    ensures looks { Looks D.told (65535 - from.number) (D.tape disk.old) (D.tape disk.new) }
    ensures climbs { IsTrue D.told → IfOk result (λ end. (D.tape disk.new).runs + from.number ≤ (D.tape disk.old).runs + end.number) }
{
    let mut at = from.at;
    let mut info = from.info;
    for number in from.number..u16::MAX {
        if !goes_on(number, info) {
            return Ok(LastPage { number, at, info });
        }
        match read_after(disk, Page { fid, number }, at, info, buf) {
            Ok((to, next)) => {
                at = to;
                info = next;
            }
            Err(error) => return Err(error),
        }
    }
    Ok(LastPage {
        number: u16::MAX,
        at,
        info,
    })
}

/// The last page of a file, sought from a data page of it on: from the highest page that the cache lists, if it comes after this one and is
/// there, and then by the file's links. No sector command where this page isn't full; else at most one more than pages come after it. What
/// `buf` holds is open.
fn end_from<D: Disk>(
    disk: &mut D,
    cache: &mut HintCache,
    fid: Fid,
    here: DataPage,
    buf: &mut Sector,
) -> Result<LastPage, FileError>
    requires page { IsDataPage D.told (pack (D.tape disk.old)) fid here.number here.at here.info }
    ensures page { IfOk result (λ end. IsDataPage D.told (pack (D.tape disk.old)) fid end.number end.at end.info) }
    ensures ends { IfOk result (λ end. EndsAtPage end.number end.info.bytes) }
    ensures misled { IsTrue D.told → IfMisled result (MisledBy (pack (D.tape disk.old)) [] fid) }
    ensures link { IfMisled result (λ place at wanted found. IsOwnLink fid place wanted) }
    ensures cause { HasCause cause_of_length (D.tape disk.old) (D.tape disk.new) result }
    ensures want { IsTrue D.told → IsErrOf result error.Memory → ⊥ }
    ensures looks { Looks D.told 65536 (D.tape disk.old) (D.tape disk.new) }
    ensures quick { IsTrue D.told → here.info.bytes ≢ 512 → OnOk result ((D.tape disk.new).runs ≤ (D.tape disk.old).runs) }
    ensures climbs { IsTrue D.told → IfOk result (λ end. (D.tape disk.new).runs + here.number ≤ (D.tape disk.old).runs + (end.number + 1)) }
    ensures refused { cache.old.refused ≤ cache.new.refused }
    ensures handy { KeepsEachHandy cache.old cache.new }
{
    // a page that isn't full is the last
    if !goes_on(here.number, here.info) {
        return Ok(LastPage {
            number: here.number,
            at: here.at,
            info: here.info,
        });
    }
    match highest_listed(disk, cache, fid, here, buf) {
        Ok(near) => climb_to_end(disk, fid, near, buf),
        Err(error) => Err(error),
    }
}

/// Locates a file's leader and its last page: the virtual address of the leader, and the last page, which is noted. The page that the leader
/// names is looked at first. Where it is full, the last page is sought from the highest page that the cache lists, and then by the file's
/// links; where it isn't there, as by `last_page`. `leader` gets the leader's value; what `buf` holds is open.
pub(crate) fn locate_ends<D: Disk>(
    disk: &mut D,
    hints: &mut Hints,
    file: &FileRef,
    leader: &mut [u16; 256],
    buf: &mut Sector,
) -> Result<(u16, LastPage), FileError>
    ensures first { IfOk result (λ found. 1 ≤ found.0) }
    ensures place { IfOk result (λ found. found.0 < pages_of (D.tape disk.old).form) }
    ensures sized { OnOk result (length leader.new ≡ 256) }
    ensures carries { IsTrue D.told → IfOk result (λ found. carried (pack (D.tape disk.old)) found.0 ≡ Some (page_number file.now.fid 0)) }
    ensures value { IsTrue D.told → IfOk result (λ found. leader.new ≡ (sector_at (pack (D.tape disk.old)) found.0).value) }
    ensures end { IsTrue D.told → Whole (pack (D.tape disk.old)) → IfOk result (λ found. IsLast (pack (D.tape disk.old)) file.now.fid found.1) }
    ensures misled { IsTrue D.told → FileStands (pack (D.tape disk.old)) file.now → IfMisled result (MisledBy (pack (D.tape disk.old)) [] file.now.fid) }
    ensures hint { IfMisled result (IsOwnHint file.now) }
    ensures cause { HasCause cause_of_length (D.tape disk.old) (D.tape disk.new) result }
    ensures want { IsTrue D.told → IsErrOf result error.Memory → ⊥ }
    ensures looks { Looks D.told 65640 (D.tape disk.old) (D.tape disk.new) }
    ensures quick { IsTrue D.told → Quick (pack (D.tape disk.old)) file.now.fid hints.old.cache → LastNamed (pack (D.tape disk.old)) file.now.fid → OnOk result ((D.tape disk.new).runs ≤ (D.tape disk.old).runs + 2) }
    ensures climbs { (more : ℕ) → IsTrue D.told → QuickCache (pack (D.tape disk.old)) file.now.fid hints.old.cache → NamedNearEnd (pack (D.tape disk.old)) file.now.fid more → OnOk result ((D.tape disk.new).runs ≤ (D.tape disk.old).runs + (more + 4)) }
    ensures table { hints.new.table ≡ hints.old.table }
    ensures listed { IfOk result (λ found. ListsEndAt D.told (pack (D.tape disk.old)) file.now.fid found.1 hints.old.cache hints.new.cache) }
    ensures refused { hints.old.cache.refused ≤ hints.new.cache.refused }
    ensures handy { IsTrue D.told → KeepsHandy (pack (D.tape disk.old)) hints.old.cache hints.new.cache }
{
    let at = match locate(disk, hints, file, 0, buf) {
        Ok(found) => found.0,
        Err(error) => return Err(error),
    };
    *leader = buf.value;
    match data_page_at(disk, file.fid, leader[LAST_NUMBER], leader[LAST_AT], buf) {
        Ok(Some(named)) => match end_from(disk, &mut hints.cache, file.fid, named, buf) {
            Ok(end) => {
                note_one(&mut hints.cache, page_of_file(file.fid, end.number), end.at);
                Ok((at, end))
            }
            Err(error) => Err(error),
        },
        Ok(None) => match last_page(disk, hints, file, buf) {
            Ok(end) => Ok((at, end)),
            Err(error) => Err(error),
        },
        Err(error) => Err(error),
    }
}
