// The last page of a file, and so its length.
ghost use Rattle.std.specs.Prelude.{◌≡◌, ◌≢◌, ◌⊎◌, ◌+◌, ◌-◌, ◌*◌, ◌<◌, ◌≤◌, ℕ, None, Some, IfSome, IsTrue, IsErrOf, IfOk, OnOk, [], min};
ghost use Rattle.disk_records.specs.Causes.{HasCause};
ghost use Rattle.disk_records.specs.Packs.{carried};
ghost use Rattle.disk_records.specs.Tapes.{Looks, pack};
ghost use Rattle.disk_records.specs.Words.{word};
ghost use Rattle.hint_cache.specs.Caches.{NoneListed, address_in};
ghost use Rattle.hint_cache.specs.declared.cache.Entry as cached;
ghost use Rattle.pack_model.specs.hints.Handy.{last_number_word, leader_word};
ghost use Rattle.pack_model.specs.hints.Links.{LinksTrue};
ghost use Rattle.pack_model.specs.operations.Committing.{page_of_byte};
ghost use Rattle.pack_model.specs.reading.Sights.{sights};
ghost use Rattle.pack_model.specs.states.Sentences.{EachOnce};
ghost use Rattle.pack_model.specs.states.Whole.{Whole};
ghost use Rattle.page_seeking.specs.Causes.{cause_of_file, cause_of_length};
ghost use Rattle.page_seeking.specs.Parts.{ListsLast};
ghost use Rattle.page_seeking.specs.Refs.{FileIsFrom, FileStands, IfMisled, IfBeyond, IsOwnHint, IsOwnLink, MisledBy};
ghost use Rattle.page_seeking.specs.Seeking.{EndListed, EndsAtPage, GoesOn, IsLast, KeepsHandy, LastNamed, Lists, NamedNearEnd, Quick, QuickCache, Refused, Seen, Stands, file_length, page_number};
ghost use Rattle.page_seeking.specs.Inside.{Confirmed, KeepsEach, Known, NamesEnd, Near, Sought, StaysAt};
ghost use Rattle.label_check.specs.Causes.{cause_of_look};

use crate::leader::{last_address, last_number, locate_leader};
use crate::links::{Below, follow, goes_on, length_at};
use crate::pages::{MAX_TRIED, nearest_below};
use crate::seek::{Found, try_at, try_hint};
use crate::{FileError, FileRef};
use alto_words::Fid;
use disk_records::{Disk, Page, Sector};
use hint_cache::{Entry, HintCache, Hints};
use label_check::{LookError, PageInfo};

/// The last page of a file.
#[derive(Clone, Copy, Debug, PartialEq, Eq)]
pub struct LastPage {
    /// Its number, from 1.
    pub number: u16,
    /// The virtual address of its sector.
    pub at: u16,
    /// What its label says: the bytes that count, and its links.
    pub info: PageInfo,
}

/// Follows links from a page that is known up to the last one. `buf` holds it, if a link was followed.
fn climb_to_end<D: Disk>(
    disk: &mut D,
    cache: &mut HintCache,
    fid: Fid,
    below: Below,
    buf: &mut Sector,
) -> Result<Below, FileError>
    ensures sought { Sought D.told (65535 - below.number) (D.tape disk.old) (D.tape disk.new) cache.old cache.new }
    ensures ends { IfOk result (λ last. EndsAtPage last.number last.found.info.bytes) }
    ensures found { IfOk result (λ last. StaysAt below buf.old cache.old last buf.new cache.new ⊎ Confirmed D.told (page_number fid last.number) (D.tape disk.old) cache.old cache.new buf.new last.found) }
    ensures known { IsTrue D.told → Known D.told (pack (D.tape disk.old)) (D.tape disk.old).form (page_number fid below.number) below.found → IfOk result (λ last. Known D.told (pack (D.tape disk.old)) (D.tape disk.old).form (page_number fid last.number) last.found) }
    ensures cause { HasCause cause_of_file (D.tape disk.old) (D.tape disk.new) result }
    ensures want { IsTrue D.told → IsErrOf result FileError.Memory → ⊥ }
    ensures misled { IsTrue D.told → Known D.told (pack (D.tape disk.old)) (D.tape disk.old).form (page_number fid below.number) below.found → IfMisled result (MisledBy (pack (D.tape disk.old)) [] fid) }
    ensures never_beyond { IfBeyond result (λ length. ⊥) }
    ensures climbs { IsTrue D.told → IfOk result (λ last. (D.tape disk.new).runs + below.number ≤ (D.tape disk.old).runs + last.number) }
    ensures link { IfMisled result (λ place at wanted found. IsOwnLink fid place wanted) }
{
    let mut here = below.found;
    for number in below.number..u16::MAX {
        if !goes_on(number, here.info) {
            return Ok(Below {
                number,
                found: here,
            });
        }
        match follow(disk, cache, Page { fid, number }, here, buf) {
            Ok(found) => here = found,
            Err(error) => return Err(error),
        }
    }
    Ok(Below {
        number: u16::MAX,
        found: here,
    })
}

/// Reads the page of an entry that the cache had, if it comes after the one with this number. None: it doesn't, or it isn't there; then
/// the cache has no entry for it any more.
fn try_higher<D: Disk>(
    disk: &mut D,
    cache: &mut HintCache,
    fid: Fid,
    number: u16,
    highest: Option<Entry>,
    buf: &mut Sector,
) -> Result<Option<Below>, LookError>
    requires own { IfSome highest (λ entry. entry.page.fid ≡ fid) }
    ensures sought { Sought D.told 1 (D.tape disk.old) (D.tape disk.new) cache.old cache.new }
    ensures found { IfOk result (λ higher. IfSome higher (λ below. Confirmed D.told (page_number fid below.number) (D.tape disk.old) cache.old cache.new buf.new below.found)) }
    ensures higher { IfOk result (λ higher. IfSome higher (λ below. number < below.number)) }
    ensures is { (entry : cached.Entry) → highest ≡ Some entry → IfOk result (λ higher. IfSome higher (λ below. below.number ≡ entry.page.number)) }
    ensures here { (entry : cached.Entry) → IsTrue D.told → highest ≡ Some entry → number < entry.page.number → carried (pack (D.tape disk.old)) entry.at ≡ Some entry.page → IfOk result (λ higher. higher ≢ None) }
    ensures cause { HasCause cause_of_look (D.tape disk.old) (D.tape disk.new) result }
    ensures want { IsTrue D.told → IsErrOf result LookError.Memory → ⊥ }
{
    let entry = match highest {
        Some(entry) if entry.page.number > number => entry,
        _ => return Ok(None),
    };
    match try_at(disk, cache, entry.at, entry.page, buf)? {
        Some(found) => Ok(Some(Below {
            number: entry.page.number,
            found,
        })),
        None => {
            cache.forget(entry.page);
            Ok(None)
        }
    }
}

/// A page that the last one is sought from: the page that the leader, which is in `buf`, names as the last, if it is there and isn't full;
/// else the highest that the cache listed as the call began, if it comes after that one and is there; else the one that is named, or the
/// nearest to the end that is known. `buf` holds it, unless another page comes after it.
fn near_end<D: Disk>(
    disk: &mut D,
    cache: &mut HintCache,
    fid: Fid,
    leader: Found,
    highest: Option<Entry>,
    buf: &mut Sector,
) -> Result<Below, LookError>
    requires own { IfSome highest (λ entry. entry.page.fid ≡ fid) }
    ensures sought { Sought D.told 49 (D.tape disk.old) (D.tape disk.new) cache.old cache.new }
    ensures found { IfOk result (λ below. GoesOn (page_number fid below.number) below.found.info.bytes ⊎ Confirmed D.told (page_number fid below.number) (D.tape disk.old) cache.old cache.new buf.new below.found) }
    ensures known { IsTrue D.told → Known D.told (pack (D.tape disk.old)) (D.tape disk.old).form (page_number fid 0) leader → IfOk result (λ below. Known D.told (pack (D.tape disk.old)) (D.tape disk.old).form (page_number fid below.number) below.found) }
    ensures cause { HasCause cause_of_look (D.tape disk.old) (D.tape disk.new) result }
    ensures want { IsTrue D.told → IsErrOf result LookError.Memory → ⊥ }
    ensures named { (n : ℕ) → IsTrue D.told → NamesEnd (pack (D.tape disk.old)) fid buf.old n → IfOk result (Near D.told (D.tape disk.old) (D.tape disk.new) fid n) }
    ensures near { (entry : cached.Entry) → IsTrue D.told → highest ≡ Some entry → 1 ≤ entry.page.number → carried (pack (D.tape disk.old)) entry.at ≡ Some entry.page → IfOk result (λ below. ((entry.page.number ≤ below.number) ⊎ EndsAtPage below.number below.found.info.bytes) × ((D.tape disk.new).runs ≤ (D.tape disk.old).runs + 2)) }
{
    let number = last_number(buf);
    let hint = last_address(buf, number);
    match try_hint(disk, cache, hint, Page { fid, number }, buf)? {
        Some(found) => {
            if number == u16::MAX || !goes_on(number, found.info) {
                return Ok(Below { number, found });
            }
            match try_higher(disk, cache, fid, number, highest, buf)? {
                Some(higher) => Ok(higher),
                None => Ok(Below { number, found }),
            }
        }
        None => match try_higher(disk, cache, fid, 0, highest, buf)? {
            Some(higher) => Ok(higher),
            None => {
                let top = Page {
                    fid,
                    number: u16::MAX,
                };
                // the highest one was tried already
                nearest_below(disk, cache, top, leader, MAX_TRIED - 1, buf)
            }
        },
    }
}

/// Locates the last page of a file, as `last_page` says.
pub(crate) fn seek_last<D: Disk>(
    disk: &mut D,
    cache: &mut HintCache,
    file: &FileRef,
    buf: &mut Sector,
) -> Result<Below, FileError>
    ensures sought { Sought D.told 65586 (D.tape disk.old) (D.tape disk.new) cache.old cache.new }
    ensures ends { IfOk result (λ last. EndsAtPage last.number last.found.info.bytes) }
    ensures found { IfOk result (λ last. Confirmed D.told (page_number file.now.fid last.number) (D.tape disk.old) cache.old cache.new buf.new last.found) }
    ensures cause { HasCause cause_of_file (D.tape disk.old) (D.tape disk.new) result }
    ensures want { IsTrue D.told → IsErrOf result FileError.Memory → ⊥ }
    ensures misled { IsTrue D.told → FileIsFrom (pack (D.tape disk.old)) file.now → IfMisled result (MisledBy (pack (D.tape disk.old)) [] file.now.fid) }
    ensures never_beyond { IfBeyond result (λ length. ⊥) }
    ensures quick { IsTrue D.told → QuickCache (pack (D.tape disk.old)) file.now.fid cache.old → LastNamed (pack (D.tape disk.old)) file.now.fid → OnOk result ((D.tape disk.new).runs ≤ (D.tape disk.old).runs + 2) }
    ensures near { IsTrue D.told → QuickCache (pack (D.tape disk.old)) file.now.fid cache.old → EndListed (pack (D.tape disk.old)) file.now.fid cache.old → OnOk result ((D.tape disk.new).runs ≤ (D.tape disk.old).runs + 3) }
    ensures climbs { (more : ℕ) → IsTrue D.told → QuickCache (pack (D.tape disk.old)) file.now.fid cache.old → NamedNearEnd (pack (D.tape disk.old)) file.now.fid more → OnOk result ((D.tape disk.new).runs ≤ (D.tape disk.old).runs + (more + min more 1 + 2)) }
    ensures hint { IfMisled result (IsOwnHint file.now) }
{
    // before other pages are noted, which may drop it
    let highest = cache.highest_below(file.fid, u16::MAX);
    let leader = match locate_leader(disk, cache, file, buf) {
        Ok(leader) => leader,
        Err(error) => return Err(error),
    };
    let below = near_end(disk, cache, file.fid, leader, highest, buf)?;
    climb_to_end(disk, cache, file.fid, below, buf)
}

/// Takes the pages of a file after the one with this number out of the cache.
fn forget_after(cache: &mut HintCache, fid: Fid, number: u16)
    ensures refused { cache.new.refused ≡ cache.old.refused }
    ensures each { KeepsEach cache.old cache.new }
    ensures lower { (n : ℕ) → n ≤ number → address_in cache.new.entries (page_number fid n) ≡ address_in cache.old.entries (page_number fid n) }
    ensures none { NoneListed cache.new.entries fid (number + 1) 65535 }
{
    let mut above = u16::MAX;
    while let Some(entry) = cache.highest_below(fid, above) {
        if entry.page.number <= number {
            return;
        }
        cache.forget(entry.page);
        above = entry.page.number;
    }
}

/// Locates the last page of a file. The page that the leader names as the last is looked at first. Where that is full, or isn't there, the
/// highest page that the cache lists is, if it comes after it; and from there, or from the nearest page that is known, the next links are
/// followed. `buf` holds the last page then. The cache lists it from then on, and no page of the file after it. Nothing is written.
///
/// Misled: the named address, or a next link of the file, names no usable sector, or one that doesn't carry the page. DiskFault: the device
/// failed. Memory: no memory was left, which no disk that is modelled answers here. Beyond never comes. After each of these what `buf`
/// holds is open.
pub fn last_page<D: Disk>(
    disk: &mut D,
    hints: &mut Hints,
    file: &FileRef,
    buf: &mut Sector,
) -> Result<LastPage, FileError>
    // What is answered: on every disk, where the machine is modelled, and of a whole pack.
    ensures seen { IfOk result (λ last. Seen (D.tape disk.old).form (page_number file.now.fid last.number) last.at last.info buf.new) }
    ensures ends { IfOk result (λ last. EndsAtPage last.number last.info.bytes) }
    ensures stands { IsTrue D.told → IfOk result (λ last. Stands (pack (D.tape disk.old)) (page_number file.now.fid last.number) last.at buf.new) }
    ensures last { IsTrue D.told → Whole (pack (D.tape disk.old)) → IfOk result (IsLast (pack (D.tape disk.old)) file.now.fid) }

    // Which error comes when.
    ensures misled { IsTrue D.told → FileIsFrom (pack (D.tape disk.old)) file.now → IfMisled result (MisledBy (pack (D.tape disk.old)) [] file.now.fid) }
    ensures hint { IfMisled result (IsOwnHint file.now) }
    ensures true_links { IsTrue D.told → FileStands (pack (D.tape disk.old)) file.now → LinksTrue (pack (D.tape disk.old)) → IfMisled result (λ place at wanted found. ⊥) }
    ensures cause { HasCause cause_of_length (D.tape disk.old) (D.tape disk.new) result }
    ensures want { IsTrue D.told → IsErrOf result FileError.Memory → ⊥ }

    // Nothing is written. With any hints there are so many sector commands at most; two with true links, handy hints, and a leader that
    // names the last page. With true links and a handy cache there are three, whatever the leader names, where the highest page that the
    // cache lists is the last; and else two, one for each page after the one that the leader names, and one if there is any.
    ensures looks { Looks D.told 65586 (D.tape disk.old) (D.tape disk.new) }
    ensures quick { IsTrue D.told → Quick (pack (D.tape disk.old)) file.now.fid hints.old.cache → LastNamed (pack (D.tape disk.old)) file.now.fid → OnOk result ((D.tape disk.new).runs ≤ (D.tape disk.old).runs + 2) }
    ensures near { IsTrue D.told → QuickCache (pack (D.tape disk.old)) file.now.fid hints.old.cache → EndListed (pack (D.tape disk.old)) file.now.fid hints.old.cache → OnOk result ((D.tape disk.new).runs ≤ (D.tape disk.old).runs + 3) }
    ensures climbs { (more : ℕ) → IsTrue D.told → QuickCache (pack (D.tape disk.old)) file.now.fid hints.old.cache → NamedNearEnd (pack (D.tape disk.old)) file.now.fid more → OnOk result ((D.tape disk.new).runs ≤ (D.tape disk.old).runs + (more + min more 1 + 2)) }

    // What becomes of the hints. The last page is the highest that the cache lists then, so that three sector commands find it again.
    ensures table { hints.new.table ≡ hints.old.table }
    ensures highest { IsTrue D.told → Whole (pack (D.tape disk.old)) → IfOk result (λ last. last.number < 65535 → EndListed (pack (D.tape disk.old)) file.now.fid hints.new.cache ⊎ Refused hints.old.cache hints.new.cache) }
    ensures listed { IfOk result (λ last. Lists (D.tape disk.old).form (page_number file.now.fid last.number) last.at last.info hints.old.cache hints.new.cache) }
    ensures refused { hints.old.cache.refused ≤ hints.new.cache.refused }
    ensures handy { IsTrue D.told → KeepsHandy (pack (D.tape disk.old)) hints.old.cache hints.new.cache }
{
    match seek_last(disk, &mut hints.cache, file, buf) {
        Ok(last) => {
            forget_after(&mut hints.cache, file.fid, last.number);
            Ok(LastPage {
                number: last.number,
                at: last.found.at,
                info: last.found.info,
            })
        }
        Err(error) => Err(error),
    }
}

/// The length of a file in bytes, by the label of its last page, which is located as by `last_page`. On a pack that isn't whole pages
/// before it may be missing: the file ends there then, and has fewer bytes. It is at most 65,535 pages of 512 bytes on every disk. The cache
/// lists the last page from then on, and no page after it. Nothing is written.
///
/// Misled, DiskFault and Memory come as from `last_page`, and Beyond never comes.
pub fn length<D: Disk>(
    disk: &mut D,
    hints: &mut Hints,
    file: &FileRef,
    buf: &mut Sector,
) -> Result<u32, FileError>
    ensures length { IsTrue D.told → Whole (pack (D.tape disk.old)) → IfOk result (λ n. n ≡ file_length (pack (D.tape disk.old)) file.now.fid) }
    ensures most { IsTrue D.told → EachOnce (sights (pack (D.tape disk.old))) → IfOk result (λ n. file_length (pack (D.tape disk.old)) file.now.fid ≤ n) }
    ensures bound { IfOk result (λ n. n ≤ 65535 * 512) }
    ensures misled { IsTrue D.told → FileIsFrom (pack (D.tape disk.old)) file.now → IfMisled result (MisledBy (pack (D.tape disk.old)) [] file.now.fid) }
    ensures hint { IfMisled result (IsOwnHint file.now) }
    ensures true_links { IsTrue D.told → FileStands (pack (D.tape disk.old)) file.now → LinksTrue (pack (D.tape disk.old)) → IfMisled result (λ place at wanted found. ⊥) }
    ensures cause { HasCause cause_of_length (D.tape disk.old) (D.tape disk.new) result }
    ensures want { IsTrue D.told → IsErrOf result FileError.Memory → ⊥ }
    ensures looks { Looks D.told 65586 (D.tape disk.old) (D.tape disk.new) }
    ensures quick { IsTrue D.told → Quick (pack (D.tape disk.old)) file.now.fid hints.old.cache → LastNamed (pack (D.tape disk.old)) file.now.fid → OnOk result ((D.tape disk.new).runs ≤ (D.tape disk.old).runs + 2) }
    ensures near { IsTrue D.told → QuickCache (pack (D.tape disk.old)) file.now.fid hints.old.cache → EndListed (pack (D.tape disk.old)) file.now.fid hints.old.cache → OnOk result ((D.tape disk.new).runs ≤ (D.tape disk.old).runs + 3) }
    ensures table { hints.new.table ≡ hints.old.table }
    ensures highest { IsTrue D.told → Whole (pack (D.tape disk.old)) → IfOk result (λ n. page_of_byte n < 65535 → EndListed (pack (D.tape disk.old)) file.now.fid hints.new.cache ⊎ Refused hints.old.cache hints.new.cache) }
    ensures listed { IfOk result (ListsLast D.told (pack (D.tape disk.old)) file.now.fid hints.old.cache hints.new.cache) }
    ensures refused { hints.old.cache.refused ≤ hints.new.cache.refused }
    ensures handy { IsTrue D.told → KeepsHandy (pack (D.tape disk.old)) hints.old.cache hints.new.cache }
{
    match seek_last(disk, &mut hints.cache, file, buf) {
        Ok(last) => {
            forget_after(&mut hints.cache, file.fid, last.number);
            Ok(length_at(last.number, last.found.info.bytes))
        }
        Err(error) => Err(error),
    }
}
