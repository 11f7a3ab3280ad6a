// The bytes of files.
ghost use Rattle.std.specs.Prelude.{◌≡◌, ◌≢◌, ◌+◌, ◌-◌, ◌*◌, ◌/◌, ◌<◌, ◌≤◌, ◌⊎◌, ℕ, List, Some, IfSome, IfNone, IsTrue, IsErrOf, IfOk, OnOk, [], length, min, take, drop};
ghost use Rattle.disk_records.specs.Bytes.{bytes_of, put_at};
ghost use Rattle.disk_records.specs.Causes.{HasCause};
ghost use Rattle.disk_records.specs.Packs.{carried};
ghost use Rattle.disk_records.specs.Tapes.{Looks, pack};
ghost use Rattle.hint_cache.specs.Caches.{address_in};
ghost use Rattle.laws_contents.specs.PageLaws.{FullBefore};
ghost use Rattle.pack_model.specs.hints.Links.{LinksTrue};
ghost use Rattle.pack_model.specs.operations.Committing.{page_of_byte};
ghost use Rattle.pack_model.specs.reading.Files.{file_bytes};
ghost use Rattle.pack_model.specs.reading.Sights.{sights};
ghost use Rattle.pack_model.specs.states.Sentences.{EachOnce};
ghost use Rattle.pack_model.specs.states.Whole.{Whole};
ghost use Rattle.page_seeking.specs.Causes.{cause_of_file};
ghost use Rattle.page_seeking.specs.Parts.{IsPart, IsPast, IsReadTo, IsWithinPart, ListsEnd, ListsNext};
ghost use Rattle.page_seeking.specs.Refs.{FileIsFrom, FileStands, IfMisled, IfBeyond, IsOwnHint, IsOwnLink, MisledBy};
ghost use Rattle.page_seeking.specs.Seeking.{KeepsHandy, LastNamed, Quick, file_length, page_number};
ghost use Rattle.page_seeking.specs.Inside.{Known, LastListed, Sought, Stops, StopsAt};

use crate::ends::{length, seek_last};
use crate::links::{Below, follow, length_at};
use crate::pages::seek_page;
use crate::{FileError, FileRef};
use alto_words::Fid;
use disk_records::{Disk, PAGE_BYTES, Page, Sector, words_into_bytes};
use hint_cache::{HintCache, Hints};
use std::alloc::Global;

/// The number of the page that the byte at this offset is in. None: no page can have it.
fn page_number_of(offset: u32) -> Option<u16>
    ensures some { IfSome result (λ number. (number ≡ page_of_byte offset) × (number ≤ 65535)) }
    ensures none { IfNone result (65535 ≤ offset / 512) }
{
    let number = offset / PAGE_BYTES as u32 + 1;
    if number <= u16::MAX as u32 {
        Some(number as u16)
    } else {
        None
    }
}

/// Puts all bytes of a page in the place of those of `out` from `done` on, where they are made at once.
fn put_page(value: &[u16; 256], out: &mut [u8], done: usize)
    requires { done + 512 ≤ length out.old }
    ensures put { out.new ≡ put_at done (bytes_of value.now) out.old }
{
    words_into_bytes(value, &mut out[done..done + PAGE_BYTES as usize]);
}

/// Puts bytes of a page that count, from one of them on, in the place of those of `out` from `done` on: as many as there are and fit.
/// Answers how many.
fn put_part(value: &[u16; 256], from: usize, bytes: usize, out: &mut [u8], done: usize) -> usize
    requires counted { from ≤ bytes }
    requires page { bytes ≤ 512 }
    requires within { done ≤ length out.old }
    ensures count { result ≡ min (bytes - from) (length out.old - done) }
    ensures put { out.new ≡ put_at done (take result (drop from (bytes_of value.now))) out.old }
{
    if from == 0 && bytes == PAGE_BYTES as usize && out.len() - done >= PAGE_BYTES as usize {
        put_page(value, out, done);
        return PAGE_BYTES as usize;
    }
    let mut page = [0; PAGE_BYTES as usize];
    words_into_bytes(value, &mut page);
    let count = (bytes - from).min(out.len() - done);
    out[done..done + count].copy_from_slice(&page[from..from + count]);
    count
}

/// Reads the bytes after those that were read, page by page, by the next links from a page whose counted bytes were.
fn read_on<D: Disk>(
    disk: &mut D,
    cache: &mut HintCache,
    fid: Fid,
    below: Below,
    offset: u32,
    front: usize,
    out: &mut [u8],
    buf: &mut Sector,
) -> Result<usize, FileError>
    requires data { 1 ≤ below.number }
    requires low { 512 * (below.number - 1) ≤ offset + front }
    requires most { front ≤ length out.old }
    requires placed { (front ≡ length out.old) ⊎ (offset + front ≡ 512 * (below.number - 1) + below.found.info.bytes) }
    requires upto { offset + front ≤ 512 * (below.number - 1) + below.found.info.bytes }
    ensures sought { Sought D.told (65535 - below.number) (D.tape disk.old) (D.tape disk.new) cache.old cache.new }
    ensures cause { HasCause cause_of_file (D.tape disk.old) (D.tape disk.new) result }
    ensures want { IsTrue D.told → IsErrOf result FileError.Memory → ⊥ }
    ensures misled { IsTrue D.told → Known D.told (pack (D.tape disk.old)) (D.tape disk.old).form (page_number fid below.number) below.found → IfMisled result (MisledBy (pack (D.tape disk.old)) [] fid) }
    ensures link { IfMisled result (λ place at wanted found. IsOwnLink fid place wanted) }
    ensures never_beyond { IfBeyond result (λ length. ⊥) }
    ensures fits { IfOk result (λ n. n ≤ length out.old) }
    ensures stops { IfOk result (λ n. StopsAt below (offset + n) cache.old cache.new ⊎ Stops D.told (D.tape disk.old) fid (offset + n) cache.old cache.new) }
    ensures last { 512 * (below.number - 1) ≤ offset → below.found.info.bytes ≤ 512 → IfOk result (λ n. 1 ≤ n → LastListed D.told (D.tape disk.old) fid below (offset + n) cache.old cache.new) }
    ensures filled { IsTrue D.told → 512 * (below.number - 1) ≤ offset → IfOk result (λ n. 1 ≤ n → n ≡ length out.old → (D.tape disk.new).runs + below.number ≤ (D.tape disk.old).runs + page_of_byte (offset + n - 1)) }
    ensures quick { IsTrue D.told → IfOk result (λ n. (D.tape disk.new).runs + below.number ≤ (D.tape disk.old).runs + page_of_byte (offset + n)) }
    ensures read { (old : List ℕ) → IsTrue D.told → EachOnce (sights (pack (D.tape disk.old))) → FullBefore (pack (D.tape disk.old)) fid (below.number - 1) → Known D.told (pack (D.tape disk.old)) (D.tape disk.old).form (page_number fid below.number) below.found → IsReadTo (file_bytes (sights (pack (D.tape disk.old))) fid) offset front old out.old → IfOk result (IsWithinPart (file_bytes (sights (pack (D.tape disk.old))) fid) offset old out.new) }
{
    let mut here = below.found;
    let mut done = front;
    for number in below.number..u16::MAX {
        if done == out.len() {
            return Ok(done);
        }
        if here.info.bytes != PAGE_BYTES {
            return Ok(done);
        }
        match follow(disk, cache, Page { fid, number }, here, buf) {
            Ok(found) => here = found,
            Err(error) => return Err(error),
        }
        done += put_part(&buf.value, 0, usize::from(here.info.bytes), out, done);
    }
    Ok(done)
}

/// Reads bytes of a file, as `read_part` says.
fn read_pages<D: Disk>(
    disk: &mut D,
    cache: &mut HintCache,
    file: &FileRef,
    offset: u32,
    out: &mut [u8],
    buf: &mut Sector,
) -> Result<usize, FileError>
    ensures sought { Sought D.told 65588 (D.tape disk.old) (D.tape disk.new) cache.old cache.new }
    ensures cause { HasCause cause_of_file (D.tape disk.old) (D.tape disk.new) result }
    ensures want { IsTrue D.told → IsErrOf result FileError.Memory → ⊥ }
    ensures misled { IsTrue D.told → FileIsFrom (pack (D.tape disk.old)) file.now → IfMisled result (MisledBy (pack (D.tape disk.old)) [] file.now.fid) }
    ensures hint { IfMisled result (IsOwnHint file.now) }
    ensures beyond { IsTrue D.told → Whole (pack (D.tape disk.old)) → IfBeyond result (IsPast (pack (D.tape disk.old)) file.now.fid offset) }
    ensures beyond_once { IsTrue D.told → EachOnce (sights (pack (D.tape disk.old))) → FullBefore (pack (D.tape disk.old)) file.now.fid (offset / 512) → IfBeyond result (λ n. n ≡ file_length (pack (D.tape disk.old)) file.now.fid) }
    ensures never_beyond { offset ≡ 0 → IfBeyond result (λ length. ⊥) }
    ensures fits { IfOk result (λ n. n ≤ length out.old) }
    ensures reached { IsTrue D.told → Whole (pack (D.tape disk.old)) → OnOk result (FullBefore (pack (D.tape disk.old)) file.now.fid (offset / 512)) }
    ensures read { IsTrue D.told → EachOnce (sights (pack (D.tape disk.old))) → FullBefore (pack (D.tape disk.old)) file.now.fid (offset / 512) → IfOk result (IsWithinPart (file_bytes (sights (pack (D.tape disk.old))) file.now.fid) offset out.old out.new) }
    ensures stops { IfOk result (λ n. Stops D.told (D.tape disk.old) file.now.fid (offset + n) cache.old cache.new) }
    ensures last { IfOk result (λ n. 1 ≤ n → ListsNext D.told (pack (D.tape disk.old)) file.now.fid (offset + n - 1) cache.old cache.new) }
    ensures filled { (at : ℕ) → IsTrue D.told → address_in cache.old.entries (page_number file.now.fid (page_of_byte offset)) ≡ Some at → carried (pack (D.tape disk.old)) at ≡ Some (page_number file.now.fid (page_of_byte offset)) → IfOk result (λ n. 1 ≤ n → n ≡ length out.old → (D.tape disk.new).runs + page_of_byte offset ≤ (D.tape disk.old).runs + page_of_byte (offset + n - 1) + 1) }
    ensures soon { (at : ℕ) → IsTrue D.told → address_in cache.old.entries (page_number file.now.fid (page_of_byte offset)) ≡ Some at → carried (pack (D.tape disk.old)) at ≡ Some (page_number file.now.fid (page_of_byte offset)) → IfOk result (λ n. (D.tape disk.new).runs + page_of_byte offset ≤ (D.tape disk.old).runs + page_of_byte (offset + n) + 1) }
    ensures quick { IsTrue D.told → Quick (pack (D.tape disk.old)) file.now.fid cache.old → IfOk result (λ n. (D.tape disk.new).runs ≤ (D.tape disk.old).runs + page_of_byte (offset + n) + 1) }
{
    let Some(number) = page_number_of(offset) else {
        return match seek_last(disk, cache, file, buf) {
            Ok(last) => Err(FileError::Beyond {
                length: length_at(last.number, last.found.info.bytes),
            }),
            Err(error) => Err(error),
        };
    };
    let found = match seek_page(disk, cache, file, number, buf) {
        Ok(found) => found,
        Err(error) => return Err(error),
    };
    let from = offset % PAGE_BYTES as u32;
    if from > found.info.bytes as u32 {
        return Err(FileError::Beyond {
            length: length_at(number, found.info.bytes),
        });
    }
    let front = put_part(
        &buf.value,
        from as usize,
        usize::from(found.info.bytes),
        out,
        0,
    );
    let below = Below { number, found };
    read_on(disk, cache, file.fid, below, offset, front, out, buf)
}

/// Reads bytes of a file from the byte `offset` on to the front of `out`: as many as there are and fit, and answers how many. The rest of
/// `out` stays. The first page is located as by `locate`, and each one after it by the next link of the page before. Nothing is written.
///
/// Beyond: `offset` is past the file's length; it never comes of offset 0. Misled, DiskFault and Memory come as from `locate`. After an
/// error what `out` holds is open.
pub fn read_part<D: Disk>(
    disk: &mut D,
    hints: &mut Hints,
    file: &FileRef,
    offset: u32,
    out: &mut [u8],
    buf: &mut Sector,
) -> Result<usize, FileError>
    // The bytes are the file's, as many as fit, and the offset isn't past its end: on a whole pack, and on any that carries no page twice,
    // if the offset isn't past the end there.
    ensures read { IsTrue D.told → Whole (pack (D.tape disk.old)) → IfOk result (IsWithinPart (file_bytes (sights (pack (D.tape disk.old))) file.now.fid) offset out.old out.new) }
    ensures read_once { IsTrue D.told → EachOnce (sights (pack (D.tape disk.old))) → offset ≤ file_length (pack (D.tape disk.old)) file.now.fid → IfOk result (IsWithinPart (file_bytes (sights (pack (D.tape disk.old))) file.now.fid) offset out.old out.new) }
    ensures fits { IfOk result (λ n. n ≤ length out.old) }

    // Which error comes when.
    ensures beyond { IsTrue D.told → Whole (pack (D.tape disk.old)) → IfBeyond result (IsPast (pack (D.tape disk.old)) file.now.fid offset) }
    ensures beyond_once { IsTrue D.told → EachOnce (sights (pack (D.tape disk.old))) → offset ≤ file_length (pack (D.tape disk.old)) file.now.fid → IfBeyond result (λ n. n ≡ file_length (pack (D.tape disk.old)) file.now.fid) }
    ensures never_beyond { offset ≡ 0 → IfBeyond result (λ length. ⊥) }
    ensures misled { IsTrue D.told → FileIsFrom (pack (D.tape disk.old)) file.now → IfMisled result (MisledBy (pack (D.tape disk.old)) [] file.now.fid) }
    ensures hint { IfMisled result (IsOwnHint file.now) }
    ensures true_links { IsTrue D.told → FileStands (pack (D.tape disk.old)) file.now → LinksTrue (pack (D.tape disk.old)) → IfMisled result (λ place at wanted found. ⊥) }
    ensures cause { HasCause cause_of_file (D.tape disk.old) (D.tape disk.new) result }
    ensures want { IsTrue D.told → IsErrOf result FileError.Memory → ⊥ }

    // Sector commands: one a page, if the cache has the first page's sector, up to the page of the last byte, if no more fit. With true
    // links and handy hints one more than the number of the page that the end of what was read is in.
    ensures looks { Looks D.told 65588 (D.tape disk.old) (D.tape disk.new) }
    ensures soon { (at : ℕ) → IsTrue D.told → address_in hints.old.cache.entries (page_number file.now.fid (page_of_byte offset)) ≡ Some at → carried (pack (D.tape disk.old)) at ≡ Some (page_number file.now.fid (page_of_byte offset)) → IfOk result (λ n. (D.tape disk.new).runs + page_of_byte offset ≤ (D.tape disk.old).runs + page_of_byte (offset + n) + 1) }
    ensures filled { (at : ℕ) → IsTrue D.told → address_in hints.old.cache.entries (page_number file.now.fid (page_of_byte offset)) ≡ Some at → carried (pack (D.tape disk.old)) at ≡ Some (page_number file.now.fid (page_of_byte offset)) → IfOk result (λ n. 1 ≤ n → n ≡ length out.old → (D.tape disk.new).runs + page_of_byte offset ≤ (D.tape disk.old).runs + page_of_byte (offset + n - 1) + 1) }
    ensures quick { IsTrue D.told → Quick (pack (D.tape disk.old)) file.now.fid hints.old.cache → IfOk result (λ n. (D.tape disk.new).runs ≤ (D.tape disk.old).runs + page_of_byte (offset + n) + 1) }

    // What becomes of the hints. The cache lists the page of the last byte that was read, or of no bytes a page that the offset is in or
    // ends. With true links it lists the page to go on from, so that a file that is read in parts takes one sector command a page.
    ensures table { hints.new.table ≡ hints.old.table }
    ensures last { IfOk result (λ n. 1 ≤ n → ListsNext D.told (pack (D.tape disk.old)) file.now.fid (offset + n - 1) hints.old.cache hints.new.cache) }
    ensures listed { IfOk result (λ n. ListsEnd D.told (pack (D.tape disk.old)) file.now.fid (offset + n) hints.old.cache hints.new.cache) }
    ensures next { IsTrue D.told → Whole (pack (D.tape disk.old)) → LinksTrue (pack (D.tape disk.old)) → IfOk result (λ n. ListsNext D.told (pack (D.tape disk.old)) file.now.fid (offset + n) hints.old.cache hints.new.cache) }
    ensures refused { hints.old.cache.refused ≤ hints.new.cache.refused }
    ensures handy { IsTrue D.told → KeepsHandy (pack (D.tape disk.old)) hints.old.cache hints.new.cache }
{
    match read_pages(disk, &mut hints.cache, file, offset, out, buf) {
        Ok(n) => Ok(n),
        Err(error) => Err(error),
    }
}

/// Reads all bytes of a file. The cache lists the page of the last byte then, or of no bytes page 1. Nothing is written.
///
/// Misled and DiskFault come as from `locate`. Memory: none was left for the bytes. Beyond never comes.
pub fn read_all<D: Disk>(
    alloc: Global,
    disk: &mut D,
    hints: &mut Hints,
    file: &FileRef,
) -> Result<Vec<u8>, FileError>
    ensures read { IsTrue D.told → EachOnce (sights (pack (D.tape disk.old))) → IfOk result (λ bytes. bytes.items ≡ file_bytes (sights (pack (D.tape disk.old))) file.now.fid) }
    ensures never_beyond { IfBeyond result (λ length. ⊥) }
    ensures misled { IsTrue D.told → FileIsFrom (pack (D.tape disk.old)) file.now → IfMisled result (MisledBy (pack (D.tape disk.old)) [] file.now.fid) }
    ensures hint { IfMisled result (IsOwnHint file.now) }
    ensures true_links { IsTrue D.told → FileStands (pack (D.tape disk.old)) file.now → LinksTrue (pack (D.tape disk.old)) → IfMisled result (λ place at wanted found. ⊥) }
    ensures cause { HasCause cause_of_file (D.tape disk.old) (D.tape disk.new) result }
    ensures looks { Looks D.told 131174 (D.tape disk.old) (D.tape disk.new) }
    ensures quick { IsTrue D.told → Quick (pack (D.tape disk.old)) file.now.fid hints.old.cache → LastNamed (pack (D.tape disk.old)) file.now.fid → IfOk result (λ bytes. (D.tape disk.new).runs ≤ (D.tape disk.old).runs + (page_of_byte (length bytes.items) + 3)) }
    ensures table { hints.new.table ≡ hints.old.table }
    ensures last { IfOk result (λ bytes. 1 ≤ length bytes.items → ListsNext D.told (pack (D.tape disk.old)) file.now.fid (length bytes.items - 1) hints.old.cache hints.new.cache) }
    ensures listed { IfOk result (λ bytes. ListsEnd D.told (pack (D.tape disk.old)) file.now.fid (length bytes.items) hints.old.cache hints.new.cache) }
    ensures refused { hints.old.cache.refused ≤ hints.new.cache.refused }
    ensures handy { IsTrue D.told → KeepsHandy (pack (D.tape disk.old)) hints.old.cache hints.new.cache }
{
    let mut buf = Sector::ZEROS;
    let size = match length(disk, hints, file, &mut buf) {
        Ok(size) => size,
        Err(error) => return Err(error),
    };
    let mut bytes = vec![in alloc; 0; size as usize]?;
    match read_part(disk, hints, file, 0, &mut bytes, &mut buf) {
        Ok(n) => {
            bytes.truncate(n);
            Ok(bytes)
        }
        Err(error) => Err(error),
    }
}
