// Bytes put in the place of others, within one page of a file.
ghost use Rattle.std.specs.Prelude.{◌≡◌, ◌%◌, ◌*◌, ◌+◌, ◌/◌, ◌<◌, ◌≤◌, ℕ, All, IfNone, IfOk, IfSome, IsErrOf, IsTrue, OnErr, OnOk, Some, [], length, ◌≢◌, true, false};
ghost use Rattle.disk_records.specs.Addresses.{pages_of};
ghost use Rattle.disk_records.specs.Causes.{HasCause};
ghost use Rattle.disk_records.specs.Frames.{IsPageOf, WritesIn};
ghost use Rattle.disk_records.specs.Packs.{carried};
ghost use Rattle.disk_records.specs.Tapes.{DiskAlone, Looks, added, pack};
ghost use Rattle.hint_cache.specs.Caches.{address_in};
ghost use Rattle.laws_call.specs.Acting.{Operates, around};
ghost use Rattle.laws_operation.specs.ByteLaws.{IsOrdinary};
ghost use Rattle.page_seeking.specs.Causes.{cause_of_file};
ghost use Rattle.page_seeking.specs.Parts.{IsPast, ListsNext};
ghost use Rattle.page_seeking.specs.Refs.{FileStands, IfBeyond, IfMisled, IsOwnHint, MisledBy};
ghost use Rattle.page_seeking.specs.Seeking.{KeepsHandy, Quick, Stands, file_length, length_at, page_number};
ghost use Rattle.page_seeking.specs.declared.refs.FileError.TheVariants as error;
ghost use Rattle.pack_model.specs.hints.Links.{LinksTrue};
ghost use Rattle.file_pages.specs.Calls.{IsHintOrFound};
ghost use Rattle.pack_model.specs.operations.Committing.{page_of_byte};
ghost use Rattle.pack_model.specs.operations.PageWords.{put_value};
ghost use Rattle.pack_model.specs.states.Whole.{Whole};
ghost use Rattle.file_pages.specs.Putting.{EndsBeside, IsNotEnd, MayBePut, Puts, to_put};
ghost use Rattle.file_pages.specs.Values.{LeavesHandy};

use crate::one_value::write_page;
use crate::refs::page_of_file;
use crate::{FileError, FileRef};
use disk_records::{Disk, PAGE_BYTES, Sector, Tally, put_in_words};
use hint_cache::Hints;
use page_seeking::{length, locate};

/// The number of the page that the byte at this offset is in. None: no page can have it.
pub(crate) fn page_number_of(offset: u32) -> Option<u16>
    ensures some { IfSome result (λ number. number ≡ page_of_byte offset) }
    ensures most { IfSome result (λ number. number ≤ 65535) }
    ensures none { IfNone result (65535 ≤ offset / 512) }
{
    let number = offset / PAGE_BYTES as u32 + 1;
    if number <= u16::MAX as u32 {
        Some(number as u16)
    } else {
        None
    }
}

/// The length of a file whose last page has this number and counts so many bytes.
fn length_at(number: u16, bytes: u16) -> u32
    requires { 1 ≤ number }
    ensures { result ≡ length_at number bytes }
{
    (number as u32 - 1) * PAGE_BYTES as u32 + bytes as u32
}

/// Whether a file has to end with bytes that end so far into a page, and doesn't, by the count of that page.
fn goes_on_after(ends: bool, end: usize, bytes: u16) -> bool
    ensures yes { result ≡ true → (ends ≡ true) × (end ≢ bytes) }
    ensures no { result ≡ false → ends ≡ true → end ≡ bytes }
{
    ends && end != usize::from(bytes)
}

/// Locates the page that so many bytes of a file are in, from an offset on: the virtual address of its sector, and its number. `buf` holds
/// it.
///
/// Beyond: the file ends before they do, or it has to end with them and goes on.
fn locate_bytes<D: Disk>(
    disk: &mut D,
    hints: &mut Hints,
    file: &FileRef,
    offset: u32,
    count: usize,
    ends: bool,
    buf: &mut Sector,
) -> Result<(u16, u16), FileError>
    requires one_page { offset % 512 + count ≤ 512 }
    requires room { ends ≡ true → offset % 512 + count < 512 }
    ensures number { IfOk result (λ found. found.1 ≡ page_of_byte offset) }
    ensures first { IfOk result (λ found. 1 ≤ found.0) }
    ensures last { IfOk result (λ found. found.0 < pages_of (D.tape disk.old).form) }
    ensures sized { OnOk result (length buf.new.value ≡ 256) }
    ensures stands { IsTrue D.told → IfOk result (λ found. Stands (pack (D.tape disk.old)) (page_number file.now.fid (page_of_byte offset)) found.0 buf.new) }
    ensures within { IsTrue D.told → Whole (pack (D.tape disk.old)) → OnOk result (offset + count ≤ file_length (pack (D.tape disk.old)) file.now.fid) }
    ensures last_bytes { IsTrue D.told → Whole (pack (D.tape disk.old)) → ends ≡ true → OnOk result (offset + count ≡ file_length (pack (D.tape disk.old)) file.now.fid) }
    ensures beyond { IsTrue D.told → Whole (pack (D.tape disk.old)) → IfBeyond result (IsNotEnd ends (pack (D.tape disk.old)) file.now.fid (offset + count)) }
    ensures misled { IsTrue D.told → FileStands (pack (D.tape disk.old)) file.now → IfMisled result (MisledBy (pack (D.tape disk.old)) [] file.now.fid) }
    ensures hint { IfMisled result (IsOwnHint file.now) }
    ensures cause { HasCause cause_of_file (D.tape disk.old) (D.tape disk.new) result }
    ensures want { IsTrue D.told → IsErrOf result FileError.Memory → ⊥ }
    ensures looks { Looks D.told 131174 (D.tape disk.old) (D.tape disk.new) }
    ensures soon { (at : ℕ) → IsTrue D.told → address_in hints.old.cache.entries (page_number file.now.fid (page_of_byte offset)) ≡ Some at → carried (pack (D.tape disk.old)) at ≡ Some (page_number file.now.fid (page_of_byte offset)) → OnOk result ((D.tape disk.new).runs ≤ (D.tape disk.old).runs + 1) }
    ensures quick { IsTrue D.told → Quick (pack (D.tape disk.old)) file.now.fid hints.old.cache → OnOk result ((D.tape disk.new).runs ≤ (D.tape disk.old).runs + (page_of_byte offset + 1)) }
    ensures table { hints.new.table ≡ hints.old.table }
    ensures refused { hints.old.cache.refused ≤ hints.new.cache.refused }
    ensures listed { OnOk result (ListsNext D.told (pack (D.tape disk.old)) file.now.fid offset hints.old.cache hints.new.cache) }
    ensures handy { IsTrue D.told → KeepsHandy (pack (D.tape disk.old)) hints.old.cache hints.new.cache }
{
    let Some(number) = page_number_of(offset) else {
        return match length(disk, hints, file, buf) {
            Ok(length) => Err(FileError::Beyond { length }),
            Err(error) => Err(error),
        };
    };
    let found = match locate(disk, hints, file, number, buf) {
        Ok(found) => found,
        Err(error) => return Err(error),
    };
    let from = (offset % PAGE_BYTES as u32) as usize;
    let bytes = found.1.bytes;
    if from + count > usize::from(bytes) {
        return Err(FileError::Beyond {
            length: length_at(number, bytes),
        });
    }
    if !goes_on_after(ends, from + count, bytes) {
        return Ok((found.0, number));
    }
    if bytes < PAGE_BYTES {
        return Err(FileError::Beyond {
            length: length_at(number, bytes),
        });
    }
    // the page is full, so it isn't the last
    match length(disk, hints, file, buf) {
        Ok(length) => Err(FileError::Beyond { length }),
        Err(error) => Err(error),
    }
}

/// Puts bytes, and words after them, in the place of others in the value of a page.
fn put_in_value(value: &mut [u16; 256], from: usize, bytes: &[u8], past: &[u16])
    requires { from + length bytes.now + 2 * length past.now ≤ 512 }
    ensures value { value.new ≡ put_value from bytes.now past.now value.old }
    ensures bytes { All (λ b. b < 256) bytes.now }
    ensures words { All (λ w. w < 65536) past.now }
{
    put_in_words(value, from, bytes, past);
}

/// Puts bytes in the place of as many bytes of a file, from the byte `offset` on, within one page: by one value write of that page, which
/// commits. After them come the words `past`, which don't count: the file has to end with the bytes then. The page is located first. On any
/// pack, and whatever the answer is, the record write is in a page of the file.
///
/// Beyond: the file ends before the bytes do, or it goes on after them and `past` has words; `length` is its length. Misled: a hint of the file misleads, as `locate` says; where the
/// machine isn't modelled also the sector in which this call found a page of the file, if it no longer carries it. DiskFault: the device
/// failed. Memory: no memory was left for the record write. After each of these nothing was written, or after DiskFault all of it may be.
/// What `buf` holds is open.
pub fn put<D: Disk>(
    disk: &mut D,
    hints: &mut Hints,
    tally: &mut Tally,
    file: &FileRef,
    offset: u32,
    bytes: &[u8],
    past: &[u16],
    buf: &mut Sector,
) -> Result<(), FileError>
    requires one_page { offset % 512 + length bytes.now + 2 * length past.now ≤ 512 }

    // The operation, of an ordinary file; and the exact record write, of any file.
    ensures operates { IsTrue D.told → FileStands (pack (D.tape disk.old)) file.now → IsOrdinary file.now.fid → MayBePut (pack (D.tape disk.old)) file.now.fid offset bytes.now past.now → Operates error.DiskFault error.Memory (to_put file.now.fid offset bytes.now) [] (around (D.tape disk.old) hints.old.table tally.old) (around (D.tape disk.new) hints.new.table tally.new) result }
    ensures puts { IsTrue D.told → Whole (pack (D.tape disk.old)) → Puts (pack (D.tape disk.old)) file.now.fid offset bytes.now past.now (around (D.tape disk.old) hints.old.table tally.old) (around (D.tape disk.new) hints.new.table tally.new) result }

    // Where it writes, on every modelled pack; and on a whole one words come only after bytes that end the file.
    ensures last { IsTrue D.told → Whole (pack (D.tape disk.old)) → added (D.tape disk.old) (D.tape disk.new) ≢ [] → MayBePut (pack (D.tape disk.old)) file.now.fid offset bytes.now past.now }
    ensures frame { IsTrue D.told → WritesIn (IsPageOf file.now.fid (pack (D.tape disk.old))) (added (D.tape disk.old) (D.tape disk.new)) }

    // Which error comes when.
    ensures beyond { IsTrue D.told → Whole (pack (D.tape disk.old)) → IfBeyond result (EndsBeside (pack (D.tape disk.old)) file.now.fid (offset + length bytes.now) past.now (around (D.tape disk.old) hints.old.table tally.old) (around (D.tape disk.new) hints.new.table tally.new)) }
    ensures misled { IsTrue D.told → FileStands (pack (D.tape disk.old)) file.now → IfMisled result (MisledBy (pack (D.tape disk.old)) [] file.now.fid) }
    ensures hint { IsTrue D.told → IfMisled result (IsOwnHint file.now) }
    ensures given { IfMisled result (IsHintOrFound file.now) }
    ensures true_links { IsTrue D.told → FileStands (pack (D.tape disk.old)) file.now → LinksTrue (pack (D.tape disk.old)) → IfMisled result (λ place at wanted found. ⊥) }
    ensures cause { HasCause cause_of_file (D.tape disk.old) (D.tape disk.new) result }
    ensures unwritten { IsTrue D.told → (IsErrOf result error.DiskFault → ⊥) → OnErr result (added (D.tape disk.old) (D.tape disk.new) ≡ []) }

    // What stays, and the hints.
    ensures alone { DiskAlone (D.tape disk.old) (D.tape disk.new) }
    ensures table { hints.new.table ≡ hints.old.table }
    ensures refused { hints.old.cache.refused ≤ hints.new.cache.refused }
    ensures listed { OnOk result (ListsNext D.told (pack (D.tape disk.old)) file.now.fid offset hints.old.cache hints.new.cache) }
    ensures handy { IsTrue D.told → LeavesHandy (pack (D.tape disk.old)) (pack (D.tape disk.new)) hints.old.cache hints.new.cache }

    // Sector commands: three if the cache has the page's sector; and with true links and handy hints three more than the page's number.
    ensures soon { (at : ℕ) → IsTrue D.told → address_in hints.old.cache.entries (page_number file.now.fid (page_of_byte offset)) ≡ Some at → carried (pack (D.tape disk.old)) at ≡ Some (page_number file.now.fid (page_of_byte offset)) → OnOk result ((D.tape disk.new).runs ≤ (D.tape disk.old).runs + 3) }
    ensures quick { IsTrue D.told → Quick (pack (D.tape disk.old)) file.now.fid hints.old.cache → OnOk result ((D.tape disk.new).runs ≤ (D.tape disk.old).runs + (page_of_byte offset + 3)) }
{
    let ends = !past.is_empty();
    match locate_bytes(disk, hints, file, offset, bytes.len(), ends, buf) {
        Ok((at, number)) => {
            let from = (offset % PAGE_BYTES as u32) as usize;
            put_in_value(&mut buf.value, from, bytes, past);
            write_page(disk, tally, at, page_of_file(file.fid, number), &buf.value)
        }
        Err(error) => Err(error),
    }
}
