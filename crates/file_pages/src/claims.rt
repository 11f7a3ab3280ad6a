// Claims of new pages in a row.
ghost use Rattle.std.specs.Prelude.{◌≡◌, ◌+◌, ◌*◌, ◌<◌, ◌≤◌, All, IsTrue, OnOk, drop, length, suc, true};
ghost use Rattle.alto_words.specs.Fid.{is_full_name};
ghost use Rattle.disk_records.specs.Addresses.{pages_of};
ghost use Rattle.disk_records.specs.Causes.{HasCause};
ghost use Rattle.disk_records.specs.Commands.{claim_writes, value_writes};
ghost use Rattle.disk_records.specs.Frames.{IsFreeSector, WritesIn};
ghost use Rattle.disk_records.specs.Tapes.{DiskAlone, added, pack};
ghost use Rattle.label_check.specs.Causes.{cause_of_guard};
ghost use Rattle.label_check.specs.Guarded.{Guarded};
ghost use Rattle.page_seeking.specs.Causes.{cause_of_length};
ghost use Rattle.page_seeking.specs.Refs.{IfMisled};
ghost use Rattle.page_seeking.specs.Seeking.{page_number};
ghost use Rattle.pack_model.specs.operations.Commands.{claims_of, claims_writes, past_last};
ghost use Rattle.pack_model.specs.operations.PageWords.{link_to_first, page_value};
ghost use Rattle.file_pages.specs.Growing.{CanClaim, FitsNext, IsSector, Makes, WasGivenToGrow, next_claim};

use crate::FileError;
use crate::making::at_held;
use crate::new_pages::NO_LINK;
use crate::refs::{error_at, page_of_file};
use alto_words::Fid;
use disk_records::{Disk, PAGE_BYTES, Place, Shape, label_of, put_in_words};
use label_check::{GuardError, claim};

/// The next link to the first of these sectors, which is no link if there is none.
pub(crate) fn link_to_first(shape: Shape, fresh: &[u16]) -> u16
    requires sectors { All (IsSector shape) fresh.now }
    ensures { result ≡ link_to_first shape fresh.now }
{
    match fresh.split_first() {
        Some((at, _)) => shape.real_of(*at),
        None => NO_LINK,
    }
}

/// The words past the bytes of a page: these, if no page comes after it.
pub(crate) fn past_last<'a>(past: &'a [u16], later: &[u16]) -> &'a [u16]
    ensures { result.now ≡ past_last past.now later.now }
{
    if later.is_empty() { past } else { &past[..0] }
}

/// As many of these words as fit in a page after so many bytes.
pub(crate) fn words_that_fit(past: &[u16], bytes: usize) -> &[u16]
    requires page { bytes ≤ 512 }
    ensures fit { bytes + 2 * length result.now ≤ 512 }
    ensures all { bytes + 2 * length past.now ≤ 512 → result.now ≡ past.now }
{
    let room = (PAGE_BYTES as usize - bytes) / 2;
    &past[..past.len().min(room)]
}

/// The bytes after the first ones.
pub(crate) fn after_first(bytes: &[u8], count: usize) -> &[u8]
    requires within { count ≤ length bytes.now }
    ensures { result.now ≡ drop count bytes.now }
{
    &bytes[count..]
}

/// The value of a new page with these bytes.
fn page_value(bytes: &[u8], past: &[u16]) -> [u16; 256]
    requires page { length bytes.now ≤ 512 }
    ensures { length bytes.now + 2 * length past.now ≤ 512 → result ≡ page_value bytes.now past.now }
{
    let mut value = [0; 256];
    put_in_words(&mut value, 0, bytes, words_that_fit(past, bytes.len()));
    value
}

/// Claims the sector at the virtual address `at` for a page with the first of these bytes, after the one in the sector `previous` and
/// before those in `later`.
fn claim_page<D: Disk>(
    disk: &mut D,
    fid: Fid,
    number: u16,
    previous: u16,
    bytes: &[u8],
    past: &[u16],
    at: u16,
    later: &[u16],
) -> Result<(), GuardError>
    requires full_name { is_full_name fid ≡ true }
    requires previous { previous < pages_of (D.tape disk.old).form }
    requires sector { IsSector (D.tape disk.old).form at }
    requires later { All (IsSector (D.tape disk.old).form) later.now }
    ensures guarded { IsTrue D.told → FitsNext bytes.now past.now later.now → Guarded (λ p. IsFreeSector p at) at (value_writes at (next_claim (D.tape disk.old).form (page_number fid number) previous bytes.now past.now at later.now).value) (claim_writes at (next_claim (D.tape disk.old).form (page_number fid number) previous bytes.now past.now at later.now).label (next_claim (D.tape disk.old).form (page_number fid number) previous bytes.now past.now at later.now).value) 2 (D.tape disk.old) (D.tape disk.new) result }
    ensures frame { IsTrue D.told → WritesIn (IsFreeSector (pack (D.tape disk.old))) (added (D.tape disk.old) (D.tape disk.new)) }
    ensures was_free { IsTrue D.told → OnOk result (IsFreeSector (pack (D.tape disk.old)) at) }
    ensures cause { HasCause cause_of_guard (D.tape disk.old) (D.tape disk.new) result }
    ensures alone { DiskAlone (D.tape disk.old) (D.tape disk.new) }
{
    let shape = disk.shape();
    let count = bytes.len().min(PAGE_BYTES as usize);
    let value = page_value(&bytes[..count], past_last(past, later));
    let next = link_to_first(shape, later);
    let page = page_of_file(fid, number);
    let label = label_of(page, count as u16, next, shape.real_of(previous));
    claim(disk, at, label, &value)
}

/// Claims pages of a file after page `last`, which is in the sector `last_at`: one in each of the sectors `fresh`, in order, with 512 of
/// these bytes as long as there are so many, and these words past the bytes of the last. Two sector commands and three record writes for
/// each.
pub(crate) fn claim_pages<D: Disk>(
    disk: &mut D,
    fid: Fid,
    last: u16,
    last_at: u16,
    bytes: &[u8],
    past: &[u16],
    fresh: &[u16],
) -> Result<(), FileError>
    requires full_name { is_full_name fid ≡ true }
    requires last_place { last_at < pages_of (D.tape disk.old).form }
    requires sectors { All (IsSector (D.tape disk.old).form) fresh.now }
    ensures claims { IsTrue D.told → CanClaim (pack (D.tape disk.old)) last bytes.now past.now fresh.now → Makes (claims_writes (claims_of (D.tape disk.old).form fid (suc last) last_at bytes.now past.now fresh.now)) (2 * length fresh.now) (D.tape disk.old) (D.tape disk.new) result }
    ensures misled { IsTrue D.told → CanClaim (pack (D.tape disk.old)) last bytes.now past.now fresh.now → IfMisled result (λ place at wanted found. ⊥) }
    ensures given { IfMisled result (WasGivenToGrow fid fresh.now) }
    ensures frame { IsTrue D.told → WritesIn (IsFreeSector (pack (D.tape disk.old))) (added (D.tape disk.old) (D.tape disk.new)) }
    ensures were_free { IsTrue D.told → OnOk result (All (IsFreeSector (pack (D.tape disk.old))) fresh.now) }
    ensures few { OnOk result (last + length fresh.now ≤ 65535) }
    ensures cause { HasCause cause_of_length (D.tape disk.old) (D.tape disk.new) result }
    ensures alone { DiskAlone (D.tape disk.old) (D.tape disk.new) }
{
    let mut before = last;
    let mut previous = last_at;
    let mut left = bytes;
    let mut rest = fresh;
    while let Some((at, later)) = rest.split_first() {
        let at = *at;
        let Some(number) = before.checked_add(1) else {
            return Err(at_held(at, page_of_file(fid, before)));
        };
        match claim_page(disk, fid, number, previous, left, past, at, later) {
            Ok(()) => {}
            Err(error) => return Err(error_at(
                Place::Held { at },
                at,
                page_of_file(fid, number),
                error,
            )),
        }
        before = number;
        previous = at;
        left = after_first(left, left.len().min(PAGE_BYTES as usize));
        rest = later;
    }
    Ok(())
}
