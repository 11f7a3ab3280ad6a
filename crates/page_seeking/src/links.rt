// Following next links upward.
ghost use Rattle.std.specs.Prelude.{◌≡◌, ◌≢◌, ◌⊎◌, true, false, ◌+◌, ◌-◌, ◌<◌, ◌≤◌, IsTrue, IsErrOf, IfOk, OnOk, []};
ghost use Rattle.disk_records.specs.Tapes.{pack};
ghost use Rattle.pack_model.specs.hints.Misled.{IsOnDisk};
ghost use Rattle.page_seeking.specs.Refs.{IfMisled, IfBeyond, MisledBy, IsOwnLink};
ghost use Rattle.page_seeking.specs.Seeking.{IsEnd, IsFull, length_at, page_after, page_number};
ghost use Rattle.page_seeking.specs.Inside.{Sought, Confirmed, KeepsRecent, Known};
ghost use Rattle.disk_records.specs.Causes.{HasCause};
ghost use Rattle.page_seeking.specs.Causes.{cause_of_file};

use crate::FileError;
use crate::look::look_at;
use crate::notes::note_seen;
use crate::refs::error_at;
use crate::seek::Found;
use alto_words::Fid;
use disk_records::{Disk, PAGE_BYTES, Page, Place, Sector};
use hint_cache::HintCache;
use label_check::PageInfo;

/// Reads the page after one that is known, by its next link: this can mislead. One sector command.
pub(crate) fn follow<D: Disk>(
    disk: &mut D,
    cache: &mut HintCache,
    page: Page,
    here: Found,
    buf: &mut Sector,
) -> Result<Found, FileError>
    requires more { page.number < 65535 }
    ensures sought { Sought D.told 1 (D.tape disk.old) (D.tape disk.new) cache.old cache.new }
    ensures found { IfOk result (Confirmed D.told (page_after page) (D.tape disk.old) cache.old cache.new buf.new) }
    ensures cause { HasCause cause_of_file (D.tape disk.old) (D.tape disk.new) result }
    ensures want { IsTrue D.told → IsErrOf result FileError.Memory → ⊥ }
    ensures misled { IsTrue D.told → Known D.told (pack (D.tape disk.old)) (D.tape disk.old).form page here → IsFull page here.info.bytes → IfMisled result (MisledBy (pack (D.tape disk.old)) [] page.fid) }
    ensures on_disk { IfMisled result (λ place at wanted found. IsOnDisk place) }
    ensures never_beyond { IfBeyond result (λ length. ⊥) }
    ensures keeps { OnOk result (KeepsRecent page cache.old cache.new) }
    ensures link { IfMisled result (λ place at wanted found. IsOwnLink page.fid place wanted) }
{
    let shape = disk.shape();
    let after = Page {
        fid: page.fid,
        number: page.number + 1,
    };
    // sector 0 carries no page
    let at = shape.virtual_of(here.info.next).unwrap_or(0);
    match look_at(disk, at, after, buf) {
        Ok(info) => {
            note_seen(cache, shape, after, at, info);
            Ok(Found { at, info })
        }
        Err(error) => Err(error_at(Place::Next { at: here.at }, here.info.next, after, error)),
    }
}

/// Whether another page comes after this one.
pub(crate) fn goes_on(number: u16, info: PageInfo) -> bool
    ensures full { result ≡ true → (number ≡ 0) ⊎ (info.bytes ≡ 512) }
    ensures short { result ≡ false → (1 ≤ number) × (info.bytes ≢ 512) }
{
    number == 0 || info.bytes == PAGE_BYTES
}

/// The length of a file whose last page has this number and counts so many bytes.
pub(crate) fn length_at(number: u16, bytes: u16) -> u32
    requires { 1 ≤ number }
    ensures { result ≡ length_at number bytes }
{
    (number as u32 - 1) * PAGE_BYTES as u32 + bytes as u32
}

/// A page that is known, by its number in a file.
#[derive(Clone, Copy, Debug, PartialEq, Eq)]
pub(crate) struct Below {
    pub number: u16,
    pub found: Found,
}

/// Follows links from a page that is known up to the one with this number. Beyond: a page before it is the last. `buf` holds the page.
pub(crate) fn climb<D: Disk>(
    disk: &mut D,
    cache: &mut HintCache,
    fid: Fid,
    below: Below,
    number: u16,
    buf: &mut Sector,
) -> Result<Found, FileError>
    requires upward { below.number < number }
    ensures sought { Sought D.told (number - below.number) (D.tape disk.old) (D.tape disk.new) cache.old cache.new }
    ensures found { IfOk result (Confirmed D.told (page_number fid number) (D.tape disk.old) cache.old cache.new buf.new) }
    ensures cause { HasCause cause_of_file (D.tape disk.old) (D.tape disk.new) result }
    ensures want { IsTrue D.told → IsErrOf result FileError.Memory → ⊥ }
    ensures misled { IsTrue D.told → Known D.told (pack (D.tape disk.old)) (D.tape disk.old).form (page_number fid below.number) below.found → IfMisled result (MisledBy (pack (D.tape disk.old)) [] fid) }
    ensures on_disk { IfMisled result (λ place at wanted found. IsOnDisk place) }
    ensures ends { IsTrue D.told → Known D.told (pack (D.tape disk.old)) (D.tape disk.old).form (page_number fid below.number) below.found → IfBeyond result (IsEnd (pack (D.tape disk.old)) fid number) }
    ensures never_beyond { number ≤ 1 → IfBeyond result (λ length. ⊥) }
    ensures link { IfMisled result (λ place at wanted found. IsOwnLink fid place wanted) }
{
    let mut here = below.found;
    for lower in below.number..number {
        if !goes_on(lower, here.info) {
            return Err(FileError::Beyond {
                length: length_at(lower, here.info.bytes),
            });
        }
        match follow(disk, cache, Page { fid, number: lower }, here, buf) {
            Ok(found) => here = found,
            Err(error) => return Err(error),
        }
    }
    Ok(here)
}
