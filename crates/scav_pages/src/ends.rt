// Last pages of files, and DiskDescriptor.
ghost use Rattle.std.specs.Prelude.{◌≡◌, ◌≤◌, ◌<◌, ◌↔◌, get_or, ℕ, Some, IsTrue, IfOk, OnOk};
ghost use Rattle.disk_records.specs.Addresses.{pages_of};
ghost use Rattle.disk_records.specs.Causes.{HasCause};
ghost use Rattle.disk_records.specs.Frames.{WritesUsable};
ghost use Rattle.disk_records.specs.Labels.{page_of};
ghost use Rattle.disk_records.specs.Tapes.{DiskAlone, pack};
ghost use Rattle.laws_mend.specs.Parts.{Rooted};
ghost use Rattle.pack_model.specs.scavenger.Scavenging.{Scavengeable};
ghost use Rattle.scav_pages.specs.Does.{Does};
ghost use Rattle.scav_pages.specs.Ends.{AreWithin, MayClaim, MayClaimLast, noted_at};
ghost use Rattle.scav_pages.specs.Parts.{ClaimsHand, Described, LastClaimed, PageClaimed, PageWritten};
ghost use Rattle.scav_pages.specs.Stops.{cause_of_stop};
ghost use Rattle.scav_pages.specs.Walks.{sector_in_hand};

use crate::descriptor::{Places, mend_descriptor};
use crate::errors::Stop;
use crate::files::FileWalk;
use crate::free::next_free;
use crate::rows::next_row;
use alto_words::Fid;
use disk_records::{Disk, Page, label_of, page_of};
use label_check::claim;
use scav_table::{Pass, Row, Table};

/// A link at either end of a file.
const NO_LINK: u16 = 0xFFFF;

/// Claims each last page that is missing, with 0 bytes, and makes DiskDescriptor whole.
pub(crate) fn mend_ends<D: Disk>(disk: &mut D, table: &mut Table) -> Result<(), Stop>
    ensures does { IsTrue D.told → Scavengeable (pack (D.tape disk.old)) → Rooted (pack (D.tape disk.old)) → Does Described (D.tape disk.old) (D.tape disk.new) result }
    ensures cause { HasCause cause_of_stop (D.tape disk.old) (D.tape disk.new) result }
    ensures frame { WritesUsable D.told (D.tape disk.old) (D.tape disk.new) }
    ensures alone { DiskAlone (D.tape disk.old) (D.tape disk.new) }
{
    let mut pass = Pass::begin(disk, table)?;
    let mut walk = FileWalk::new();
    let mut from = 1;
    let mut places: Places = [0; 6];
    while let Some(row) = next_row(disk, table, &mut pass)? {
        if walk.leaves(&row) {
            claim_last(disk, &walk, &mut from)?;
        }
        walk.meet(&row);
        note_page(&mut places, &row);
    }
    claim_last(disk, &walk, &mut from)?;
    mend_descriptor(disk, &mut places, &mut from)
}

/// Notes the sector of a page of DiskDescriptor, one of its first six.
fn note_page(places: &mut Places, row: &Row)
    ensures within { (end : ℕ) → row.now.at < end → AreWithin end places.old → AreWithin end places.new }
    ensures noted { (n : ℕ) → n < 6 → get_or places.new n 0 ≡ noted_at places.old row.now n }
{
    let number = usize::from(row.page.number);
    if row.page.fid == Fid::DISK_DESCRIPTOR && number < places.len() {
        places[number] = row.at;
    }
}

/// Claims the last page of the file in hand, if it is missing, at the lowest free sector.
fn claim_last<D: Disk>(disk: &mut D, walk: &FileWalk, from: &mut u16) -> Result<(), Stop>
    requires first { 1 ≤ from.old }
    requires place { sector_in_hand walk.now < pages_of (D.tape disk.old).form }
    ensures does { IsTrue D.told → MayClaimLast (pack (D.tape disk.old)) walk.now from.old → Does (LastClaimed walk.now from.new) (D.tape disk.old) (D.tape disk.new) result }
    ensures wrote { IsTrue D.told → OnOk result (ClaimsHand walk.now (pack (D.tape disk.old)) (pack (D.tape disk.new))) }
    ensures first { 1 ≤ from.new }
    ensures cause { HasCause cause_of_stop (D.tape disk.old) (D.tape disk.new) result }
    ensures frame { WritesUsable D.told (D.tape disk.old) (D.tape disk.new) }
    ensures alone { DiskAlone (D.tape disk.old) (D.tape disk.new) }
{
    let Some(fid) = walk.fid() else {
        return Ok(());
    };
    if !walk.goes_on() || fid == Fid::DISK_DESCRIPTOR {
        return Ok(());
    }
    let Some(number) = walk.pages().checked_add(1) else {
        return Err(Stop::Astray);
    };
    claim_page(disk, Page { fid, number }, 0, walk.at(), from)?;
    Ok(())
}

/// Claims a page with so many bytes of zeros at the lowest free sector. Its previous link names the sector `before`, unless that is 0.
/// Answers the sector.
pub(crate) fn claim_page<D: Disk>(
    disk: &mut D,
    page: Page,
    bytes: u16,
    before: u16,
    from: &mut u16,
) -> Result<u16, Stop>
    requires first { 1 ≤ from.old }
    requires bytes { bytes ≤ 512 }
    requires place { before < pages_of (D.tape disk.old).form }
    ensures does { IsTrue D.told → MayClaim (pack (D.tape disk.old)) page bytes from.old → Does (PageClaimed page bytes from.new) (D.tape disk.old) (D.tape disk.new) result }
    ensures wrote { IsTrue D.told → IfOk result (PageWritten page bytes (pack (D.tape disk.old)) (pack (D.tape disk.new))) }
    ensures first { 1 ≤ from.new }
    ensures place { IfOk result (λ at. (1 ≤ at) × (at < pages_of (D.tape disk.old).form)) }
    ensures cause { HasCause cause_of_stop (D.tape disk.old) (D.tape disk.new) result }
    ensures frame { WritesUsable D.told (D.tape disk.old) (D.tape disk.new) }
    ensures alone { DiskAlone (D.tape disk.old) (D.tape disk.new) }
{
    let previous = match before {
        0 => NO_LINK,
        _ => disk.shape().real_of(before),
    };
    let label = label_of(page, bytes, NO_LINK, previous);
    // a row of a machine that isn't modelled may be of no file
    if !names(&label, page) {
        return Err(Stop::Astray);
    }
    let at = next_free(disk, from)?;
    claim(disk, at, label, &[0; 256])?;
    Ok(at)
}

/// Whether the label names this page.
fn names(label: &[u16; 8], page: Page) -> bool
    ensures { IsTrue result ↔ (page_of label.now ≡ Some page) }
{
    page_of(label) == Some(page)
}
