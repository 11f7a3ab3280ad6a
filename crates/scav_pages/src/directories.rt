// The ends of directories.
ghost use Rattle.std.specs.Prelude.{◌≡◌, ◌*◌, ◌+◌, ◌<◌, ◌≤◌, Option, Some, IsTrue, IsErrOf, OnOk};
ghost use Rattle.disk_records.specs.Addresses.{pages_of};
ghost use Rattle.disk_records.specs.Causes.{HasCause};
ghost use Rattle.disk_records.specs.Frames.{WritesUsable};
ghost use Rattle.disk_records.specs.Packs.{Pack, carried, sector_at};
ghost use Rattle.disk_records.specs.Tapes.{DiskAlone, Looks, pack};
ghost use Rattle.scav_table.specs.declared.row.Row.{Row as RowOf};
ghost use Rattle.scav_table.specs.Laws.{IsFirstAbove};
ghost use Rattle.scav_pages.specs.Directories.{IsReadTo, MayBeCut};
ghost use Rattle.scav_pages.specs.Does.{Does};
ghost use Rattle.laws_mend.specs.Parts.{Cleared};
ghost use Rattle.scav_pages.specs.Parts.{DirectoriesEnd, DirectoryEnds, RelabelsHand};
ghost use Rattle.scav_pages.specs.Stops.{cause_of_stop};
ghost use Rattle.scav_pages.specs.Walks.{IsOtherFile, file_in_hand};

use crate::directory::Directory;
use crate::errors::Stop;
use crate::files::Met;
use crate::rows::next_row;
use disk_records::{Disk, PAGE_BYTES, Page, Sector, label_of};
use label_check::{read_page, relabel};
use scav_table::{Pass, Row, Table};

/// A link at either end of a file.
const NO_LINK: u16 = 0xFFFF;

/// Cuts each living directory at the end of its slots, if its bytes go on after them. Its pages past that end stay for now.
pub(crate) fn cut_directories<D: Disk>(disk: &mut D, table: &mut Table) -> Result<(), Stop>
    ensures does { IsTrue D.told → Cleared (pack (D.tape disk.old)) → Does DirectoriesEnd (D.tape disk.old) (D.tape disk.new) result }
    ensures cause { HasCause cause_of_stop (D.tape disk.old) (D.tape disk.new) result }
    ensures frame { WritesUsable D.told (D.tape disk.old) (D.tape disk.new) }
    ensures alone { DiskAlone (D.tape disk.old) (D.tape disk.new) }
{
    let mut pass = Pass::begin(disk, table)?;
    let mut dir = Directory::new();
    while let Some(row) = next_row(disk, table, &mut pass)? {
        if dir.walk.leaves(&row) {
            cut_directory(disk, &dir)?;
            dir = Directory::new();
        }
        meet_page(disk, &row, &mut dir)?;
    }
    cut_directory(disk, &dir)
}

/// Takes the next row of a pass, which is of the file in hand or the first of another, and reads the slots of its page if it is one of a
/// living directory.
///
/// One sector command at most, and nothing is written. DiskFault: the disk failed. Memory: no memory was left, and Astray: the sector shows
/// another page than the row; neither comes on a machine that is modelled, if the row is of its pack. After each of them the pass is over.
pub fn meet_page<D: Disk>(disk: &mut D, row: &Row, dir: &mut Directory) -> Result<(), Stop>
    requires first { 1 ≤ row.now.at }
    requires place { row.now.at < pages_of (D.tape disk.old).form }
    requires same { IsOtherFile dir.old.walk row.now → ⊥ }
    ensures read { IsTrue D.told → (p : Pack) (last : Option RowOf) → IsReadTo p last dir.old → IsFirstAbove p last row.now → sector_at (pack (D.tape disk.old)) row.now.at ≡ sector_at p row.now.at → OnOk result (IsReadTo p (Some row.now) dir.new) }
    ensures want { IsTrue D.told → IsErrOf result Stop.Memory → ⊥ }
    ensures hand { OnOk result (file_in_hand dir.new.walk ≡ Some row.now.page.fid) }
    ensures found { IsTrue D.told → carried (pack (D.tape disk.old)) row.now.at ≡ Some row.now.page → IsErrOf result Stop.Astray → ⊥ }
    ensures cause { HasCause cause_of_stop (D.tape disk.old) (D.tape disk.new) result }
    ensures looks { Looks D.told 1 (D.tape disk.old) (D.tape disk.new) }
{
    if dir.walk.meet(row) != Met::Next || !dir.wants(row) {
        return Ok(());
    }
    let mut buf = Sector::ZEROS;
    let info = read_page(disk, row.at, row.page, &mut buf)?;
    dir.slots.feed(&buf.value[..usize::from(info.bytes / 2)]);
    if dir.page() == u32::from(row.page.number) {
        dir.at = row.at;
    }
    Ok(())
}

/// Gives the page of the file in hand that its slots end in a label that counts the bytes up to there, if it is a living directory whose
/// bytes go on.
fn cut_directory<D: Disk>(disk: &mut D, dir: &Directory) -> Result<(), Stop>
    ensures does { IsTrue D.told → Cleared (pack (D.tape disk.old)) → MayBeCut (pack (D.tape disk.old)) dir.now → Does (DirectoryEnds dir.now) (D.tape disk.old) (D.tape disk.new) result }
    ensures wrote { IsTrue D.told → OnOk result (RelabelsHand dir.now.walk (pack (D.tape disk.old)) (pack (D.tape disk.new))) }
    ensures cause { HasCause cause_of_stop (D.tape disk.old) (D.tape disk.new) result }
    ensures frame { WritesUsable D.told (D.tape disk.old) (D.tape disk.new) }
    ensures alone { DiskAlone (D.tape disk.old) (D.tape disk.new) }
{
    let Some(fid) = dir.walk.fid() else {
        return Ok(());
    };
    let end = 2 * dir.slots.place();
    if !dir.walk.lives() || !fid.is_directory() || end == dir.walk.length() {
        return Ok(());
    }
    let Ok(number) = u16::try_from(dir.page()) else {
        return Err(Stop::Astray);
    };
    if dir.at < 1 || dir.at >= disk.shape().pages() {
        return Err(Stop::Astray);
    }
    let page = Page { fid, number };
    let info = read_page(disk, dir.at, page, &mut Sector::ZEROS)?;
    let bytes = (end % u32::from(PAGE_BYTES)) as u16;
    let label = label_of(page, bytes, NO_LINK, info.previous);
    relabel(disk, dir.at, page, label)?;
    Ok(())
}
