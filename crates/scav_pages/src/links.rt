// True links, and names that can be read.
ghost use Rattle.std.specs.Prelude.{◌≡◌, ◌<◌, ◌≤◌, cond, Some, true, IfOk, IfSome, IsTrue, OnOk};
ghost use Rattle.alto_words.specs.Fid.{is_fid};
ghost use Rattle.alto_words.specs.Names.{is_stored_name};
ghost use Rattle.disk_records.specs.Addresses.{pages_of, real_of};
ghost use Rattle.disk_records.specs.Causes.{HasCause};
ghost use Rattle.disk_records.specs.Frames.{WritesUsable};
ghost use Rattle.disk_records.specs.Packs.{carried, sector_at};
ghost use Rattle.disk_records.specs.Tapes.{DiskAlone, pack};
ghost use Rattle.pack_model.specs.hints.Links.{no_link};
ghost use Rattle.pack_model.specs.operations.PageWords.{titled_value};
ghost use Rattle.scav_pages.specs.Does.{Does};
ghost use Rattle.scav_pages.specs.Fresh.{own_name};
ghost use Rattle.scav_pages.specs.Links.{MayMeet, MayMendPage, MayName, PageLinked, PageMended, RowMet, WritesPage, WritesPending};
ghost use Rattle.laws_mend.specs.Parts.{Lasting};
ghost use Rattle.scav_pages.specs.Parts.{LinksMended};
ghost use Rattle.scav_pages.specs.Stops.{cause_of_stop};

use crate::errors::Stop;
use crate::root::own_name;
use crate::rows::next_row;
use alto_words::Fid;
use disk_records::{Disk, Sector, Shape, label_of};
use label_check::{read_page, relabel, write_value};
use leader_page::{Leader, name_words, title_changes_the_name};
use scav_table::{Pass, Row, Table};

/// A link at either end of a file.
const NO_LINK: u16 = 0xFFFF;

/// The words of a leader page that spell the name.
const NAME: usize = 6;

const REST: usize = 26;

/// A row whose next one isn't known yet, and the link to the page before it.
#[derive(Clone, Copy, Drop)]
pub(crate) struct Pending {
    pub(crate) row: Row,
    pub(crate) previous: u16,
}

/// Makes each link true, and each leader page's name one that can be read, of a pack whose pages are all in use and whose files have their
/// last pages.
pub(crate) fn mend_links<D: Disk>(disk: &mut D, table: &mut Table) -> Result<(), Stop>
    ensures does { IsTrue D.told → Lasting (pack (D.tape disk.old)) → Does LinksMended (D.tape disk.old) (D.tape disk.new) result }
    ensures cause { HasCause cause_of_stop (D.tape disk.old) (D.tape disk.new) result }
    ensures frame { WritesUsable D.told (D.tape disk.old) (D.tape disk.new) }
    ensures alone { DiskAlone (D.tape disk.old) (D.tape disk.new) }
{
    let mut pass = Pass::begin(disk, table)?;
    let mut pending: Option<Pending> = None;
    while let Some(row) = next_row(disk, table, &mut pass)? {
        pending = Some(mend_before(disk, pending, row)?);
    }
    match pending {
        Some(last) => mend_page(disk, &last, NO_LINK),
        None => Ok(()),
    }
}

/// Mends the pending page, if there is one, now that the row after it is known, and answers that row with the link to the page before it.
fn mend_before<D: Disk>(disk: &mut D, pending: Option<Pending>, row: Row) -> Result<Pending, Stop>
    requires place { row.at < pages_of (D.tape disk.old).form }
    requires before { IfSome pending (λ before. (1 ≤ before.row.at) × (before.row.at < pages_of (D.tape disk.old).form)) }
    ensures row { IfOk result (λ next. next.row ≡ row) }
    ensures does { IsTrue D.told → MayMeet (pack (D.tape disk.old)) pending row → Does RowMet (D.tape disk.old) (D.tape disk.new) result }
    ensures wrote { IsTrue D.told → OnOk result (WritesPending pending (pack (D.tape disk.old)) (pack (D.tape disk.new))) }
    ensures cause { HasCause cause_of_stop (D.tape disk.old) (D.tape disk.new) result }
    ensures frame { WritesUsable D.told (D.tape disk.old) (D.tape disk.new) }
    ensures alone { DiskAlone (D.tape disk.old) (D.tape disk.new) }
{
    let Some(before) = pending else {
        return Ok(Pending {
            row,
            previous: NO_LINK,
        });
    };
    let shape = disk.shape();
    mend_page(disk, &before, link_between(shape, &before.row, &row))?;
    let previous = link_between(shape, &row, &before.row);
    Ok(Pending { row, previous })
}

/// The link from a page to the other, which stands beside it: none if that is of another file.
fn link_between(shape: Shape, row: &Row, other: &Row) -> u16
    requires { other.now.at < pages_of shape }
    ensures { result ≡ cond (is_fid row.now.page.fid other.now.page.fid) (real_of shape other.now.at) no_link }
{
    if row.page.fid == other.page.fid {
        shape.real_of(other.at)
    } else {
        NO_LINK
    }
}

/// Gives a page these links, and its name if it is a leader page whose name can't be read.
fn mend_page<D: Disk>(disk: &mut D, page: &Pending, next: u16) -> Result<(), Stop>
    requires first { 1 ≤ page.now.row.at }
    requires place { page.now.row.at < pages_of (D.tape disk.old).form }
    ensures does { IsTrue D.told → MayMendPage (pack (D.tape disk.old)) page.now next → Does (PageMended page.now.row.at) (D.tape disk.old) (D.tape disk.new) result }
    ensures wrote { IsTrue D.told → OnOk result (WritesPage page.now.row.at page.now.row.page (pack (D.tape disk.old)) (pack (D.tape disk.new))) }
    ensures cause { HasCause cause_of_stop (D.tape disk.old) (D.tape disk.new) result }
    ensures frame { WritesUsable D.told (D.tape disk.old) (D.tape disk.new) }
    ensures alone { DiskAlone (D.tape disk.old) (D.tape disk.new) }
{
    let mut buf = Sector::ZEROS;
    link_page(disk, page, next, &mut buf)?;
    if page.row.page.number == 0 {
        name_page(disk, &page.row, &mut buf.value)?;
    }
    Ok(())
}

/// Reads a page to `buf`, and gives it these links.
fn link_page<D: Disk>(disk: &mut D, page: &Pending, next: u16, buf: &mut Sector) -> Result<(), Stop>
    requires first { 1 ≤ page.now.row.at }
    requires place { page.now.row.at < pages_of (D.tape disk.old).form }
    ensures does { IsTrue D.told → MayMendPage (pack (D.tape disk.old)) page.now next → Does (PageLinked page.now.row.at) (D.tape disk.old) (D.tape disk.new) result }
    ensures wrote { IsTrue D.told → OnOk result (WritesPage page.now.row.at page.now.row.page (pack (D.tape disk.old)) (pack (D.tape disk.new))) }
    ensures holds { IsTrue D.told → OnOk result (buf.new.value ≡ (sector_at (pack (D.tape disk.new)) page.now.row.at).value) }
    ensures cause { HasCause cause_of_stop (D.tape disk.old) (D.tape disk.new) result }
    ensures frame { WritesUsable D.told (D.tape disk.old) (D.tape disk.new) }
    ensures alone { DiskAlone (D.tape disk.old) (D.tape disk.new) }
{
    let row = &page.row;
    let info = read_page(disk, row.at, row.page, buf)?;
    if info.next != next || info.previous != page.previous {
        let label = label_of(row.page, info.bytes, next, page.previous);
        relabel(disk, row.at, row.page, label)?;
    }
    Ok(())
}

/// Gives the leader page that has this value its name, if none can be read.
fn name_page<D: Disk>(disk: &mut D, row: &Row, value: &mut [u16; 256]) -> Result<(), Stop>
    requires first { 1 ≤ row.now.at }
    requires place { row.now.at < pages_of (D.tape disk.old).form }
    requires leader { row.now.page.number ≡ 0 }
    ensures does { IsTrue D.told → MayName (pack (D.tape disk.old)) row.now value.old → Does (PageMended row.now.at) (D.tape disk.old) (D.tape disk.new) result }
    ensures wrote { IsTrue D.told → carried (pack (D.tape disk.old)) row.now.at ≡ Some row.now.page → OnOk result (WritesPage row.now.at row.now.page (pack (D.tape disk.old)) (pack (D.tape disk.new))) }
    ensures cause { HasCause cause_of_stop (D.tape disk.old) (D.tape disk.new) result }
    ensures frame { WritesUsable D.told (D.tape disk.old) (D.tape disk.new) }
    ensures alone { DiskAlone (D.tape disk.old) (D.tape disk.new) }
{
    if Leader::decode(value).is_none() {
        // this law says that the name can be read then
        title_changes_the_name();
        put_name(value, row.page.fid);
        write_value(disk, row.at, row.page, value)?;
    }
    Ok(())
}

/// Puts the name of a file whose leader page has none that can be read in the value of this page.
fn put_name(value: &mut [u16; 256], fid: Fid)
    ensures value { value.new ≡ titled_value (own_name fid) value.old }
    ensures stored { is_stored_name (own_name fid) ≡ true }
{
    value[NAME..REST].copy_from_slice(&name_words(&own_name(fid)));
}
