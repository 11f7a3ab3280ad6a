// DiskDescriptor's pages.
ghost use Rattle.std.specs.Prelude.{◌≡◌, ◌+◌, ◌-◌, ◌*◌, ◌≤◌, ◌<◌, min, get_or, IsTrue};
ghost use Rattle.disk_records.specs.Addresses.{descriptor_length, pages_of};
ghost use Rattle.disk_records.specs.Causes.{HasCause};
ghost use Rattle.disk_records.specs.Frames.{WritesUsable};
ghost use Rattle.disk_records.specs.Tapes.{DiskAlone, pack};
ghost use Rattle.pack_model.specs.sessions.Descriptor.{data_pages};
ghost use Rattle.scav_pages.specs.Does.{Does};
ghost use Rattle.scav_pages.specs.Ends.{AreWithin, MayDescribe, MayDescribePage};
ghost use Rattle.scav_pages.specs.Parts.{Described, PageDescribed};
ghost use Rattle.scav_pages.specs.Stops.{cause_of_stop};

use crate::ends::claim_page;
use crate::errors::Stop;
use crate::free::next_free;
use crate::root::fresh_leader;
use alto_words::Fid;
use disk_records::{Disk, PAGE_BYTES, Page, Sector, Shape, label_of};
use label_check::{claim, read_page, relabel};

/// A link at either end of a file.
const NO_LINK: u16 = 0xFFFF;

/// The sectors of DiskDescriptor's pages, by their numbers: the leader page first, and 5 data pages at most. 0 if none is known.
pub(crate) type Places = [u16; 6];

/// The number of data pages, 1 to 5, that DiskDescriptor has on a pack of this shape by the length of its format.
pub fn data_pages(shape: Shape) -> u16
    ensures pages { result ≡ data_pages shape }
    ensures least { 1 ≤ result }
    ensures most { result ≤ 5 }
{
    1 + (shape.descriptor_length() / u32::from(PAGE_BYTES)) as u16
}

/// The bytes of the data page of DiskDescriptor with this number.
fn page_bytes(shape: Shape, number: u16) -> u16
    requires first { 1 ≤ number }
    requires last { number ≤ data_pages shape }
    ensures { result ≡ min 512 (descriptor_length shape - 512 * (number - 1)) }
{
    let before = u32::from(PAGE_BYTES) * u32::from(number - 1);
    (shape.descriptor_length() - before).min(u32::from(PAGE_BYTES)) as u16
}

/// Makes DiskDescriptor's data pages, from the first to the last, of which each that lacks is claimed with zeros and each other gets its
/// count of bytes; then its leader page, if it lacks.
pub(crate) fn mend_descriptor<D: Disk>(
    disk: &mut D,
    places: &mut Places,
    from: &mut u16,
) -> Result<(), Stop>
    requires first { 1 ≤ from.old }
    requires within { AreWithin (pages_of (D.tape disk.old).form) places.old }
    ensures does { IsTrue D.told → MayDescribe (pack (D.tape disk.old)) places.old from.old → Does Described (D.tape disk.old) (D.tape disk.new) result }
    ensures cause { HasCause cause_of_stop (D.tape disk.old) (D.tape disk.new) result }
    ensures frame { WritesUsable D.told (D.tape disk.old) (D.tape disk.new) }
    ensures alone { DiskAlone (D.tape disk.old) (D.tape disk.new) }
{
    let last = data_pages(disk.shape());
    for number in 1..last + 1 {
        mend_data_page(disk, number, places, from)?;
    }
    if places[0] == 0 {
        make_leader(disk, places, from)?;
    }
    Ok(())
}

/// Claims a data page of DiskDescriptor, or gives it its count of bytes. The sectors of its pages are `places`.
fn mend_data_page<D: Disk>(
    disk: &mut D,
    number: u16,
    places: &mut Places,
    from: &mut u16,
) -> Result<(), Stop>
    requires one { 1 ≤ number }
    requires most { number ≤ data_pages (D.tape disk.old).form }
    requires first { 1 ≤ from.old }
    requires within { AreWithin (pages_of (D.tape disk.old).form) places.old }
    ensures does { IsTrue D.told → MayDescribePage (pack (D.tape disk.old)) number places.old from.old → Does (PageDescribed number places.new from.new) (D.tape disk.old) (D.tape disk.new) result }
    ensures first { 1 ≤ from.new }
    ensures within { AreWithin (pages_of (D.tape disk.old).form) places.new }
    ensures cause { HasCause cause_of_stop (D.tape disk.old) (D.tape disk.new) result }
    ensures frame { WritesUsable D.told (D.tape disk.old) (D.tape disk.new) }
    ensures alone { DiskAlone (D.tape disk.old) (D.tape disk.new) }
{
    let page = Page {
        fid: Fid::DISK_DESCRIPTOR,
        number,
    };
    let bytes = page_bytes(disk.shape(), number);
    let index = usize::from(number);
    let at = places[index];
    if at == 0 {
        places[index] = claim_page(disk, page, bytes, places[index - 1], from)?;
        return Ok(());
    }
    let info = read_page(disk, at, page, &mut Sector::ZEROS)?;
    if info.bytes != bytes {
        let label = label_of(page, bytes, info.next, info.previous);
        relabel(disk, at, page, label)?;
    }
    Ok(())
}

/// Claims DiskDescriptor's leader page, which lacks, and whose data pages are at these places.
fn make_leader<D: Disk>(disk: &mut D, places: &Places, from: &mut u16) -> Result<(), Stop>
    requires first { 1 ≤ from.old }
    requires lacks { get_or places.now 0 0 ≡ 0 }
    requires within { AreWithin (pages_of (D.tape disk.old).form) places.now }
    ensures does { IsTrue D.told → MayDescribePage (pack (D.tape disk.old)) (data_pages (D.tape disk.old).form + 1) places.now from.old → Does Described (D.tape disk.old) (D.tape disk.new) result }
    ensures cause { HasCause cause_of_stop (D.tape disk.old) (D.tape disk.new) result }
    ensures frame { WritesUsable D.told (D.tape disk.old) (D.tape disk.new) }
    ensures alone { DiskAlone (D.tape disk.old) (D.tape disk.new) }
{
    let shape = disk.shape();
    let last = data_pages(shape);
    let at = next_free(disk, from)?;
    let page = Page {
        fid: Fid::DISK_DESCRIPTOR,
        number: 0,
    };
    let bytes = page_bytes(shape, last);
    let leader = fresh_leader(Fid::DISK_DESCRIPTOR, places[usize::from(last)], last, bytes);
    let label = label_of(page, PAGE_BYTES, shape.real_of(places[1]), NO_LINK);
    claim(disk, at, label, &leader)?;
    Ok(())
}
