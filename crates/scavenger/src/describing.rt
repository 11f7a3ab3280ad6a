// DiskDescriptor's words, of a pack whose pages and names are mended.
ghost use Rattle.std.specs.Prelude.{◌≡◌, ℕ, List, IsTrue, IsErrOf};
ghost use Rattle.disk_records.specs.Causes.{HasCause};
ghost use Rattle.disk_records.specs.Frames.{WritesUsable};
ghost use Rattle.disk_records.specs.Tapes.{DiskAlone, pack};
ghost use Rattle.pack_model.specs.hints.Tables.{free_table};
ghost use Rattle.scav_pages.specs.Stops.{cause_of_stop};
ghost use Rattle.scavenger.specs.Answers.{stop_of_write};
ghost use Rattle.scavenger.specs.Describing.{IsDescriptorIn};
ghost use Rattle.scavenger.specs.Runs.{Closes};

use crate::map::map_sectors;
use disk_descriptor::{DescError, write_pages};
use disk_records::Disk;
use scav_pages::{Stop, data_pages};
use std::alloc::Global;

/// The end of a call by the error of writing DiskDescriptor's pages.
fn stop_of_write(error: DescError) -> Stop
    ensures { result ≡ stop_of_write error }
{
    match error {
        DescError::DiskFault => Stop::DiskFault,
        DescError::Memory => Stop::Memory,
        DescError::Spent { .. } => Stop::Astray,
        DescError::Held { .. } => Stop::Astray,
    }
}

/// Writes DiskDescriptor's data pages: the shape, this last serial, the map of free sectors and their number, from the last page to the first, so
/// that the clean mark comes last.
pub(crate) fn describe<D: Disk>(alloc: Global, disk: &mut D, last: u32) -> Result<(), Stop>
    ensures closes { IsTrue D.told → (pages : List ℕ) → IsDescriptorIn (pack (D.tape disk.old)) pages → Closes last (free_table (pack (D.tape disk.old))) pages (D.tape disk.old) (D.tape disk.new) result }
    ensures found { IsTrue D.told → (pages : List ℕ) → IsDescriptorIn (pack (D.tape disk.old)) pages → IsErrOf result Stop.Astray → ⊥ }
    ensures cause { HasCause cause_of_stop (D.tape disk.old) (D.tape disk.new) result }
    ensures frame { WritesUsable D.told (D.tape disk.old) (D.tape disk.new) }
    ensures alone { DiskAlone (D.tape disk.old) (D.tape disk.new) }
{
    let map = map_sectors(alloc, disk)?;
    let end = usize::from(data_pages(disk.shape())) + 1;
    let pages = &map.places[1..end];
    if pages.contains(&0) {
        return Err(Stop::Astray);
    }
    match write_pages(disk, last, pages, &map.table) {
        Ok(()) => Ok(()),
        Err(error) => Err(stop_of_write(error)),
    }
}
