// All pages of a pack.
ghost use Rattle.std.specs.Prelude.{◌<◌, ◌≤◌, IsTrue, IfOk, IfSome};
ghost use Rattle.disk_records.specs.Addresses.{pages_of};
ghost use Rattle.disk_records.specs.Causes.{HasCause};
ghost use Rattle.disk_records.specs.Frames.{WritesUsable};
ghost use Rattle.disk_records.specs.Tapes.{DiskAlone, pack};
ghost use Rattle.pack_model.specs.scavenger.Scavenging.{Scavengeable};
ghost use Rattle.scav_table.specs.Causes.{cause_of_sweep};
ghost use Rattle.scav_pages.specs.Does.{Does};
ghost use Rattle.scav_pages.specs.Mending.{AreMended, MendsOrStops, MendsPages};
ghost use Rattle.scav_pages.specs.Parts.{UnusedReleased};
ghost use Rattle.scav_pages.specs.Stops.{cause_of_stop};

use crate::copies::release_copies;
use crate::directories::cut_directories;
use crate::ends::mend_ends;
use crate::errors::Stop;
use crate::links::mend_links;
use crate::root::mend_root;
use crate::strays::release_strays;
use crate::unused::{Unused, release_unused};
use disk_records::Disk;
use scav_table::{SweepError, Table};

/// Mends the pages of a pack that can be scavenged, whatever stands on it and at whatever window the table is: releases second copies,
/// labels out of range and pages that aren't in use, cuts directories at the end of their slots, brings SysDir's leader page to sector 1,
/// claims last pages that are missing and what DiskDescriptor lacks, and makes links true and names of leader pages readable. Answers the
/// number of sectors that were neither in use nor free and had a right header. It takes no memory.
///
/// DiskFault: the disk failed. Memory: the disk wanted memory for a sector command, and had none; nothing else is answered so, on any disk.
/// After either of them a prefix of the work is done, and the pack can be scavenged and mended again.
///
/// On a disk that isn't modelled a sector may show another page than a moment ago. The work ends there as if it were done, and the answer is
/// the number of released sectors, or 0 if not all of them were released yet. So it is of a pack that can't be scavenged, where a free sector
/// lacks. Call `mend_pages_or_stop` to be told of it.
pub fn mend_pages<D: Disk>(disk: &mut D, table: &mut Table) -> Result<u32, SweepError>
    ensures mends { IsTrue D.told → Scavengeable (pack (D.tape disk.old)) → MendsPages (D.tape disk.old) (D.tape disk.new) result }
    ensures cause { HasCause cause_of_sweep (D.tape disk.old) (D.tape disk.new) result }
    ensures frame { WritesUsable D.told (D.tape disk.old) (D.tape disk.new) }
    ensures alone { DiskAlone (D.tape disk.old) (D.tape disk.new) }
{
    let mut freed = 0;
    match mend(disk, table, &mut freed) {
        Ok(()) => Ok(freed),
        Err(Stop::DiskFault) => Err(SweepError::DiskFault),
        Err(Stop::Memory) => Err(SweepError::Memory),
        // no memory was refused; it comes only of a pack that can't be scavenged, or on a machine that isn't modelled
        Err(Stop::Astray) => Ok(freed),
    }
}

/// Mends the pages of a pack that can be scavenged as `mend_pages` does, with an error of its own where a sector isn't found as it has to be.
/// Answers the number of sectors that were neither in use nor free and had a right header. It takes no memory.
///
/// DiskFault: the disk failed. Memory: the disk wanted memory for a sector command, and had none. Astray: a sector shows another page than a
/// moment ago, on a disk that isn't modelled; or a free sector lacks, on a pack that can't be scavenged. After each of them a prefix of the
/// work is done, and after the first two the pack can be scavenged and mended again.
pub fn mend_pages_or_stop<D: Disk>(disk: &mut D, table: &mut Table) -> Result<u32, Stop>
    ensures mends { IsTrue D.told → Scavengeable (pack (D.tape disk.old)) → MendsOrStops (D.tape disk.old) (D.tape disk.new) result }
    ensures cause { HasCause cause_of_stop (D.tape disk.old) (D.tape disk.new) result }
    ensures frame { WritesUsable D.told (D.tape disk.old) (D.tape disk.new) }
    ensures alone { DiskAlone (D.tape disk.old) (D.tape disk.new) }
{
    let mut freed = 0;
    mend(disk, table, &mut freed)?;
    Ok(freed)
}

/// The passes, one after another. Once all releases are done `freed` is the number of sectors that they freed; before it is as it was.
fn mend<D: Disk>(disk: &mut D, table: &mut Table, freed: &mut u32) -> Result<(), Stop>
    ensures does { IsTrue D.told → Scavengeable (pack (D.tape disk.old)) → Does (λ p q done. AreMended p q freed.new) (D.tape disk.old) (D.tape disk.new) result }
    ensures cause { HasCause cause_of_stop (D.tape disk.old) (D.tape disk.new) result }
    ensures frame { WritesUsable D.told (D.tape disk.old) (D.tape disk.new) }
    ensures alone { DiskAlone (D.tape disk.old) (D.tape disk.new) }
{
    let unused = release_available(disk, table)?;
    *freed = unused.freed;
    mend_root(disk, unused.root)?;
    mend_ends(disk, table)?;
    mend_links(disk, table)?;
    Ok(())
}

/// Releases each sector that is neither free nor in use, of any pack, and cuts directories at the end of their slots in between. Answers how
/// many sectors they were, and that of SysDir's leader page.
fn release_available<D: Disk>(disk: &mut D, table: &mut Table) -> Result<Unused, Stop>
    ensures does { IsTrue D.told → Does UnusedReleased (D.tape disk.old) (D.tape disk.new) result }
    ensures place { IfOk result (λ unused. IfSome unused.root (λ at. (1 ≤ at) × (at < pages_of (D.tape disk.old).form))) }
    ensures cause { HasCause cause_of_stop (D.tape disk.old) (D.tape disk.new) result }
    ensures frame { WritesUsable D.told (D.tape disk.old) (D.tape disk.new) }
    ensures alone { DiskAlone (D.tape disk.old) (D.tape disk.new) }
{
    let copies = release_copies(disk, table)?;
    let strays = release_strays(disk)?;
    cut_directories(disk, table)?;
    let unused = release_unused(disk, table)?;
    Ok(Unused {
        freed: copies.saturating_add(strays).saturating_add(unused.freed),
        root: unused.root,
    })
}
