// The whole scavenge.
ghost use Rattle.std.specs.Prelude.{◌≡◌, ◌<◌, IsTrue};
ghost use Rattle.disk_records.specs.Addresses.{pages_of};
ghost use Rattle.disk_records.specs.Causes.{HasCause};
ghost use Rattle.disk_records.specs.Frames.{WritesUsable};
ghost use Rattle.disk_records.specs.Tapes.{DiskAlone, pack};
ghost use Rattle.pack_model.specs.scavenger.Scavenging.{Scavengeable};
ghost use Rattle.scavenger.specs.Answers.{cause_of_scav};
ghost use Rattle.scavenger.specs.Counting.{Counted};
ghost use Rattle.scavenger.specs.Scavenges.{MendsAll, Scavenges};

use crate::counting::count_pages;
use crate::counts::Counts;
use crate::describing::describe;
use crate::errors::{Report, ScavError};
use crate::mark::open_mark;
use crate::refusing::refuse;
use disk_records::Disk;
use scav_names::mend_names;
use scav_pages::mend_pages_or_stop;
use scav_table::{Table, sweep};
use std::alloc::Global;

/// Makes any pack that it doesn't refuse, whatever stands on it, sound and clean, with all its hints true, and answers a report of what was
/// found and done. What is shown stays at each crash point, and a scavenge that stopped can be done again. Whatever the answer, sector 0 and each
/// sector with a wrong header keep all of their records, and every other sector its header.
///
/// First it opens the mark, then it mends the pages and the names, and last it writes DiskDescriptor with the clean mark. The device has taken
/// the open mark before anything else is written, and all else before the clean one. The last serial is the greatest of those of living files and
/// of the old one, where the old DiskDescriptor says this shape, or one drive with as many cylinders.
///
/// RootBad, RootTaken, PackFull, in this order: the pack can't be scavenged, and nothing was written. DiskFault: the disk failed. Memory: none
/// was left; or, on a disk that isn't modelled, a sector shows another page than a moment ago while pages are counted, pages or names are mended
/// or DiskDescriptor is written. After either of these two a prefix of the work is done, and the pack can be scavenged if it could be before.
pub fn scavenge<D: Disk>(alloc: Global, disk: &mut D) -> Result<Report, ScavError>
    ensures scavenges { IsTrue D.told → Scavenges (D.tape disk.old) (D.tape disk.new) result }
    ensures cause { HasCause cause_of_scav (D.tape disk.old) (D.tape disk.new) result }
    ensures frame { WritesUsable D.told (D.tape disk.old) (D.tape disk.new) }
    ensures alone { DiskAlone (D.tape disk.old) (D.tape disk.new) }
{
    let mut table = sweep(alloc, disk)?;
    let bad = table.bad();
    let counts = count_pages(disk, &mut table)?;
    if let Some(refusal) = refuse(alloc, disk, &mut table, &counts, bad)? {
        return Err(refusal);
    }
    mend(alloc, disk, &mut table, &counts, bad)
}

/// Mends a pack that can be scavenged, of which these are the counts; `bad` of its sectors have a wrong header.
fn mend<D: Disk>(
    alloc: Global,
    disk: &mut D,
    table: &mut Table,
    counts: &Counts,
    bad: u16,
) -> Result<Report, ScavError>
    requires mark { counts.now.mark_at < pages_of (D.tape disk.old).form }
    ensures mends { IsTrue D.told → Scavengeable (pack (D.tape disk.old)) → Counted (pack (D.tape disk.old)) counts.now → MendsAll counts.now bad (D.tape disk.old) (D.tape disk.new) result }
    ensures cause { HasCause cause_of_scav (D.tape disk.old) (D.tape disk.new) result }
    ensures frame { WritesUsable D.told (D.tape disk.old) (D.tape disk.new) }
    ensures alone { DiskAlone (D.tape disk.old) (D.tape disk.new) }
{
    open_mark(disk, counts.mark_at)?;
    let freed = mend_pages_or_stop(disk, table)?;
    let adopted = mend_names(alloc, disk, table)?;
    describe(alloc, disk, counts.last)?;
    Ok(Report {
        files: counts.files,
        freed,
        bad: u32::from(bad),
        adopted,
    })
}
