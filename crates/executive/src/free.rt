// `free`: how many pages are free.
ghost use Rattle.disk_records.specs.Causes.{HasCause};
ghost use Rattle.disk_records.specs.Tapes.{DiskAlone, added};
ghost use Rattle.exec_session.specs.Meant.{MayObey, TakesLine};
ghost use Rattle.exec_session.specs.Stops.{cause_of_stop};
ghost use Rattle.std.specs.Prelude.{IsTrue, [], ◌≡◌};
ghost use Rattle.exec_words.specs.declared.line.Line.TheVariants as line;

use disk_records::{Disk, Sector};
use exec_session::{Session, Stop};
use exec_words::free_text;
use page_alloc::count_free;
use std::alloc::Global;

/// The text of `free`: the number of free sectors, by a sweep of all labels. It is never refused.
///
/// DiskFault: the device failed. Memory: none was left for the text.
pub(crate) fn free_pages<D: Disk>(
    alloc: Global,
    _session: &Session,
    disk: &mut D,
) -> Result<Vec<u8>, Stop>
    requires obeys { MayObey (D.tape disk.old) _session.now line.Free }
    ensures turns { IsTrue D.told → TakesLine (D.tape disk.old) (D.tape disk.new) _session.now _session.now line.Free result }
    ensures silent { IsTrue D.told → added (D.tape disk.old) (D.tape disk.new) ≡ [] }
    ensures cause { HasCause cause_of_stop (D.tape disk.old) (D.tape disk.new) result }
    ensures alone { DiskAlone (D.tape disk.old) (D.tape disk.new) }
{
    let mut buf = Sector::ZEROS;
    let free = count_free(disk, &mut buf)?;
    Ok(free_text(alloc, free)?)
}
