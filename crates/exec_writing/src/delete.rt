// `delete`: a file goes.
ghost use Rattle.disk_records.specs.Causes.{HasCause};
ghost use Rattle.disk_records.specs.Frames.{WritesUsable};
ghost use Rattle.disk_records.specs.Tapes.{DiskAlone, added, pack};
ghost use Rattle.exec_writing.specs.Drops.{FindsDropped};
ghost use Rattle.exec_session.specs.Meant.{IfRefused, IsTakenUpBy, LooksAbout, MayObey, Stays, TakesLine, kept};
ghost use Rattle.exec_session.specs.Stops.{cause_of_stop};
ghost use Rattle.exec_words.specs.declared.line.Line.TheVariants as line;
ghost use Rattle.pack_model.specs.states.Sound.{Sound};
ghost use Rattle.session_model.specs.Keeping.{world_of};
ghost use Rattle.std.specs.Prelude.{IsTrue, [], ◌*◌, ◌≡◌};

use crate::dropping::drop_line;
use disk_records::Disk;
use exec_session::{
    Found, Session, Stop, find_path, refuse_descriptor, refuse_directory, refuse_streamed,
};
use exec_words::Path;
use std::alloc::Global;

/// The file that is to be deleted.
///
/// NoSuchName: it isn't there. IsADirectory: it is a directory. SystemFile: it is DiskDescriptor. StreamsOpen: an open stream has it. In this
/// order.
fn find_deleted<D: Disk>(session: &mut Session, disk: &mut D, path: &Path) -> Result<Found, Stop>
    ensures finds { IsTrue D.told → Sound (pack (D.tape disk.old)) → IsTakenUpBy (world_of (kept session.old)) (line.Delete path.now) → FindsDropped (pack (D.tape disk.old)) (line.Delete path.now) (world_of (kept session.old)) result }
    ensures cause { HasCause cause_of_stop (D.tape disk.old) (D.tape disk.new) result }
    ensures looks { LooksAbout D.told (65588 * 131072) (D.tape disk.old) (D.tape disk.new) session.old session.new }
{
    let found = find_path(session, disk, path)?;
    refuse_directory(found.file.fid)?;
    refuse_descriptor(found.file.fid)?;
    refuse_streamed(session, found.file.fid)?;
    Ok(found)
}

/// The text of `delete`: a file goes, of which the path states the version or means the newest; then its entry does.
///
/// NoSuchName: the directory isn't there or is none, or has no such entry. IsADirectory: the path means a directory. SystemFile: it means
/// DiskDescriptor. StreamsOpen: an open stream has the file. In this order, and nothing was written. Misled: an address on the way to the file
/// is wrong, or one of the links. DiskFault: the device failed. Memory: none was left for a record write or for the text. After these three a
/// prefix of the record writes was done, on a modelled disk, or all of them.
pub fn delete_file<D: Disk>(
    alloc: Global,
    session: &mut Session,
    disk: &mut D,
    path: &Path,
) -> Result<Vec<u8>, Stop>
    requires obeys { MayObey (D.tape disk.old) session.old (line.Delete path.now) }
    ensures turns { IsTrue D.told → TakesLine (D.tape disk.old) (D.tape disk.new) session.old session.new (line.Delete path.now) result }
    ensures unwritten { IsTrue D.told → IfRefused result (λ r. added (D.tape disk.old) (D.tape disk.new) ≡ []) }
    ensures stays { Stays (D.tape disk.new) session.old session.new }
    ensures cause { HasCause cause_of_stop (D.tape disk.old) (D.tape disk.new) result }
    ensures frame { WritesUsable D.told (D.tape disk.old) (D.tape disk.new) }
    ensures alone { DiskAlone (D.tape disk.old) (D.tape disk.new) }
{
    let found = find_deleted(session, disk, path)?;
    drop_line(alloc, session, disk, &found)
}
