// A new file for an entry that is planned.
ghost use Rattle.disk_records.specs.Addresses.{pages_of};
ghost use Rattle.disk_records.specs.Causes.{HasCause};
ghost use Rattle.disk_records.specs.Frames.{WritesUsable};
ghost use Rattle.disk_records.specs.Tapes.{DiskAlone, added, pack};
ghost use Rattle.exec_writing.specs.Entries.{AddsFile};
ghost use Rattle.exec_writing.specs.Writes.{WritesLine};
ghost use Rattle.exec_session.specs.Meant.{IfRefused, kept};
ghost use Rattle.exec_session.specs.Stops.{cause_of_stop};
ghost use Rattle.exec_session.specs.Turned.{Begins};
ghost use Rattle.exec_steps.specs.Asked.{Works, made_fid};
ghost use Rattle.exec_words.specs.declared.line.Line.{Line};
ghost use Rattle.session_model.specs.Turning.{State};
ghost use Rattle.std.specs.Prelude.{IfOk, IsTrue, [], length, ◌+◌, ◌≡◌};

use crate::reserving::reserve_new;
use alto_words::Fid;
use disk_records::Disk;
use exec_session::{Session, Stop};
use exec_steps::{NewEntry, make_entered, open_mark};
use std::alloc::Global;

/// Makes a file for an entry that is planned, a directory or an ordinary file, and answers its full name.
///
/// SerialsSpent: no serial is left. Full: too few sectors are free. In this order, and nothing was written. Misled: an address or a link of
/// SysDir or of the entry's directory doesn't lead to its page, or DiskDescriptor isn't where it was. DiskFault: the device failed. Memory:
/// none was left. After these three a prefix of the record writes was done, on a modelled disk.
pub(crate) fn add_file<D: Disk>(
    alloc: Global,
    session: &mut Session,
    disk: &mut D,
    entry: &NewEntry,
    of_directory: bool,
) -> Result<Fid, Stop>
    requires shape { session.old.descriptor.shape ≡ (D.tape disk.old).form }
    requires sized { length session.old.hints.table ≡ pages_of (D.tape disk.old).form }
    ensures writes { (s : State) (l : Line) → IsTrue D.told → Begins (D.tape disk.old) (kept session.old) s l → AddsFile (pack (D.tape disk.old)) s.world l entry.now of_directory → WritesLine (D.tape disk.old) (D.tape disk.new) (kept session.old) (kept session.new) s l result }
    ensures made { IfOk result (λ fid. fid ≡ made_fid of_directory (session.old.descriptor.last + 1)) }
    ensures unwritten { IsTrue D.told → IfRefused result (λ r. added (D.tape disk.old) (D.tape disk.new) ≡ []) }
    ensures works { Works session.old session.new }
    ensures cause { HasCause cause_of_stop (D.tape disk.old) (D.tape disk.new) result }
    ensures frame { WritesUsable D.told (D.tape disk.old) (D.tape disk.new) }
    ensures alone { DiskAlone (D.tape disk.old) (D.tape disk.new) }
{
    let fresh = reserve_new(alloc, session, disk, entry, 0)?;
    open_mark(session, disk)?;
    let file = make_entered(session, disk, entry, of_directory, &fresh)?;
    Ok(file.fid)
}
