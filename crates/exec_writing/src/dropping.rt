// A file that goes with its entry.
ghost use Rattle.disk_records.specs.Addresses.{pages_of};
ghost use Rattle.disk_records.specs.Causes.{HasCause};
ghost use Rattle.disk_records.specs.Frames.{WritesUsable};
ghost use Rattle.disk_records.specs.Tapes.{DiskAlone, pack};
ghost use Rattle.exec_writing.specs.Dropping.{MayDropFound, to_drop};
ghost use Rattle.exec_writing.specs.Drops.{DropsFound};
ghost use Rattle.exec_session.specs.Meant.{IfRefused, kept, kept_replied, replied};
ghost use Rattle.exec_session.specs.Stops.{cause_of_stop};
ghost use Rattle.exec_session.specs.Turned.{Begins, SameBut, Turned};
ghost use Rattle.exec_steps.specs.Asked.{Works};
ghost use Rattle.exec_steps.specs.Midway.{StepsOn};
ghost use Rattle.exec_words.specs.declared.line.Line.{Line};
ghost use Rattle.session_model.specs.Keeping.{Formed, Kept};
ghost use Rattle.session_model.specs.Turning.{State};
ghost use Rattle.std.specs.Prelude.{IsTrue, [], length, ◌∷◌, ◌≡◌};

use directory::free_slot;
use disk_records::{Disk, Sector};
use exec_session::{Found, Session, Stop, entered, limit_of, written};
use exec_steps::open_mark;
use exec_words::done_text;
use file_pages::drop_file;
use std::alloc::Global;

/// Drops a file that was found by its name, as one operation: its leader goes first, then its other pages, and last the slot of its entry.
///
/// Misled: the file's address, its directory's, or one of their links doesn't lead to its page. DiskFault: the device failed. Memory: none was
/// left for a record write. After each of them a prefix of the record writes was done, on a modelled disk.
pub(crate) fn drop_found<D: Disk>(
    session: &mut Session,
    disk: &mut D,
    found: &Found,
) -> Result<(), Stop>
    requires shape { session.old.descriptor.shape ≡ (D.tape disk.old).form }
    requires sized { length session.old.hints.table ≡ pages_of (D.tape disk.old).form }
    ensures steps { IsTrue D.told → MayDropFound (pack (D.tape disk.old)) found.now → StepsOn (D.tape disk.old) (D.tape disk.new) (kept session.old) (kept session.new) (to_drop found.now.file.fid ∷ []) ([]) (found.now.file.fid ∷ found.now.dir.fid ∷ []) result }
    ensures unrefused { IfRefused result (λ r. ⊥) }
    ensures cause { HasCause cause_of_stop (D.tape disk.old) (D.tape disk.new) result }
    ensures works { Works session.old session.new }
    ensures descriptor { session.new.descriptor ≡ session.old.descriptor }
    ensures frame { WritesUsable D.told (D.tape disk.old) (D.tape disk.new) }
    ensures alone { DiskAlone (D.tape disk.old) (D.tape disk.new) }
{
    let _limit = limit_of(session);
    let mut buf = Sector::ZEROS;
    let dropped = drop_file(
        disk,
        &mut session.hints,
        &mut session.tally,
        &found.file,
        &mut buf,
    );
    written(&found.file, dropped)?;
    let freed = free_slot(disk, &mut session.hints, &found.dir, &found.name, &mut buf);
    entered(&found.dir, freed)
}

/// Opens the mark, drops a file that was found by its name, and answers the text of a line that is done.
///
/// Misled: the file's address, its directory's, or one of their links doesn't lead to its page, or the sector that is kept of DiskDescriptor
/// doesn't carry its first page. DiskFault: the device failed. Memory: none was left for a record write, or for the text; a prefix of the record
/// writes was done then, on a modelled disk, or all of them.
pub(crate) fn drop_line<D: Disk>(
    alloc: Global,
    session: &mut Session,
    disk: &mut D,
    found: &Found,
) -> Result<Vec<u8>, Stop>
    requires shape { session.old.descriptor.shape ≡ (D.tape disk.old).form }
    requires sized { length session.old.hints.table ≡ pages_of (D.tape disk.old).form }
    ensures turned { (one : Kept) (s : State) (l : Line) → IsTrue D.told → Begins (D.tape disk.old) one s l → Formed (D.tape disk.old).form one → SameBut (D.tape disk.old) (D.tape disk.old) one (kept session.old) → DropsFound s l found.now → MayDropFound (pack (D.tape disk.old)) found.now → Turned (D.tape disk.old) (D.tape disk.new) one (kept_replied result (kept session.new)) s l (replied result) }
    ensures unrefused { IfRefused result (λ r. ⊥) }
    ensures cause { HasCause cause_of_stop (D.tape disk.old) (D.tape disk.new) result }
    ensures works { Works session.old session.new }
    ensures frame { WritesUsable D.told (D.tape disk.old) (D.tape disk.new) }
    ensures alone { DiskAlone (D.tape disk.old) (D.tape disk.new) }
{
    open_mark(session, disk)?;
    drop_found(session, disk, found)?;
    Ok(done_text(alloc)?)
}
