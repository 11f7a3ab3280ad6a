// `cut`: only the first bytes of a file stay.
ghost use Rattle.disk_records.specs.Addresses.{pages_of};
ghost use Rattle.disk_records.specs.Causes.{HasCause};
ghost use Rattle.disk_records.specs.Frames.{WritesUsable};
ghost use Rattle.disk_records.specs.Tapes.{DiskAlone, added, pack};
ghost use Rattle.exec_writing.specs.Cutting.{MayCutFile, cuts, cuts_and_stamps};
ghost use Rattle.exec_writing.specs.Writing.{WritesAll};
ghost use Rattle.exec_session.specs.Meant.{IfRefused, MayObey, Stays, TakesLine, kept};
ghost use Rattle.exec_session.specs.Stops.{cause_of_stop};
ghost use Rattle.exec_steps.specs.Asked.{Works};
ghost use Rattle.exec_steps.specs.Midway.{StepsOn};
ghost use Rattle.std.specs.Prelude.{IsTrue, [], length as list_length, ◌∷◌, ◌≡◌};
ghost use Rattle.exec_words.specs.declared.line.Line.TheVariants as line;

use crate::measuring::{Measured, find_measured};
use disk_records::{Disk, Sector};
use exec_session::{Session, Stop, limit_of, refuse_streamed, refused, written};
use exec_steps::{open_mark, stamp_file};
use exec_words::{Refusal, Target, length_text};
use file_pages::cut;
use std::alloc::Global;

/// Keeps the first bytes of a file, if it has more.
fn shorten_file<D: Disk>(
    session: &mut Session,
    disk: &mut D,
    found: &Measured,
    length: u32,
) -> Result<(), Stop>
    requires shape { session.old.descriptor.shape ≡ (D.tape disk.old).form }
    requires sized { list_length session.old.hints.table ≡ pages_of (D.tape disk.old).form }
    ensures steps { IsTrue D.told → MayCutFile (pack (D.tape disk.old)) found.now length → StepsOn (D.tape disk.old) (D.tape disk.new) (kept session.old) (kept session.new) (cuts found.now.file.fid found.now.length length) ([]) (found.now.file.fid ∷ []) result }
    ensures unrefused { IfRefused result (λ r. ⊥) }
    ensures cause { HasCause cause_of_stop (D.tape disk.old) (D.tape disk.new) result }
    ensures works { Works session.old session.new }
    ensures descriptor { session.new.descriptor ≡ session.old.descriptor }
    ensures frame { WritesUsable D.told (D.tape disk.old) (D.tape disk.new) }
    ensures alone { DiskAlone (D.tape disk.old) (D.tape disk.new) }
{
    if length == found.length {
        return Ok(());
    }
    let _limit = limit_of(session);
    let mut buf = Sector::ZEROS;
    let shortened = cut(
        disk,
        &mut session.hints,
        &mut session.tally,
        &found.file,
        length,
        &mut buf,
    );
    written(&found.file, shortened)
}

/// Keeps the first bytes of a file, and gives it its written date.
fn shorten_and_stamp<D: Disk>(
    session: &mut Session,
    disk: &mut D,
    found: &Measured,
    length: u32,
) -> Result<(), Stop>
    requires shape { session.old.descriptor.shape ≡ (D.tape disk.old).form }
    requires sized { list_length session.old.hints.table ≡ pages_of (D.tape disk.old).form }
    ensures steps { IsTrue D.told → MayCutFile (pack (D.tape disk.old)) found.now length → StepsOn (D.tape disk.old) (D.tape disk.new) (kept session.old) (kept session.new) (cuts_and_stamps found.now.file.fid found.now.length length session.old.moment) ([]) (found.now.file.fid ∷ []) result }
    ensures unrefused { IfRefused result (λ r. ⊥) }
    ensures cause { HasCause cause_of_stop (D.tape disk.old) (D.tape disk.new) result }
    ensures works { Works session.old session.new }
    ensures frame { WritesUsable D.told (D.tape disk.old) (D.tape disk.new) }
    ensures alone { DiskAlone (D.tape disk.old) (D.tape disk.new) }
{
    shorten_file(session, disk, found, length)?;
    stamp_file(session, disk, &found.file)
}

/// Opens the mark, keeps the first bytes of a file, and gives it its written date.
fn write_cut<D: Disk>(
    session: &mut Session,
    disk: &mut D,
    found: &Measured,
    length: u32,
) -> Result<(), Stop>
    requires shape { session.old.descriptor.shape ≡ (D.tape disk.old).form }
    requires sized { list_length session.old.hints.table ≡ pages_of (D.tape disk.old).form }
    ensures writes { IsTrue D.told → MayCutFile (pack (D.tape disk.old)) found.now length → WritesAll (D.tape disk.old) (D.tape disk.new) (kept session.old) (kept session.new) (cuts_and_stamps found.now.file.fid found.now.length length session.old.moment) ([]) (found.now.file.fid ∷ []) result }
    ensures unrefused { IfRefused result (λ r. ⊥) }
    ensures cause { HasCause cause_of_stop (D.tape disk.old) (D.tape disk.new) result }
    ensures works { Works session.old session.new }
    ensures frame { WritesUsable D.told (D.tape disk.old) (D.tape disk.new) }
    ensures alone { DiskAlone (D.tape disk.old) (D.tape disk.new) }
{
    open_mark(session, disk)?;
    shorten_and_stamp(session, disk, found, length)
}

/// Keeps the first `length` bytes of a file, gives it the session's moment as its written date, and answers the text of `cut`: that length.
/// The pages that go are free then.
///
/// NoSuchName: the file isn't there. IsADirectory: it is a directory. SystemFile: it is DiskDescriptor. Beyond: it has fewer bytes.
/// StreamsOpen: an open stream has it. They are tested in this order, and nothing was written. Misled: an address on the way to the file is
/// wrong, or one of its links. DiskFault: the device failed. Memory: none was left for a record write, or for the text. After each of these a
/// prefix of the record writes was done, on a modelled disk, and all of them where memory for the text was refused.
pub fn cut_file<D: Disk>(
    alloc: Global,
    session: &mut Session,
    disk: &mut D,
    target: &Target,
    length: u32,
) -> Result<Vec<u8>, Stop>
    requires obeys { MayObey (D.tape disk.old) session.old (line.Cut target.now length) }
    ensures turns { IsTrue D.told → TakesLine (D.tape disk.old) (D.tape disk.new) session.old session.new (line.Cut target.now length) result }
    ensures unwritten { IsTrue D.told → IfRefused result (λ r. added (D.tape disk.old) (D.tape disk.new) ≡ []) }
    ensures stays { Stays (D.tape disk.new) session.old session.new }
    ensures cause { HasCause cause_of_stop (D.tape disk.old) (D.tape disk.new) result }
    ensures frame { WritesUsable D.told (D.tape disk.old) (D.tape disk.new) }
    ensures alone { DiskAlone (D.tape disk.old) (D.tape disk.new) }
{
    let found = find_measured(session, disk, target)?;
    if found.length < length {
        return refused(Refusal::Beyond {
            length: found.length,
        });
    }
    refuse_streamed(session, found.file.fid)?;
    write_cut(session, disk, &found, length)?;
    Ok(length_text(alloc, length)?)
}
