// `type`: the bytes of a file.
ghost use Rattle.disk_records.specs.Causes.{HasCause};
ghost use Rattle.disk_records.specs.Tapes.{DiskAlone, added, pack};
ghost use Rattle.executive.specs.Reads.{ReadsRight};
ghost use Rattle.exec_session.specs.Found.{files_followed, operand};
ghost use Rattle.exec_session.specs.Meant.{IsSoon, LooksAbout, MayObey, Stays, TakesLine, kept};
ghost use Rattle.exec_session.specs.Stops.{cause_of_stop};
ghost use Rattle.exec_words.specs.Texts.{type_text};
ghost use Rattle.exec_words.specs.declared.line.Path.{Path};
ghost use Rattle.exec_words.specs.declared.line.Target.TheVariants.{ByPath};
ghost use Rattle.pack_model.specs.reading.Model.{read_as};
ghost use Rattle.pack_model.specs.states.Sound.{Sound};
ghost use Rattle.session_model.specs.Bounds.{AllHandy, type_runs};
ghost use Rattle.session_model.specs.Operands.{no_directory};
ghost use Rattle.std.specs.Prelude.{IsTrue, OnOk, [], ◌*◌, ◌≡◌};
ghost use Rattle.exec_words.specs.declared.line.Line.TheVariants as line;

use disk_records::Disk;
use exec_session::{Session, Stop, bytes_of, find_ordinary};
use exec_words::{Target, type_text};
use std::alloc::Global;

/// The bytes of the ordinary file that an operand means.
fn find_bytes<D: Disk>(
    alloc: Global,
    session: &mut Session,
    disk: &mut D,
    target: &Target,
) -> Result<Vec<u8>, Stop>
    ensures reads { IsTrue D.told → Sound (pack (D.tape disk.old)) → ReadsRight (pack (D.tape disk.old)) (line.TypeOut target.now) (λ bytes. type_text bytes.items) result }
    ensures cause { HasCause cause_of_stop (D.tape disk.old) (D.tape disk.new) result }
    ensures looks { LooksAbout D.told (65588 * 139264) (D.tape disk.old) (D.tape disk.new) session.old session.new }
    ensures quick { (path : Path) → IsTrue D.told → target.now ≡ ByPath path → AllHandy (pack (D.tape disk.old)) (kept session.old).busy (kept session.old).cache (files_followed (pack (D.tape disk.old)) (operand target.now no_directory)) → OnOk result (IsSoon (type_runs (read_as (pack (D.tape disk.old))) path) (D.tape disk.old) (D.tape disk.new) session.old session.new) }
{
    let file = find_ordinary(session, disk, target)?;
    bytes_of(alloc, session, disk, &file)
}

/// The text of `type`: the bytes of a file in hex, 32 to a line, and how many there are.
///
/// NoSuchName: the file isn't there. IsADirectory: it is a directory. SystemFile: it is DiskDescriptor. Misled: an address on the way to
/// it is wrong, or one of its links. DiskFault: the device failed. Memory: none was left for the bytes or the text.
pub(crate) fn type_file<D: Disk>(
    alloc: Global,
    session: &mut Session,
    disk: &mut D,
    target: &Target,
) -> Result<Vec<u8>, Stop>
    requires obeys { MayObey (D.tape disk.old) session.old (line.TypeOut target.now) }
    ensures turns { IsTrue D.told → TakesLine (D.tape disk.old) (D.tape disk.new) session.old session.new (line.TypeOut target.now) result }
    ensures silent { IsTrue D.told → added (D.tape disk.old) (D.tape disk.new) ≡ [] }
    ensures stays { Stays (D.tape disk.new) session.old session.new }
    ensures cause { HasCause cause_of_stop (D.tape disk.old) (D.tape disk.new) result }
    ensures alone { DiskAlone (D.tape disk.old) (D.tape disk.new) }
{
    let bytes = find_bytes(alloc, session, disk, target)?;
    Ok(type_text(alloc, &bytes)?)
}
