// `make`: a new file.
ghost use Rattle.disk_records.specs.Causes.{HasCause};
ghost use Rattle.disk_records.specs.Frames.{WritesUsable};
ghost use Rattle.disk_records.specs.Tapes.{DiskAlone, added, pack};
ghost use Rattle.exec_writing.specs.Entries.{OperandsRefuse, PlansPath};
ghost use Rattle.exec_session.specs.Meant.{IfHint, IfRefused, LooksAbout, MayObey, Stays, TakesLine};
ghost use Rattle.exec_session.specs.Stops.{cause_of_stop};
ghost use Rattle.exec_words.specs.Typed.{is_typed_path};
ghost use Rattle.exec_words.specs.declared.line.Line.TheVariants as line;
ghost use Rattle.pack_model.specs.reading.Model.{read_as};
ghost use Rattle.pack_model.specs.states.Sound.{Sound};
ghost use Rattle.session_model.specs.Touched.{files_named};
ghost use Rattle.session_model.specs.Turning.{HintFailing};
ghost use Rattle.std.specs.Prelude.{IfOk, IsErrOf, IsTrue, [], true, ◌*◌, ◌≡◌};

use crate::add_file::add_file;
use crate::new_entry::plan_named;
use disk_records::Disk;
use exec_session::{Session, Stop, find_dir, require_directory};
use exec_steps::NewEntry;
use exec_words::{Path, made_text};
use std::alloc::Global;

/// Plans the entry of the new file.
///
/// NoSuchName: the directory isn't there. NotADirectory: it isn't one. NameTaken: the name can't be given. In this order.
fn plan_make<D: Disk>(session: &mut Session, disk: &mut D, path: &Path) -> Result<NewEntry, Stop>
    requires typed { is_typed_path path.now ≡ true }
    ensures planned { IsTrue D.told → Sound (pack (D.tape disk.old)) → IfOk result (PlansPath (pack (D.tape disk.old)) (line.Make path.now) path.now) }
    ensures refused { IsTrue D.told → Sound (pack (D.tape disk.old)) → IfRefused result (OperandsRefuse (pack (D.tape disk.old)) (line.Make path.now)) }
    ensures misled { IsTrue D.told → Sound (pack (D.tape disk.old)) → IfHint result (HintFailing (pack (D.tape disk.old)) [] (files_named (line.Make path.now) (read_as (pack (D.tape disk.old))))) }
    ensures cause { HasCause cause_of_stop (D.tape disk.old) (D.tape disk.new) result }
    ensures want { IsTrue D.told → IsErrOf result Stop.Memory → ⊥ }
    ensures looks { LooksAbout D.told (65588 * 327680) (D.tape disk.old) (D.tape disk.new) session.old session.new }
{
    let dir = find_dir(session, disk, &path.dir)?;
    require_directory(dir.fid)?;
    plan_named(session, disk, dir, &path.wanted)
}

/// Makes a file without bytes, for the new name that a path states, and answers the text of `make`, which says its serial.
///
/// NoSuchName: the directory isn't there. NotADirectory: it isn't one. NameTaken: the stated name is there, no version is left, or a directory
/// or a system file has the base as its name. SerialsSpent: no serial is left. Full: too few sectors are free. In this order, and nothing was
/// written. Misled: an address or a link of SysDir or of the file's directory doesn't lead to its page. DiskFault: the device failed. Memory:
/// none was left, maybe for the text alone. After these three a prefix of the record writes was done, on a modelled disk.
pub fn make_file<D: Disk>(
    alloc: Global,
    session: &mut Session,
    disk: &mut D,
    path: &Path,
) -> Result<Vec<u8>, Stop>
    requires obeys { MayObey (D.tape disk.old) session.old (line.Make path.now) }
    ensures turns { IsTrue D.told → TakesLine (D.tape disk.old) (D.tape disk.new) session.old session.new (line.Make path.now) result }
    ensures unwritten { IsTrue D.told → IfRefused result (λ r. added (D.tape disk.old) (D.tape disk.new) ≡ []) }
    ensures stays { Stays (D.tape disk.new) session.old session.new }
    ensures cause { HasCause cause_of_stop (D.tape disk.old) (D.tape disk.new) result }
    ensures frame { WritesUsable D.told (D.tape disk.old) (D.tape disk.new) }
    ensures alone { DiskAlone (D.tape disk.old) (D.tape disk.new) }
{
    let entry = plan_make(session, disk, path)?;
    let fid = add_file(alloc, session, disk, &entry, false)?;
    Ok(made_text(alloc, fid)?)
}
