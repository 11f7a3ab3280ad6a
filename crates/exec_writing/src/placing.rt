// Where a file is entered that is copied, or that gets another name.
ghost use Rattle.disk_records.specs.Causes.{HasCause};
ghost use Rattle.disk_records.specs.Tapes.{pack};
ghost use Rattle.exec_writing.specs.Plans.{IsPlaced, kinds_refusal, place_refusal};
ghost use Rattle.exec_session.specs.Found.{dirs_followed};
ghost use Rattle.exec_session.specs.Meant.{IfHint, IfRefused, LooksAbout};
ghost use Rattle.exec_session.specs.Stops.{cause_of_stop, refused_for};
ghost use Rattle.exec_words.specs.Typed.{is_typed_path};
ghost use Rattle.exec_words.specs.declared.line.Target.TheVariants.{ByPath};
ghost use Rattle.pack_model.specs.reading.Model.{read_as};
ghost use Rattle.pack_model.specs.states.Sound.{Sound};
ghost use Rattle.session_model.specs.Turning.{HintFailing};
ghost use Rattle.std.specs.Prelude.{IfOk, IsErrOf, IsTrue, Some, [], true, ◌*◌, ◌≡◌};

use crate::new_entry::plan_named;
use alto_words::Fid;
use disk_records::Disk;
use exec_session::{Session, Stop, find_dir, refuse_descriptor, refused};
use exec_steps::NewEntry;
use exec_words::{Path, Refusal};

/// Refuses a file that is no ordinary one, and a directory that is none.
///
/// IsADirectory: the file is a directory. NotADirectory: the directory isn't one. SystemFile: the file is DiskDescriptor. In this order.
fn refuse_kinds(file: Fid, dir: Fid) -> Result<(), Stop>
    ensures { result ≡ refused_for (kinds_refusal file dir) }
{
    if file.is_directory() {
        return refused(Refusal::IsADirectory);
    }
    if !dir.is_directory() {
        return refused(Refusal::NotADirectory);
    }
    refuse_descriptor(file)
}

/// Where a file's copy is entered, or the file itself under another name.
///
/// NoSuchName: the new name's directory isn't there. IsADirectory: the file is a directory. NotADirectory: the new name's directory isn't
/// one. SystemFile: the file is DiskDescriptor. NameTaken: the name can't be given. In this order.
pub(crate) fn plan_place<D: Disk>(
    session: &mut Session,
    disk: &mut D,
    file: Fid,
    path: &Path,
) -> Result<NewEntry, Stop>
    requires typed { is_typed_path path.now ≡ true }
    ensures placed { IsTrue D.told → Sound (pack (D.tape disk.old)) → IfOk result (IsPlaced (pack (D.tape disk.old)) file path.now) }
    ensures refused { IsTrue D.told → Sound (pack (D.tape disk.old)) → IfRefused result (λ r. place_refusal (read_as (pack (D.tape disk.old))) file path.now ≡ Some r) }
    ensures misled { IsTrue D.told → Sound (pack (D.tape disk.old)) → IfHint result (HintFailing (pack (D.tape disk.old)) [] (dirs_followed (pack (D.tape disk.old)) (ByPath path.now))) }
    ensures cause { HasCause cause_of_stop (D.tape disk.old) (D.tape disk.new) result }
    ensures want { IsTrue D.told → IsErrOf result Stop.Memory → ⊥ }
    ensures looks { LooksAbout D.told (65588 * 327680) (D.tape disk.old) (D.tape disk.new) session.old session.new }
{
    let dir = find_dir(session, disk, &path.dir)?;
    refuse_kinds(file, dir.fid)?;
    plan_named(session, disk, dir, &path.wanted)
}
