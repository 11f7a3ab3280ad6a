// What operands mean that may be serials: files by their names and by their serials.
ghost use Rattle.disk_records.specs.Causes.{HasCause};
ghost use Rattle.disk_records.specs.Tapes.{pack};
ghost use Rattle.exec_session.specs.Found.{IsAt, IsNoneAt, dirs_followed, operand, operand_refusal};
ghost use Rattle.exec_session.specs.Meant.{IfHint, IfRefused, IsSoon, LooksAbout, kept};
ghost use Rattle.exec_session.specs.Stops.{cause_of_stop};
ghost use Rattle.exec_words.specs.declared.line.Path.{Path};
ghost use Rattle.exec_words.specs.declared.line.Target.TheVariants.{ByPath};
ghost use Rattle.laws_operation.specs.ByteLaws.{IsOrdinary};
ghost use Rattle.pack_model.specs.reading.Model.{read_as};
ghost use Rattle.pack_model.specs.states.Sound.{Sound};
ghost use Rattle.session_model.specs.Bounds.{AllHandy, sought_pages};
ghost use Rattle.session_model.specs.Operands.{no_directory};
ghost use Rattle.session_model.specs.Turning.{HintFailing};
ghost use Rattle.std.specs.Prelude.{IfOk, IsErrOf, IsTrue, None, OnOk, Some, [], ◌*◌, ◌+◌, ◌≡◌};

use crate::operands::find_path;
use crate::refusals::{refuse_descriptor, refuse_directory};
use crate::serials::find_serial;
use crate::session::Session;
use crate::stop::Stop;
use disk_records::Disk;
use exec_words::Target;
use page_seeking::FileRef;

/// The file that an operand means: by its path, or the living one of least full name with its serial, for which all labels are swept.
///
/// NoSuchName: there is none. Misled: an address on the way to it, or a link of SysDir or of its directory, is wrong. DiskFault: the device
/// failed.
pub fn find_target<D: Disk>(
    session: &mut Session,
    disk: &mut D,
    target: &Target,
) -> Result<FileRef, Stop>
    ensures found { IsTrue D.told → Sound (pack (D.tape disk.old)) → IfOk result (IsAt (pack (D.tape disk.old)) target.now) }
    ensures absent { IsTrue D.told → Sound (pack (D.tape disk.old)) → IfRefused result (IsNoneAt (pack (D.tape disk.old)) target.now) }
    ensures misled { IsTrue D.told → Sound (pack (D.tape disk.old)) → IfHint result (HintFailing (pack (D.tape disk.old)) [] (dirs_followed (pack (D.tape disk.old)) target.now)) }
    ensures cause { HasCause cause_of_stop (D.tape disk.old) (D.tape disk.new) result }
    ensures want { IsTrue D.told → IsErrOf result Stop.Memory → ⊥ }
    ensures looks { LooksAbout D.told (65588 * 131072) (D.tape disk.old) (D.tape disk.new) session.old session.new }
    ensures quick { (path : Path) → IsTrue D.told → target.now ≡ ByPath path → AllHandy (pack (D.tape disk.old)) (kept session.old).busy (kept session.old).cache (dirs_followed (pack (D.tape disk.old)) target.now) → OnOk result (IsSoon (sought_pages (read_as (pack (D.tape disk.old))) path + 2) (D.tape disk.old) (D.tape disk.new) session.old session.new) }
{
    match target {
        Target::ByPath { path } => Ok(find_path(session, disk, path)?.file),
        Target::BySerial { serial } => find_serial(disk, *serial),
    }
}

/// The file that an operand means, where it has to be an ordinary one.
///
/// NoSuchName: there is none. IsADirectory: it is a directory. SystemFile: it is DiskDescriptor. In this order. Misled: an address on the way
/// to it, or a link of SysDir or of its directory, is wrong. DiskFault: the device failed.
pub fn find_ordinary<D: Disk>(
    session: &mut Session,
    disk: &mut D,
    target: &Target,
) -> Result<FileRef, Stop>
    ensures found { IsTrue D.told → Sound (pack (D.tape disk.old)) → IfOk result (IsAt (pack (D.tape disk.old)) target.now) }
    ensures taken { IsTrue D.told → Sound (pack (D.tape disk.old)) → OnOk result (operand_refusal (pack (D.tape disk.old)) (operand target.now no_directory) ≡ None) }
    ensures ordinary { IfOk result (λ file. IsOrdinary file.fid) }
    ensures refused { IsTrue D.told → Sound (pack (D.tape disk.old)) → IfRefused result (λ r. operand_refusal (pack (D.tape disk.old)) (operand target.now no_directory) ≡ Some r) }
    ensures misled { IsTrue D.told → Sound (pack (D.tape disk.old)) → IfHint result (HintFailing (pack (D.tape disk.old)) [] (dirs_followed (pack (D.tape disk.old)) target.now)) }
    ensures cause { HasCause cause_of_stop (D.tape disk.old) (D.tape disk.new) result }
    ensures want { IsTrue D.told → IsErrOf result Stop.Memory → ⊥ }
    ensures looks { LooksAbout D.told (65588 * 131072) (D.tape disk.old) (D.tape disk.new) session.old session.new }
    ensures quick { (path : Path) → IsTrue D.told → target.now ≡ ByPath path → AllHandy (pack (D.tape disk.old)) (kept session.old).busy (kept session.old).cache (dirs_followed (pack (D.tape disk.old)) target.now) → OnOk result (IsSoon (sought_pages (read_as (pack (D.tape disk.old))) path + 2) (D.tape disk.old) (D.tape disk.new) session.old session.new) }
{
    let file = find_target(session, disk, target)?;
    refuse_directory(file.fid)?;
    refuse_descriptor(file.fid)?;
    Ok(file)
}
