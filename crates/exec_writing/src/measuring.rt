// The ordinary file that an operand means, and its length.
ghost use Rattle.disk_records.specs.Causes.{HasCause};
ghost use Rattle.disk_records.specs.Tapes.{pack};
ghost use Rattle.exec_writing.specs.Measured.{IsMeasured};
ghost use Rattle.exec_session.specs.Found.{files_followed, operand, operand_refusal};
ghost use Rattle.exec_session.specs.Meant.{IfHint, IfRefused, IsSoon, LooksAbout, kept};
ghost use Rattle.exec_session.specs.Stops.{cause_of_stop};
ghost use Rattle.exec_words.specs.declared.line.Path.{Path};
ghost use Rattle.exec_words.specs.declared.line.Target.TheVariants.{ByPath};
ghost use Rattle.pack_model.specs.reading.Model.{read_as};
ghost use Rattle.pack_model.specs.states.Sound.{Sound};
ghost use Rattle.page_seeking.specs.Seeking.{LastNamed};
ghost use Rattle.session_model.specs.Bounds.{AllHandy, sought_pages};
ghost use Rattle.session_model.specs.Keeping.{most_bytes};
ghost use Rattle.session_model.specs.Operands.{no_directory};
ghost use Rattle.session_model.specs.Turning.{HintFailing};
ghost use Rattle.std.specs.Prelude.{IfOk, IsErrOf, IsTrue, Some, [], ◌*◌, ◌+◌, ◌≡◌, ◌≤◌};

use disk_records::Disk;
use exec_session::{FileRef, Session, Stop, find_ordinary, length_of};
use exec_words::Target;

/// A file that was found, and its length.
#[derive(Clone, Copy)]
pub(crate) struct Measured {
    /// The file.
    pub file: FileRef,
    /// Its length in bytes.
    pub length: u32,
}

/// The ordinary file that an operand means, and its length.
///
/// NoSuchName: there is none. IsADirectory: it is a directory. SystemFile: it is DiskDescriptor. In this order. Misled: an address on the
/// way to it is wrong, or one of its links. DiskFault: the device failed.
pub(crate) fn find_measured<D: Disk>(
    session: &mut Session,
    disk: &mut D,
    target: &Target,
) -> Result<Measured, Stop>
    ensures found { IsTrue D.told → Sound (pack (D.tape disk.old)) → IfOk result (IsMeasured (pack (D.tape disk.old)) target.now) }
    ensures most { IfOk result (λ m. m.length ≤ most_bytes) }
    ensures refused { IsTrue D.told → Sound (pack (D.tape disk.old)) → IfRefused result (λ r. operand_refusal (pack (D.tape disk.old)) (operand target.now no_directory) ≡ Some r) }
    ensures misled { IsTrue D.told → Sound (pack (D.tape disk.old)) → IfHint result (HintFailing (pack (D.tape disk.old)) [] (files_followed (pack (D.tape disk.old)) (operand target.now no_directory))) }
    ensures cause { HasCause cause_of_stop (D.tape disk.old) (D.tape disk.new) result }
    ensures want { IsTrue D.told → IsErrOf result Stop.Memory → ⊥ }
    ensures looks { LooksAbout D.told (65588 * 131073) (D.tape disk.old) (D.tape disk.new) session.old session.new }
    ensures quick { (path : Path) → IsTrue D.told → target.now ≡ ByPath path → AllHandy (pack (D.tape disk.old)) (kept session.old).busy (kept session.old).cache (files_followed (pack (D.tape disk.old)) (operand target.now no_directory)) → IfOk result (λ m. LastNamed (pack (D.tape disk.old)) m.file.fid → IsSoon (sought_pages (read_as (pack (D.tape disk.old))) path + 4) (D.tape disk.old) (D.tape disk.new) session.old session.new) }
{
    let file = find_ordinary(session, disk, target)?;
    let length = length_of(session, disk, &file)?;
    Ok(Measured { file, length })
}
