// What operands mean: directories, and files by their names.
ghost use Rattle.alto_words.specs.Fid.{sys_dir};
ghost use Rattle.directory.specs.Asked.{DirIsFound};
ghost use Rattle.disk_records.specs.Causes.{HasCause};
ghost use Rattle.disk_records.specs.Tapes.{pack};
ghost use Rattle.exec_session.specs.Found.{IsAtPath, IsDirOf, IsInDir, IsNoDirOf, IsNoneAt, dirs_followed};
ghost use Rattle.exec_session.specs.Meant.{IfHint, IfRefused, IsSoon, LooksAbout, kept};
ghost use Rattle.exec_session.specs.Stops.{cause_of_stop};
ghost use Rattle.exec_words.specs.declared.line.Target.TheVariants.{ByPath};
ghost use Rattle.page_seeking.specs.Refs.{MisledBy};
ghost use Rattle.page_seeking.specs.Seeking.{Quick, file_length};
ghost use Rattle.pack_model.specs.operations.Committing.{page_of_byte};
ghost use Rattle.pack_model.specs.reading.Model.{read_as};
ghost use Rattle.pack_model.specs.states.Sound.{Sound};
ghost use Rattle.session_model.specs.Bounds.{AllHandy, root_pages, sought_pages};
ghost use Rattle.session_model.specs.Turning.{HintFailing};
ghost use Rattle.std.specs.Prelude.{IfOk, IsErrOf, IsTrue, OnOk, [], ◌*◌, ◌+◌, ◌∷◌, ◌≡◌};

use crate::session::Session;
use crate::stop::{Stop, refused};
use alto_words::{Fid, Name, Wanted};
use directory::{DirError, lookup};
use disk_records::{Disk, Place, Sector};
use exec_words::{Path, Refusal};
use page_seeking::FileRef;

/// SysDir, with its fixed address.
pub const ROOT: FileRef = FileRef {
    fid: Fid::SYS_DIR,
    leader_at: 1,
    from: Place::Root,
};

/// A file that was found by its name.
#[derive(Clone, Copy)]
pub struct Found {
    /// The file.
    pub file: FileRef,
    /// The directory that it stands in.
    pub dir: FileRef,
    /// The name of its entry.
    pub name: Name,
}

/// The directory of this name in SysDir, or SysDir where no name is typed; whether it is a directory isn't looked at.
///
/// NoSuchName: SysDir has no such entry. Misled: SysDir's address or one of its links is wrong. DiskFault: the device failed.
pub fn find_dir<D: Disk>(
    session: &mut Session,
    disk: &mut D,
    dir: &Option<Name>,
) -> Result<FileRef, Stop>
    ensures found { IsTrue D.told → Sound (pack (D.tape disk.old)) → IfOk result (IsDirOf (pack (D.tape disk.old)) dir.now) }
    ensures absent { IsTrue D.told → Sound (pack (D.tape disk.old)) → IfRefused result (IsNoDirOf (pack (D.tape disk.old)) dir.now) }
    ensures misled { IsTrue D.told → Sound (pack (D.tape disk.old)) → IfHint result (HintFailing (pack (D.tape disk.old)) [] (sys_dir ∷ [])) }
    ensures cause { HasCause cause_of_stop (D.tape disk.old) (D.tape disk.new) result }
    ensures want { IsTrue D.told → IsErrOf result Stop.Memory → ⊥ }
    ensures looks { LooksAbout D.told (65588 * 65536) (D.tape disk.old) (D.tape disk.new) session.old session.new }
    ensures quick { IsTrue D.told → AllHandy (pack (D.tape disk.old)) (kept session.old).busy (kept session.old).cache (sys_dir ∷ []) → OnOk result (IsSoon (root_pages (read_as (pack (D.tape disk.old))) dir.now + 1) (D.tape disk.old) (D.tape disk.new) session.old session.new) }
{
    let Some(name) = dir else {
        return Ok(ROOT);
    };
    let mut buf = Sector::ZEROS;
    let wanted = Wanted::Exact { name: *name };
    let (file, _) = lookup(disk, &mut session.hints, &ROOT, &wanted, &mut buf)?;
    Ok(file)
}

/// The file of an entry of a directory, and the entry's own name: None where the directory has no such entry.
///
/// Misled: the directory's address or one of its links is wrong. DiskFault: the device failed.
pub fn find_in<D: Disk>(
    session: &mut Session,
    disk: &mut D,
    dir: &FileRef,
    wanted: &Wanted,
) -> Result<Option<(FileRef, Name)>, Stop>
    ensures found { IsTrue D.told → Sound (pack (D.tape disk.old)) → DirIsFound (pack (D.tape disk.old)) dir.now → IfOk result (IsInDir (pack (D.tape disk.old)) dir.now.fid wanted.now) }
    ensures unrefused { IfRefused result (λ r. ⊥) }
    ensures misled { IsTrue D.told → DirIsFound (pack (D.tape disk.old)) dir.now → IfHint result (MisledBy (pack (D.tape disk.old)) [] dir.now.fid) }
    ensures cause { HasCause cause_of_stop (D.tape disk.old) (D.tape disk.new) result }
    ensures want { IsTrue D.told → IsErrOf result Stop.Memory → ⊥ }
    ensures looks { LooksAbout D.told (65588 * 65536) (D.tape disk.old) (D.tape disk.new) session.old session.new }
    ensures quick { IsTrue D.told → Quick (pack (D.tape disk.old)) dir.now.fid session.old.hints.cache → OnOk result (IsSoon (page_of_byte (file_length (pack (D.tape disk.old)) dir.now.fid) + 1) (D.tape disk.old) (D.tape disk.new) session.old session.new) }
{
    let mut buf = Sector::ZEROS;
    match lookup(disk, &mut session.hints, dir, wanted, &mut buf) {
        Ok(found) => Ok(Some(found)),
        Err(DirError::NoSuchName) => Ok(None),
        Err(error) => Err(Stop::from(error)),
    }
}

/// The file that a path means, with its directory and the name of its entry.
///
/// NoSuchName: the directory isn't there or is none, or has no such entry. Misled: an address on the way to it, or a link of SysDir or of the
/// directory, is wrong. DiskFault: the device failed.
pub fn find_path<D: Disk>(session: &mut Session, disk: &mut D, path: &Path) -> Result<Found, Stop>
    ensures found { IsTrue D.told → Sound (pack (D.tape disk.old)) → IfOk result (IsAtPath (pack (D.tape disk.old)) path.now) }
    ensures absent { IsTrue D.told → Sound (pack (D.tape disk.old)) → IfRefused result (IsNoneAt (pack (D.tape disk.old)) (ByPath path.now)) }
    ensures misled { IsTrue D.told → Sound (pack (D.tape disk.old)) → IfHint result (HintFailing (pack (D.tape disk.old)) [] (dirs_followed (pack (D.tape disk.old)) (ByPath path.now))) }
    ensures cause { HasCause cause_of_stop (D.tape disk.old) (D.tape disk.new) result }
    ensures want { IsTrue D.told → IsErrOf result Stop.Memory → ⊥ }
    ensures looks { LooksAbout D.told (65588 * 131072) (D.tape disk.old) (D.tape disk.new) session.old session.new }
    ensures quick { IsTrue D.told → AllHandy (pack (D.tape disk.old)) (kept session.old).busy (kept session.old).cache (dirs_followed (pack (D.tape disk.old)) (ByPath path.now)) → OnOk result (IsSoon (sought_pages (read_as (pack (D.tape disk.old))) path.now + 2) (D.tape disk.old) (D.tape disk.new) session.old session.new) }
{
    let dir = find_dir(session, disk, &path.dir)?;
    if !dir.fid.is_directory() {
        return refused(Refusal::NoSuchName);
    }
    match find_in(session, disk, &dir, &path.wanted)? {
        Some(entry) => Ok(Found {
            file: entry.0,
            dir,
            name: entry.1,
        }),
        None => refused(Refusal::NoSuchName),
    }
}
