// The names that new entries get.
ghost use Rattle.alto_words.specs.Names.{is_bare_name};
ghost use Rattle.alto_words.specs.Wanted.{base_wanted};
ghost use Rattle.directory.specs.Asked.{DirIsFound, DirStands};
ghost use Rattle.directory.specs.Found.{IsAbsent};
ghost use Rattle.disk_records.specs.Causes.{HasCause};
ghost use Rattle.disk_records.specs.Tapes.{pack};
ghost use Rattle.exec_session.specs.Meant.{IfHint, IfRefused, LooksAbout};
ghost use Rattle.exec_session.specs.NewNames.{IsGiven, IsTaken, version_after};
ghost use Rattle.exec_session.specs.Stops.{cause_of_stop};
ghost use Rattle.pack_model.specs.reading.Model.{dir_items, read_as};
ghost use Rattle.pack_model.specs.reading.Versions.{is_base_taken};
ghost use Rattle.page_seeking.specs.Refs.{MisledBy};
ghost use Rattle.std.specs.Prelude.{IfOk, IsErrOf, IsTrue, OnOk, [], false, true, ◌*◌, ◌≡◌};

use crate::session::Session;
use crate::stop::{Stop, refused};
use alto_words::{Name, Wanted};
use directory::{DirError, greatest, lookup};
use disk_records::{Disk, Sector};
use exec_words::Refusal;
use page_seeking::FileRef;

/// The greatest version of a name.
const MOST_VERSION: u16 = 65_534;

/// The name of the version after the greatest one of its base.
///
/// NameTaken: there is none after it, or the name gets longer than 39 characters.
fn next_version(base: &Name, greatest: u16) -> Result<Name, Stop>
    requires bare { is_bare_name base.now ≡ true }
    ensures { result ≡ version_after base.now greatest }
{
    if greatest >= MOST_VERSION {
        return refused(Refusal::NameTaken);
    }
    match base.with_version(greatest + 1) {
        Some(name) => Ok(name),
        None => refused(Refusal::NameTaken),
    }
}

/// NameTaken: the directory has an entry of this name.
fn refuse_entry<D: Disk>(
    session: &mut Session,
    disk: &mut D,
    dir: &FileRef,
    wanted: &Wanted,
) -> Result<(), Stop>
    ensures absent { IsTrue D.told → DirIsFound (pack (D.tape disk.old)) dir.now → OnOk result (IsAbsent (pack (D.tape disk.old)) dir.now.fid wanted.now) }
    ensures taken { IsTrue D.told → DirIsFound (pack (D.tape disk.old)) dir.now → IfRefused result (λ r. (r ≡ Refusal.NameTaken) × (IsAbsent (pack (D.tape disk.old)) dir.now.fid wanted.now → ⊥)) }
    ensures misled { IsTrue D.told → DirIsFound (pack (D.tape disk.old)) dir.now → IfHint result (MisledBy (pack (D.tape disk.old)) [] dir.now.fid) }
    ensures cause { HasCause cause_of_stop (D.tape disk.old) (D.tape disk.new) result }
    ensures want { IsTrue D.told → IsErrOf result Stop.Memory → ⊥ }
    ensures looks { LooksAbout D.told (65588 * 65536) (D.tape disk.old) (D.tape disk.new) session.old session.new }
{
    let mut buf = Sector::ZEROS;
    match lookup(disk, &mut session.hints, dir, wanted, &mut buf) {
        Ok(_) => refused(Refusal::NameTaken),
        Err(DirError::NoSuchName) => Ok(()),
        Err(error) => Err(Stop::from(error)),
    }
}

/// The name that a new entry of a directory gets: the one that is stated with its version, or the version after the greatest of its base.
///
/// NameTaken: the base is the name of a directory or of a system file; the stated name is there; or no version is left. Misled: the
/// directory's address or one of its links is wrong. DiskFault: the device failed.
pub fn name_given<D: Disk>(
    session: &mut Session,
    disk: &mut D,
    dir: &FileRef,
    wanted: &Wanted,
) -> Result<Name, Stop>
    requires bare { is_bare_name (base_wanted wanted.now) ≡ true }
    ensures given { IsTrue D.told → DirStands (pack (D.tape disk.old)) dir.now → IfOk result (IsGiven (pack (D.tape disk.old)) dir.now.fid wanted.now) }
    ensures taken { IsTrue D.told → DirStands (pack (D.tape disk.old)) dir.now → IfRefused result (IsTaken (pack (D.tape disk.old)) dir.now.fid wanted.now) }
    ensures misled { IsTrue D.told → DirStands (pack (D.tape disk.old)) dir.now → IfHint result (MisledBy (pack (D.tape disk.old)) [] dir.now.fid) }
    ensures cause { HasCause cause_of_stop (D.tape disk.old) (D.tape disk.new) result }
    ensures want { IsTrue D.told → IsErrOf result Stop.Memory → ⊥ }
    ensures looks { LooksAbout D.told (65588 * 131072) (D.tape disk.old) (D.tape disk.new) session.old session.new }
{
    let mut buf = Sector::ZEROS;
    let found = greatest(disk, &mut session.hints, dir, &wanted.base(), &mut buf)?;
    if found.held {
        return refused(Refusal::NameTaken);
    }
    match wanted {
        Wanted::Exact { name } => {
            refuse_entry(session, disk, dir, wanted)?;
            Ok(*name)
        }
        Wanted::Newest { base } => next_version(base, found.version),
    }
}

/// NameTaken: some entry of the directory has this bare name as its base, so that no directory can get it. Misled: the directory's address
/// or one of its links is wrong. DiskFault: the device failed.
pub fn refuse_held_base<D: Disk>(
    session: &mut Session,
    disk: &mut D,
    dir: &FileRef,
    base: &Name,
) -> Result<(), Stop>
    requires bare { is_bare_name base.now ≡ true }
    ensures free { IsTrue D.told → DirStands (pack (D.tape disk.old)) dir.now → OnOk result (is_base_taken base.now (dir_items (read_as (pack (D.tape disk.old))) dir.now.fid) ≡ false) }
    ensures taken { IsTrue D.told → DirStands (pack (D.tape disk.old)) dir.now → IfRefused result (λ r. (r ≡ Refusal.NameTaken) × (is_base_taken base.now (dir_items (read_as (pack (D.tape disk.old))) dir.now.fid) ≡ true)) }
    ensures misled { IsTrue D.told → DirStands (pack (D.tape disk.old)) dir.now → IfHint result (MisledBy (pack (D.tape disk.old)) [] dir.now.fid) }
    ensures cause { HasCause cause_of_stop (D.tape disk.old) (D.tape disk.new) result }
    ensures want { IsTrue D.told → IsErrOf result Stop.Memory → ⊥ }
    ensures looks { LooksAbout D.told (65588 * 65536) (D.tape disk.old) (D.tape disk.new) session.old session.new }
{
    let mut buf = Sector::ZEROS;
    let found = greatest(disk, &mut session.hints, dir, base, &mut buf)?;
    if found.version > 0 {
        return refused(Refusal::NameTaken);
    }
    Ok(())
}
