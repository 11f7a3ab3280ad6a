// The entry of a new name: which name it gets, and which directories get a page first.
ghost use Rattle.alto_words.specs.Fid.{sys_dir};
ghost use Rattle.alto_words.specs.Names.{is_bare_name};
ghost use Rattle.alto_words.specs.Wanted.{base_wanted};
ghost use Rattle.directory.specs.Asked.{DirStands};
ghost use Rattle.disk_records.specs.Causes.{HasCause};
ghost use Rattle.disk_records.specs.Tapes.{pack};
ghost use Rattle.exec_writing.specs.Entries.{IsNewEntry};
ghost use Rattle.exec_session.specs.Found.{root_ref};
ghost use Rattle.exec_session.specs.Meant.{IfHint, IfRefused, LooksAbout};
ghost use Rattle.exec_session.specs.NewNames.{IsTaken};
ghost use Rattle.exec_session.specs.Stops.{cause_of_stop};
ghost use Rattle.exec_words.specs.Typed.{is_typed_wanted};
ghost use Rattle.session_model.specs.Turning.{HintFailing};
ghost use Rattle.std.specs.Prelude.{IfOk, IsErrOf, IsTrue, [], true, ◌*◌, ◌∷◌, ◌≡◌};

use alto_words::{Name, Wanted};
use disk_records::Disk;
use exec_session::{FileRef, Session, Stop, name_given};
use exec_steps::{NewEntry, plan_entry};

/// The base of what is wanted: a bare name, also where a version is stated.
fn bare_base(wanted: &Wanted) -> Name
    requires typed { is_typed_wanted wanted.now ≡ true }
    ensures base { result ≡ base_wanted wanted.now }
    ensures bare { is_bare_name result ≡ true }
{
    match wanted {
        Wanted::Exact { name } => name.base(),
        Wanted::Newest { base } => *base,
    }
}

/// Plans the entry of a new file in a directory, by the directories as they are now: the name that it gets, and which directories get a page
/// first. Nothing is written.
///
/// NameTaken: the base is the name of a directory or of a system file; the stated name is there; or no version is left. Misled: an address or a
/// link of SysDir or of the directory is wrong. DiskFault: the device failed.
pub fn plan_named<D: Disk>(
    session: &mut Session,
    disk: &mut D,
    dir: FileRef,
    wanted: &Wanted,
) -> Result<NewEntry, Stop>
    requires typed { is_typed_wanted wanted.now ≡ true }
    ensures planned { IsTrue D.told → DirStands (pack (D.tape disk.old)) root_ref → DirStands (pack (D.tape disk.old)) dir → IfOk result (IsNewEntry (pack (D.tape disk.old)) dir wanted.now) }
    ensures taken { IsTrue D.told → DirStands (pack (D.tape disk.old)) dir → IfRefused result (IsTaken (pack (D.tape disk.old)) dir.fid wanted.now) }
    ensures misled { IsTrue D.told → DirStands (pack (D.tape disk.old)) root_ref → DirStands (pack (D.tape disk.old)) dir → IfHint result (HintFailing (pack (D.tape disk.old)) [] (sys_dir ∷ dir.fid ∷ [])) }
    ensures cause { HasCause cause_of_stop (D.tape disk.old) (D.tape disk.new) result }
    ensures want { IsTrue D.told → IsErrOf result Stop.Memory → ⊥ }
    ensures looks { LooksAbout D.told (65588 * 262144) (D.tape disk.old) (D.tape disk.new) session.old session.new }
{
    // both calls say of names what each value of the type is: the base is bare, and the name that is given is a stored one
    let _base = bare_base(wanted);
    let name = name_given(session, disk, &dir, wanted)?;
    let _bytes = name.as_bytes();
    plan_entry(session, disk, dir, name)
}
