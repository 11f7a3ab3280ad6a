// Room for new entries: which directories get a page more first.
ghost use Rattle.alto_words.specs.Fid.{sys_dir};
ghost use Rattle.directory.specs.Asked.{DirStands};
ghost use Rattle.disk_records.specs.Causes.{HasCause};
ghost use Rattle.disk_records.specs.Tapes.{pack};
ghost use Rattle.exec_session.specs.Found.{root_ref};
ghost use Rattle.exec_session.specs.Meant.{IfHint, IfRefused, LooksAbout};
ghost use Rattle.exec_steps.specs.Rooms.{IsPlanned, pages_planned, widens_if};
ghost use Rattle.exec_session.specs.Stops.{cause_of_stop};
ghost use Rattle.pack_model.specs.operations.Rooms.{largest_run};
ghost use Rattle.pack_model.specs.operations.Step.{room_widening};
ghost use Rattle.pack_model.specs.reading.Model.{dir_items, read_as};
ghost use Rattle.page_seeking.specs.Refs.{MisledBy};
ghost use Rattle.session_model.specs.Turning.{HintFailing};
ghost use Rattle.std.specs.Prelude.{IfOk, IsErrOf, IsTrue, [], nat_lt, ◌*◌, ◌∷◌, ◌≡◌};

use alto_words::{Fid, Name};
use dir_slots::entry_words;
use directory::room;
use disk_records::{Disk, Sector};
use exec_session::{ROOT, Session, Stop};
use page_seeking::FileRef;

/// The words of the longest entry.
const LONGEST_ENTRY: u32 = 26;

/// An entry that is to come: its directory and its name, and what comes before it.
#[derive(Clone, Copy)]
pub struct NewEntry {
    /// The directory.
    pub dir: FileRef,
    /// The name of the entry.
    pub name: Name,
    /// Whether SysDir gets a page more first, since it has no room for a long entry.
    pub widens_root: bool,
    /// Whether the directory, which isn't SysDir, does, since it has no room for this one.
    pub widens_dir: bool,
}

impl NewEntry {
    /// How many pages come before the entry, 0 to 2.
    pub fn pages(&self) -> usize
        ensures { result ≡ pages_planned self.now }
    {
        usize::from(self.widens_root) + usize::from(self.widens_dir)
    }
}

/// Whether a directory has fewer free words in a row than these.
fn lacks_room<D: Disk>(
    session: &mut Session,
    disk: &mut D,
    dir: &FileRef,
    words: u32,
) -> Result<bool, Stop>
    ensures lacks { IsTrue D.told → DirStands (pack (D.tape disk.old)) dir.now → IfOk result (λ lacks. lacks ≡ nat_lt (largest_run (dir_items (read_as (pack (D.tape disk.old))) dir.now.fid)) words) }
    ensures unrefused { IfRefused result (λ r. ⊥) }
    ensures misled { IsTrue D.told → DirStands (pack (D.tape disk.old)) dir.now → IfHint result (MisledBy (pack (D.tape disk.old)) [] dir.now.fid) }
    ensures cause { HasCause cause_of_stop (D.tape disk.old) (D.tape disk.new) result }
    ensures want { IsTrue D.told → IsErrOf result Stop.Memory → ⊥ }
    ensures looks { LooksAbout D.told (65588 * 65536) (D.tape disk.old) (D.tape disk.new) session.old session.new }
{
    let mut buf = Sector::ZEROS;
    Ok(room(disk, &mut session.hints, dir, &mut buf)? < words)
}

/// Whether a directory that isn't SysDir has no room for an entry of this name. SysDir gets its page by another rule.
fn lacks_own_room<D: Disk>(
    session: &mut Session,
    disk: &mut D,
    dir: &FileRef,
    name: &Name,
) -> Result<bool, Stop>
    ensures lacks { IsTrue D.told → DirStands (pack (D.tape disk.old)) dir.now → IfOk result (λ lacks. room_widening (read_as (pack (D.tape disk.old))) dir.now.fid name.now ≡ widens_if lacks dir.now.fid) }
    ensures unrefused { IfRefused result (λ r. ⊥) }
    ensures misled { IsTrue D.told → DirStands (pack (D.tape disk.old)) dir.now → IfHint result (MisledBy (pack (D.tape disk.old)) [] dir.now.fid) }
    ensures cause { HasCause cause_of_stop (D.tape disk.old) (D.tape disk.new) result }
    ensures want { IsTrue D.told → IsErrOf result Stop.Memory → ⊥ }
    ensures looks { LooksAbout D.told (65588 * 65536) (D.tape disk.old) (D.tape disk.new) session.old session.new }
{
    if dir.fid == Fid::SYS_DIR {
        return Ok(false);
    }
    lacks_room(session, disk, dir, u32::from(entry_words(name)))
}

/// What an entry of this name in this directory takes, by the directories as they are now.
///
/// Misled: an address or a link of SysDir or of the directory is wrong. DiskFault: the device failed.
pub fn plan_entry<D: Disk>(
    session: &mut Session,
    disk: &mut D,
    dir: FileRef,
    name: Name,
) -> Result<NewEntry, Stop>
    ensures planned { IsTrue D.told → DirStands (pack (D.tape disk.old)) root_ref → DirStands (pack (D.tape disk.old)) dir → IfOk result (IsPlanned (pack (D.tape disk.old)) dir name) }
    ensures unrefused { IfRefused result (λ r. ⊥) }
    ensures misled { IsTrue D.told → DirStands (pack (D.tape disk.old)) root_ref → DirStands (pack (D.tape disk.old)) dir → IfHint result (HintFailing (pack (D.tape disk.old)) [] (sys_dir ∷ dir.fid ∷ [])) }
    ensures cause { HasCause cause_of_stop (D.tape disk.old) (D.tape disk.new) result }
    ensures want { IsTrue D.told → IsErrOf result Stop.Memory → ⊥ }
    ensures looks { LooksAbout D.told (65588 * 131072) (D.tape disk.old) (D.tape disk.new) session.old session.new }
{
    let widens_root = lacks_room(session, disk, &ROOT, LONGEST_ENTRY)?;
    let widens_dir = lacks_own_room(session, disk, &dir, &name)?;
    Ok(NewEntry {
        dir,
        name,
        widens_root,
        widens_dir,
    })
}
