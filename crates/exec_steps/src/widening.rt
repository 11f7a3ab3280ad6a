// Pages of directories that come before a new entry.
ghost use Rattle.alto_words.specs.Fid.{sys_dir};
ghost use Rattle.directory.specs.Asked.{DirStands};
ghost use Rattle.disk_records.specs.Addresses.{pages_of};
ghost use Rattle.disk_records.specs.Causes.{HasCause};
ghost use Rattle.disk_records.specs.Frames.{WritesUsable};
ghost use Rattle.disk_records.specs.Packs.{is_free_at};
ghost use Rattle.disk_records.specs.Tapes.{DiskAlone, pack};
ghost use Rattle.exec_steps.specs.Asked.{MayWidenFirst, Works, first_widenings, to_widen};
ghost use Rattle.exec_steps.specs.Rooms.{one_if, pages_planned, widens_if};
ghost use Rattle.exec_session.specs.Meant.{IfRefused, kept};
ghost use Rattle.exec_steps.specs.Midway.{AreFree, StepsOn};
ghost use Rattle.exec_session.specs.Stops.{cause_of_stop};
ghost use Rattle.std.specs.Prelude.{IsTrue, [], length, take, true, ◌∷◌, ◌≡◌, ◌≤◌};

use crate::rooms::NewEntry;
use directory::widen;
use disk_records::{Disk, Sector};
use exec_session::{ROOT, Session, Stop, entered, limit_of};
use page_seeking::FileRef;

/// Gives a directory a page more, in this free sector.
fn widen_dir<D: Disk>(
    session: &mut Session,
    disk: &mut D,
    dir: &FileRef,
    fresh: u16,
) -> Result<(), Stop>
    requires shape { session.old.descriptor.shape ≡ (D.tape disk.old).form }
    requires sized { length session.old.hints.table ≡ pages_of (D.tape disk.old).form }
    ensures steps { IsTrue D.told → DirStands (pack (D.tape disk.old)) dir.now → is_free_at (pack (D.tape disk.old)) fresh ≡ true → StepsOn (D.tape disk.old) (D.tape disk.new) (kept session.old) (kept session.new) (to_widen dir.now.fid ∷ []) (fresh ∷ []) (dir.now.fid ∷ []) result }
    ensures unrefused { IfRefused result (λ r. ⊥) }
    ensures cause { HasCause cause_of_stop (D.tape disk.old) (D.tape disk.new) result }
    ensures works { Works session.old session.new }
    ensures descriptor { session.new.descriptor ≡ session.old.descriptor }
    ensures frame { WritesUsable D.told (D.tape disk.old) (D.tape disk.new) }
    ensures alone { DiskAlone (D.tape disk.old) (D.tape disk.new) }
{
    let _limit = limit_of(session);
    let mut buf = Sector::ZEROS;
    let widened = widen(
        disk,
        &mut session.hints,
        &mut session.tally,
        dir,
        fresh,
        &mut buf,
    );
    entered(dir, widened)
}

/// Gives a directory a page more, in the first of these sectors, where that is wanted.
fn widen_if<D: Disk>(
    session: &mut Session,
    disk: &mut D,
    dir: &FileRef,
    wanted: bool,
    fresh: &[u16],
) -> Result<(), Stop>
    requires shape { session.old.descriptor.shape ≡ (D.tape disk.old).form }
    requires sized { length session.old.hints.table ≡ pages_of (D.tape disk.old).form }
    requires many { one_if wanted ≤ length fresh.now }
    ensures steps { IsTrue D.told → DirStands (pack (D.tape disk.old)) dir.now → AreFree (pack (D.tape disk.old)) (take (one_if wanted) fresh.now) → StepsOn (D.tape disk.old) (D.tape disk.new) (kept session.old) (kept session.new) (widens_if wanted dir.now.fid) (take (one_if wanted) fresh.now) (dir.now.fid ∷ []) result }
    ensures unrefused { IfRefused result (λ r. ⊥) }
    ensures cause { HasCause cause_of_stop (D.tape disk.old) (D.tape disk.new) result }
    ensures works { Works session.old session.new }
    ensures descriptor { session.new.descriptor ≡ session.old.descriptor }
    ensures frame { WritesUsable D.told (D.tape disk.old) (D.tape disk.new) }
    ensures alone { DiskAlone (D.tape disk.old) (D.tape disk.new) }
{
    if wanted {
        widen_dir(session, disk, dir, fresh[0])
    } else {
        Ok(())
    }
}

/// Gives SysDir and the entry's directory a page more, each where the plan says so, in the first of these sectors: virtual addresses.
///
/// Misled: a directory's address or one of its links doesn't lead to its page. DiskFault: the device failed. Memory: none was left for a
/// record write. After each of them a prefix of the record writes was done, on a modelled disk.
pub fn widen_first<D: Disk>(
    session: &mut Session,
    disk: &mut D,
    entry: &NewEntry,
    fresh: &[u16],
) -> Result<(), Stop>
    requires shape { session.old.descriptor.shape ≡ (D.tape disk.old).form }
    requires sized { length session.old.hints.table ≡ pages_of (D.tape disk.old).form }
    requires many { pages_planned entry.now ≤ length fresh.now }
    ensures steps { IsTrue D.told → MayWidenFirst (pack (D.tape disk.old)) entry.now fresh.now → StepsOn (D.tape disk.old) (D.tape disk.new) (kept session.old) (kept session.new) (first_widenings entry.now) (take (pages_planned entry.now) fresh.now) (sys_dir ∷ entry.now.dir.fid ∷ []) result }
    ensures unrefused { IfRefused result (λ r. ⊥) }
    ensures cause { HasCause cause_of_stop (D.tape disk.old) (D.tape disk.new) result }
    ensures works { Works session.old session.new }
    ensures descriptor { session.new.descriptor ≡ session.old.descriptor }
    ensures frame { WritesUsable D.told (D.tape disk.old) (D.tape disk.new) }
    ensures alone { DiskAlone (D.tape disk.old) (D.tape disk.new) }
{
    widen_if(session, disk, &ROOT, entry.widens_root, fresh)?;
    let later = &fresh[usize::from(entry.widens_root)..];
    widen_if(session, disk, &entry.dir, entry.widens_dir, later)
}
