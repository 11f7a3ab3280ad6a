// `rename`: a file gets another name.
ghost use Rattle.alto_words.specs.Fid.{sys_dir};
ghost use Rattle.directory.specs.Leaving.{to_leave};
ghost use Rattle.disk_records.specs.Addresses.{pages_of};
ghost use Rattle.disk_records.specs.Causes.{HasCause};
ghost use Rattle.disk_records.specs.Frames.{WritesUsable};
ghost use Rattle.disk_records.specs.Tapes.{DiskAlone, added, pack};
ghost use Rattle.exec_writing.specs.Entries.{OperandsRefuse};
ghost use Rattle.exec_writing.specs.Plans.{IsRenaming, MayChange, MayLeave, MayRename, changed_entry, renamed};
ghost use Rattle.exec_writing.specs.Writes.{WritesLine};
ghost use Rattle.exec_session.specs.Meant.{IfHint, IfRefused, LooksAbout, MayObey, Stays, TakesLine, kept};
ghost use Rattle.exec_steps.specs.Rooms.{pages_planned};
ghost use Rattle.exec_session.specs.Stops.{cause_of_stop};
ghost use Rattle.exec_session.specs.Turned.{Begins};
ghost use Rattle.exec_steps.specs.Asked.{Works};
ghost use Rattle.exec_steps.specs.Midway.{StepsOn};
ghost use Rattle.exec_words.specs.Typed.{is_typed_path};
ghost use Rattle.exec_words.specs.declared.line.Line.TheVariants as line;
ghost use Rattle.exec_words.specs.declared.line.Path.{Path};
ghost use Rattle.file_pages.specs.Calls.{to_title};
ghost use Rattle.laws_operation.specs.ByteLaws.{IsOrdinary};
ghost use Rattle.page_seeking.specs.Refs.{FileIsFrom, FileStands, MisledBy};
ghost use Rattle.pack_model.specs.reading.Files.{place};
ghost use Rattle.pack_model.specs.reading.Model.{read_as};
ghost use Rattle.pack_model.specs.reading.Sights.{sights};
ghost use Rattle.pack_model.specs.states.Sound.{Sound};
ghost use Rattle.session_model.specs.Touched.{files_named};
ghost use Rattle.session_model.specs.Turning.{HintFailing, State};
ghost use Rattle.std.specs.Prelude.{IfOk, IsErrOf, IsTrue, Some, [], length, true, ◌*◌, ◌∷◌, ◌≡◌};

use crate::placing::plan_place;
use directory::leave;
use disk_records::{Disk, Sector};
use exec_session::{
    FileRef, Found, Session, Stop, entered, find_path, limit_of, refuse_streamed, written,
};
use exec_steps::{NewEntry, enter_file, open_mark, reserve_pages, widen_first};
use exec_words::{Path, done_text};
use file_pages::title;
use page_seeking::locate;
use std::alloc::Global;

/// The file that is renamed, with the sector of its leader, and its new entry.
#[derive(Clone, Copy)]
struct Renaming {
    found: Found,
    leader_at: u16,
    entry: NewEntry,
}

/// The virtual address of the sector that carries a file's leader.
///
/// Misled: the file's address doesn't lead to it. DiskFault: the device failed.
fn leader_of<D: Disk>(session: &mut Session, disk: &mut D, file: &FileRef) -> Result<u16, Stop>
    ensures leader { IsTrue D.told → Sound (pack (D.tape disk.old)) → IfOk result (λ at. place (sights (pack (D.tape disk.old))) file.now.fid 0 ≡ Some at) }
    ensures unrefused { IfRefused result (λ r. ⊥) }
    ensures misled { IsTrue D.told → FileIsFrom (pack (D.tape disk.old)) file.now → IfHint result (MisledBy (pack (D.tape disk.old)) [] file.now.fid) }
    ensures cause { HasCause cause_of_stop (D.tape disk.old) (D.tape disk.new) result }
    ensures want { IsTrue D.told → IsErrOf result Stop.Memory → ⊥ }
    ensures looks { LooksAbout D.told 53 (D.tape disk.old) (D.tape disk.new) session.old session.new }
{
    let mut buf = Sector::ZEROS;
    let (leader_at, _) = locate(disk, &mut session.hints, file, 0, &mut buf)?;
    Ok(leader_at)
}

/// Finds the file that is renamed and where its new name goes.
///
/// NoSuchName: the file isn't there. The other refusals are those of the new name.
fn plan_rename<D: Disk>(
    session: &mut Session,
    disk: &mut D,
    old_path: &Path,
    new_path: &Path,
) -> Result<Renaming, Stop>
    requires typed { is_typed_path new_path.now ≡ true }
    ensures planned { IsTrue D.told → Sound (pack (D.tape disk.old)) → IfOk result (IsRenaming (pack (D.tape disk.old)) old_path.now new_path.now) }
    ensures refused { IsTrue D.told → Sound (pack (D.tape disk.old)) → IfRefused result (OperandsRefuse (pack (D.tape disk.old)) (line.Rename old_path.now new_path.now)) }
    ensures misled { IsTrue D.told → Sound (pack (D.tape disk.old)) → IfHint result (HintFailing (pack (D.tape disk.old)) [] (files_named (line.Rename old_path.now new_path.now) (read_as (pack (D.tape disk.old))))) }
    ensures cause { HasCause cause_of_stop (D.tape disk.old) (D.tape disk.new) result }
    ensures want { IsTrue D.told → IsErrOf result Stop.Memory → ⊥ }
    ensures looks { LooksAbout D.told (65588 * 524288) (D.tape disk.old) (D.tape disk.new) session.old session.new }
{
    let found = find_path(session, disk, old_path)?;
    let entry = plan_place(session, disk, found.file.fid, new_path)?;
    let leader_at = leader_of(session, disk, &found.file)?;
    Ok(Renaming {
        found,
        leader_at,
        entry,
    })
}

/// Gives the leader of a file its new name: one record write, of its value.
fn title_file<D: Disk>(session: &mut Session, disk: &mut D, plan: &Renaming) -> Result<(), Stop>
    ensures steps { IsTrue D.told → FileStands (pack (D.tape disk.old)) plan.now.found.file → IsOrdinary plan.now.found.file.fid → StepsOn (D.tape disk.old) (D.tape disk.new) (kept session.old) (kept session.new) (to_title plan.now.found.file.fid plan.now.entry.name ∷ []) ([]) (plan.now.found.file.fid ∷ []) result }
    ensures unrefused { IfRefused result (λ r. ⊥) }
    ensures cause { HasCause cause_of_stop (D.tape disk.old) (D.tape disk.new) result }
    ensures works { Works session.old session.new }
    ensures descriptor { session.new.descriptor ≡ session.old.descriptor }
    ensures frame { WritesUsable D.told (D.tape disk.old) (D.tape disk.new) }
    ensures alone { DiskAlone (D.tape disk.old) (D.tape disk.new) }
{
    let _limit = limit_of(session);
    let mut buf = Sector::ZEROS;
    let titled = title(
        disk,
        &mut session.hints,
        &mut session.tally,
        &plan.found.file,
        &plan.entry.name,
        &mut buf,
    );
    written(&plan.found.file, titled)
}

/// Takes the entry of a file out of its directory: one record write, of the value of one of its pages.
fn leave_dir<D: Disk>(session: &mut Session, disk: &mut D, found: &Found) -> Result<(), Stop>
    ensures steps { IsTrue D.told → MayLeave (pack (D.tape disk.old)) found.now → StepsOn (D.tape disk.old) (D.tape disk.new) (kept session.old) (kept session.new) (to_leave found.now.dir.fid found.now.name ∷ []) ([]) (found.now.dir.fid ∷ []) result }
    ensures unrefused { IfRefused result (λ r. ⊥) }
    ensures cause { HasCause cause_of_stop (D.tape disk.old) (D.tape disk.new) result }
    ensures works { Works session.old session.new }
    ensures descriptor { session.new.descriptor ≡ session.old.descriptor }
    ensures frame { WritesUsable D.told (D.tape disk.old) (D.tape disk.new) }
    ensures alone { DiskAlone (D.tape disk.old) (D.tape disk.new) }
{
    let _limit = limit_of(session);
    let mut buf = Sector::ZEROS;
    let left = leave(
        disk,
        &mut session.hints,
        &mut session.tally,
        &found.dir,
        &found.name,
        &mut buf,
    );
    entered(&found.dir, left)
}

/// Takes the entry of a file out of its directory, and enters the file under its new name.
fn change_entry<D: Disk>(session: &mut Session, disk: &mut D, plan: &Renaming) -> Result<(), Stop>
    requires shape { session.old.descriptor.shape ≡ (D.tape disk.old).form }
    requires sized { length session.old.hints.table ≡ pages_of (D.tape disk.old).form }
    ensures steps { IsTrue D.told → MayChange (pack (D.tape disk.old)) plan.now → StepsOn (D.tape disk.old) (D.tape disk.new) (kept session.old) (kept session.new) (changed_entry plan.now) ([]) (plan.now.found.dir.fid ∷ plan.now.entry.dir.fid ∷ []) result }
    ensures unrefused { IfRefused result (λ r. ⊥) }
    ensures cause { HasCause cause_of_stop (D.tape disk.old) (D.tape disk.new) result }
    ensures works { Works session.old session.new }
    ensures descriptor { session.new.descriptor ≡ session.old.descriptor }
    ensures frame { WritesUsable D.told (D.tape disk.old) (D.tape disk.new) }
    ensures alone { DiskAlone (D.tape disk.old) (D.tape disk.new) }
{
    let file = plan.found.file.fid;
    leave_dir(session, disk, &plan.found)?;
    enter_file(session, disk, &plan.entry, file, plan.leader_at)
}

/// Gives a file its new name in its leader and in its directory, after pages of directories in these sectors: virtual addresses.
fn rename_entry<D: Disk>(
    session: &mut Session,
    disk: &mut D,
    plan: &Renaming,
    fresh: &[u16],
) -> Result<(), Stop>
    requires shape { session.old.descriptor.shape ≡ (D.tape disk.old).form }
    requires sized { length session.old.hints.table ≡ pages_of (D.tape disk.old).form }
    requires number { length fresh.now ≡ pages_planned plan.now.entry }
    ensures steps { IsTrue D.told → MayRename (pack (D.tape disk.old)) plan.now fresh.now → StepsOn (D.tape disk.old) (D.tape disk.new) (kept session.old) (kept session.new) (renamed plan.now) (fresh.now) (sys_dir ∷ plan.now.entry.dir.fid ∷ plan.now.found.file.fid ∷ plan.now.found.dir.fid ∷ []) result }
    ensures unrefused { IfRefused result (λ r. ⊥) }
    ensures cause { HasCause cause_of_stop (D.tape disk.old) (D.tape disk.new) result }
    ensures works { Works session.old session.new }
    ensures descriptor { session.new.descriptor ≡ session.old.descriptor }
    ensures frame { WritesUsable D.told (D.tape disk.old) (D.tape disk.new) }
    ensures alone { DiskAlone (D.tape disk.old) (D.tape disk.new) }
{
    widen_first(session, disk, &plan.entry, fresh)?;
    title_file(session, disk, plan)?;
    change_entry(session, disk, plan)
}

/// Renames a file as planned, once the sectors for pages of directories are reserved and the mark is open.
///
/// StreamsOpen: an open stream has the file. Full: too few sectors are free. In this order, and nothing was written. Misled: an address or a link of one of the directories doesn't lead to its page,
/// or DiskDescriptor isn't where it was. DiskFault: the device failed. Memory: none was left. After these three a prefix of the record
/// writes was done, on a modelled disk.
fn apply_rename<D: Disk>(
    alloc: Global,
    session: &mut Session,
    disk: &mut D,
    plan: &Renaming,
) -> Result<(), Stop>
    requires shape { session.old.descriptor.shape ≡ (D.tape disk.old).form }
    requires sized { length session.old.hints.table ≡ pages_of (D.tape disk.old).form }
    ensures writes { (s : State) (old new : Path) → IsTrue D.told → Begins (D.tape disk.old) (kept session.old) s (line.Rename old new) → IsRenaming (pack (D.tape disk.old)) old new plan.now → WritesLine (D.tape disk.old) (D.tape disk.new) (kept session.old) (kept session.new) s (line.Rename old new) result }
    ensures unwritten { IsTrue D.told → IfRefused result (λ r. added (D.tape disk.old) (D.tape disk.new) ≡ []) }
    ensures works { Works session.old session.new }
    ensures cause { HasCause cause_of_stop (D.tape disk.old) (D.tape disk.new) result }
    ensures frame { WritesUsable D.told (D.tape disk.old) (D.tape disk.new) }
    ensures alone { DiskAlone (D.tape disk.old) (D.tape disk.new) }
{
    refuse_streamed(session, plan.found.file.fid)?;
    let fresh = reserve_pages(alloc, session, disk, plan.entry.pages() as u32)?;
    open_mark(session, disk)?;
    rename_entry(session, disk, plan, &fresh)
}

/// Gives a file another name, in its directory or in another one, and answers the text of `rename`. The old entry goes before the new one
/// comes.
///
/// NoSuchName: the file or the new name's directory isn't there. IsADirectory: the file is a directory. NotADirectory: the new name's
/// directory isn't one. SystemFile: the file is DiskDescriptor. NameTaken: the name can't be given. StreamsOpen: an open stream has
/// the file. Full: too few sectors are free for pages of directories. In this order; nothing is written then.
///
/// Misled: an address on the way to the file, or one of the directories' links, is wrong. DiskFault: the device failed. Memory: none was
/// left for the addresses, for a record write or for the text. After each of them a prefix of the record writes was done, on a modelled
/// disk; the file may be without an entry then, and a scavenge gives it one.
pub fn rename_file<D: Disk>(
    alloc: Global,
    session: &mut Session,
    disk: &mut D,
    old_path: &Path,
    new_path: &Path,
) -> Result<Vec<u8>, Stop>
    requires obeys { MayObey (D.tape disk.old) session.old (line.Rename old_path.now new_path.now) }
    ensures turns { IsTrue D.told → TakesLine (D.tape disk.old) (D.tape disk.new) session.old session.new (line.Rename old_path.now new_path.now) result }
    ensures unwritten { IsTrue D.told → IfRefused result (λ r. added (D.tape disk.old) (D.tape disk.new) ≡ []) }
    ensures stays { Stays (D.tape disk.new) session.old session.new }
    ensures cause { HasCause cause_of_stop (D.tape disk.old) (D.tape disk.new) result }
    ensures frame { WritesUsable D.told (D.tape disk.old) (D.tape disk.new) }
    ensures alone { DiskAlone (D.tape disk.old) (D.tape disk.new) }
{
    let plan = plan_rename(session, disk, old_path, new_path)?;
    apply_rename(alloc, session, disk, &plan)?;
    Ok(done_text(alloc)?)
}
