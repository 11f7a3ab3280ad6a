// `copy`: a new file with the bytes of another.
ghost use Rattle.alto_words.specs.Fid.{sys_dir};
ghost use Rattle.disk_records.specs.Addresses.{pages_of};
ghost use Rattle.disk_records.specs.Causes.{HasCause};
ghost use Rattle.disk_records.specs.Frames.{WritesUsable};
ghost use Rattle.disk_records.specs.Tapes.{DiskAlone, added, pack};
ghost use Rattle.exec_writing.specs.Entries.{OperandsRefuse};
ghost use Rattle.exec_writing.specs.Plans.{IsCopying, MayCopy, copied};
ghost use Rattle.exec_writing.specs.Writes.{WritesLine};
ghost use Rattle.exec_session.specs.Meant.{IfHint, IfRefused, LooksAbout, MayObey, Stays, TakesLine, kept};
ghost use Rattle.exec_steps.specs.Rooms.{pages_planned};
ghost use Rattle.exec_session.specs.Stops.{cause_of_stop};
ghost use Rattle.exec_session.specs.Turned.{Begins};
ghost use Rattle.exec_steps.specs.Asked.{MayGrowFile, Works, made_fid};
ghost use Rattle.exec_steps.specs.Midway.{StepsOn};
ghost use Rattle.exec_words.specs.Typed.{is_typed_path};
ghost use Rattle.exec_words.specs.declared.line.Line.TheVariants as line;
ghost use Rattle.exec_words.specs.declared.line.Path.{Path};
ghost use Rattle.exec_words.specs.declared.line.Target.{Target};
ghost use Rattle.pack_model.specs.reading.Model.{read_as};
ghost use Rattle.pack_model.specs.states.Sound.{Sound};
ghost use Rattle.session_model.specs.Effects.{copied_ops};
ghost use Rattle.session_model.specs.Refusals.{most_serials};
ghost use Rattle.session_model.specs.Touched.{files_named};
ghost use Rattle.session_model.specs.Turning.{HintFailing, State};
ghost use Rattle.std.specs.Prelude.{IfOk, IsErrOf, IsTrue, [], false, length, true, ◌*◌, ◌+◌, ◌<◌, ◌∷◌, ◌≡◌, ◌≤◌};

use crate::placing::plan_place;
use crate::reserving::reserve_new;
use alto_words::Fid;
use disk_records::Disk;
use exec_session::{FileRef, Session, Stop, bytes_of, find_target};
use exec_steps::{NewEntry, grow_file, make_entered, open_mark, stamp_file};
use exec_words::{Path, Target, made_text};
use std::alloc::Global;

/// More pages than any disk has.
const MOST_PAGES: usize = 60_000;

/// The file that is copied, and the entry of the new one.
#[derive(Clone, Copy)]
struct Copying {
    source: FileRef,
    entry: NewEntry,
}

/// Finds the file that is copied and where the new one goes.
///
/// NoSuchName: the file isn't there. The other refusals are those of the new name.
fn plan_copy<D: Disk>(
    session: &mut Session,
    disk: &mut D,
    target: &Target,
    path: &Path,
) -> Result<Copying, Stop>
    requires typed { is_typed_path path.now ≡ true }
    ensures planned { IsTrue D.told → Sound (pack (D.tape disk.old)) → IfOk result (IsCopying (pack (D.tape disk.old)) target.now path.now) }
    ensures refused { IsTrue D.told → Sound (pack (D.tape disk.old)) → IfRefused result (OperandsRefuse (pack (D.tape disk.old)) (line.Copy target.now path.now)) }
    ensures misled { IsTrue D.told → Sound (pack (D.tape disk.old)) → IfHint result (HintFailing (pack (D.tape disk.old)) [] (files_named (line.Copy target.now path.now) (read_as (pack (D.tape disk.old))))) }
    ensures cause { HasCause cause_of_stop (D.tape disk.old) (D.tape disk.new) result }
    ensures want { IsTrue D.told → IsErrOf result Stop.Memory → ⊥ }
    ensures looks { LooksAbout D.told (65588 * 524288) (D.tape disk.old) (D.tape disk.new) session.old session.new }
{
    let source = find_target(session, disk, target)?;
    let entry = plan_place(session, disk, source.fid, path)?;
    Ok(Copying { source, entry })
}

/// Puts the bytes of a copy, if there are some, into the new file, and gives it its date then.
fn fill_copy<D: Disk>(
    session: &mut Session,
    disk: &mut D,
    file: &FileRef,
    bytes: &[u8],
    fresh: &[u16],
) -> Result<(), Stop>
    requires shape { session.old.descriptor.shape ≡ (D.tape disk.old).form }
    requires sized { length session.old.hints.table ≡ pages_of (D.tape disk.old).form }
    ensures steps { IsTrue D.told → MayGrowFile (pack (D.tape disk.old)) file.now bytes.now fresh.now → StepsOn (D.tape disk.old) (D.tape disk.new) (kept session.old) (kept session.new) (copied_ops file.now.fid bytes.now session.old.moment) (fresh.now) (file.now.fid ∷ []) result }
    ensures unrefused { IfRefused result (λ r. ⊥) }
    ensures cause { HasCause cause_of_stop (D.tape disk.old) (D.tape disk.new) result }
    ensures works { Works session.old session.new }
    ensures frame { WritesUsable D.told (D.tape disk.old) (D.tape disk.new) }
    ensures alone { DiskAlone (D.tape disk.old) (D.tape disk.new) }
{
    if bytes.is_empty() {
        return Ok(());
    }
    grow_file(session, disk, file, bytes, fresh)?;
    stamp_file(session, disk, file)
}

/// Makes the new file with its entry, and puts the bytes into it, in these sectors: virtual addresses. Answers its full name.
fn write_copy<D: Disk>(
    session: &mut Session,
    disk: &mut D,
    entry: &NewEntry,
    bytes: &[u8],
    fresh: &[u16],
) -> Result<Fid, Stop>
    requires shape { session.old.descriptor.shape ≡ (D.tape disk.old).form }
    requires sized { length session.old.hints.table ≡ pages_of (D.tape disk.old).form }
    requires left { session.old.descriptor.last < most_serials }
    requires many { pages_planned entry.now + 2 ≤ length fresh.now }
    ensures made { IfOk result (λ fid. fid ≡ made_fid false (session.old.descriptor.last + 1)) }
    ensures steps { IsTrue D.told → MayCopy (pack (D.tape disk.old)) (kept session.old) entry.now bytes.now fresh.now → StepsOn (D.tape disk.old) (D.tape disk.new) (kept session.old) (kept session.new) (copied entry.now (made_fid false (session.old.descriptor.last + 1)) bytes.now session.old.moment) (fresh.now) (sys_dir ∷ entry.now.dir.fid ∷ made_fid false (session.old.descriptor.last + 1) ∷ []) result }
    ensures unrefused { IfRefused result (λ r. ⊥) }
    ensures cause { HasCause cause_of_stop (D.tape disk.old) (D.tape disk.new) result }
    ensures works { Works session.old session.new }
    ensures frame { WritesUsable D.told (D.tape disk.old) (D.tape disk.new) }
    ensures alone { DiskAlone (D.tape disk.old) (D.tape disk.new) }
{
    let file = make_entered(session, disk, entry, false, fresh)?;
    fill_copy(session, disk, &file, bytes, &fresh[entry.pages() + 2..])?;
    Ok(file.fid)
}

/// Copies a file as planned: reads its bytes, reserves all sectors, opens the mark, and writes the copy. Answers the full name of the new
/// file.
///
/// SerialsSpent: no serial is left. Full: too few sectors are free. In this order, and nothing was written. Misled: an address or a link of
/// the file that is copied or of one of the directories doesn't lead to its page, or DiskDescriptor isn't where it was. DiskFault: the device
/// failed. Memory: none was left. After these three a prefix of the record writes was done, on a modelled disk.
fn apply_copy<D: Disk>(
    alloc: Global,
    session: &mut Session,
    disk: &mut D,
    plan: &Copying,
) -> Result<Fid, Stop>
    requires shape { session.old.descriptor.shape ≡ (D.tape disk.old).form }
    requires sized { length session.old.hints.table ≡ pages_of (D.tape disk.old).form }
    ensures writes { (s : State) (target : Target) (path : Path) → IsTrue D.told → Begins (D.tape disk.old) (kept session.old) s (line.Copy target path) → IsCopying (pack (D.tape disk.old)) target path plan.now → WritesLine (D.tape disk.old) (D.tape disk.new) (kept session.old) (kept session.new) s (line.Copy target path) result }
    ensures made { IfOk result (λ fid. fid ≡ made_fid false (session.old.descriptor.last + 1)) }
    ensures unwritten { IsTrue D.told → IfRefused result (λ r. added (D.tape disk.old) (D.tape disk.new) ≡ []) }
    ensures works { Works session.old session.new }
    ensures cause { HasCause cause_of_stop (D.tape disk.old) (D.tape disk.new) result }
    ensures frame { WritesUsable D.told (D.tape disk.old) (D.tape disk.new) }
    ensures alone { DiskAlone (D.tape disk.old) (D.tape disk.new) }
{
    let bytes = bytes_of(alloc, session, disk, &plan.source)?;
    let more = (bytes.len() / 512).min(MOST_PAGES) as u32;
    let fresh = reserve_new(alloc, session, disk, &plan.entry, more)?;
    open_mark(session, disk)?;
    write_copy(session, disk, &plan.entry, &bytes, &fresh)
}

/// Makes a file with the bytes of another, and answers the text of `copy`: the serial of the new file. Its dates are the session's moment.
///
/// NoSuchName: the file or the new name's directory isn't there. IsADirectory: the file is a directory. NotADirectory: the new name's
/// directory isn't one. SystemFile: the file is DiskDescriptor. NameTaken: the name can't be given. SerialsSpent: no serial is left. Full:
/// too few sectors are free for pages of directories, the new file's leader and its pages. In this order, and nothing was written.
///
/// Misled: an address on the way to the file is wrong, or a link of it or of one of the directories. DiskFault: the device failed. Memory:
/// none was left for the bytes, the addresses, a record write or the text. After these three a prefix of the record writes was done, on a
/// modelled disk.
pub fn copy_file<D: Disk>(
    alloc: Global,
    session: &mut Session,
    disk: &mut D,
    target: &Target,
    path: &Path,
) -> Result<Vec<u8>, Stop>
    requires obeys { MayObey (D.tape disk.old) session.old (line.Copy target.now path.now) }
    ensures turns { IsTrue D.told → TakesLine (D.tape disk.old) (D.tape disk.new) session.old session.new (line.Copy target.now path.now) result }
    ensures unwritten { IsTrue D.told → IfRefused result (λ r. added (D.tape disk.old) (D.tape disk.new) ≡ []) }
    ensures stays { Stays (D.tape disk.new) session.old session.new }
    ensures cause { HasCause cause_of_stop (D.tape disk.old) (D.tape disk.new) result }
    ensures frame { WritesUsable D.told (D.tape disk.old) (D.tape disk.new) }
    ensures alone { DiskAlone (D.tape disk.old) (D.tape disk.new) }
{
    let plan = plan_copy(session, disk, target, path)?;
    let fid = apply_copy(alloc, session, disk, &plan)?;
    Ok(made_text(alloc, fid)?)
}
