// `rmdir`: a directory goes.
ghost use Rattle.directory.specs.Asked.{DirIsFound};
ghost use Rattle.dir_slots.specs.Items.{item_of, items_of};
ghost use Rattle.disk_records.specs.Causes.{HasCause};
ghost use Rattle.disk_records.specs.Frames.{WritesUsable};
ghost use Rattle.disk_records.specs.Tapes.{DiskAlone, added, pack};
ghost use Rattle.exec_writing.specs.Drops.{FindsDropped};
ghost use Rattle.exec_writing.specs.Dropping.{HasEntries};
ghost use Rattle.exec_session.specs.Meant.{IfHint, IfRefused, IsTakenUpBy, LooksAbout, MayObey, Stays, TakesLine, kept};
ghost use Rattle.exec_session.specs.Stops.{cause_of_stop};
ghost use Rattle.exec_words.specs.declared.line.Line.TheVariants as line;
ghost use Rattle.laws_lookup.specs.DropLaws.{is_an_entry};
ghost use Rattle.pack_model.specs.states.Sound.{Sound};
ghost use Rattle.page_seeking.specs.Refs.{MisledBy};
ghost use Rattle.session_model.specs.Keeping.{world_of};
ghost use Rattle.std.specs.List.{list_any};
ghost use Rattle.std.specs.Prelude.{IsTrue, OnOk, [], false, true, ◌*◌, ◌≡◌};

use crate::dropping::drop_line;
use alto_words::{Name, Wanted};
use dir_slots::Slot;
use directory::list;
use disk_records::Disk;
use exec_session::{
    FileRef, Found, Session, Stop, find_path, refuse_system, refused, require_directory,
};
use exec_words::{Path, Refusal};
use std::alloc::Global;

/// Whether the slot is an entry.
fn is_entry(slot: &Slot) -> bool
    ensures { result ≡ is_an_entry (item_of slot.now) }
{
    matches!(slot, Slot::Entry { .. })
}

/// Whether some slot is an entry.
fn has_entry(slots: &[Slot]) -> bool
    ensures { result ≡ list_any is_an_entry (items_of slots.now) }
{
    for slot in slots {
        if is_entry(slot) {
            return true;
        }
    }
    false
}

/// NotEmpty: the directory has an entry.
fn refuse_entries<D: Disk>(
    alloc: Global,
    session: &mut Session,
    disk: &mut D,
    dir: &FileRef,
) -> Result<(), Stop>
    ensures empty { IsTrue D.told → DirIsFound (pack (D.tape disk.old)) dir.now → OnOk result (HasEntries (pack (D.tape disk.old)) dir.now.fid false) }
    ensures refused { IsTrue D.told → DirIsFound (pack (D.tape disk.old)) dir.now → IfRefused result (λ r. (r ≡ Refusal.NotEmpty) × HasEntries (pack (D.tape disk.old)) dir.now.fid true) }
    ensures misled { IsTrue D.told → DirIsFound (pack (D.tape disk.old)) dir.now → IfHint result (MisledBy (pack (D.tape disk.old)) [] dir.now.fid) }
    ensures cause { HasCause cause_of_stop (D.tape disk.old) (D.tape disk.new) result }
    ensures looks { LooksAbout D.told (65588 * 65535) (D.tape disk.old) (D.tape disk.new) session.old session.new }
{
    let slots = list(alloc, disk, &mut session.hints, dir)?;
    if has_entry(&slots) {
        return refused(Refusal::NotEmpty);
    }
    Ok(())
}

/// The directory that is to be removed.
///
/// NoSuchName: it isn't there. NotADirectory: it isn't one. SystemFile: it is SysDir. NotEmpty: it has an entry. In this order.
fn find_removed<D: Disk>(
    alloc: Global,
    session: &mut Session,
    disk: &mut D,
    name: &Name,
) -> Result<Found, Stop>
    ensures finds { IsTrue D.told → Sound (pack (D.tape disk.old)) → IsTakenUpBy (world_of (kept session.old)) (line.RemoveDir name.now) → FindsDropped (pack (D.tape disk.old)) (line.RemoveDir name.now) (world_of (kept session.old)) result }
    ensures cause { HasCause cause_of_stop (D.tape disk.old) (D.tape disk.new) result }
    ensures looks { LooksAbout D.told (65588 * 196608) (D.tape disk.old) (D.tape disk.new) session.old session.new }
{
    let path = Path {
        dir: None,
        wanted: Wanted::Exact { name: *name },
    };
    let found = find_path(session, disk, &path)?;
    require_directory(found.file.fid)?;
    refuse_system(found.file.fid)?;
    refuse_entries(alloc, session, disk, &found.file)?;
    Ok(found)
}

/// The text of `rmdir`: a directory without entries goes, and then its entry in SysDir does.
///
/// NoSuchName: SysDir has no such entry. NotADirectory: it is one of another file. SystemFile: it is SysDir's own, or DiskDescriptor's.
/// NotEmpty: the directory has an entry. In this order, and nothing was written. Misled: an address on the way to the directory is wrong, or one
/// of the links. DiskFault: the device failed. Memory: none was left for the slots, a record write or the text. After these three a prefix of the
/// record writes was done, on a modelled disk, or all of them.
pub fn remove_dir<D: Disk>(
    alloc: Global,
    session: &mut Session,
    disk: &mut D,
    name: &Name,
) -> Result<Vec<u8>, Stop>
    requires obeys { MayObey (D.tape disk.old) session.old (line.RemoveDir name.now) }
    ensures turns { IsTrue D.told → TakesLine (D.tape disk.old) (D.tape disk.new) session.old session.new (line.RemoveDir name.now) result }
    ensures unwritten { IsTrue D.told → IfRefused result (λ r. added (D.tape disk.old) (D.tape disk.new) ≡ []) }
    ensures stays { Stays (D.tape disk.new) session.old session.new }
    ensures cause { HasCause cause_of_stop (D.tape disk.old) (D.tape disk.new) result }
    ensures frame { WritesUsable D.told (D.tape disk.old) (D.tape disk.new) }
    ensures alone { DiskAlone (D.tape disk.old) (D.tape disk.new) }
{
    let found = find_removed(alloc, session, disk, name)?;
    drop_line(alloc, session, disk, &found)
}
