// Entries that SysDir lacks, one after another.
ghost use Rattle.std.specs.Prelude.{◌≡◌, ◌≤◌, ◌∷◌, [], IfOk, IsTrue, List, length};
ghost use Rattle.disk_records.specs.Causes.{HasCause};
ghost use Rattle.disk_records.specs.Frames.{WritesUsable};
ghost use Rattle.disk_records.specs.Tapes.{DiskAlone, pack};
ghost use Rattle.pack_model.specs.reading.Slots.{entry_length};
ghost use Rattle.scav_pages.specs.Stops.{cause_of_stop};
ghost use Rattle.scav_names.specs.declared.living.Living.{Living as File};
ghost use Rattle.scav_names.specs.Does.{Does};
ghost use Rattle.scav_names.specs.Roots.{AllEntered, Entered, MayBeEntered, RoomMade};

use crate::entering::write_entry;
use crate::living::Living;
use crate::rooms::EntryRoom;
use crate::root::Root;
use crate::widen::widen_root;
use dir_slots::entry_words;
use disk_records::Disk;
use scav_pages::Stop;
use std::alloc::Global;

/// The first room for an entry of so many words among SysDir's free slots. SysDir gets a page more if there is none.
fn make_room<D: Disk>(disk: &mut D, root: &mut Root, words: u16) -> Result<EntryRoom, Stop>
    requires first { 1 ≤ root.old.from }
    requires least { 1 ≤ words }
    requires most { words ≤ 26 }
    ensures does { IsTrue D.told → (next : File) (todo : List File) → words ≡ entry_length (length next.name) → MayBeEntered (pack (D.tape disk.old)) root.old (next ∷ todo) → Does (RoomMade root.new next todo) (D.tape disk.old) (D.tape disk.new) result }
    ensures fits { IfOk result (λ room. words ≤ room.total) }
    ensures first { 1 ≤ root.new.from }
    ensures cause { HasCause cause_of_stop (D.tape disk.old) (D.tape disk.new) result }
    ensures frame { WritesUsable D.told (D.tape disk.old) (D.tape disk.new) }
    ensures alone { DiskAlone (D.tape disk.old) (D.tape disk.new) }
{
    if let Some(room) = root.rooms.find(words) {
        return Ok(room);
    }
    widen_root(disk, root)?;
    match root.rooms.find(words) {
        Some(room) => Ok(room),
        None => Err(Stop::Astray),
    }
}

/// Enters a file in SysDir in the first room, after a page more if there is none.
fn enter<D: Disk>(alloc: Global, disk: &mut D, root: &mut Root, file: &Living) -> Result<(), Stop>
    requires first { 1 ≤ root.old.from }
    ensures does { IsTrue D.told → (todo : List File) → MayBeEntered (pack (D.tape disk.old)) root.old (file.now ∷ todo) → Does (Entered root.new todo) (D.tape disk.old) (D.tape disk.new) result }
    ensures first { 1 ≤ root.new.from }
    ensures cause { HasCause cause_of_stop (D.tape disk.old) (D.tape disk.new) result }
    ensures frame { WritesUsable D.told (D.tape disk.old) (D.tape disk.new) }
    ensures alone { DiskAlone (D.tape disk.old) (D.tape disk.new) }
{
    let words = entry_words(&file.name);
    let room = make_room(disk, root, words)?;
    write_entry(alloc, disk, root, file, &room)?;
    root.rooms.fill(&room, words)?;
    Ok(())
}

/// Enters these files in SysDir, all that it lacks, in their order.
pub(crate) fn enter_all<D: Disk>(
    alloc: Global,
    disk: &mut D,
    root: &mut Root,
    files: &[Living],
) -> Result<(), Stop>
    requires first { 1 ≤ root.old.from }
    ensures does { IsTrue D.told → MayBeEntered (pack (D.tape disk.old)) root.old files.now → Does AllEntered (D.tape disk.old) (D.tape disk.new) result }
    ensures cause { HasCause cause_of_stop (D.tape disk.old) (D.tape disk.new) result }
    ensures frame { WritesUsable D.told (D.tape disk.old) (D.tape disk.new) }
    ensures alone { DiskAlone (D.tape disk.old) (D.tape disk.new) }
{
    for file in files {
        enter(alloc, disk, root, file)?;
    }
    Ok(())
}
