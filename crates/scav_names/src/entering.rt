// The record writes of one entry.
ghost use Rattle.std.specs.Prelude.{◌≡◌, ◌+◌, ◌-◌, ◌/◌, ◌%◌, ◌<◌, ◌≤◌, true, IsTrue, IfOk, get_or, length, List};
ghost use Rattle.alto_words.specs.Fid.{is_full_name, sys_dir};
ghost use Rattle.alto_words.specs.Names.{is_stored_name};
ghost use Rattle.disk_records.specs.Causes.{HasCause};
ghost use Rattle.disk_records.specs.Frames.{WritesUsable};
ghost use Rattle.disk_records.specs.Tapes.{DiskAlone, pack};
ghost use Rattle.pack_model.specs.operations.PageWords.{entered_words, in_page};
ghost use Rattle.pack_model.specs.reading.Slots.{entry_length};
ghost use Rattle.scav_pages.specs.Stops.{cause_of_stop};
ghost use Rattle.scav_names.specs.declared.living.Living.{Living as File};
ghost use Rattle.scav_names.specs.declared.rooms.EntryRoom.{EntryRoom as Room};
ghost use Rattle.scav_names.specs.Catalogues.{ArePagesOf};
ghost use Rattle.scav_names.specs.Does.{Does};
ghost use Rattle.scav_names.specs.Roots.{AreEntryWords, EntryWritten, IsLater, LaterWritten, MayBeFilled, MayBeWritten, RoomMadeOne};
ghost use Rattle.scav_names.specs.Words.{WritesPageWords, page_writes};

use crate::living::Living;
use crate::rooms::EntryRoom;
use crate::root::Root;
use crate::words::{PAGE_WORDS, put_words};
use alto_words::{List, Memory, Name};
use dir_slots::{Slot, entry_words, write_slots};
use disk_records::Disk;
use scav_pages::Stop;
use std::alloc::Global;

/// A name is one that can be stored, which is known of its bytes.
fn name_is_stored(name: &Name)
    ensures { is_stored_name name.now ≡ true }
{
    name.as_bytes();
}

/// The words of an entry of a file, and the first one of a free slot for the words of its room that are left over.
fn words_of(alloc: Global, file: &Living, total: u16) -> Result<List<u16>, Memory>
    requires { is_full_name file.now.fid ≡ true }
    ensures words { IfOk result (λ words. words ≡ entered_words file.now.fid file.now.leader_at file.now.name (total - entry_length (length file.now.name))) }
    ensures most { IfOk result (λ words. length words ≤ 27) }
    ensures some { IfOk result (λ words. 1 ≤ length words) }
    ensures fits { entry_length (length file.now.name) ≤ total → IfOk result (λ words. length words ≤ total) }
{
    let slot = Slot::Entry {
        fid: file.fid,
        leader_at: file.leader_at,
        name: file.name,
    };
    let mut words = write_slots(alloc, &[slot])?;
    let left = total.saturating_sub(entry_words(&file.name));
    if left > 0 {
        words.as_vec().push(left)?;
    }
    Ok(words)
}

/// Puts words of SysDir that lie in one page in the place of others.
fn put_in_root<D: Disk>(disk: &mut D, root: &Root, place: u32, words: &[u16]) -> Result<(), Stop>
    requires fits { place % 256 + length words.now ≤ 256 }
    ensures writes { IsTrue D.told → ArePagesOf (pack (D.tape disk.old)) sys_dir root.now.pages → place / 256 < length root.now.pages → WritesPageWords (page_writes (pack (D.tape disk.old)) (get_or root.now.pages (place / 256) 0) (in_page place) words.now) (D.tape disk.old) (D.tape disk.new) result }
    ensures cause { HasCause cause_of_stop (D.tape disk.old) (D.tape disk.new) result }
    ensures frame { WritesUsable D.told (D.tape disk.old) (D.tape disk.new) }
    ensures alone { DiskAlone (D.tape disk.old) (D.tape disk.new) }
{
    let found = root.page_at(disk.shape(), place)?;
    put_words(disk, found.at, found.page, place % PAGE_WORDS, words)
}

/// Makes the room for an entry one free slot, if it is several. One value write at most.
fn make_one<D: Disk>(disk: &mut D, root: &Root, room: &EntryRoom) -> Result<(), Stop>
    ensures does { IsTrue D.told → (next : File) (todo : List File) → MayBeWritten (pack (D.tape disk.old)) root.now next todo room.now → Does (RoomMadeOne root.now next todo room.now) (D.tape disk.old) (D.tape disk.new) result }
    ensures cause { HasCause cause_of_stop (D.tape disk.old) (D.tape disk.new) result }
    ensures frame { WritesUsable D.told (D.tape disk.old) (D.tape disk.new) }
    ensures alone { DiskAlone (D.tape disk.old) (D.tape disk.new) }
{
    if room.first_words == room.total {
        return Ok(());
    }
    put_in_root(disk, root, room.place, &[room.total])
}

/// Writes the words of an entry that lie after the end of its first page, if there are some: `near` words of it come before them.
fn put_later<D: Disk>(
    disk: &mut D,
    root: &Root,
    place: u32,
    near: u32,
    later: &[u16],
) -> Result<(), Stop>
    requires fits { (place + near) % 256 + length later.now ≤ 256 }
    ensures does { IsTrue D.told → (next : File) (todo : List File) (room : Room) → MayBeFilled (pack (D.tape disk.old)) root.now next todo room → IsLater room place near later.now → Does (LaterWritten root.now next todo room near later.now) (D.tape disk.old) (D.tape disk.new) result }
    ensures cause { HasCause cause_of_stop (D.tape disk.old) (D.tape disk.new) result }
    ensures frame { WritesUsable D.told (D.tape disk.old) (D.tape disk.new) }
    ensures alone { DiskAlone (D.tape disk.old) (D.tape disk.new) }
{
    if later.is_empty() {
        return Ok(());
    }
    let Some(next) = place.checked_add(near) else {
        return Err(Stop::Astray);
    };
    put_in_root(disk, root, next, later)
}

/// Writes the words of an entry in its room in SysDir, which is one free slot: those after its page's end, and last those in its own page.
fn put_entry<D: Disk>(disk: &mut D, root: &Root, place: u32, words: &[u16]) -> Result<(), Stop>
    requires most { length words.now ≤ 27 }
    ensures does { IsTrue D.told → (next : File) (todo : List File) (room : Room) → MayBeFilled (pack (D.tape disk.old)) root.now next todo room → AreEntryWords next room words.now → place ≡ room.place → Does (EntryWritten root.now next todo room) (D.tape disk.old) (D.tape disk.new) result }
    ensures cause { HasCause cause_of_stop (D.tape disk.old) (D.tape disk.new) result }
    ensures frame { WritesUsable D.told (D.tape disk.old) (D.tape disk.new) }
    ensures alone { DiskAlone (D.tape disk.old) (D.tape disk.new) }
{
    let near = words.len().min((PAGE_WORDS - place % PAGE_WORDS) as usize);
    let (first, later) = words.split_at(near);
    put_later(disk, root, place, near as u32, later)?;
    put_in_root(disk, root, place, first)
}

/// Writes the entry of a file in its room, which is in SysDir: the room is made one free slot if it is several, then come the words after its page's
/// end, and last those in its own page. One to three value writes.
pub(crate) fn write_entry<D: Disk>(
    alloc: Global,
    disk: &mut D,
    root: &Root,
    file: &Living,
    room: &EntryRoom,
) -> Result<(), Stop>
    ensures does { IsTrue D.told → (todo : List File) → MayBeWritten (pack (D.tape disk.old)) root.now file.now todo room.now → Does (EntryWritten root.now file.now todo room.now) (D.tape disk.old) (D.tape disk.new) result }
    ensures cause { HasCause cause_of_stop (D.tape disk.old) (D.tape disk.new) result }
    ensures frame { WritesUsable D.told (D.tape disk.old) (D.tape disk.new) }
    ensures alone { DiskAlone (D.tape disk.old) (D.tape disk.new) }
{
    if !file.fid.is_full_name() {
        return Err(Stop::Astray);
    }
    let words = words_of(alloc, file, room.total)?;
    name_is_stored(&file.name);
    make_one(disk, root, room)?;
    put_entry(disk, root, room.place, words.as_slice())
}
