// An entry that comes into a directory.
ghost use Rattle.std.specs.Prelude.{◌≡◌, ◌+◌, ◌*◌, ◌++◌, ◌<◌, ◌≤◌, ◌==◌, [], Bool, IfOk, IsErrOf, IsTrue, List, OnErr, OnOk, Some, cond, length, not, ℕ};
ghost use Rattle.disk_records.specs.Addresses.{pages_of};
ghost use Rattle.disk_records.specs.Causes.{HasCause, never, other};
ghost use Rattle.disk_records.specs.Commands.{value_writes};
ghost use Rattle.disk_records.specs.Frames.{IsPageOf, WritesIn};
ghost use Rattle.disk_records.specs.Packs.{carried};
ghost use Rattle.disk_records.specs.Tapes.{DiskAlone, Looks, added, pack};
ghost use Rattle.file_pages.specs.Calls.{IsHintOrFound, WasFound, WasHeld};
ghost use Rattle.file_pages.specs.Values.{LeavesHandy};
ghost use Rattle.laws_call.specs.Acting.{IsQuiet, Operates, around};
ghost use Rattle.laws_operation.specs.PlaceLaws.{SamePlaces};
ghost use Rattle.pack_model.specs.hints.Links.{LinksTrue};
ghost use Rattle.pack_model.specs.operations.Committing.{page_of_word};
ghost use Rattle.pack_model.specs.operations.PageWords.{in_page, later, near};
ghost use Rattle.pack_model.specs.reading.Bytes.{put_at};
ghost use Rattle.pack_model.specs.operations.Step.{Operation};
ghost use Rattle.pack_model.specs.states.Whole.{Whole};
ghost use Rattle.page_seeking.specs.Refs.{IsOwnHint, MisledBy};
ghost use Rattle.page_seeking.specs.Seeking.{IsLengthBelow, KeepsHandy, Quick, Stands, file_length, page_number};
ghost use Rattle.directory.specs.Asked.{DirIsFound, DirStands};
ghost use Rattle.directory.specs.Bounds.{most_words};
ghost use Rattle.directory.specs.Errors.{IfBySlots, IfMisled, IfNoSlot, cause_of, disk_fault, out_of_memory};
ghost use Rattle.directory.specs.Entering.{EntersWords, IsQuickThrice, MayBeEntered, WroteEntry, has_later, joined_value, joining_writes, next_page, next_writes, room_value, to_enter};
ghost use Rattle.directory.specs.Leaving.{Wrote};
ghost use Rattle.directory.specs.Places.{HadRoom, HasNoRoom, IsTaken};

use crate::answers::{in_directory, unplaced};
use crate::entry_words::{MAX_WRITTEN, put_entry, put_words};
use crate::leaving::{PAGE_WORDS, page_of_word};
use crate::place::RoomFound;
use crate::placing::find_place;
use crate::{DirError, FileRef};
use alto_words::{Fid, Name};
use dir_slots::entry_words;
use disk_records::{Disk, Page, Sector, Tally};
use file_pages::write_page;
use hint_cache::Hints;
use page_seeking::locate;

/// Writes a value of a page that commits nothing, if it is wanted.
fn write_first<D: Disk>(
    disk: &mut D,
    wanted: bool,
    at: u16,
    page: Page,
    value: &[u16; 256],
) -> Result<(), DirError>
    requires first { IsTrue wanted → 1 ≤ at }
    requires place { IsTrue wanted → at < pages_of (D.tape disk.old).form }
    ensures writes { IsTrue D.told → Wrote (cond wanted (value_writes at value.now) []) (D.tape disk.old) (D.tape disk.new) result }
    ensures frame { IsTrue D.told → WritesIn (IsPageOf page.fid (pack (D.tape disk.old))) (added (D.tape disk.old) (D.tape disk.new)) }
    ensures misled { IsTrue D.told → (IsTrue wanted → carried (pack (D.tape disk.old)) at ≡ Some page) → IfMisled result (λ place at wanted found. ⊥) }
    ensures held { IfMisled result (WasHeld at page) }
    ensures slots { IfBySlots result ⊥ }
    ensures cause { HasCause (cause_of never never never) (D.tape disk.old) (D.tape disk.new) result }
    ensures alone { DiskAlone (D.tape disk.old) (D.tape disk.new) }
    ensures places { IsTrue D.told → SamePlaces (pack (D.tape disk.old)) (pack (D.tape disk.new)) }
    ensures runs { IsTrue D.told → (D.tape disk.new).runs ≤ (D.tape disk.old).runs + 2 }
{
    if !wanted {
        return Ok(());
    }
    // it is no operation
    let mut uncounted = Tally {
        limit: 0,
        passed: 0,
        all: 0,
    };
    in_directory(write_page(disk, &mut uncounted, at, page, value))
}

/// The virtual address of the sector of a page, which `buf` holds then, if the page is wanted; 0 if not.
fn locate_if<D: Disk>(
    disk: &mut D,
    hints: &mut Hints,
    dir: &FileRef,
    wanted: bool,
    number: u16,
    buf: &mut Sector,
) -> Result<u16, DirError>
    ensures seen { IsTrue wanted → IfOk result (λ at. (1 ≤ at) × (at < pages_of (D.tape disk.old).form)) }
    ensures stands { IsTrue D.told → IsTrue wanted → IfOk result (λ at. Stands (pack (D.tape disk.old)) (page_number dir.now.fid number) at buf.new) }
    ensures asked { OnErr result (IsTrue wanted) }
    ensures full { IsTrue D.told → Whole (pack (D.tape disk.old)) → IfBySlots result ((n : ℕ) × IsLengthBelow (pack (D.tape disk.old)) dir.now.fid number n) }
    ensures misled { IsTrue D.told → DirIsFound (pack (D.tape disk.old)) dir.now → IfMisled result (MisledBy (pack (D.tape disk.old)) [] dir.now.fid) }
    ensures hint { IfMisled result (IsOwnHint dir.now) }
    ensures cause { HasCause (cause_of never never other) (D.tape disk.old) (D.tape disk.new) result }
    ensures want { IsTrue D.told → IsErrOf result out_of_memory → ⊥ }
    ensures looks { Looks D.told (number + 53) (D.tape disk.old) (D.tape disk.new) }
    ensures quick { IsTrue D.told → Quick (pack (D.tape disk.old)) dir.now.fid hints.old.cache → OnOk result ((D.tape disk.new).runs ≤ (D.tape disk.old).runs + cond wanted (number + 1) 0) }
    ensures table { hints.new.table ≡ hints.old.table }
    ensures refused { hints.old.cache.refused ≤ hints.new.cache.refused }
    ensures handy { IsTrue D.told → KeepsHandy (pack (D.tape disk.old)) hints.old.cache hints.new.cache }
{
    if !wanted {
        return Ok(0);
    }
    match locate(disk, hints, dir, number, buf) {
        Ok((at, _)) => Ok(at),
        Err(error) => Err(unplaced(error)),
    }
}

/// The word of its page in which a room begins.
fn first_word(room: &RoomFound) -> usize
    ensures is { result ≡ in_page room.now.place }
    ensures within { result < 256 }
{
    (room.place % PAGE_WORDS) as usize
}

/// Whether some of these words, of which the first is in the room's first place, come to lie in the page after.
fn has_later(room: &RoomFound, words: &[u16]) -> bool
    ensures { result ≡ has_later room.now words.now }
{
    256 - first_word(room) < words.len()
}

/// Locates the page in which a room begins, so that `buf` holds it, and before that the page after it, if so many words lie there too, so that
/// `next` holds it. The answer is the virtual addresses of their sectors, the second one 0 where that page isn't wanted.
fn locate_room<D: Disk>(
    disk: &mut D,
    hints: &mut Hints,
    dir: &FileRef,
    room: &RoomFound,
    words: &[u16],
    buf: &mut Sector,
    next: &mut Sector,
) -> Result<(u16, u16), DirError>
    ensures seen { IfOk result (λ at. (1 ≤ at.0) × (at.0 < pages_of (D.tape disk.old).form)) }
    ensures next { IsTrue (has_later room.now words.now) → IfOk result (λ at. (1 ≤ at.1) × (at.1 < pages_of (D.tape disk.old).form)) }
    ensures stands { IsTrue D.told → IfOk result (λ at. Stands (pack (D.tape disk.old)) (page_number dir.now.fid (page_of_word room.now.place)) at.0 buf.new) }
    ensures stands_next { IsTrue D.told → IsTrue (has_later room.now words.now) → room.now.place + length words.now ≤ most_words → IfOk result (λ at. Stands (pack (D.tape disk.old)) (page_number dir.now.fid (page_of_word room.now.place + 1)) at.1 next.new) }
    ensures carries_next { IsTrue D.told → IsTrue (has_later room.now words.now) → IfOk result (λ at. carried (pack (D.tape disk.old)) at.1 ≡ Some (next_page (page_number dir.now.fid (page_of_word room.now.place)))) }
    ensures full { IsTrue D.told → Whole (pack (D.tape disk.old)) → 2 * (room.now.place + length words.now) ≤ file_length (pack (D.tape disk.old)) dir.now.fid → 0 < length words.now → IfBySlots result ⊥ }
    ensures misled { IsTrue D.told → DirIsFound (pack (D.tape disk.old)) dir.now → IfMisled result (MisledBy (pack (D.tape disk.old)) [] dir.now.fid) }
    ensures hint { IfMisled result (IsOwnHint dir.now) }
    ensures cause { HasCause (cause_of never never other) (D.tape disk.old) (D.tape disk.new) result }
    ensures want { IsTrue D.told → IsErrOf result out_of_memory → ⊥ }
    ensures looks { Looks D.told (2 * 65588) (D.tape disk.old) (D.tape disk.new) }
    ensures quick { IsTrue D.told → Quick (pack (D.tape disk.old)) dir.now.fid hints.old.cache → OnOk result ((D.tape disk.new).runs ≤ (D.tape disk.old).runs + (2 * page_of_word room.now.place + 3)) }
    ensures table { hints.new.table ≡ hints.old.table }
    ensures refused { hints.old.cache.refused ≤ hints.new.cache.refused }
    ensures handy { IsTrue D.told → KeepsHandy (pack (D.tape disk.old)) hints.old.cache hints.new.cache }
{
    let number = page_of_word(room.place);
    let later = has_later(room, words);
    match locate_if(disk, hints, dir, later, number.saturating_add(1), next) {
        Ok(next_at) => match locate_if(disk, hints, dir, true, number, buf) {
            Ok(at) => Ok((at, next_at)),
            Err(error) => Err(error),
        },
        Err(error) => Err(error),
    }
}

/// Makes the free slots of a room one, in the value of its page, if they are several. The answer is whether they are.
fn join_slots(room: &RoomFound, value: &mut [u16; 256]) -> bool
    ensures joins { result ≡ not (room.now.words.first == room.now.words.total) }
    ensures value { value.new ≡ joined_value room.now value.old }
{
    let joins = room.words.first != room.words.total;
    if joins {
        put_words(value, first_word(room), &[room.words.total]);
    }
    joins
}

/// Puts those of the words of an entry in its room that lie in the room's page.
fn put_near(room: &RoomFound, words: &[u16], value: &mut [u16; 256])
    ensures { value.new ≡ put_at (in_page room.now.place) (near room.now.place words.now) value.old }
{
    let from = first_word(room);
    let count = words.len().min(256 - from);
    put_words(value, from, &words[..count]);
}

/// Puts those that lie in the page after it.
fn put_later(room: &RoomFound, words: &[u16], value: &mut [u16; 256])
    requires few { length words.now ≤ 27 }
    ensures { value.new ≡ put_at 0 (later room.now.place words.now) value.old }
{
    let count = words.len().min(256 - first_word(room));
    put_words(value, 0, &words[count..]);
}

/// The number of record writes up to which a tally counts, a number of 64 bits.
fn limit_of(tally: &Tally) -> u64
    ensures { result ≡ tally.now.limit }
{
    tally.limit
}

/// Writes the words of an entry in its room, whose page is in `buf`, and the page after that in `next`, if words come to lie there: first the
/// value that makes the room's free slots one, where they are several; then the value of that page; and last the value of the room's own page,
/// which commits, and is counted.
fn write_entry<D: Disk>(
    disk: &mut D,
    tally: &mut Tally,
    page: Page,
    at: u16,
    next_at: u16,
    room: &RoomFound,
    words: &[u16],
    buf: &mut Sector,
    next: &mut Sector,
) -> Result<(), DirError>
    requires first { 1 ≤ at }
    requires place { at < pages_of (D.tape disk.old).form }
    requires few { length words.now ≤ 27 }
    requires next { IsTrue (has_later room.now words.now) → (1 ≤ next_at) × (next_at < pages_of (D.tape disk.old).form) }
    ensures writes { (o : Operation) (bits : List Bool) → IsTrue D.told → WroteEntry (joining_writes room.now at buf.old.value ++ next_writes room.now words.now next_at next.old.value) (value_writes at (room_value room.now words.now buf.old.value)) o (around (D.tape disk.old) bits tally.old) (around (D.tape disk.new) bits tally.new) result }
    ensures frame { IsTrue D.told → WritesIn (IsPageOf page.fid (pack (D.tape disk.old))) (added (D.tape disk.old) (D.tape disk.new)) }
    ensures misled { IsTrue D.told → carried (pack (D.tape disk.old)) at ≡ Some page → (IsTrue (has_later room.now words.now) → carried (pack (D.tape disk.old)) next_at ≡ Some (next_page page)) → IfMisled result (λ place at wanted found. ⊥) }
    ensures held { IfMisled result (WasFound page.fid) }
    ensures slots { IfBySlots result ⊥ }
    ensures cause { HasCause (cause_of never never never) (D.tape disk.old) (D.tape disk.new) result }
    ensures alone { DiskAlone (D.tape disk.old) (D.tape disk.new) }
    ensures places { IsTrue D.told → SamePlaces (pack (D.tape disk.old)) (pack (D.tape disk.new)) }
    ensures runs { IsTrue D.told → (D.tape disk.new).runs ≤ (D.tape disk.old).runs + 6 }
{
    let _limit = limit_of(tally);
    let joins = join_slots(room, &mut buf.value);
    match write_first(disk, joins, at, page, &buf.value) {
        Ok(()) => {}
        Err(error) => return Err(error),
    }
    put_later(room, words, &mut next.value);
    let after = Page {
        fid: page.fid,
        number: page.number.saturating_add(1),
    };
    match write_first(disk, has_later(room, words), next_at, after, &next.value) {
        Ok(()) => {}
        Err(error) => return Err(error),
    }
    put_near(room, words, &mut buf.value);
    in_directory(write_page(disk, tally, at, page, &buf.value))
}

/// Enters a file in a directory under a name: an entry comes into the first room for it, and the words of the room that are left over become a
/// free slot. The file has to live and to have no entry, `leader_at` is the virtual address of its leader's sector, and a directory is entered
/// in the main directory alone. There are one to three record writes: the first makes the room's free slots one, where they are several; the
/// next is that of the page after the room's first, where words come to lie there; the last is that of the room's own page, which commits. The
/// pages are sought as by `locate`, before the first of them. On any pack, and whatever the answer is, each record write is in a page of the
/// directory.
///
/// NameTaken: an entry has the name, in whatever case of its letters. NoSlot: no free slots in a row have room for the entry, and no entry has
/// the name. File: Misled where the address that the directory is named with, or a next link of it, misleads, and where the machine isn't
/// modelled also where the sector in which this call found a page no longer carries it; DiskFault where the device failed; Memory where no
/// memory was left for a record write. After each of these a prefix of the record writes was done, and nothing after NameTaken, NoSlot and
/// Misled. NoSuchName never comes. What `buf` holds is open.
pub fn enter<D: Disk>(
    disk: &mut D,
    hints: &mut Hints,
    tally: &mut Tally,
    dir: &FileRef,
    name: &Name,
    fid: Fid,
    leader_at: u16,
    buf: &mut Sector,
) -> Result<(), DirError>
    // The operation, of a file that may be entered; the exact record writes, of any; what the slots say; and where it writes, on any pack.
    ensures operates { IsTrue D.told → DirStands (pack (D.tape disk.old)) dir.now → MayBeEntered (pack (D.tape disk.old)) dir.now.fid fid leader_at → Operates disk_fault out_of_memory (to_enter dir.now.fid name.now fid) [] (around (D.tape disk.old) hints.old.table tally.old) (around (D.tape disk.new) hints.new.table tally.new) result }
    ensures enters { IsTrue D.told → DirIsFound (pack (D.tape disk.old)) dir.now → EntersWords (pack (D.tape disk.old)) dir.now.fid name.now fid leader_at (D.tape disk.old) (D.tape disk.new) result }
    ensures found { IsTrue D.told → DirStands (pack (D.tape disk.old)) dir.now → OnOk result (HadRoom (pack (D.tape disk.old)) dir.now.fid name.now) }
    ensures frame { IsTrue D.told → WritesIn (IsPageOf dir.now.fid (pack (D.tape disk.old))) (added (D.tape disk.old) (D.tape disk.new)) }

    // Which error comes when.
    ensures taken { IsTrue D.told → DirStands (pack (D.tape disk.old)) dir.now → IsErrOf result DirError.NameTaken → IsTaken (pack (D.tape disk.old)) dir.now.fid name.now }
    ensures full { IsTrue D.told → DirStands (pack (D.tape disk.old)) dir.now → IfNoSlot result (HasNoRoom (pack (D.tape disk.old)) dir.now.fid name.now) }
    ensures unwritten { IsTrue D.told → IfBySlots result (IsQuiet (around (D.tape disk.old) hints.old.table tally.old) (around (D.tape disk.new) hints.new.table tally.new)) }
    ensures quiet { IsTrue D.told → DirStands (pack (D.tape disk.old)) dir.now → IfMisled result (λ place at wanted found. IsQuiet (around (D.tape disk.old) hints.old.table tally.old) (around (D.tape disk.new) hints.new.table tally.new)) }
    ensures misled { IsTrue D.told → DirStands (pack (D.tape disk.old)) dir.now → IfMisled result (MisledBy (pack (D.tape disk.old)) [] dir.now.fid) }
    ensures hint { IsTrue D.told → IfMisled result (IsOwnHint dir.now) }
    ensures given { IfMisled result (IsHintOrFound dir.now) }
    ensures true_links { IsTrue D.told → DirStands (pack (D.tape disk.old)) dir.now → LinksTrue (pack (D.tape disk.old)) → IfMisled result (λ place at wanted found. ⊥) }
    ensures cause { HasCause (cause_of never other other) (D.tape disk.old) (D.tape disk.new) result }

    // What stays, and the hints.
    ensures alone { DiskAlone (D.tape disk.old) (D.tape disk.new) }
    ensures table { hints.new.table ≡ hints.old.table }
    ensures refused { hints.old.cache.refused ≤ hints.new.cache.refused }
    ensures handy { IsTrue D.told → LeavesHandy (pack (D.tape disk.old)) (pack (D.tape disk.new)) hints.old.cache hints.new.cache }

    // With true links and handy hints, three sector commands for each data page of the directory and ten more.
    ensures quick { IsTrue D.told → DirStands (pack (D.tape disk.old)) dir.now → Quick (pack (D.tape disk.old)) dir.now.fid hints.old.cache → OnOk result (IsQuickThrice (pack (D.tape disk.old)) dir.now.fid 10 hints.old.cache hints.new.cache (D.tape disk.old) (D.tape disk.new)) }
{
    let room = match find_place(disk, hints, dir, name, buf) {
        Ok(room) => room,
        Err(error) => return Err(error),
    };
    let mut words = [0; MAX_WRITTEN];
    let left = room.words.total.saturating_sub(entry_words(name));
    let count = put_entry(&mut words, fid, leader_at, name, left);
    let words = &words[..count];
    let mut next = Sector::ZEROS;
    match locate_room(disk, hints, dir, &room, words, buf, &mut next) {
        Ok((at, next_at)) => {
            let page = Page {
                fid: dir.fid,
                number: page_of_word(room.place),
            };
            write_entry(disk, tally, page, at, next_at, &room, words, buf, &mut next)
        }
        Err(error) => Err(error),
    }
}
