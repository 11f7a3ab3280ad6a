// An entry that leaves its directory, and the end of a drop.
ghost use Rattle.std.specs.Prelude.{◌≡◌, ◌*◌, ◌+◌, ◌<◌, ◌≤◌, [], IfOk, IsErrOf, IsTrue, OnOk, Some, false, length};
ghost use Rattle.alto_words.specs.declared.fid.Fid.{Fid};
ghost use Rattle.alto_words.specs.declared.wanted.Wanted.TheVariants.{Exact};
ghost use Rattle.disk_records.specs.Addresses.{pages_of};
ghost use Rattle.disk_records.specs.Causes.{HasCause, never, other};
ghost use Rattle.disk_records.specs.Frames.{IsPageOf, WritesIn};
ghost use Rattle.disk_records.specs.Tapes.{DiskAlone, Looks, added, pack};
ghost use Rattle.file_pages.specs.Calls.{IsHintOrFound};
ghost use Rattle.file_pages.specs.Values.{LeavesHandy};
ghost use Rattle.laws_call.specs.Acting.{IsQuiet, Operates, around};
ghost use Rattle.pack_model.specs.hints.Links.{LinksTrue};
ghost use Rattle.pack_model.specs.operations.Committing.{page_of_word};
ghost use Rattle.pack_model.specs.operations.PageWords.{freed_value};
ghost use Rattle.pack_model.specs.reading.Files.{lives};
ghost use Rattle.pack_model.specs.reading.Sights.{sights};
ghost use Rattle.pack_model.specs.reading.Slots.Item.{entry};
ghost use Rattle.pack_model.specs.reading.Slots.{item_words};
ghost use Rattle.pack_model.specs.states.Whole.{Tidy, TidyBut, Whole};
ghost use Rattle.page_seeking.specs.Refs.{IsOwnHint, MisledBy};
ghost use Rattle.page_seeking.specs.Seeking.{KeepsHandy, Quick, Stands, page_number};
ghost use Rattle.directory.specs.Asked.{DirIsFound, DirStands};
ghost use Rattle.directory.specs.Bounds.{most_words};
ghost use Rattle.directory.specs.Errors.{IfBySlots, IfMisled, cause_of, disk_fault, out_of_memory};
ghost use Rattle.directory.specs.Found.{IsAbsent, IsQuick};
ghost use Rattle.directory.specs.Inside.{found_at};
ghost use Rattle.directory.specs.Leaving.{EndsDrop, FreesSlot, IsEntryOf, IsOrdinaryEntry, IsQuickTwice, entry_named, to_leave};

use crate::answers::{in_directory, unlocated};
use crate::entry::EntryFound;
use crate::finding::find_entry;
use crate::{DirError, FileRef};
use alto_words::{Name, Wanted};
use dir_slots::entry_words;
use disk_records::{Disk, Page, Sector, Tally};
use file_pages::write_page;
use hint_cache::Hints;
use page_seeking::locate;

/// The words of a page.
pub(crate) const PAGE_WORDS: u32 = 256;

/// The number of the page that a word of a directory is in.
pub(crate) fn page_of_word(place: u32) -> u16
    requires { place < most_words }
    ensures { result ≡ page_of_word place }
{
    (place / PAGE_WORDS + 1) as u16
}

/// The first entry of this name. NoSuchName: no entry has it.
fn named_entry<D: Disk>(
    disk: &mut D,
    hints: &mut Hints,
    dir: &FileRef,
    name: &Name,
    buf: &mut Sector,
) -> Result<EntryFound, DirError>
    ensures named { IsTrue D.told → DirIsFound (pack (D.tape disk.old)) dir.now → IfOk result (λ found. entry_named (pack (D.tape disk.old)) dir.now.fid name.now ≡ Some (found_at found)) }
    ensures absent { IsTrue D.told → DirIsFound (pack (D.tape disk.old)) dir.now → IsErrOf result DirError.NoSuchName → IsAbsent (pack (D.tape disk.old)) dir.now.fid (Exact name.now) }
    ensures misled { IsTrue D.told → DirIsFound (pack (D.tape disk.old)) dir.now → IfMisled result (MisledBy (pack (D.tape disk.old)) [] dir.now.fid) }
    ensures hint { IfMisled result (IsOwnHint dir.now) }
    ensures cause { HasCause (cause_of other never never) (D.tape disk.old) (D.tape disk.new) result }
    ensures want { IsTrue D.told → IsErrOf result out_of_memory → ⊥ }
    ensures looks { Looks D.told (65588 * 65535) (D.tape disk.old) (D.tape disk.new) }
    ensures quick { IsTrue D.told → Quick (pack (D.tape disk.old)) dir.now.fid hints.old.cache → OnOk result (IsQuick (pack (D.tape disk.old)) dir.now.fid hints.old.cache hints.new.cache (D.tape disk.old) (D.tape disk.new)) }
    ensures table { hints.new.table ≡ hints.old.table }
    ensures refused { hints.old.cache.refused ≤ hints.new.cache.refused }
    ensures handy { IsTrue D.told → KeepsHandy (pack (D.tape disk.old)) hints.old.cache hints.new.cache }
{
    match find_entry(disk, hints, dir, &Wanted::Exact { name: *name }, buf)? {
        Some(entry) => Ok(entry),
        None => Err(DirError::NoSuchName),
    }
}

/// The first entry of this name, and the virtual address of the sector in which its slot begins; `buf` holds that then.
///
/// NoSuchName: no entry has the name.
fn locate_entry<D: Disk>(
    disk: &mut D,
    hints: &mut Hints,
    dir: &FileRef,
    name: &Name,
    buf: &mut Sector,
) -> Result<(u16, EntryFound), DirError>
    ensures named { IsTrue D.told → DirIsFound (pack (D.tape disk.old)) dir.now → IfOk result (λ found. entry_named (pack (D.tape disk.old)) dir.now.fid name.now ≡ Some (found_at found.1)) }
    ensures stands { IsTrue D.told → IfOk result (λ found. Stands (pack (D.tape disk.old)) (page_number dir.now.fid (page_of_word found.1.place)) found.0 buf.new) }
    ensures first { IfOk result (λ found. 1 ≤ found.0) }
    ensures last { IfOk result (λ found. found.0 < pages_of (D.tape disk.old).form) }
    ensures sized { OnOk result (length buf.new.value ≡ 256) }
    ensures absent { IsTrue D.told → Whole (pack (D.tape disk.old)) → DirIsFound (pack (D.tape disk.old)) dir.now → IsErrOf result DirError.NoSuchName → IsAbsent (pack (D.tape disk.old)) dir.now.fid (Exact name.now) }
    ensures misled { IsTrue D.told → DirIsFound (pack (D.tape disk.old)) dir.now → IfMisled result (MisledBy (pack (D.tape disk.old)) [] dir.now.fid) }
    ensures hint { IfMisled result (IsOwnHint dir.now) }
    ensures cause { HasCause (cause_of other never never) (D.tape disk.old) (D.tape disk.new) result }
    ensures want { IsTrue D.told → IsErrOf result out_of_memory → ⊥ }
    ensures looks { Looks D.told (65588 * 65536) (D.tape disk.old) (D.tape disk.new) }
    ensures quick { IsTrue D.told → DirIsFound (pack (D.tape disk.old)) dir.now → Quick (pack (D.tape disk.old)) dir.now.fid hints.old.cache → OnOk result (IsQuickTwice (pack (D.tape disk.old)) dir.now.fid 2 hints.old.cache hints.new.cache (D.tape disk.old) (D.tape disk.new)) }
    ensures table { hints.new.table ≡ hints.old.table }
    ensures refused { hints.old.cache.refused ≤ hints.new.cache.refused }
    ensures handy { IsTrue D.told → KeepsHandy (pack (D.tape disk.old)) hints.old.cache hints.new.cache }
{
    let entry = match named_entry(disk, hints, dir, name, buf) {
        Ok(entry) => entry,
        Err(error) => return Err(error),
    };
    match locate(disk, hints, dir, page_of_word(entry.place), buf) {
        Ok((at, _)) => Ok((at, entry)),
        Err(error) => Err(unlocated(error)),
    }
}

/// Makes the slot of an entry a free one, in the value of the page in which it begins: its first word is then the number of its words.
fn put_free(value: &mut [u16; 256], found: &EntryFound)
    ensures { value.new ≡ freed_value found.now.place (item_words (entry found.now.fid found.now.name)) value.old }
{
    let word = (found.place % PAGE_WORDS) as usize;
    value[word..word + 1].copy_from_slice(&[entry_words(&found.name)]);
}

/// Makes the slot of the first entry of this name a free one, by one value write, which commits, and counts that as an operation.
fn free_entry<D: Disk>(
    disk: &mut D,
    hints: &mut Hints,
    tally: &mut Tally,
    dir: &FileRef,
    name: &Name,
    buf: &mut Sector,
) -> Result<(), DirError>
    ensures operates { IsTrue D.told → Whole (pack (D.tape disk.old)) → Tidy (pack (D.tape disk.old)) → DirIsFound (pack (D.tape disk.old)) dir.now → IsOrdinaryEntry (pack (D.tape disk.old)) dir.now.fid name.now → Operates disk_fault out_of_memory (to_leave dir.now.fid name.now) [] (around (D.tape disk.old) hints.old.table tally.old) (around (D.tape disk.new) hints.new.table tally.new) result }
    ensures frees { IsTrue D.told → DirIsFound (pack (D.tape disk.old)) dir.now → FreesSlot (pack (D.tape disk.old)) dir.now.fid name.now (D.tape disk.old) (D.tape disk.new) result }
    ensures frame { IsTrue D.told → WritesIn (IsPageOf dir.now.fid (pack (D.tape disk.old))) (added (D.tape disk.old) (D.tape disk.new)) }
    ensures absent { IsTrue D.told → Whole (pack (D.tape disk.old)) → DirIsFound (pack (D.tape disk.old)) dir.now → IsErrOf result DirError.NoSuchName → IsAbsent (pack (D.tape disk.old)) dir.now.fid (Exact name.now) }
    ensures unwritten { IsTrue D.told → IfBySlots result (IsQuiet (around (D.tape disk.old) hints.old.table tally.old) (around (D.tape disk.new) hints.new.table tally.new)) }
    ensures quiet { IsTrue D.told → IfMisled result (λ place at wanted found. IsQuiet (around (D.tape disk.old) hints.old.table tally.old) (around (D.tape disk.new) hints.new.table tally.new)) }
    ensures misled { IsTrue D.told → DirIsFound (pack (D.tape disk.old)) dir.now → IfMisled result (MisledBy (pack (D.tape disk.old)) [] dir.now.fid) }
    ensures hint { IsTrue D.told → IfMisled result (IsOwnHint dir.now) }
    ensures given { IfMisled result (IsHintOrFound dir.now) }
    ensures cause { HasCause (cause_of other never never) (D.tape disk.old) (D.tape disk.new) result }
    ensures alone { DiskAlone (D.tape disk.old) (D.tape disk.new) }
    ensures table { hints.new.table ≡ hints.old.table }
    ensures refused { hints.old.cache.refused ≤ hints.new.cache.refused }
    ensures handy { IsTrue D.told → LeavesHandy (pack (D.tape disk.old)) (pack (D.tape disk.new)) hints.old.cache hints.new.cache }
    ensures quick { IsTrue D.told → DirIsFound (pack (D.tape disk.old)) dir.now → Quick (pack (D.tape disk.old)) dir.now.fid hints.old.cache → OnOk result (IsQuickTwice (pack (D.tape disk.old)) dir.now.fid 4 hints.old.cache hints.new.cache (D.tape disk.old) (D.tape disk.new)) }
{
    match locate_entry(disk, hints, dir, name, buf) {
        Ok((at, entry)) => {
            put_free(&mut buf.value, &entry);
            let page = Page {
                fid: dir.fid,
                number: page_of_word(entry.place),
            };
            in_directory(write_page(disk, tally, at, page, &buf.value))
        }
        Err(error) => Err(error),
    }
}

/// Takes the entry of this name out of a directory, in whatever case of its letters: its slot becomes a free one, by one value write, which
/// commits. The file itself stays, without a name. The entry must not be that of a system file. Its slot is found as by `lookup`, and the
/// page in which it begins is located before the record write. On any pack, and whatever the answer is, the record write is in a page of the
/// directory.
///
/// NoSuchName: the directory has no such entry. File: Misled where the address that the directory is named with, or a next link of it,
/// misleads, and where the machine isn't modelled also where the sector in which this call found the page no longer carries it; DiskFault
/// where the device failed; Memory where no memory was left for the record write. After NoSuchName and Misled nothing was written; after
/// DiskFault and Memory the record write was made or not. NameTaken and NoSlot never come. What `buf` holds is open.
pub fn leave<D: Disk>(
    disk: &mut D,
    hints: &mut Hints,
    tally: &mut Tally,
    dir: &FileRef,
    name: &Name,
    buf: &mut Sector,
) -> Result<(), DirError>
    // The operation, of an ordinary entry; the exact record write, of any; and where it is, on any pack.
    ensures operates { IsTrue D.told → DirStands (pack (D.tape disk.old)) dir.now → IsOrdinaryEntry (pack (D.tape disk.old)) dir.now.fid name.now → Operates disk_fault out_of_memory (to_leave dir.now.fid name.now) [] (around (D.tape disk.old) hints.old.table tally.old) (around (D.tape disk.new) hints.new.table tally.new) result }
    ensures frees { IsTrue D.told → DirStands (pack (D.tape disk.old)) dir.now → FreesSlot (pack (D.tape disk.old)) dir.now.fid name.now (D.tape disk.old) (D.tape disk.new) result }
    ensures frame { IsTrue D.told → WritesIn (IsPageOf dir.now.fid (pack (D.tape disk.old))) (added (D.tape disk.old) (D.tape disk.new)) }

    // Which error comes when.
    ensures absent { IsTrue D.told → DirStands (pack (D.tape disk.old)) dir.now → IsErrOf result DirError.NoSuchName → IsAbsent (pack (D.tape disk.old)) dir.now.fid (Exact name.now) }
    ensures unwritten { IsTrue D.told → IfBySlots result (IsQuiet (around (D.tape disk.old) hints.old.table tally.old) (around (D.tape disk.new) hints.new.table tally.new)) }
    ensures quiet { IsTrue D.told → IfMisled result (λ place at wanted found. IsQuiet (around (D.tape disk.old) hints.old.table tally.old) (around (D.tape disk.new) hints.new.table tally.new)) }
    ensures misled { IsTrue D.told → DirStands (pack (D.tape disk.old)) dir.now → IfMisled result (MisledBy (pack (D.tape disk.old)) [] dir.now.fid) }
    ensures hint { IsTrue D.told → IfMisled result (IsOwnHint dir.now) }
    ensures given { IfMisled result (IsHintOrFound dir.now) }
    ensures true_links { IsTrue D.told → DirStands (pack (D.tape disk.old)) dir.now → LinksTrue (pack (D.tape disk.old)) → IfMisled result (λ place at wanted found. ⊥) }
    ensures cause { HasCause (cause_of other never never) (D.tape disk.old) (D.tape disk.new) result }

    // What stays, and the hints.
    ensures alone { DiskAlone (D.tape disk.old) (D.tape disk.new) }
    ensures table { hints.new.table ≡ hints.old.table }
    ensures refused { hints.old.cache.refused ≤ hints.new.cache.refused }
    ensures handy { IsTrue D.told → LeavesHandy (pack (D.tape disk.old)) (pack (D.tape disk.new)) hints.old.cache hints.new.cache }

    // With true links and handy hints, two sector commands for each data page of the directory and four more.
    ensures quick { IsTrue D.told → DirStands (pack (D.tape disk.old)) dir.now → Quick (pack (D.tape disk.old)) dir.now.fid hints.old.cache → OnOk result (IsQuickTwice (pack (D.tape disk.old)) dir.now.fid 4 hints.old.cache hints.new.cache (D.tape disk.old) (D.tape disk.new)) }
{
    free_entry(disk, hints, tally, dir, name, buf)
}

/// Makes the slot of the entry of this name a free one, as the end of a drop: `drop_file` of file_pages released the file's sectors, and
/// counted the drop. It is done as `leave` does it, in a page of the directory, and nothing is counted. On the pack the entry's file doesn't
/// live, so that the pack needn't be tidy.
///
/// The errors are those of `leave`. Misled never comes where links are true and the pack is whole, and tidy except for the entry of one file
/// `f`, the one that was dropped (`TidyBut`): that is what `drop_file` at Ok makes of a whole and tidy pack with true links.
pub fn free_slot<D: Disk>(
    disk: &mut D,
    hints: &mut Hints,
    dir: &FileRef,
    name: &Name,
    buf: &mut Sector,
) -> Result<(), DirError>
    // The exact record write, and where it is, on any pack.
    ensures frees { IsTrue D.told → DirIsFound (pack (D.tape disk.old)) dir.now → FreesSlot (pack (D.tape disk.old)) dir.now.fid name.now (D.tape disk.old) (D.tape disk.new) result }
    ensures frame { IsTrue D.told → WritesIn (IsPageOf dir.now.fid (pack (D.tape disk.old))) (added (D.tape disk.old) (D.tape disk.new)) }

    // What that does to a whole pack, tidy except for the entry of the file `f` that was dropped, whose name this is.
    ensures ends { (f : Fid) → IsTrue D.told → DirIsFound (pack (D.tape disk.old)) dir.now → Whole (pack (D.tape disk.old)) → TidyBut f (sights (pack (D.tape disk.old))) → lives (sights (pack (D.tape disk.old))) f ≡ false → IsEntryOf (pack (D.tape disk.old)) dir.now.fid name.now f → EndsDrop (pack (D.tape disk.old)) (D.tape disk.old) (D.tape disk.new) result }

    // Which error comes when.
    ensures absent { IsTrue D.told → Whole (pack (D.tape disk.old)) → DirIsFound (pack (D.tape disk.old)) dir.now → IsErrOf result DirError.NoSuchName → IsAbsent (pack (D.tape disk.old)) dir.now.fid (Exact name.now) }
    ensures unwritten { IsTrue D.told → IfBySlots result (added (D.tape disk.old) (D.tape disk.new) ≡ []) }
    ensures quiet { IsTrue D.told → IfMisled result (λ place at wanted found. added (D.tape disk.old) (D.tape disk.new) ≡ []) }
    ensures misled { IsTrue D.told → DirIsFound (pack (D.tape disk.old)) dir.now → IfMisled result (MisledBy (pack (D.tape disk.old)) [] dir.now.fid) }
    ensures hint { IsTrue D.told → IfMisled result (IsOwnHint dir.now) }
    ensures given { IfMisled result (IsHintOrFound dir.now) }
    ensures true_links { (f : Fid) → IsTrue D.told → DirIsFound (pack (D.tape disk.old)) dir.now → Whole (pack (D.tape disk.old)) → TidyBut f (sights (pack (D.tape disk.old))) → LinksTrue (pack (D.tape disk.old)) → IfMisled result (λ place at wanted found. ⊥) }
    ensures cause { HasCause (cause_of other never never) (D.tape disk.old) (D.tape disk.new) result }

    // What stays, the hints, and few sector commands, as of `leave`.
    ensures alone { DiskAlone (D.tape disk.old) (D.tape disk.new) }
    ensures table { hints.new.table ≡ hints.old.table }
    ensures refused { hints.old.cache.refused ≤ hints.new.cache.refused }
    ensures handy { IsTrue D.told → LeavesHandy (pack (D.tape disk.old)) (pack (D.tape disk.new)) hints.old.cache hints.new.cache }
    ensures quick { IsTrue D.told → DirIsFound (pack (D.tape disk.old)) dir.now → Quick (pack (D.tape disk.old)) dir.now.fid hints.old.cache → OnOk result (IsQuickTwice (pack (D.tape disk.old)) dir.now.fid 4 hints.old.cache hints.new.cache (D.tape disk.old) (D.tape disk.new)) }
{
    // the count of a leaving is of no use: the drop is counted
    let mut uncounted = Tally {
        limit: 0,
        passed: 0,
        all: 0,
    };
    free_entry(disk, hints, &mut uncounted, dir, name, buf)
}
