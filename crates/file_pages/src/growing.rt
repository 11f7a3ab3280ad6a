// More bytes after those of a file.
ghost use Rattle.std.specs.Prelude.{◌≡◌, ◌+◌, ◌*◌, ◌<◌, ◌≤◌, ◌⊎◌, All, Contains, IfNone, IfSome, IsTrue, OnErr, OnOk, Some, [], false, length, true, ℕ};
ghost use Rattle.alto_words.specs.Fid.{is_full_name};
ghost use Rattle.disk_records.specs.Addresses.{pages_of};
ghost use Rattle.disk_records.specs.Causes.{HasCause};
ghost use Rattle.disk_records.specs.Frames.{IsFreeSector, WritesIn};
ghost use Rattle.disk_records.specs.Tapes.{DiskAlone, added, pack};
ghost use Rattle.laws_call.specs.Acting.{IsQuiet, Operates, around};
ghost use Rattle.page_seeking.specs.Causes.{cause_of_length};
ghost use Rattle.page_seeking.specs.Refs.{FileStands, IfMisled, MisledBy};
ghost use Rattle.page_seeking.specs.Seeking.{EndListed, IsLast, LastNamed, NamedNearEnd, Quick, QuickCache, Refused, Seen, Stands, file_length, page_number};
ghost use Rattle.page_seeking.specs.declared.refs.FileError.TheVariants as error;
ghost use Rattle.pack_model.specs.hints.Links.{LinksTrue};
ghost use Rattle.pack_model.specs.operations.Committing.{page_of_byte};
ghost use Rattle.pack_model.specs.operations.Step.{Operation};
ghost use Rattle.pack_model.specs.reading.Files.{place};
ghost use Rattle.pack_model.specs.reading.Sights.{sights};
ghost use Rattle.pack_model.specs.states.Whole.{Tidy, Whole};
ghost use Rattle.file_pages.specs.Calls.{StaysHandy, WasHeld};
ghost use Rattle.file_pages.specs.Growing.{Grew, GrowsWith, IsEndOrFree, IsHereOrFree, IsHintOfGrowth, IsSector, ListsGrown, MayBeGrown, WasGivenToGrow, WritesAs, growth_writes};

use crate::claims::{after_first, claim_pages, link_to_first, past_last, words_that_fit};
use crate::last_words::{commit_page, with_count};
use crate::making::{at_held, limit_of};
use crate::new_hints::{mark_busy, note_pages};
use crate::refs::page_of_file;
use crate::{FileError, FileRef};
use alto_words::Fid;
use disk_records::{Disk, PAGE_BYTES, Sector, Shape, Tally, put_in_words};
use hint_cache::{BitTable, Hints};
use page_seeking::{LastPage, last_page};

/// Whether the address is that of a sector that can carry a page.
fn is_sector(shape: Shape, at: u16) -> bool
    ensures yes { result ≡ true → (1 ≤ at) × (at < pages_of shape) }
    ensures no { result ≡ false → (at ≡ 0) ⊎ (pages_of shape ≤ at) }
{
    at != 0 && at < shape.pages()
}

/// The first of these addresses that is no such sector's, if there is one.
fn first_unusable(shape: Shape, fresh: &[u16]) -> Option<u16>
    ensures none { IfNone result (All (IsSector shape) fresh.now) }
    ensures some { IfSome result (λ at. All (IsSector shape) fresh.now → ⊥) }
    ensures given { IfSome result (λ at. Contains fresh.now at) }
{
    let mut rest = fresh;
    while let Some((at, later)) = rest.split_first() {
        if !is_sector(shape, *at) {
            return Some(*at);
        }
        rest = later;
    }
    None
}

/// Grows a file whose last page is in `buf`: claims the pages that come, and then writes the last page. The table has their sectors as busy
/// at Ok.
fn grow_pages<D: Disk>(
    disk: &mut D,
    table: &mut BitTable,
    tally: &mut Tally,
    fid: Fid,
    last: LastPage,
    bytes: &[u8],
    past: &[u16],
    fresh: &[u16],
    buf: &mut Sector,
) -> Result<(), FileError>
    requires sized { length table.old ≡ pages_of (D.tape disk.old).form }
    requires seen { Seen (D.tape disk.old).form (page_number fid last.number) last.at last.info buf.old }
    requires full_name { is_full_name fid ≡ true }
    requires few { last.info.bytes ≤ 512 }
    requires sectors { All (IsSector (D.tape disk.old).form) fresh.now }
    ensures operates { (o : Operation) → IsTrue D.told → Whole (pack (D.tape disk.old)) → Tidy (pack (D.tape disk.old)) → Stands (pack (D.tape disk.old)) (page_number fid last.number) last.at buf.old → IsLast (pack (D.tape disk.old)) fid last → MayBeGrown (pack (D.tape disk.old)) o fid bytes.now past.now fresh.now → GrowsWith o fid last.at bytes.now past.now fresh.now (around (D.tape disk.old) table.old tally.old) (around (D.tape disk.new) table.new tally.new) result }
    ensures misled { (o : Operation) → IsTrue D.told → Whole (pack (D.tape disk.old)) → Tidy (pack (D.tape disk.old)) → Stands (pack (D.tape disk.old)) (page_number fid last.number) last.at buf.old → IsLast (pack (D.tape disk.old)) fid last → MayBeGrown (pack (D.tape disk.old)) o fid bytes.now past.now fresh.now → IfMisled result (λ place at wanted found. ⊥) }
    ensures given { IfMisled result (λ place at wanted found. WasGivenToGrow fid fresh.now place at wanted found ⊎ WasHeld last.at (page_number fid last.number) place at wanted found) }
    ensures cause { HasCause cause_of_length (D.tape disk.old) (D.tape disk.new) result }
    ensures alone { DiskAlone (D.tape disk.old) (D.tape disk.new) }
    ensures grew { (o : Operation) → IsTrue D.told → Whole (pack (D.tape disk.old)) → Tidy (pack (D.tape disk.old)) → Stands (pack (D.tape disk.old)) (page_number fid last.number) last.at buf.old → IsLast (pack (D.tape disk.old)) fid last → MayBeGrown (pack (D.tape disk.old)) o fid bytes.now past.now fresh.now → OnOk result (Grew (pack (D.tape disk.old)) (pack (D.tape disk.new)) fid last.number fresh.now) }
    ensures frame { IsTrue D.told → WritesIn (IsHereOrFree last.at (pack (D.tape disk.old))) (added (D.tape disk.old) (D.tape disk.new)) }
    ensures were_free { IsTrue D.told → OnOk result (All (IsFreeSector (pack (D.tape disk.old))) fresh.now) }
    ensures table { OnErr result (table.new ≡ table.old) }
    ensures few { OnOk result (last.number + length fresh.now ≤ 65535) }
    ensures sized { length table.new ≡ length table.old }
    ensures runs { (o : Operation) → IsTrue D.told → Whole (pack (D.tape disk.old)) → Tidy (pack (D.tape disk.old)) → Stands (pack (D.tape disk.old)) (page_number fid last.number) last.at buf.old → IsLast (pack (D.tape disk.old)) fid last → MayBeGrown (pack (D.tape disk.old)) o fid bytes.now past.now fresh.now → (D.tape disk.new).runs ≤ (D.tape disk.old).runs + (2 * length fresh.now + 4) }
{
    let _limit = limit_of(tally);
    let shape = disk.shape();
    let old = last.info.bytes as usize;
    let count = bytes.len().min(PAGE_BYTES as usize - old);
    let more = after_first(bytes, count);
    match claim_pages(disk, fid, last.number, last.at, more, past, fresh) {
        Ok(()) => {}
        Err(error) => return Err(error),
    }
    let words = words_that_fit(past_last(past, fresh), old + count);
    put_in_words(&mut buf.value, old, &bytes[..count], words);
    let next = link_to_first(shape, fresh);
    let label = with_count(&buf.label, (old + count) as u16, next);
    let page = page_of_file(fid, last.number);
    let committed = commit_page(disk, tally, last.at, page, label, &buf.value);
    match committed {
        Ok(()) => {
            mark_busy(table, fresh);
            Ok(())
        }
        Err(error) => Err(error),
    }
}

/// Puts these bytes after those of an ordinary file, or after those of a directory the bytes of a free slot of 256 words. The pages that
/// come are claimed first, in the sectors `fresh`, given by their virtual addresses, in order; then the old last page is written: its
/// value, its label, which commits, and its value again. `past` are words after the last byte that don't count; they have to fit in the
/// page that is the last then. The sectors have to be free ones, each of them once, and as many as pages come. The last page is located
/// first; what `buf` holds afterwards is open. With m pages that come there are 3m + 3 record writes, and with true links, handy hints and
/// a leader that names the last page at most 2m + 6 sector commands. With true links and a handy cache there are at most 2m + 7, whatever
/// the leader names, if the highest page that the cache lists is the last; so it is again after the growth. The sectors of the pages that
/// come are busy in the table then; the cache lists the last 48 of these pages, and the last page if none comes, unless a note was refused.
/// On any pack, and whatever the answer is, each record write is in a sector that was free or in a page that ends the file; so a sector of
/// `fresh` that isn't free stays, unless it carries such a page, and the answer isn't Ok then.
///
/// Misled: the address that the file is named with or a next link of it misleads. Of what isn't as asked, or where the machine isn't
/// modelled, it also comes of an address of `fresh` that is no usable sector's or whose sector isn't free, and of the sector in which this
/// call found the last page, if it no longer carries it. DiskFault: the device failed. Memory: no memory was left for a record write. After
/// each of these a prefix of the record writes was done, and the table is as before.
pub fn grow<D: Disk>(
    disk: &mut D,
    hints: &mut Hints,
    tally: &mut Tally,
    file: &FileRef,
    bytes: &[u8],
    past: &[u16],
    fresh: &[u16],
    buf: &mut Sector,
) -> Result<(), FileError>
    requires sized { length hints.old.table ≡ pages_of (D.tape disk.old).form }
    requires some { 0 < length bytes.now }

    // What it does, for a file and for a directory, by which record writes, and which error comes when.
    ensures operates { (o : Operation) → IsTrue D.told → FileStands (pack (D.tape disk.old)) file.now → MayBeGrown (pack (D.tape disk.old)) o file.now.fid bytes.now past.now fresh.now → Operates error.DiskFault error.Memory o fresh.now (around (D.tape disk.old) hints.old.table tally.old) (around (D.tape disk.new) hints.new.table tally.new) result }
    ensures grows { (o : Operation) (at : ℕ) → IsTrue D.told → FileStands (pack (D.tape disk.old)) file.now → MayBeGrown (pack (D.tape disk.old)) o file.now.fid bytes.now past.now fresh.now → place (sights (pack (D.tape disk.old))) file.now.fid (page_of_byte (file_length (pack (D.tape disk.old)) file.now.fid)) ≡ Some at → WritesAs (growth_writes (pack (D.tape disk.old)) file.now.fid at bytes.now past.now fresh.now) (added (D.tape disk.old) (D.tape disk.new)) result }
    ensures misled { (o : Operation) → IsTrue D.told → FileStands (pack (D.tape disk.old)) file.now → MayBeGrown (pack (D.tape disk.old)) o file.now.fid bytes.now past.now fresh.now → IfMisled result (MisledBy (pack (D.tape disk.old)) [] file.now.fid) }
    ensures quiet { (o : Operation) → IsTrue D.told → FileStands (pack (D.tape disk.old)) file.now → MayBeGrown (pack (D.tape disk.old)) o file.now.fid bytes.now past.now fresh.now → IfMisled result (λ place at wanted found. IsQuiet (around (D.tape disk.old) hints.old.table tally.old) (around (D.tape disk.new) hints.new.table tally.new)) }
    ensures true_links { (o : Operation) → IsTrue D.told → FileStands (pack (D.tape disk.old)) file.now → MayBeGrown (pack (D.tape disk.old)) o file.now.fid bytes.now past.now fresh.now → LinksTrue (pack (D.tape disk.old)) → IfMisled result (λ place at wanted found. ⊥) }
    ensures given { IfMisled result (IsHintOfGrowth file.now fresh.now hints.old.cache hints.new.cache) }
    ensures cause { HasCause cause_of_length (D.tape disk.old) (D.tape disk.new) result }
    ensures alone { DiskAlone (D.tape disk.old) (D.tape disk.new) }
    ensures quick { (o : Operation) → IsTrue D.told → FileStands (pack (D.tape disk.old)) file.now → MayBeGrown (pack (D.tape disk.old)) o file.now.fid bytes.now past.now fresh.now → Quick (pack (D.tape disk.old)) file.now.fid hints.old.cache → LastNamed (pack (D.tape disk.old)) file.now.fid → OnOk result ((D.tape disk.new).runs ≤ (D.tape disk.old).runs + (2 * length fresh.now + 6)) }
    ensures near { (o : Operation) → IsTrue D.told → FileStands (pack (D.tape disk.old)) file.now → MayBeGrown (pack (D.tape disk.old)) o file.now.fid bytes.now past.now fresh.now → QuickCache (pack (D.tape disk.old)) file.now.fid hints.old.cache → EndListed (pack (D.tape disk.old)) file.now.fid hints.old.cache → OnOk result ((D.tape disk.new).runs ≤ (D.tape disk.old).runs + (2 * length fresh.now + 7)) }

    // Where it writes, on every modelled pack; a sector that was given as free and isn't stays, unless it carries such a page.
    ensures frame { IsTrue D.told → WritesIn (IsEndOrFree file.now.fid (pack (D.tape disk.old))) (added (D.tape disk.old) (D.tape disk.new)) }
    ensures were_free { IsTrue D.told → OnOk result (All (IsFreeSector (pack (D.tape disk.old))) fresh.now) }

    // What becomes of the hints. The leader names the page that it named, and so many more come after it.
    ensures named { (o : Operation) (more : ℕ) → IsTrue D.told → FileStands (pack (D.tape disk.old)) file.now → MayBeGrown (pack (D.tape disk.old)) o file.now.fid bytes.now past.now fresh.now → NamedNearEnd (pack (D.tape disk.old)) file.now.fid more → OnOk result (NamedNearEnd (pack (D.tape disk.new)) file.now.fid (more + length fresh.now)) }
    ensures table { OnErr result (hints.new.table ≡ hints.old.table) }
    ensures sized { length hints.new.table ≡ length hints.old.table }
    ensures refused { hints.old.cache.refused ≤ hints.new.cache.refused }
    ensures listed { OnOk result (ListsGrown D.told (pack (D.tape disk.old)) file.now.fid fresh.now hints.old.cache hints.new.cache) }
    ensures highest { (o : Operation) → IsTrue D.told → FileStands (pack (D.tape disk.old)) file.now → MayBeGrown (pack (D.tape disk.old)) o file.now.fid bytes.now past.now fresh.now → OnOk result (page_of_byte (file_length (pack (D.tape disk.new)) file.now.fid) < 65535 → EndListed (pack (D.tape disk.new)) file.now.fid hints.new.cache ⊎ Refused hints.old.cache hints.new.cache) }
    ensures handy { (o : Operation) → IsTrue D.told → FileStands (pack (D.tape disk.old)) file.now → MayBeGrown (pack (D.tape disk.old)) o file.now.fid bytes.now past.now fresh.now → OnOk result (StaysHandy (pack (D.tape disk.old)) (pack (D.tape disk.new)) hints.old.cache hints.new.cache) }
{
    let last = match last_page(disk, hints, file, buf) {
        Ok(last) => last,
        Err(error) => return Err(error),
    };
    match first_unusable(disk.shape(), fresh) {
        Some(at) => return Err(at_held(at, page_of_file(file.fid, last.number))),
        None => {}
    }
    let grown = grow_pages(
        disk,
        &mut hints.table,
        tally,
        file.fid,
        last,
        bytes,
        past,
        fresh,
        buf,
    );
    match grown {
        Ok(()) => {
            note_pages(&mut hints.cache, file.fid, last.number, fresh);
            Ok(())
        }
        Err(error) => Err(error),
    }
}
