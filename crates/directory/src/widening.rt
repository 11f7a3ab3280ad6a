// A directory that is widened.
ghost use Rattle.std.specs.Prelude.{◌≡◌, ◌+◌, ◌≤◌, [], ◌∷◌, IsTrue, OnErr, OnOk, Some, length, ℕ};
ghost use Rattle.disk_records.specs.Addresses.{pages_of};
ghost use Rattle.disk_records.specs.Causes.{HasCause, never};
ghost use Rattle.disk_records.specs.Frames.{IsFreeSector, WritesIn};
ghost use Rattle.disk_records.specs.Tapes.{DiskAlone, added, pack};
ghost use Rattle.file_pages.specs.Calls.{StaysHandy};
ghost use Rattle.file_pages.specs.Growing.{IsEndOrFree, IsHintOfGrowth, ListsGrown, growth_writes};
ghost use Rattle.laws_call.specs.Acting.{IsQuiet, Operates, around};
ghost use Rattle.pack_model.specs.hints.Links.{LinksTrue};
ghost use Rattle.pack_model.specs.operations.Committing.{page_of_byte};
ghost use Rattle.pack_model.specs.operations.PageWords.{widening_bytes};
ghost use Rattle.pack_model.specs.reading.Files.{place};
ghost use Rattle.pack_model.specs.reading.Sights.{sights};
ghost use Rattle.page_seeking.specs.Refs.{MisledBy};
ghost use Rattle.page_seeking.specs.Seeking.{LastNamed, Quick, file_length};
ghost use Rattle.directory.specs.Asked.{DirStands};
ghost use Rattle.directory.specs.Errors.{IfMisled, cause_of, disk_fault, out_of_memory};
ghost use Rattle.directory.specs.Widening.{MayBeWidened, WrotePart, to_widen};

use crate::answers::in_directory;
use crate::{DirError, FileRef};
use disk_records::{Disk, PAGE_BYTES, Sector, Tally};
use file_pages::grow;
use hint_cache::Hints;

/// The bytes of a free slot of 256 words: its first word is their number, and each other one is 0.
fn free_page() -> [u8; 512]
    ensures { result ≡ widening_bytes }
{
    let mut bytes = [0; 512];
    bytes[0] = 1;
    bytes
}

/// Gives a directory one page more, in the sector at the virtual address `fresh`, which has to be a free one: a free slot of 256 words
/// comes after its other slots. It is done as `grow` of file_pages does it, in six record writes of which the fifth commits, and with true
/// links, handy hints and a leader that names the last page in eight sector commands. The page that comes is noted then, and busy in the
/// table.
///
/// File: Misled where the address that the directory is named with, or a next link of it, misleads, or `fresh` is no usable sector's
/// address, or, where the machine isn't modelled, its sector isn't free; DiskFault where the device failed; Memory where no memory was left
/// for a record write. After each of these a prefix of the record writes was done, and the table is as before; what `buf` holds is open. No
/// other error comes. On any pack, and whatever the answer is, each record write is in a sector that was free or in a page that ends the
/// directory; so where the sector at `fresh` isn't free, it stays, unless it carries such a page, and the answer isn't Ok.
pub fn widen<D: Disk>(
    disk: &mut D,
    hints: &mut Hints,
    tally: &mut Tally,
    dir: &FileRef,
    fresh: u16,
    buf: &mut Sector,
) -> Result<(), DirError>
    requires sized { length hints.old.table ≡ pages_of (D.tape disk.old).form }

    // What it does, with its exact record writes, and which error comes when.
    ensures operates { IsTrue D.told → DirStands (pack (D.tape disk.old)) dir.now → MayBeWidened (pack (D.tape disk.old)) fresh → Operates disk_fault out_of_memory (to_widen dir.now.fid) (fresh ∷ []) (around (D.tape disk.old) hints.old.table tally.old) (around (D.tape disk.new) hints.new.table tally.new) result }
    ensures widens { (at : ℕ) → IsTrue D.told → DirStands (pack (D.tape disk.old)) dir.now → MayBeWidened (pack (D.tape disk.old)) fresh → place (sights (pack (D.tape disk.old))) dir.now.fid (page_of_byte (file_length (pack (D.tape disk.old)) dir.now.fid)) ≡ Some at → WrotePart (growth_writes (pack (D.tape disk.old)) dir.now.fid at widening_bytes [] (fresh ∷ [])) (added (D.tape disk.old) (D.tape disk.new)) result }
    ensures misled { IsTrue D.told → DirStands (pack (D.tape disk.old)) dir.now → MayBeWidened (pack (D.tape disk.old)) fresh → IfMisled result (MisledBy (pack (D.tape disk.old)) [] dir.now.fid) }
    ensures quiet { IsTrue D.told → DirStands (pack (D.tape disk.old)) dir.now → MayBeWidened (pack (D.tape disk.old)) fresh → IfMisled result (λ place at wanted found. IsQuiet (around (D.tape disk.old) hints.old.table tally.old) (around (D.tape disk.new) hints.new.table tally.new)) }
    ensures true_links { IsTrue D.told → DirStands (pack (D.tape disk.old)) dir.now → MayBeWidened (pack (D.tape disk.old)) fresh → LinksTrue (pack (D.tape disk.old)) → IfMisled result (λ place at wanted found. ⊥) }
    ensures given { IfMisled result (IsHintOfGrowth dir.now (fresh ∷ []) hints.old.cache hints.new.cache) }
    ensures cause { HasCause (cause_of never never never) (D.tape disk.old) (D.tape disk.new) result }
    ensures alone { DiskAlone (D.tape disk.old) (D.tape disk.new) }
    ensures quick { IsTrue D.told → DirStands (pack (D.tape disk.old)) dir.now → MayBeWidened (pack (D.tape disk.old)) fresh → Quick (pack (D.tape disk.old)) dir.now.fid hints.old.cache → LastNamed (pack (D.tape disk.old)) dir.now.fid → OnOk result ((D.tape disk.new).runs ≤ (D.tape disk.old).runs + 8) }

    // Where it writes, on every modelled pack: in a free sector or in a page that ends the directory. A sector that was given as free and isn't
    // stays, unless it carries such a page.
    ensures frame { IsTrue D.told → WritesIn (IsEndOrFree dir.now.fid (pack (D.tape disk.old))) (added (D.tape disk.old) (D.tape disk.new)) }
    ensures was_free { IsTrue D.told → OnOk result (IsFreeSector (pack (D.tape disk.old)) fresh) }

    // What becomes of the hints.
    ensures table { OnErr result (hints.new.table ≡ hints.old.table) }
    ensures sized { length hints.new.table ≡ length hints.old.table }
    ensures refused { hints.old.cache.refused ≤ hints.new.cache.refused }
    ensures listed { OnOk result (ListsGrown D.told (pack (D.tape disk.old)) dir.now.fid (fresh ∷ []) hints.old.cache hints.new.cache) }
    ensures handy { IsTrue D.told → DirStands (pack (D.tape disk.old)) dir.now → MayBeWidened (pack (D.tape disk.old)) fresh → OnOk result (StaysHandy (pack (D.tape disk.old)) (pack (D.tape disk.new)) hints.old.cache hints.new.cache) }
{
    in_directory(grow(disk, hints, tally, dir, &free_page(), &[], &[fresh], buf))
}
