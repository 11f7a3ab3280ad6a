// The slots of a directory one after another, for a visitor.
ghost use Rattle.std.specs.Prelude.{◌≡◌, ℕ, ◌+◌, ◌*◌, ◌^◌, ◌<◌, ◌≤◌, ◌++◌, Bool, IfSome, IsTrue, IsErrOf, OnOk, OnErr, List, [], length, take};
ghost use Rattle.std.specs.List.{FoldsTo};
ghost use Rattle.disk_records.specs.Causes.{HasCause};
ghost use Rattle.disk_records.specs.Tapes.{Looks, pack};
ghost use Rattle.dir_slots.specs.Items.{IsInRange, item_of};
ghost use Rattle.dir_slots.specs.Laws.{HasStoredName};
ghost use Rattle.dir_slots.specs.Others.{IsOther};
ghost use Rattle.dir_slots.specs.Walks.{Walked, slot_met};
ghost use Rattle.pack_model.specs.hints.Links.{LinksTrue, dir_slots};
ghost use Rattle.pack_model.specs.hints.Misled.{IsOnDisk};
ghost use Rattle.pack_model.specs.reading.Slots.{item_words};
ghost use Rattle.pack_model.specs.reading.SlotWords.{SlotAt};
ghost use Rattle.page_seeking.specs.Causes.{cause_of_length};
ghost use Rattle.page_seeking.specs.Refs.{FileIsRooted, IfBeyond, IfMisled, IsOwnHint, MisledBy};
ghost use Rattle.page_seeking.specs.Seeking.{KeepsHandy, Quick};
ghost use Rattle.directory.specs.Asked.{DirIsFound, DirStands};
ghost use Rattle.directory.specs.Bounds.{most_words};
ghost use Rattle.directory.specs.Found.{IsQuick, IsReadByPages, ListsLastPage};
ghost use Rattle.directory.specs.Visits.{Visits, ended};

use alto_words::Memory;
use dir_slots::{Passing, PlacedSlot, Walk};
use disk_records::{Disk, PAGE_BYTES, Sector};
use hint_cache::{HintCache, Hints};
use page_seeking::{FileError, FileRef, locate};

/// What is done with each slot of a directory.
pub(crate) trait Visit {
    /// The visitor before a slot, the slot as it stands in the directory, and the visitor after it.
    ghost step: { Self → SlotAt → Self → Type 0 };

    /// Whether a step takes memory: a constant of the type.
    ghost takes_memory: { Bool };

    /// The slots that it need not be handed now, if there are any: at each of them it would stay as it is.
    fn passes(&self) -> Option<Passing>
        ensures { IfSome result (λ passing. (s : SlotAt) → IsOther passing s.item → step self.now s self.now) };

    /// Takes the next slot of the directory. Memory: no memory was left.
    fn visit(&mut self, met: PlacedSlot) -> Result<(), Memory>
        requires within { met.place + item_words (item_of met.slot) ≤ most_words }
        requires in_range { IsInRange met.slot }
        requires stored { HasStoredName met.slot }
        ensures step { OnOk result (step self.old (slot_met met) self.new) }
        ensures want { OnErr result (IsTrue takes_memory) };
}

/// Passes over slots of these words that the visitor need not be handed.
fn pass_for<V: Visit>(
    walk: &mut Walk,
    words: &[u16],
    from: &mut usize,
    visitor: &V,
    cache: &mut HintCache,
)
    requires within { from.old ≤ length words.now }
    requires fits { walk.old.place + walk.old.held + length words.now < 2 ^ 32 + from.old }
    ensures visits { (given : List ℕ) → Walked (given ++ take from.old words.now) walk.old → Visits V.step (given ++ take from.old words.now) (given ++ take from.new words.now) walk.new visitor.now visitor.now }
    ensures on { from.old ≤ from.new }
    ensures within { from.new ≤ length words.now }
    ensures taken { walk.new.place + walk.new.held + from.old ≡ walk.old.place + walk.old.held + from.new }
    ensures same { cache.new ≡ cache.old }
{
    if let Some(passing) = visitor.passes() {
        cache.pass_others(walk, words, from, &passing);
    }
}

/// Hands each slot that ends in these words, the next ones of the directory, to the visitor, except slots that it need not be handed.
fn visit_words<V: Visit>(
    walk: &mut Walk,
    words: &[u16],
    visitor: &mut V,
    cache: &mut HintCache,
) -> Result<(), Memory>
    requires walks { (given : List ℕ) × Walked given walk.old }
    requires fits { walk.old.place + walk.old.held + length words.now ≤ most_words }
    ensures visits { (given : List ℕ) → Walked given walk.old → OnOk result (Visits V.step given (given ++ words.now) walk.new visitor.old visitor.new) }
    ensures taken { OnOk result (walk.new.place + walk.new.held ≤ walk.old.place + walk.old.held + length words.now) }
    ensures want { OnErr result (IsTrue V.takes_memory) }
    ensures same { cache.new ≡ cache.old }
{
    let mut from = 0;
    pass_for(walk, words, &mut from, visitor, cache);
    while let Some(met) = walk.next(words, &mut from) {
        visitor.visit(met)?;
        pass_for(walk, words, &mut from, visitor, cache);
    }
    Ok(())
}

/// What a walk answers if a page isn't located. Beyond, which comes only where the machine isn't modelled, is an end of the directory.
fn ended(error: FileError) -> Result<(), FileError>
    ensures { result ≡ ended error }
{
    match error {
        FileError::Beyond { .. } => Ok(()),
        FileError::Misled {
            place,
            at,
            wanted,
            found,
        } => Err(FileError::Misled {
            place,
            at,
            wanted,
            found,
        }),
        FileError::DiskFault => Err(FileError::DiskFault),
        FileError::Memory => Err(FileError::Memory),
    }
}

/// Hands each slot of a directory to the visitor, in order, except those that it need not be handed (`passes`). Its pages are located one
/// after another; `buf` holds the last one then. It takes no memory of its own.
///
/// Misled and DiskFault come as from `locate`, and Beyond never. Memory: none was left for the visitor. After each of them the visitor has
/// met some first slots.
pub(crate) fn visit_slots<D: Disk, V: Visit>(
    disk: &mut D,
    hints: &mut Hints,
    dir: &FileRef,
    visitor: &mut V,
    buf: &mut Sector,
) -> Result<(), FileError>
    ensures visited { IsTrue D.told → DirIsFound (pack (D.tape disk.old)) dir.now → OnOk result (FoldsTo V.step visitor.old (dir_slots (pack (D.tape disk.old)) dir.now.fid) visitor.new) }
    ensures misled { IsTrue D.told → DirIsFound (pack (D.tape disk.old)) dir.now → IfMisled result (MisledBy (pack (D.tape disk.old)) [] dir.now.fid) }
    ensures on_disk { IsTrue D.told → FileIsRooted (pack (D.tape disk.old)) dir.now → IfMisled result (λ place at wanted found. IsOnDisk place) }
    ensures hint { IfMisled result (IsOwnHint dir.now) }
    ensures true_links { IsTrue D.told → DirStands (pack (D.tape disk.old)) dir.now → LinksTrue (pack (D.tape disk.old)) → IfMisled result (λ place at wanted found. ⊥) }
    ensures never_beyond { IfBeyond result (λ length. ⊥) }
    ensures cause { HasCause cause_of_length (D.tape disk.old) (D.tape disk.new) result }
    ensures want { IsTrue D.told → IsErrOf result FileError.Memory → IsTrue V.takes_memory }
    ensures looks { Looks D.told (65588 * 65535) (D.tape disk.old) (D.tape disk.new) }
    ensures pages { IsTrue D.told → IsReadByPages (pack (D.tape disk.old)) dir.now.fid (D.tape disk.old) (D.tape disk.new) }
    ensures quick { IsTrue D.told → Quick (pack (D.tape disk.old)) dir.now.fid hints.old.cache → OnOk result (IsQuick (pack (D.tape disk.old)) dir.now.fid hints.old.cache hints.new.cache (D.tape disk.old) (D.tape disk.new)) }
    ensures table { hints.new.table ≡ hints.old.table }
    ensures listed { IsTrue D.told → DirIsFound (pack (D.tape disk.old)) dir.now → OnOk result (ListsLastPage D.told (pack (D.tape disk.old)) dir.now.fid hints.old.cache hints.new.cache) }
    ensures refused { hints.old.cache.refused ≤ hints.new.cache.refused }
    ensures handy { IsTrue D.told → KeepsHandy (pack (D.tape disk.old)) hints.old.cache hints.new.cache }
{
    let mut walk = Walk::new();
    for full in 0..u16::MAX {
        match locate(disk, hints, dir, full + 1, buf) {
            Ok((_, info)) => {
                let words = &buf.value[..usize::from(info.bytes) / 2];
                match visit_words(&mut walk, words, visitor, &mut hints.cache) {
                    Ok(()) => {}
                    Err(Memory) => return Err(FileError::Memory),
                }
                if info.bytes != PAGE_BYTES {
                    return Ok(());
                }
            }
            Err(error) => return ended(error),
        }
    }
    Ok(())
}
