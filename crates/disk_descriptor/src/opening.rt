// Opening a pack: what DiskDescriptor says is tested, and then kept.
ghost use Rattle.std.specs.Prelude.{◌≡◌, ◌*◌, ◌≤◌, IfOk, IsErrOf, IsTrue, OnErr, OnOk, [], length};
ghost use Rattle.alto_words.specs.Fid.{disk_descriptor};
ghost use Rattle.alto_words.specs.declared.fid.Fid.{Fid};
ghost use Rattle.disk_records.specs.Addresses.{pages_of};
ghost use Rattle.disk_records.specs.Causes.{HasCause, Unfailed};
ghost use Rattle.disk_records.specs.Packs.{Pack};
ghost use Rattle.disk_records.specs.Tapes.{Looks, Taped, pack};
ghost use Rattle.hint_cache.specs.Bits.{bit_in, bits_in};
ghost use Rattle.pack_model.specs.hints.Links.{LinksTrue};
ghost use Rattle.pack_model.specs.hints.Misled.{IsOnDisk};
ghost use Rattle.pack_model.specs.states.Sound.{mark_clean};
ghost use Rattle.page_seeking.specs.Refs.{FileStands, MisledBy};
ghost use Rattle.page_seeking.specs.Seeking.{KeepsHandy};
ghost use Rattle.disk_descriptor.specs.Opening.{HasBadWord, HasCleanPage, HasWrongLength, IfBadDescriptor, IfNotClean, IfOpenMisled, IfWrongLength, IsOpened, IsUnclean, MayBeOpened, OpensIfClean, bad_word, cause_of_opening, open_error, shape_words};
ghost use Rattle.disk_descriptor.specs.Fields.{AreSectors};
ghost use Rattle.disk_descriptor.specs.Reading.{HasFirstPage, IsRead};

use crate::OpenError;
use crate::closing::CLEAN;
use crate::descriptor::{Descriptor, LAST, MARK};
use crate::reading::read_file;
use disk_records::{Disk, Shape};
use hint_cache::{BitTable, Hints};
use page_seeking::{FileError, FileRef};

/// The words before the allocation map.
const HEADING: usize = 16;

/// The bits of a word.
const WORD_BITS: u16 = 16;

/// The first of words 0 to 3 and 8 that isn't as this shape has it, and what it is.
fn bad_word(shape: Shape, words: &[u16; 1280]) -> Option<(u16, u16)>
    ensures { result ≡ bad_word (shape_words shape) words.now }
{
    if words[0] != shape.disks() {
        return Some((0, words[0]));
    }
    if words[1] != shape.cylinders() {
        return Some((1, words[1]));
    }
    if words[2] != 2 {
        return Some((2, words[2]));
    }
    if words[3] != 12 {
        return Some((3, words[3]));
    }
    if words[8] != shape.pages().div_ceil(16) {
        return Some((8, words[8]));
    }
    None
}

/// Whether these words have the sector at this address as busy. A missing word has ones.
fn bit_in(words: &[u16], at: u16) -> bool
    ensures { result ≡ bit_in words.now at }
{
    let word = words
        .get((at / WORD_BITS) as usize)
        .copied()
        .unwrap_or(u16::MAX);
    (word >> (WORD_BITS - 1 - at % WORD_BITS)) % 2 == 1
}

/// Makes a table the one that these words hold.
fn fill_table(table: &mut BitTable, words: &[u16])
    ensures bits { table.new ≡ bits_in (length table.old) words.now }
    ensures sized { length table.new ≡ length table.old }
{
    for at in 0..table.pages() {
        table.set(at, bit_in(words, at));
    }
}

/// The answer if a page of DiskDescriptor isn't read.
fn open_error(error: FileError) -> OpenError
    ensures { result ≡ open_error error }
{
    match error {
        FileError::Misled {
            place,
            at,
            wanted,
            found,
        } => OpenError::Misled {
            place,
            at,
            wanted,
            found,
        },
        FileError::Beyond { length } => OpenError::WrongLength { length },
        FileError::DiskFault => OpenError::DiskFault,
        FileError::Memory => OpenError::Memory,
    }
}

/// Tests what was read of DiskDescriptor, its length, its words and its mark, in this order; then keeps it with the sectors of its pages,
/// and makes the table its map.
fn keep_read(
    shape: Shape,
    size: u32,
    words: &[u16; 1280],
    pages: &[u16; 5],
    table: &mut BitTable,
) -> Result<Descriptor, OpenError>
    requires sectors { AreSectors shape pages.now }
    requires sized { length table.old ≡ pages_of shape }
    ensures opened { (p : Pack) → IsRead p disk_descriptor words.now pages.now size → p.shape ≡ shape → IfOk result (λ kept. IsOpened p kept table.new) }
    ensures clean { IfOk result (λ kept. kept.mark ≡ mark_clean) }
    ensures clean_page { (p : Pack) (f : Fid) → HasFirstPage p f words.now → p.shape ≡ shape → OnOk result (HasCleanPage p f) }
    ensures wrong_length { (p : Pack) → IsRead p disk_descriptor words.now pages.now size → p.shape ≡ shape → IfWrongLength result (HasWrongLength p) }
    ensures bad_word { (p : Pack) → IsRead p disk_descriptor words.now pages.now size → p.shape ≡ shape → IfBadDescriptor result (HasBadWord p) }
    ensures not_clean { (p : Pack) → IsRead p disk_descriptor words.now pages.now size → p.shape ≡ shape → IfNotClean result (IsUnclean p) }
    ensures misled { IfOpenMisled result (λ place at wanted found. ⊥) }
    ensures cause { (old new : Taped) → Unfailed old new → HasCause cause_of_opening old new result }
    ensures want { IsErrOf result OpenError.Memory → ⊥ }
    ensures shape { IfOk result (λ kept. kept.shape ≡ shape) }
    ensures sized { length table.new ≡ length table.old }
    ensures left { OnErr result (table.new ≡ table.old) }
{
    if size != shape.descriptor_length() {
        return Err(OpenError::WrongLength { length: size });
    }
    if let Some((word, found)) = bad_word(shape, words) {
        return Err(OpenError::BadDescriptor { word, found });
    }
    if words[MARK] != CLEAN {
        return Err(OpenError::NotClean { mark: words[MARK] });
    }
    let map_words = shape.pages().div_ceil(16) as usize;
    fill_table(table, &words[HEADING..HEADING + map_words]);
    Ok(Descriptor {
        shape,
        last: words[LAST] as u32 * 65536 + words[LAST + 1] as u32,
        mark: words[MARK],
        pages: *pages,
    })
}

/// Opens the pack whose DiskDescriptor is found at this entry: what it says is kept, and `hints` have its allocation map as their table.
/// Its pages are located one after another. Nothing is written, and no memory is taken.
///
/// Misled: the address of the entry, or a next link of DiskDescriptor, names no usable sector, or one that doesn't carry its page. Then, in
/// this order: WrongLength, DiskDescriptor isn't as long as for this shape; BadDescriptor, word 0, 1, 2, 3 or 8 says another shape;
/// NotClean, the mark isn't the clean one. DiskFault: the device failed. Memory: none was left, which no disk that is modelled answers
/// here. After each of them the table is as before. On a pack that carries a page twice too, it is Ok only if a sector that carries page 1
/// of the file has the clean mark and the right words.
pub fn enter_pack<D: Disk>(
    disk: &mut D,
    hints: &mut Hints,
    entry: &FileRef,
) -> Result<Descriptor, OpenError>
    requires sized { length hints.old.table ≡ pages_of (D.tape disk.old).form }
    ensures opened { IsTrue D.told → MayBeOpened (pack (D.tape disk.old)) entry.now → IfOk result (λ kept. IsOpened (pack (D.tape disk.old)) kept hints.new.table) }
    ensures clean { IfOk result (λ kept. kept.mark ≡ mark_clean) }
    ensures clean_page { IsTrue D.told → OnOk result (HasCleanPage (pack (D.tape disk.old)) entry.now.fid) }
    ensures wrong_length { IsTrue D.told → MayBeOpened (pack (D.tape disk.old)) entry.now → IfWrongLength result (HasWrongLength (pack (D.tape disk.old))) }
    ensures bad_word { IsTrue D.told → MayBeOpened (pack (D.tape disk.old)) entry.now → IfBadDescriptor result (HasBadWord (pack (D.tape disk.old))) }
    ensures not_clean { IsTrue D.told → MayBeOpened (pack (D.tape disk.old)) entry.now → IfNotClean result (IsUnclean (pack (D.tape disk.old))) }
    ensures misled { IsTrue D.told → MayBeOpened (pack (D.tape disk.old)) entry.now → IfOpenMisled result (MisledBy (pack (D.tape disk.old)) [] entry.now.fid) }
    ensures on_disk { IsTrue D.told → MayBeOpened (pack (D.tape disk.old)) entry.now → IfOpenMisled result (λ place at wanted found. IsOnDisk place) }
    ensures true_links { IsTrue D.told → FileStands (pack (D.tape disk.old)) entry.now → entry.now.fid ≡ disk_descriptor → LinksTrue (pack (D.tape disk.old)) → OpensIfClean result }
    ensures cause { HasCause cause_of_opening (D.tape disk.old) (D.tape disk.new) result }
    ensures want { IsTrue D.told → IsErrOf result OpenError.Memory → ⊥ }
    ensures shape { IfOk result (λ kept. kept.shape ≡ (D.tape disk.old).form) }
    ensures looks { Looks D.told (65588 * 65535) (D.tape disk.old) (D.tape disk.new) }
    ensures sized { length hints.new.table ≡ length hints.old.table }
    ensures left { OnErr result (hints.new.table ≡ hints.old.table) }
    ensures refused { hints.old.cache.refused ≤ hints.new.cache.refused }
    ensures handy { IsTrue D.told → KeepsHandy (pack (D.tape disk.old)) hints.old.cache hints.new.cache }
{
    let shape = disk.shape();
    let mut words = [0; 1280];
    let mut pages = [1; 5];
    match read_file(disk, hints, entry, &mut words, &mut pages) {
        Ok(size) => keep_read(shape, size, &words, &pages, &mut hints.table),
        Err(error) => Err(open_error(error)),
    }
}
