// DiskDescriptor as it is read: its words, and the sectors that carry its pages.
ghost use Rattle.std.specs.Prelude.{◌≡◌, ◌*◌, ◌<◌, ◌≤◌, IsErrOf, IsTrue, IfOk, OnOk, [], length, set};
ghost use Rattle.disk_records.specs.Causes.{HasCause};
ghost use Rattle.disk_records.specs.Tapes.{Looks, pack};
ghost use Rattle.pack_model.specs.hints.Misled.{IsOnDisk};
ghost use Rattle.pack_model.specs.reading.Bytes.{put_at};
ghost use Rattle.pack_model.specs.reading.Sights.{sights};
ghost use Rattle.pack_model.specs.states.Sentences.{EachOnce};
ghost use Rattle.page_seeking.specs.Causes.{cause_of_file};
ghost use Rattle.page_seeking.specs.Refs.{FileIsFrom, FileIsRooted, IfBeyond, IfMisled, MisledBy};
ghost use Rattle.page_seeking.specs.Seeking.{KeepsHandy};
ghost use Rattle.disk_descriptor.specs.Fields.{AreSectors};
ghost use Rattle.disk_descriptor.specs.Reading.{HasFirstPage, IsRead};

use disk_records::{Disk, PAGE_BYTES, Sector};
use hint_cache::Hints;
use page_seeking::{FileError, FileRef, locate};

/// The most data pages that DiskDescriptor has on any disk.
const MOST_PAGES: u16 = 5;

/// The words of a page.
const PAGE_WORDS: usize = 256;

/// Keeps the words of data page n, counted from 0, and the virtual address of its sector, if it is one of the first five.
fn keep_page(words: &mut [u16; 1280], pages: &mut [u16; 5], n: u16, at: u16, value: &[u16; 256])
    ensures words { n < 5 → words.new ≡ put_at (256 * n) value.now words.old }
    ensures other_words { 5 ≤ n → words.new ≡ words.old }
    ensures pages { n < 5 → pages.new ≡ set pages.old n at }
    ensures others { 5 ≤ n → pages.new ≡ pages.old }
    ensures many { length words.new ≡ 1280 }
    ensures room { length pages.new ≡ 5 }
{
    if n < MOST_PAGES {
        let first = PAGE_WORDS * usize::from(n);
        words[first..first + PAGE_WORDS].copy_from_slice(value);
        pages[usize::from(n)] = at;
    }
}

/// Reads a file to its end, and keeps the words and the sectors of its first five data pages. Answers its length. The pages are located one
/// after another. Nothing is written.
///
/// Misled, DiskFault and Memory come as from `locate`. Beyond: a page is missing, which comes only where the machine isn't modelled. After
/// an error what was kept is open.
pub(crate) fn read_file<D: Disk>(
    disk: &mut D,
    hints: &mut Hints,
    file: &FileRef,
    words: &mut [u16; 1280],
    pages: &mut [u16; 5],
) -> Result<u32, FileError>
    requires sectors { AreSectors (D.tape disk.old).form pages.old }
    ensures read { IsTrue D.told → EachOnce (sights (pack (D.tape disk.old))) → IfOk result (IsRead (pack (D.tape disk.old)) file.now.fid words.new pages.new) }
    ensures first_page { IsTrue D.told → OnOk result (HasFirstPage (pack (D.tape disk.old)) file.now.fid words.new) }
    ensures sectors { AreSectors (D.tape disk.old).form pages.new }
    ensures many { length words.new ≡ 1280 }
    ensures room { length pages.new ≡ 5 }
    ensures misled { IsTrue D.told → FileIsFrom (pack (D.tape disk.old)) file.now → IfMisled result (MisledBy (pack (D.tape disk.old)) [] file.now.fid) }
    ensures on_disk { IsTrue D.told → FileIsRooted (pack (D.tape disk.old)) file.now → IfMisled result (λ place at wanted found. IsOnDisk place) }
    ensures beyond { IsTrue D.told → EachOnce (sights (pack (D.tape disk.old))) → IfBeyond result (λ length. ⊥) }
    ensures cause { HasCause cause_of_file (D.tape disk.old) (D.tape disk.new) result }
    ensures want { IsTrue D.told → IsErrOf result FileError.Memory → ⊥ }
    ensures looks { Looks D.told (65588 * 65535) (D.tape disk.old) (D.tape disk.new) }
    ensures table { hints.new.table ≡ hints.old.table }
    ensures refused { hints.old.cache.refused ≤ hints.new.cache.refused }
    ensures handy { IsTrue D.told → KeepsHandy (pack (D.tape disk.old)) hints.old.cache hints.new.cache }
{
    let mut buf = Sector::ZEROS;
    for full in 0..u16::MAX {
        match locate(disk, hints, file, full + 1, &mut buf) {
            Ok((at, info)) => {
                keep_page(words, pages, full, at, &buf.value);
                if info.bytes != PAGE_BYTES {
                    return Ok(PAGE_BYTES as u32 * full as u32 + info.bytes as u32);
                }
            }
            Err(error) => return Err(error),
        }
    }
    Ok(PAGE_BYTES as u32 * u16::MAX as u32)
}
