// Another name, or another written date, in a leader page.
ghost use Rattle.std.specs.Prelude.{◌≡◌, ◌+◌, ◌≤◌, ℕ, IsErrOf, IsTrue, OnErr, OnOk, [], length, true};
ghost use Rattle.alto_words.specs.Names.{is_stored_name};
ghost use Rattle.disk_records.specs.Bytes.{put_at};
ghost use Rattle.disk_records.specs.Causes.{HasCause};
ghost use Rattle.disk_records.specs.Frames.{IsPageOf, WritesIn};
ghost use Rattle.disk_records.specs.Tapes.{DiskAlone, added, pack};
ghost use Rattle.laws_call.specs.Acting.{Operates, around};
ghost use Rattle.laws_operation.specs.ByteLaws.{IsOrdinary};
ghost use Rattle.pack_model.specs.hints.Links.{LinksTrue};
ghost use Rattle.pack_model.specs.operations.PageWords.{halves, stamped_value, titled_value};
ghost use Rattle.page_seeking.specs.Causes.{cause_of_length};
ghost use Rattle.page_seeking.specs.Refs.{FileStands, IfMisled, IsOwnHint, MisledBy};
ghost use Rattle.page_seeking.specs.Seeking.{LastNamed, NamedNearEnd, Quick, QuickCache};
ghost use Rattle.page_seeking.specs.declared.refs.FileError.TheVariants as error;
ghost use Rattle.file_pages.specs.Calls.{IsHintOrFound, ListsItsEnd, ListsLeader, to_stamp, to_title};
ghost use Rattle.file_pages.specs.Values.{LeavesHandy, Stamps, Titles};

use crate::ends::locate_ends;
use crate::one_value::write_page;
use crate::refs::page_of_file;
use crate::{FileError, FileRef};
use alto_words::Name;
use disk_records::{Disk, Sector, Tally};
use hint_cache::Hints;
use leader_page::name_words;
use page_seeking::{LastPage, locate};

/// The words of a leader page where its written date is, its name, and the address, the number and the bytes of the last page.
const WRITTEN: usize = 2;

const NAME: usize = 6;

const REST: usize = 26;

const LAST: usize = 253;

/// Puts another name in the value of a leader page.
fn put_name(value: &mut [u16; 256], name: &Name)
    ensures value { value.new ≡ titled_value name.now value.old }
    ensures stored { is_stored_name name.now ≡ true }
{
    value[NAME..REST].copy_from_slice(&name_words(name));
}

/// Gives the leader of an ordinary file another name, by one value write. Its leader page is located first; what `buf` holds afterwards is
/// open. On any pack, and whatever the answer is, the record write is in a page of the file.
///
/// Misled: the address that the file is named with misleads; where the machine isn't modelled also the sector in which this call found the
/// leader, if it no longer carries it. DiskFault: the device failed. Memory: no memory was left for the record write. After each of these
/// nothing was written, or after DiskFault all of it may be.
pub fn title<D: Disk>(
    disk: &mut D,
    hints: &mut Hints,
    tally: &mut Tally,
    file: &FileRef,
    name: &Name,
    buf: &mut Sector,
) -> Result<(), FileError>
    ensures frame { IsTrue D.told → WritesIn (IsPageOf file.now.fid (pack (D.tape disk.old))) (added (D.tape disk.old) (D.tape disk.new)) }
    ensures operates { IsTrue D.told → FileStands (pack (D.tape disk.old)) file.now → IsOrdinary file.now.fid → Operates error.DiskFault error.Memory (to_title file.now.fid name.now) [] (around (D.tape disk.old) hints.old.table tally.old) (around (D.tape disk.new) hints.new.table tally.new) result }
    ensures titles { IsTrue D.told → Titles (pack (D.tape disk.old)) file.now.fid name.now (around (D.tape disk.old) hints.old.table tally.old) (around (D.tape disk.new) hints.new.table tally.new) result }
    ensures misled { IsTrue D.told → FileStands (pack (D.tape disk.old)) file.now → IfMisled result (MisledBy (pack (D.tape disk.old)) [] file.now.fid) }
    ensures hint { IsTrue D.told → IfMisled result (IsOwnHint file.now) }
    ensures given { IfMisled result (IsHintOrFound file.now) }
    ensures true_links { IsTrue D.told → FileStands (pack (D.tape disk.old)) file.now → LinksTrue (pack (D.tape disk.old)) → IfMisled result (λ place at wanted found. ⊥) }
    ensures cause { HasCause cause_of_length (D.tape disk.old) (D.tape disk.new) result }
    ensures unwritten { IsTrue D.told → (IsErrOf result error.DiskFault → ⊥) → OnErr result (added (D.tape disk.old) (D.tape disk.new) ≡ []) }
    ensures alone { DiskAlone (D.tape disk.old) (D.tape disk.new) }
    ensures table { hints.new.table ≡ hints.old.table }
    ensures refused { hints.old.cache.refused ≤ hints.new.cache.refused }
    ensures listed { OnOk result (ListsLeader D.told (pack (D.tape disk.old)) file.now.fid hints.old.cache hints.new.cache) }
    ensures handy { IsTrue D.told → LeavesHandy (pack (D.tape disk.old)) (pack (D.tape disk.new)) hints.old.cache hints.new.cache }
    ensures quick { IsTrue D.told → Quick (pack (D.tape disk.old)) file.now.fid hints.old.cache → OnOk result ((D.tape disk.new).runs ≤ (D.tape disk.old).runs + 3) }
{
    match locate(disk, hints, file, 0, buf) {
        Ok((at, _)) => {
            put_name(&mut buf.value, name);
            write_page(disk, tally, at, page_of_file(file.fid, 0), &buf.value)
        }
        Err(error) => Err(error),
    }
}

/// A number as two words, the high one first.
fn halves(number: u32) -> [u16; 2]
    ensures { result ≡ halves number }
{
    [(number / 65_536) as u16, (number % 65_536) as u16]
}

/// Puts words in the place of others, from a word on.
fn put_words(value: &mut [u16; 256], at: usize, words: &[u16])
    requires { at + length words.now ≤ 256 }
    ensures { value.new ≡ put_at at words.now value.old }
{
    value[at..at + words.len()].copy_from_slice(words);
}

/// Puts another written date and another last page in the value of a leader page.
fn put_stamp(value: &mut [u16; 256], moment: u32, last: LastPage)
    ensures { value.new ≡ stamped_value moment last.at last.number last.info.bytes value.old }
{
    put_words(value, WRITTEN, &halves(moment));
    put_words(value, LAST, &[last.at, last.number, last.info.bytes]);
}

/// Gives the leader of an ordinary file another written date, in seconds since the start of 1901, and the address, the number and the bytes
/// of its last page, by one value write. Its leader and its last page are located first: the page that the leader names is looked at, and
/// where it is full, the highest one that the cache lists; from there the next links are followed. The last page is listed then, unless a
/// note was refused, and what `buf` holds is open. On any pack, and whatever the answer is, the record write is in a page of the file. With
/// true links, a handy cache and a leader that names a data page it takes at most 6 sector commands, and one more for each page after that
/// one; with handy hints and a leader that names the last page at most 4.
///
/// Misled: a hint of the file misleads, as `locate` says; where the machine isn't modelled also the sector in which this call found a page
/// of the file, if it no longer carries it. DiskFault: the device failed. Memory: no memory was left for the record write. After each of
/// these nothing was written, or after DiskFault all of it may be.
pub fn stamp<D: Disk>(
    disk: &mut D,
    hints: &mut Hints,
    tally: &mut Tally,
    file: &FileRef,
    moment: u32,
    buf: &mut Sector,
) -> Result<(), FileError>
    ensures frame { IsTrue D.told → WritesIn (IsPageOf file.now.fid (pack (D.tape disk.old))) (added (D.tape disk.old) (D.tape disk.new)) }
    ensures operates { IsTrue D.told → FileStands (pack (D.tape disk.old)) file.now → IsOrdinary file.now.fid → Operates error.DiskFault error.Memory (to_stamp file.now.fid moment) [] (around (D.tape disk.old) hints.old.table tally.old) (around (D.tape disk.new) hints.new.table tally.new) result }
    ensures stamps { IsTrue D.told → Stamps (pack (D.tape disk.old)) file.now.fid moment (around (D.tape disk.old) hints.old.table tally.old) (around (D.tape disk.new) hints.new.table tally.new) result }
    ensures misled { IsTrue D.told → FileStands (pack (D.tape disk.old)) file.now → IfMisled result (MisledBy (pack (D.tape disk.old)) [] file.now.fid) }
    ensures hint { IsTrue D.told → IfMisled result (IsOwnHint file.now) }
    ensures given { IfMisled result (IsHintOrFound file.now) }
    ensures true_links { IsTrue D.told → FileStands (pack (D.tape disk.old)) file.now → LinksTrue (pack (D.tape disk.old)) → IfMisled result (λ place at wanted found. ⊥) }
    ensures cause { HasCause cause_of_length (D.tape disk.old) (D.tape disk.new) result }
    ensures unwritten { IsTrue D.told → (IsErrOf result error.DiskFault → ⊥) → OnErr result (added (D.tape disk.old) (D.tape disk.new) ≡ []) }
    ensures alone { DiskAlone (D.tape disk.old) (D.tape disk.new) }
    ensures table { hints.new.table ≡ hints.old.table }
    ensures refused { hints.old.cache.refused ≤ hints.new.cache.refused }
    ensures listed { OnOk result (ListsItsEnd D.told (pack (D.tape disk.old)) file.now.fid hints.old.cache hints.new.cache) }
    ensures handy { IsTrue D.told → LeavesHandy (pack (D.tape disk.old)) (pack (D.tape disk.new)) hints.old.cache hints.new.cache }
    ensures quick { IsTrue D.told → Quick (pack (D.tape disk.old)) file.now.fid hints.old.cache → LastNamed (pack (D.tape disk.old)) file.now.fid → OnOk result ((D.tape disk.new).runs ≤ (D.tape disk.old).runs + 4) }
    ensures climbs { (more : ℕ) → IsTrue D.told → QuickCache (pack (D.tape disk.old)) file.now.fid hints.old.cache → NamedNearEnd (pack (D.tape disk.old)) file.now.fid more → OnOk result ((D.tape disk.new).runs ≤ (D.tape disk.old).runs + (more + 6)) }
{
    let mut value = [0; 256];
    match locate_ends(disk, hints, file, &mut value, buf) {
        Ok((at, last)) => {
            put_stamp(&mut value, moment, last);
            write_page(disk, tally, at, page_of_file(file.fid, 0), &value)
        }
        Err(error) => Err(error),
    }
}
