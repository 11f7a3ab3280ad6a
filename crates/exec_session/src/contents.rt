// The length of a file, and its bytes.
ghost use Rattle.disk_records.specs.Causes.{HasCause};
ghost use Rattle.disk_records.specs.Tapes.{pack};
ghost use Rattle.exec_session.specs.Contents.{IsNextPart, IsNoted};
ghost use Rattle.exec_session.specs.Meant.{IfHint, IfRefused, IsSoon, LooksAbout};
ghost use Rattle.exec_session.specs.Stops.{cause_of_stop};
ghost use Rattle.pack_model.specs.hints.Links.{LinksTrue};
ghost use Rattle.pack_model.specs.operations.Committing.{page_of_byte};
ghost use Rattle.pack_model.specs.reading.Files.{file_bytes};
ghost use Rattle.pack_model.specs.reading.Sights.{sights};
ghost use Rattle.pack_model.specs.states.Sound.{Sound};
ghost use Rattle.pack_model.specs.states.Whole.{Whole};
ghost use Rattle.page_seeking.specs.Parts.{ListsNext};
ghost use Rattle.page_seeking.specs.Refs.{FileIsFrom, MisledBy};
ghost use Rattle.page_seeking.specs.Seeking.{LastNamed, Quick, file_length};
ghost use Rattle.session_model.specs.Keeping.{most_bytes};
ghost use Rattle.std.specs.Prelude.{IfOk, IsErrOf, IsTrue, OnOk, [], length, ◌*◌, ◌+◌, ◌-◌, ◌/◌, ◌≡◌, ◌≤◌};

use crate::session::Session;
use crate::stop::Stop;
use disk_records::{Disk, Sector};
use page_seeking::{FileRef, length, read_part};
use std::alloc::Global;

/// So many bytes are read at a time: those of eight pages.
const PART: usize = 4096;

/// So many parts hold the bytes of the longest file.
const MOST_PARTS: u16 = 8192;

/// The length of a file in bytes, at most 65,535 pages of 512.
///
/// Misled: the file's address or one of its links doesn't lead to its page. DiskFault: the device failed.
pub fn length_of<D: Disk>(session: &mut Session, disk: &mut D, file: &FileRef) -> Result<u32, Stop>
    ensures length { IsTrue D.told → Sound (pack (D.tape disk.old)) → IfOk result (λ n. n ≡ file_length (pack (D.tape disk.old)) file.now.fid) }
    ensures most { IfOk result (λ n. n ≤ most_bytes) }
    ensures unrefused { IfRefused result (λ r. ⊥) }
    ensures misled { IsTrue D.told → Sound (pack (D.tape disk.old)) → FileIsFrom (pack (D.tape disk.old)) file.now → IfHint result (MisledBy (pack (D.tape disk.old)) [] file.now.fid) }
    ensures cause { HasCause cause_of_stop (D.tape disk.old) (D.tape disk.new) result }
    ensures want { IsTrue D.told → IsErrOf result Stop.Memory → ⊥ }
    ensures looks { LooksAbout D.told 65586 (D.tape disk.old) (D.tape disk.new) session.old session.new }
    ensures quick { IsTrue D.told → Quick (pack (D.tape disk.old)) file.now.fid session.old.hints.cache → LastNamed (pack (D.tape disk.old)) file.now.fid → OnOk result ((D.tape disk.new).runs ≤ (D.tape disk.old).runs + 2) }
{
    let mut buf = Sector::ZEROS;
    Ok(length(disk, &mut session.hints, file, &mut buf)?)
}

/// Reads the next part of a file, from the byte `offset` on, to its place after the bytes that were read: answers how many bytes it has.
///
/// Beyond: `offset` is past the file's length. Memory: none was left for a part. After an error the bytes are of no use.
fn append_part<D: Disk>(
    session: &mut Session,
    disk: &mut D,
    file: &FileRef,
    offset: u32,
    bytes: &mut Vec<u8>,
) -> Result<usize, Stop>
    ensures read { IsTrue D.told → Whole (pack (D.tape disk.old)) → IfOk result (IsNextPart (file_bytes (sights (pack (D.tape disk.old))) file.now.fid) offset bytes.old.items bytes.new.items) }
    ensures many { IfOk result (λ n. (n ≤ 4096) × (length bytes.new.items ≡ length bytes.old.items + n)) }
    ensures unrefused { IsTrue D.told → Whole (pack (D.tape disk.old)) → offset ≤ file_length (pack (D.tape disk.old)) file.now.fid → IfRefused result (λ r. ⊥) }
    ensures misled { IsTrue D.told → FileIsFrom (pack (D.tape disk.old)) file.now → IfHint result (MisledBy (pack (D.tape disk.old)) [] file.now.fid) }
    ensures cause { HasCause cause_of_stop (D.tape disk.old) (D.tape disk.new) result }
    ensures looks { LooksAbout D.told 65588 (D.tape disk.old) (D.tape disk.new) session.old session.new }
    ensures quick { IsTrue D.told → Quick (pack (D.tape disk.old)) file.now.fid session.old.hints.cache → IfOk result (λ n. (D.tape disk.new).runs ≤ (D.tape disk.old).runs + (page_of_byte (offset + n) + 1)) }
    ensures soon { IsTrue D.told → IsNoted D.told (pack (D.tape disk.old)) file.now.fid offset session.old.hints.cache → IfOk result (λ n. (D.tape disk.new).runs + page_of_byte offset ≤ (D.tape disk.old).runs + (page_of_byte (offset + n) + 1)) }
    ensures filled { IsTrue D.told → IsNoted D.told (pack (D.tape disk.old)) file.now.fid offset session.old.hints.cache → IfOk result (λ n. n ≡ 4096 → (D.tape disk.new).runs + page_of_byte offset ≤ (D.tape disk.old).runs + (page_of_byte (offset + n - 1) + 1)) }
    ensures next { IsTrue D.told → Whole (pack (D.tape disk.old)) → LinksTrue (pack (D.tape disk.old)) → IfOk result (λ n. ListsNext D.told (pack (D.tape disk.old)) file.now.fid (offset + n) session.old.hints.cache session.new.hints.cache) }
{
    let mut buf = Sector::ZEROS;
    let from = bytes.len();
    bytes.resize(from + PART, 0)?;
    let count = read_part(
        disk,
        &mut session.hints,
        file,
        offset,
        &mut bytes[from..],
        &mut buf,
    )?;
    bytes.truncate(from + count);
    Ok(count)
}

/// All bytes of a file, read in parts of eight pages, so that each of its pages is read once and its last page needn't be known.
///
/// Misled: the file's address or one of its links doesn't lead to its page. DiskFault: the device failed. Memory: none was left for the
/// bytes.
pub fn bytes_of<D: Disk>(
    alloc: Global,
    session: &mut Session,
    disk: &mut D,
    file: &FileRef,
) -> Result<Vec<u8>, Stop>
    ensures read { IsTrue D.told → Sound (pack (D.tape disk.old)) → IfOk result (λ bytes. bytes.items ≡ file_bytes (sights (pack (D.tape disk.old))) file.now.fid) }
    ensures most { IfOk result (λ bytes. length bytes.items ≤ 8192 * 4096) }
    ensures unrefused { IsTrue D.told → Sound (pack (D.tape disk.old)) → IfRefused result (λ r. ⊥) }
    ensures misled { IsTrue D.told → Sound (pack (D.tape disk.old)) → FileIsFrom (pack (D.tape disk.old)) file.now → IfHint result (MisledBy (pack (D.tape disk.old)) [] file.now.fid) }
    ensures cause { HasCause cause_of_stop (D.tape disk.old) (D.tape disk.new) result }
    ensures looks { LooksAbout D.told (8192 * 65588) (D.tape disk.old) (D.tape disk.new) session.old session.new }
    ensures quick { IsTrue D.told → Quick (pack (D.tape disk.old)) file.now.fid session.old.hints.cache → OnOk result (IsSoon (file_length (pack (D.tape disk.old)) file.now.fid / 512 + 3) (D.tape disk.old) (D.tape disk.new) session.old session.new) }
{
    let mut bytes = Vec::new(alloc);
    for k in 0..MOST_PARTS {
        let offset = k as u32 * PART as u32;
        let count = append_part(session, disk, file, offset, &mut bytes)?;
        if count < PART {
            return Ok(bytes);
        }
    }
    Ok(bytes)
}
