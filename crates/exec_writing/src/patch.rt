// `patch`: bytes in the place of those of a file.
ghost use Rattle.disk_records.specs.Addresses.{pages_of};
ghost use Rattle.disk_records.specs.Causes.{HasCause};
ghost use Rattle.disk_records.specs.Frames.{WritesUsable};
ghost use Rattle.disk_records.specs.Tapes.{DiskAlone, added, pack};
ghost use Rattle.exec_writing.specs.Patching.{MayPatchFile};
ghost use Rattle.exec_writing.specs.Writing.{WritesAll};
ghost use Rattle.exec_session.specs.Meant.{IfRefused, MayObey, Stays, TakesLine, kept};
ghost use Rattle.exec_session.specs.Stops.{cause_of_stop};
ghost use Rattle.exec_steps.specs.Asked.{Works};
ghost use Rattle.exec_steps.specs.Midway.{StepsOn};
ghost use Rattle.file_pages.specs.Putting.{to_put};
ghost use Rattle.session_model.specs.Streams.{puts};
ghost use Rattle.std.specs.Prelude.{IfOk, IsTrue, [], length as list_length, min, take, ◌%◌, ◌+◌, ◌-◌, ◌<◌, ◌∷◌, ◌≡◌, ◌≤◌};
ghost use Rattle.exec_words.specs.declared.line.Line.TheVariants as line;

use crate::measuring::find_measured;
use disk_records::{Disk, PAGE_BYTES, Sector};
use exec_session::{FileRef, Session, Stop, limit_of, refuse_streamed, refused, written};
use exec_steps::open_mark;
use exec_words::{Refusal, Target, done_text};
use file_pages::put;
use std::alloc::Global;

/// Puts the first of some bytes in the place of others of a file, from the byte `offset` on, as many as lie in one page; answers how many.
fn put_part<D: Disk>(
    session: &mut Session,
    disk: &mut D,
    file: &FileRef,
    offset: u32,
    bytes: &[u8],
) -> Result<usize, Stop>
    ensures many { IfOk result (λ n. n ≡ min (list_length bytes.now) (512 - offset % 512)) }
    ensures steps { IsTrue D.told → MayPatchFile (pack (D.tape disk.old)) file.now offset bytes.now → StepsOn (D.tape disk.old) (D.tape disk.new) (kept session.old) (kept session.new) (to_put file.now.fid offset (take (512 - offset % 512) bytes.now) ∷ []) ([]) (file.now.fid ∷ []) result }
    ensures unrefused { IfRefused result (λ r. ⊥) }
    ensures cause { HasCause cause_of_stop (D.tape disk.old) (D.tape disk.new) result }
    ensures works { Works session.old session.new }
    ensures descriptor { session.new.descriptor ≡ session.old.descriptor }
    ensures frame { WritesUsable D.told (D.tape disk.old) (D.tape disk.new) }
    ensures alone { DiskAlone (D.tape disk.old) (D.tape disk.new) }
{
    let _limit = limit_of(session);
    let page = PAGE_BYTES as u32;
    let count = bytes.len().min((page - offset % page) as usize);
    let mut buf = Sector::ZEROS;
    let done = put(
        disk,
        &mut session.hints,
        &mut session.tally,
        file,
        offset,
        &bytes[..count],
        &[],
        &mut buf,
    );
    written(file, done)?;
    Ok(count)
}

/// Puts bytes in the place of as many others of a file, from the byte `offset` on: page by page, rising.
fn put_parts<D: Disk>(
    session: &mut Session,
    disk: &mut D,
    file: &FileRef,
    offset: u32,
    bytes: &[u8],
) -> Result<(), Stop>
    requires most { offset + list_length bytes.now ≤ 4294967295 }
    ensures steps { IsTrue D.told → MayPatchFile (pack (D.tape disk.old)) file.now offset bytes.now → StepsOn (D.tape disk.old) (D.tape disk.new) (kept session.old) (kept session.new) (puts file.now.fid offset bytes.now) ([]) (file.now.fid ∷ []) result }
    ensures unrefused { IfRefused result (λ r. ⊥) }
    ensures cause { HasCause cause_of_stop (D.tape disk.old) (D.tape disk.new) result }
    ensures works { Works session.old session.new }
    ensures frame { WritesUsable D.told (D.tape disk.old) (D.tape disk.new) }
    ensures alone { DiskAlone (D.tape disk.old) (D.tape disk.new) }
{
    let mut done = 0;
    while done < bytes.len() {
        done += put_part(session, disk, file, offset + done as u32, &bytes[done..])?;
    }
    Ok(())
}

/// Opens the mark, and puts bytes in the place of as many others of a file.
fn write_patch<D: Disk>(
    session: &mut Session,
    disk: &mut D,
    file: &FileRef,
    offset: u32,
    bytes: &[u8],
) -> Result<(), Stop>
    requires shape { session.old.descriptor.shape ≡ (D.tape disk.old).form }
    requires most { offset + list_length bytes.now ≤ 4294967295 }
    ensures writes { IsTrue D.told → MayPatchFile (pack (D.tape disk.old)) file.now offset bytes.now → 0 < list_length bytes.now → WritesAll (D.tape disk.old) (D.tape disk.new) (kept session.old) (kept session.new) (puts file.now.fid offset bytes.now) ([]) (file.now.fid ∷ []) result }
    ensures unrefused { IfRefused result (λ r. ⊥) }
    ensures cause { HasCause cause_of_stop (D.tape disk.old) (D.tape disk.new) result }
    ensures works { Works session.old session.new }
    ensures frame { WritesUsable D.told (D.tape disk.old) (D.tape disk.new) }
    ensures alone { DiskAlone (D.tape disk.old) (D.tape disk.new) }
{
    open_mark(session, disk)?;
    put_parts(session, disk, file, offset, bytes)
}

/// Puts at most 2,000 bytes in the place of as many others of a file, from the byte `offset` on, page by page, and answers the text of
/// `patch`. Without a byte nothing is written.
///
/// NoSuchName: the file isn't there. IsADirectory: it is a directory. SystemFile: it is DiskDescriptor. Beyond: the bytes would end after
/// its last one. StreamsOpen: an open stream has it. They are tested in this order, and nothing was written. Misled: an address on the way to
/// the file is wrong, or one of its links. DiskFault: the device failed. Memory: none was left for a record write, or for the text. After each
/// of these a prefix of the record writes was done, on a modelled disk, and all of them where memory for the text was refused.
pub fn patch_bytes<D: Disk>(
    alloc: Global,
    session: &mut Session,
    disk: &mut D,
    target: &Target,
    offset: u32,
    bytes: &[u8],
) -> Result<Vec<u8>, Stop>
    requires obeys { MayObey (D.tape disk.old) session.old (line.Patch target.now offset bytes.now) }
    ensures turns { IsTrue D.told → TakesLine (D.tape disk.old) (D.tape disk.new) session.old session.new (line.Patch target.now offset bytes.now) result }
    ensures unwritten { IsTrue D.told → IfRefused result (λ r. added (D.tape disk.old) (D.tape disk.new) ≡ []) }
    ensures stays { Stays (D.tape disk.new) session.old session.new }
    ensures cause { HasCause cause_of_stop (D.tape disk.old) (D.tape disk.new) result }
    ensures frame { WritesUsable D.told (D.tape disk.old) (D.tape disk.new) }
    ensures alone { DiskAlone (D.tape disk.old) (D.tape disk.new) }
{
    let found = find_measured(session, disk, target)?;
    let length = found.length;
    if (length as u64) < offset as u64 + bytes.len() as u64 {
        return refused(Refusal::Beyond { length });
    }
    refuse_streamed(session, found.file.fid)?;
    if bytes.is_empty() {
        return Ok(done_text(alloc)?);
    }
    write_patch(session, disk, &found.file, offset, bytes)?;
    Ok(done_text(alloc)?)
}
