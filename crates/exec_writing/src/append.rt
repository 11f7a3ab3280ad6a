// `append`: bytes after the last one of a file.
ghost use Rattle.disk_records.specs.Addresses.{pages_of};
ghost use Rattle.disk_records.specs.Causes.{HasCause};
ghost use Rattle.disk_records.specs.Frames.{WritesUsable};
ghost use Rattle.disk_records.specs.Tapes.{DiskAlone, Taped, added, pack};
ghost use Rattle.exec_writing.specs.Writing.{WritesAll};
ghost use Rattle.exec_session.specs.Meant.{IfRefused, IsSoon, MayObey, Stays, TakesLine, kept};
ghost use Rattle.exec_session.specs.Stops.{cause_of_stop};
ghost use Rattle.exec_steps.specs.Asked.{MayGrowFile, Works};
ghost use Rattle.exec_steps.specs.Midway.{MayStart, Midway, StepsOn};
ghost use Rattle.pack_model.specs.hints.Links.{LinksTrue};
ghost use Rattle.pack_model.specs.operations.Committing.{pages_added};
ghost use Rattle.pack_model.specs.operations.Step.{Operation};
ghost use Rattle.page_seeking.specs.Seeking.{LastNamed, Quick};
ghost use Rattle.session_model.specs.Effects.{appended_ops};
ghost use Rattle.session_model.specs.Keeping.{Kept};
ghost use Rattle.std.specs.Prelude.{IsTrue, List, OnOk, [], length, ℕ, ◌*◌, ◌++◌, ◌+◌, ◌∷◌, ◌≡◌, ◌≤◌};
ghost use Rattle.exec_words.specs.declared.line.Line.TheVariants as line;

use crate::measuring::find_measured;
use disk_records::{Disk, PAGE_BYTES};
use exec_session::{FileRef, Session, Stop, refuse_streamed};
use exec_steps::{grow_file, open_mark, reserve_pages, stamp_file};
use exec_words::{Target, length_text};
use std::alloc::Global;

/// The pages that come where a file of this length, in bytes, gets so many bytes more.
fn pages_added(length: u32, more: u32) -> u32
    requires { length + more ≤ 4294967295 }
    ensures { result ≡ pages_added length more }
{
    let page = PAGE_BYTES as u32;
    (length + more) / page - length / page
}

/// Puts bytes after those of a file, and gives it its written date.
fn grow_and_stamp<D: Disk>(
    session: &mut Session,
    disk: &mut D,
    file: &FileRef,
    bytes: &[u8],
    fresh: &[u16],
) -> Result<(), Stop>
    requires shape { session.old.descriptor.shape ≡ (D.tape disk.old).form }
    requires sized { length session.old.hints.table ≡ pages_of (D.tape disk.old).form }
    ensures steps { IsTrue D.told → MayGrowFile (pack (D.tape disk.old)) file.now bytes.now fresh.now → StepsOn (D.tape disk.old) (D.tape disk.new) (kept session.old) (kept session.new) (appended_ops file.now.fid bytes.now session.old.moment) (fresh.now) (file.now.fid ∷ []) result }
    ensures unrefused { IfRefused result (λ r. ⊥) }
    ensures cause { HasCause cause_of_stop (D.tape disk.old) (D.tape disk.new) result }
    ensures works { Works session.old session.new }
    ensures frame { WritesUsable D.told (D.tape disk.old) (D.tape disk.new) }
    ensures alone { DiskAlone (D.tape disk.old) (D.tape disk.new) }
    ensures quick { (old : Taped) (one : Kept) (at : ℕ) (done all : List Operation) (rest : List ℕ) → IsTrue D.told → MayGrowFile (pack (D.tape disk.old)) file.now bytes.now fresh.now → Midway old (D.tape disk.old) one (kept session.old) at done all (fresh.now ++ rest) → LinksTrue (pack old) → Quick (pack (D.tape disk.old)) file.now.fid session.old.hints.cache → LastNamed (pack (D.tape disk.old)) file.now.fid → OnOk result (IsSoon (3 * length fresh.now + 12) (D.tape disk.old) (D.tape disk.new) session.old session.new) }
{
    grow_file(session, disk, file, bytes, fresh)?;
    stamp_file(session, disk, file)
}

/// Opens the mark, puts bytes after those of a file, and gives it its written date.
fn write_append<D: Disk>(
    session: &mut Session,
    disk: &mut D,
    file: &FileRef,
    bytes: &[u8],
    fresh: &[u16],
) -> Result<(), Stop>
    requires shape { session.old.descriptor.shape ≡ (D.tape disk.old).form }
    requires sized { length session.old.hints.table ≡ pages_of (D.tape disk.old).form }
    ensures writes { IsTrue D.told → MayGrowFile (pack (D.tape disk.old)) file.now bytes.now fresh.now → WritesAll (D.tape disk.old) (D.tape disk.new) (kept session.old) (kept session.new) (appended_ops file.now.fid bytes.now session.old.moment) (fresh.now) (file.now.fid ∷ []) result }
    ensures unrefused { IfRefused result (λ r. ⊥) }
    ensures cause { HasCause cause_of_stop (D.tape disk.old) (D.tape disk.new) result }
    ensures works { Works session.old session.new }
    ensures frame { WritesUsable D.told (D.tape disk.old) (D.tape disk.new) }
    ensures alone { DiskAlone (D.tape disk.old) (D.tape disk.new) }
    ensures quick { (one : Kept) (at : ℕ) → IsTrue D.told → MayGrowFile (pack (D.tape disk.old)) file.now bytes.now fresh.now → MayStart (pack (D.tape disk.old)) one (kept session.old) at fresh.now → Quick (pack (D.tape disk.old)) file.now.fid session.old.hints.cache → LastNamed (pack (D.tape disk.old)) file.now.fid → OnOk result (IsSoon (3 * length fresh.now + 15) (D.tape disk.old) (D.tape disk.new) session.old session.new) }
{
    open_mark(session, disk)?;
    grow_and_stamp(session, disk, file, bytes, fresh)
}

/// Puts at most 2,000 bytes after those of a file, gives it the session's moment as its written date, and answers the text of `append`: the
/// length that it has then. All pages that come are reserved at once, before anything is written.
///
/// NoSuchName: the file isn't there. IsADirectory: it is a directory. SystemFile: it is DiskDescriptor. StreamsOpen: an open stream has it.
/// Full: fewer sectors are free than pages come. They are tested in this order, and nothing was written. Misled: an address on the way to the
/// file is wrong, or one of its links. DiskFault: the device failed. Memory: none was left for the addresses of the pages that come, for a
/// record write, or for the text. After each of these a prefix of the record writes was done, on a modelled disk, and all of them where
/// memory for the text was refused.
pub fn append_bytes<D: Disk>(
    alloc: Global,
    session: &mut Session,
    disk: &mut D,
    target: &Target,
    bytes: &[u8],
) -> Result<Vec<u8>, Stop>
    requires obeys { MayObey (D.tape disk.old) session.old (line.Append target.now bytes.now) }
    ensures turns { IsTrue D.told → TakesLine (D.tape disk.old) (D.tape disk.new) session.old session.new (line.Append target.now bytes.now) result }
    ensures unwritten { IsTrue D.told → IfRefused result (λ r. added (D.tape disk.old) (D.tape disk.new) ≡ []) }
    ensures stays { Stays (D.tape disk.new) session.old session.new }
    ensures cause { HasCause cause_of_stop (D.tape disk.old) (D.tape disk.new) result }
    ensures frame { WritesUsable D.told (D.tape disk.old) (D.tape disk.new) }
    ensures alone { DiskAlone (D.tape disk.old) (D.tape disk.new) }
{
    let found = find_measured(session, disk, target)?;
    refuse_streamed(session, found.file.fid)?;
    let more = bytes.len() as u32;
    let pages = pages_added(found.length, more);
    let fresh = reserve_pages(alloc, session, disk, pages)?;
    write_append(session, disk, &found.file, bytes, &fresh)?;
    Ok(length_text(alloc, found.length + more)?)
}
