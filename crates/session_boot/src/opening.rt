// How a pack is opened, and the one text that says why one isn't entered.
ghost use Rattle.alto_words.specs.Fid.{disk_descriptor};
ghost use Rattle.disk_records.specs.Causes.{HasCause};
ghost use Rattle.disk_records.specs.Tapes.{DiskAlone, ShowAlone, added, pack};
ghost use Rattle.exec_session.specs.Meant.{kept};
ghost use Rattle.exec_session.specs.Opens.{IsFresh, Opens, cause_of_open};
ghost use Rattle.exec_words.specs.Texts.{found_text};
ghost use Rattle.executive.specs.disk_descriptor.specs.Opening.{HasCleanPage};
ghost use Rattle.executive.specs.pack_model.specs.reading.Sights.{sights};
ghost use Rattle.executive.specs.pack_model.specs.states.Sentences.{EachOnce};
ghost use Rattle.session_boot.specs.Faults.{IsSameOrFailed, NoFault, UnlessStopped};
ghost use Rattle.session_boot.specs.Opening.{HasReason, IsReason, Refused, ShowsReason};
ghost use Rattle.session_model.specs.Keeping.{Formed};
ghost use Rattle.std.specs.Prelude.{IfErr, IfOk, IsTrue, OnOk, [], ◌++◌, ◌≡◌};

use crate::console::show_all;
use crate::status::{Fault, Status};
use crate::text::{push_spaced, push_with_number};
use alto_words::Memory;
use disk_records::{Console, Disk};
use executive::{OpenError, Refusal, Reply, Session, reply_text};
use std::alloc::Global;

/// Appends the label that was found.
fn push_found(alloc: Global, out: &mut Vec<u8>, found: Option<[u16; 8]>) -> Result<(), Memory>
    ensures { OnOk result (out.new.items ≡ out.old.items ++ found_text found) }
{
    match found {
        Some(label) => push_spaced(alloc, out, &label)?,
        None => out.extend_from_slice(b" none")?,
    }
    Ok(())
}

/// The text that says why a pack isn't entered: one line. After a fault, and out of memory, there is none.
///
/// Disk: the disk failed, which is no reason. Memory: none was left, for the pack or for the text.
fn reason_text(alloc: Global, error: OpenError) -> Result<Vec<u8>, Fault>
    ensures { HasReason error result }
{
    let mut out = Vec::new(alloc);
    match error {
        OpenError::NoRoot { found } => {
            out.extend_from_slice(b"no root: found")?;
            push_found(alloc, &mut out, found)?;
        }
        OpenError::NoDescriptor => out.extend_from_slice(b"no descriptor")?,
        OpenError::WrongLength { length } => {
            push_with_number(alloc, &mut out, b"wrong descriptor length ", length as u64)?;
        }
        OpenError::BadDescriptor { word, found } => {
            push_with_number(alloc, &mut out, b"bad descriptor: word ", word as u64)?;
            push_with_number(alloc, &mut out, b" is ", found as u64)?;
        }
        OpenError::NotClean { mark } => {
            push_with_number(alloc, &mut out, b"pack not clean: mark ", mark as u64)?;
        }
        OpenError::Misled {
            place,
            at,
            wanted,
            found,
        } => {
            let refusal = Refusal::HintFailed {
                place,
                at,
                wanted,
                found,
            };
            return Ok(reply_text(alloc, &Reply::Refused { refusal })?);
        }
        OpenError::DiskFault => return Err(Fault::Disk),
        OpenError::Memory => return Err(Fault::Memory),
    }
    out.extend_from_slice(b"\n")?;
    Ok(out)
}

/// The error, once the disk has handed on the record writes that it holds back. DiskFault where that fails. After a fault and out of memory,
/// of which no text tells, nothing is asked of the disk. On a disk that is modelled nothing is held back.
fn error_after_flush<D: Disk>(disk: &mut D, error: OpenError) -> OpenError
    ensures told { IsTrue D.told → (result ≡ error) × (D.tape disk.new ≡ D.tape disk.old) }
    ensures cause { IsSameOrFailed OpenError.DiskFault (D.tape disk.old) (D.tape disk.new) error result }
    ensures handed_on { IsReason result → D.handed_on disk.new }
    ensures alone { DiskAlone (D.tape disk.old) (D.tape disk.new) }
{
    if matches!(error, OpenError::DiskFault | OpenError::Memory) {
        return error;
    }
    match disk.flush() {
        Ok(()) => error,
        Err(_) => OpenError::DiskFault,
    }
}

/// Opens the pack. Where it isn't entered, all that the disk holds back is handed on, so that a text may be shown. The errors are those of
/// `Session::begin`, and DiskFault where the disk didn't hand on what it held back.
pub(crate) fn begin_and_flush<D: Disk>(
    alloc: Global,
    disk: &mut D,
    moment: u32,
    limit: u64,
) -> Result<Session, OpenError>
    ensures opens { IsTrue D.told → EachOnce (sights (pack (D.tape disk.old))) → Opens (pack (D.tape disk.old)) moment limit result }
    ensures clean_page { IsTrue D.told → IfOk result (λ s. HasCleanPage (pack (D.tape disk.old)) disk_descriptor) }
    ensures silent { IsTrue D.told → added (D.tape disk.old) (D.tape disk.new) ≡ [] }
    ensures formed { IfOk result (λ s. Formed (D.tape disk.new).form (kept s)) }
    ensures fresh { IfOk result (λ s. IsFresh moment limit (kept s)) }
    ensures cause { HasCause cause_of_open (D.tape disk.old) (D.tape disk.new) result }
    ensures handed_on { IfErr result (λ error. IsReason error → D.handed_on disk.new) }
    ensures alone { DiskAlone (D.tape disk.old) (D.tape disk.new) }
{
    match Session::begin(alloc, disk, moment, limit) {
        Ok(session) => Ok(session),
        Err(error) => Err(error_after_flush(disk, error)),
    }
}

/// Shows why a pack isn't entered, where there is a reason.
///
/// NeedsScavenge: the text is shown. DiskFault: the disk failed as the pack was opened, or as what it held back was to be handed on.
/// DisplayFault: a prefix of the text is shown. Memory: none was left, and nothing is shown.
pub(crate) fn refuse_pack<C: Console>(alloc: Global, console: &mut C, error: OpenError) -> Status
    requires handed_on { IsReason error → C.handed_on console.old }
    ensures refused { Refused error (C.tape console.old) (C.tape console.new) result }
    ensures shown { IsTrue C.told → ShowsReason error (C.tape console.old) (C.tape console.new) result }
    ensures unfailed { UnlessStopped result (NoFault (C.tape console.old) (C.tape console.new)) }
    ensures handed_on { UnlessStopped result (C.handed_on console.new) }
    ensures alone { ShowAlone (C.tape console.old) (C.tape console.new) }
{
    let text = match reason_text(alloc, error) {
        Ok(text) => text,
        Err(fault) => return fault.status(),
    };
    match show_all(console, &text) {
        Ok(()) => Status::NeedsScavenge,
        Err(fault) => fault.status(),
    }
}
