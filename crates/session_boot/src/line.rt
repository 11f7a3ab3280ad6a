// One turn: a line that is obeyed, or the end of the session, and its text.
ghost use Rattle.disk_records.specs.Causes.{IsCause};
ghost use Rattle.disk_records.specs.Events.{writes_in};
ghost use Rattle.disk_records.specs.Frames.{WritesUsable};
ghost use Rattle.disk_records.specs.Tapes.{DiskAlone, Grown, added};
ghost use Rattle.exec_session.specs.Ends.{cause_of_reply};
ghost use Rattle.exec_session.specs.Meant.{kept};
ghost use Rattle.executive.specs.pack_model.specs.states.Sound.{mark_clean};
ghost use Rattle.session_boot.specs.Faults.{HasFaultCause, IsSameOrFailed, NoFault};
ghost use Rattle.session_boot.specs.Turns.{EndsTurnBy, NextTurn, TakesTurnBy, next_after};
ghost use Rattle.session_model.specs.Answering.{TakesTurns};
ghost use Rattle.session_model.specs.Ending.{cue_of};
ghost use Rattle.session_model.specs.Keeping.{Formed};
ghost use Rattle.session_model.specs.Turning.{cue_for, ended};
ghost use Rattle.std.specs.Prelude.{IfOk, IfSome, IsErrOf, IsTrue, OnOk, length, ◌<◌, ◌≡◌};

use crate::console::{flush_unless, show_reply};
use crate::keys::take_line;
use crate::status::Fault;
use disk_records::{Disk, Machine};
use executive::{Line, Reply, Session, obey, read_line};
use std::alloc::Global;

/// What comes after a turn.
#[derive(Clone, Copy, Debug, PartialEq, Eq)]
pub(crate) enum Next {
    /// The session goes on.
    More,
    /// It is over.
    Over,
}

/// What comes after a reply, once its text is shown. A fault and out of memory have none.
fn next_after(reply: &Reply) -> Result<Next, Fault>
    ensures { result ≡ next_after reply.now }
{
    match reply {
        Reply::Done { .. } | Reply::Refused { .. } | Reply::Scavenge => Ok(Next::More),
        Reply::Quit => Ok(Next::Over),
        Reply::DiskFault => Err(Fault::Disk),
        Reply::Memory => Err(Fault::Memory),
    }
}

/// The reply, once the disk has handed on the record writes that it holds back: so what a reply tells stands on the pack before it is shown.
/// DiskFault where that fails. After a fault and out of memory, which end the session without a reply, nothing is asked of the disk. On a
/// disk that is modelled nothing is held back.
fn after_flush<D: Disk>(disk: &mut D, reply: Reply) -> Reply
    ensures told { IsTrue D.told → (result ≡ reply) × (D.tape disk.new ≡ D.tape disk.old) }
    ensures cause { IsSameOrFailed Reply.DiskFault (D.tape disk.old) (D.tape disk.new) reply result }
    ensures handed_on { IfOk (next_after result) (λ next. D.handed_on disk.new) }
    ensures alone { DiskAlone (D.tape disk.old) (D.tape disk.new) }
{
    if next_after(&reply).is_err() {
        return reply;
    }
    match disk.flush() {
        Ok(()) => reply,
        Err(_) => Reply::DiskFault,
    }
}

/// Obeys a line, with all that it writes handed on to the device. The errors are those of `obey`.
fn obey_and_flush<D: Disk>(alloc: Global, session: &mut Session, disk: &mut D, line: &Line) -> Reply
    requires formed { Formed (D.tape disk.old).form (kept session.old) }
    ensures turns { IsTrue D.told → TakesTurns (D.tape disk.old) (D.tape disk.new) (kept session.old) (kept session.new) (cue_for line.now) result }
    ensures limit { (kept session.new).tally.limit ≡ (kept session.old).tally.limit }
    ensures formed { Formed (D.tape disk.new).form (kept session.new) }
    ensures cause { IsCause (D.tape disk.old) (D.tape disk.new) (cause_of_reply result) }
    ensures handed_on { IfOk (next_after result) (λ next. D.handed_on disk.new) }
    ensures frame { WritesUsable D.told (D.tape disk.old) (D.tape disk.new) }
    ensures alone { DiskAlone (D.tape disk.old) (D.tape disk.new) }
{
    let reply = obey(alloc, session, disk, line);
    after_flush(disk, reply)
}

/// Ends the session, with all that it wrote handed on to the device. The errors are those of `Session::end`.
fn end_and_flush<D: Disk>(alloc: Global, session: &mut Session, disk: &mut D) -> Reply
    requires formed { Formed (D.tape disk.old).form (kept session.old) }
    ensures turns { IsTrue D.told → TakesTurns (D.tape disk.old) (D.tape disk.new) (kept session.old) (kept session.new) ended result }
    ensures quiet { IsTrue D.told → (kept session.old).mark ≡ mark_clean → (D.tape disk.new) ≡ (D.tape disk.old) }
    ensures limit { (kept session.new).tally.limit ≡ (kept session.old).tally.limit }
    ensures cause { IsCause (D.tape disk.old) (D.tape disk.new) (cause_of_reply result) }
    ensures handed_on { IfOk (next_after result) (λ next. D.handed_on disk.new) }
    ensures frame { WritesUsable D.told (D.tape disk.old) (D.tape disk.new) }
    ensures alone { DiskAlone (D.tape disk.old) (D.tape disk.new) }
{
    let reply = session.end(alloc, disk);
    after_flush(disk, reply)
}

/// Obeys a typed line, given without the byte 10 that ends it, and then shows its reply.
///
/// Disk: the disk failed; a prefix of the line's record writes is made, and nothing is shown. Display: the display failed; all of them are
/// made, and a prefix of the reply is shown. Memory: none was left; a prefix of the record writes is made, and nothing is shown. After each
/// of them the session is over.
fn answer_line<M: Machine>(
    alloc: Global,
    machine: &mut M,
    session: &mut Session,
    text: &[u8],
) -> Result<Next, Fault>
    requires formed { Formed (M.tape machine.old).form (kept session.old) }
    ensures turn { IsTrue M.told → TakesTurnBy (M.tape machine.old) (M.tape machine.new) (kept session.old) (kept session.new) (cue_of text.now) result }
    ensures limit { (kept session.new).tally.limit ≡ (kept session.old).tally.limit }
    ensures formed { Formed (M.tape machine.new).form (kept session.new) }
    ensures cause { HasFaultCause (M.tape machine.old) (M.tape machine.new) result }
    ensures unfailed { OnOk result (NoFault (M.tape machine.old) (M.tape machine.new)) }
    ensures handed_on { OnOk result (M.handed_on machine.new) }
    ensures no_key { IsErrOf result Fault.Key → ⊥ }
    ensures frame { WritesUsable M.told (M.tape machine.old) (M.tape machine.new) }
    ensures grown { Grown (M.tape machine.old) (M.tape machine.new) }
    ensures keys { (M.tape machine.new).keys ≡ (M.tape machine.old).keys }
{
    let line = read_line(alloc, text)?;
    let reply = obey_and_flush(alloc, session, machine, &line);
    let next = next_after(&reply)?;
    show_reply(alloc, machine, &reply)?;
    Ok(next)
}

/// Answers a typed line, as `answer_line` does. Before `quit`, which closes the pack, the display has to have what was shown before: so
/// a display that failed leaves the pack open.
///
/// Display: also where the display failed before the line was obeyed.
fn answer_text<M: Machine>(
    alloc: Global,
    machine: &mut M,
    session: &mut Session,
    text: &[u8],
) -> Result<Next, Fault>
    requires formed { Formed (M.tape machine.old).form (kept session.old) }
    ensures turn { IsTrue M.told → TakesTurnBy (M.tape machine.old) (M.tape machine.new) (kept session.old) (kept session.new) (cue_of text.now) result }
    ensures limit { (kept session.new).tally.limit ≡ (kept session.old).tally.limit }
    ensures formed { Formed (M.tape machine.new).form (kept session.new) }
    ensures cause { HasFaultCause (M.tape machine.old) (M.tape machine.new) result }
    ensures unfailed { OnOk result (NoFault (M.tape machine.old) (M.tape machine.new)) }
    ensures handed_on { OnOk result (M.handed_on machine.new) }
    ensures no_key { IsErrOf result Fault.Key → ⊥ }
    ensures frame { WritesUsable M.told (M.tape machine.old) (M.tape machine.new) }
    ensures grown { Grown (M.tape machine.old) (M.tape machine.new) }
    ensures keys { (M.tape machine.new).keys ≡ (M.tape machine.old).keys }
{
    flush_unless(machine, text != b"quit".as_slice())?;
    answer_line(alloc, machine, session, text)
}

/// Takes the keys of the next line to `buffer` and answers it; None where no key is left that counts. `left` is the number of those that do.
fn answer_typed<M: Machine>(
    alloc: Global,
    machine: &mut M,
    session: &mut Session,
    buffer: &mut [u8],
    left: &mut u32,
) -> Result<Option<Next>, Fault>
    requires room { 4097 < length buffer.old }
    requires answered { M.waits machine.old → M.displayed machine.old }
    requires formed { Formed (M.tape machine.old).form (kept session.old) }
    ensures next { IsTrue M.told → NextTurn (M.tape machine.old) (M.tape machine.new) (kept session.old) (kept session.new) left.old left.new result }
    ensures limit { (kept session.new).tally.limit ≡ (kept session.old).tally.limit }
    ensures formed { Formed (M.tape machine.new).form (kept session.new) }
    ensures cause { HasFaultCause (M.tape machine.old) (M.tape machine.new) result }
    ensures unfailed { OnOk result (NoFault (M.tape machine.old) (M.tape machine.new)) }
    ensures handed_on { IfOk result (λ next. IfSome next (λ over. M.handed_on machine.new)) }
    ensures frame { WritesUsable M.told (M.tape machine.old) (M.tape machine.new) }
    ensures grown { Grown (M.tape machine.old) (M.tape machine.new) }
{
    let Some(kept) = take_line(machine, buffer, left)? else {
        return Ok(None);
    };
    let text = &buffer[..kept];
    let next = answer_text(alloc, machine, session, text)?;
    Ok(Some(next))
}

/// Answers the next line, as `answer_typed` does. Unless its keys are there already, the display has to have what was shown before: until
/// then somebody may wait for it.
///
/// Display: also where the display failed before a key was taken.
pub(crate) fn answer_next<M: Machine>(
    alloc: Global,
    machine: &mut M,
    session: &mut Session,
    buffer: &mut [u8],
    left: &mut u32,
) -> Result<Option<Next>, Fault>
    requires room { 4097 < length buffer.old }
    requires formed { Formed (M.tape machine.old).form (kept session.old) }
    ensures next { IsTrue M.told → NextTurn (M.tape machine.old) (M.tape machine.new) (kept session.old) (kept session.new) left.old left.new result }
    ensures limit { (kept session.new).tally.limit ≡ (kept session.old).tally.limit }
    ensures formed { Formed (M.tape machine.new).form (kept session.new) }
    ensures cause { HasFaultCause (M.tape machine.old) (M.tape machine.new) result }
    ensures unfailed { OnOk result (NoFault (M.tape machine.old) (M.tape machine.new)) }
    ensures handed_on { IfOk result (λ next. IfSome next (λ over. M.handed_on machine.new)) }
    ensures frame { WritesUsable M.told (M.tape machine.old) (M.tape machine.new) }
    ensures grown { Grown (M.tape machine.old) (M.tape machine.new) }
{
    let is_typed = machine.has_line();
    flush_unless(machine, is_typed)?;
    answer_typed(alloc, machine, session, buffer, left)
}

/// Ends the session: the pack is closed, unless a scavenge is needed. A text says which hint failed, if one did.
///
/// Disk, Display and Memory: as of a line.
pub(crate) fn end_session<M: Machine>(
    alloc: Global,
    machine: &mut M,
    session: &mut Session,
) -> Result<(), Fault>
    requires formed { Formed (M.tape machine.old).form (kept session.old) }
    ensures turn { IsTrue M.told → EndsTurnBy (M.tape machine.old) (M.tape machine.new) (kept session.old) (kept session.new) ended result }
    ensures quiet { IsTrue M.told → (kept session.old).mark ≡ mark_clean → writes_in (added (M.tape machine.old) (M.tape machine.new)) ≡ 0 }
    ensures limit { (kept session.new).tally.limit ≡ (kept session.old).tally.limit }
    ensures cause { HasFaultCause (M.tape machine.old) (M.tape machine.new) result }
    ensures unfailed { OnOk result (NoFault (M.tape machine.old) (M.tape machine.new)) }
    ensures handed_on { OnOk result (M.handed_on machine.new) }
    ensures no_key { IsErrOf result Fault.Key → ⊥ }
    ensures frame { WritesUsable M.told (M.tape machine.old) (M.tape machine.new) }
    ensures grown { Grown (M.tape machine.old) (M.tape machine.new) }
    ensures keys { (M.tape machine.new).keys ≡ (M.tape machine.old).keys }
{
    let reply = end_and_flush(alloc, session, machine);
    next_after(&reply)?;
    show_reply(alloc, machine, &reply)
}
