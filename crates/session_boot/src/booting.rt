// A session: the pack is opened, typed lines are obeyed in order, and it is closed.
ghost use Rattle.alto_words.specs.Fid.{disk_descriptor};
ghost use Rattle.disk_records.specs.Events.{writes_in};
ghost use Rattle.disk_records.specs.Frames.{WritesUsable};
ghost use Rattle.disk_records.specs.Tapes.{Grown, added, pack};
ghost use Rattle.executive.specs.disk_descriptor.specs.Opening.{HasCleanPage};
ghost use Rattle.executive.specs.pack_model.specs.states.Sound.{mark_clean};
ghost use Rattle.exec_session.specs.Meant.{kept};
ghost use Rattle.session_boot.specs.Boots.{AnswersBoot, Booted, Lasts};
ghost use Rattle.session_boot.specs.Faults.{HasFaultCause, HasStatusCause, NoFault, UnlessStopped};
ghost use Rattle.session_model.specs.Keeping.{Formed};
ghost use Rattle.std.specs.Prelude.{IsTrue, OnOk, ◌≡◌, ◌≢◌};

use crate::keys::{LINE_ROOM, MOST_KEYS};
use crate::line::{Next, answer_next, end_session};
use crate::opening::{begin_and_flush, refuse_pack};
use crate::status::{Fault, Status, status_of_need};
use disk_records::{Machine, Tally};
use executive::Session;
use std::alloc::Global;

/// The number of record writes up to which a tally counts.
fn limit_of(tally: &Tally) -> u64
    ensures { result ≡ tally.now.limit }
{
    tally.limit
}

/// Obeys the typed lines of a session until `quit` is answered `done` or no key is left that counts, and ends it.
fn obey_lines<M: Machine>(
    alloc: Global,
    machine: &mut M,
    session: &mut Session,
) -> Result<(), Fault>
    requires formed { Formed (M.tape machine.old).form (kept session.old) }
    ensures lasts { IsTrue M.told → Lasts (M.tape machine.old) (M.tape machine.new) (kept session.old) (kept session.new) result }
    ensures unread { IsTrue M.told → (kept session.old).mark ≡ mark_clean → (M.tape machine.new).keys ≡ (M.tape machine.old).keys → writes_in (added (M.tape machine.old) (M.tape machine.new)) ≡ 0 }
    ensures limit { (kept session.new).tally.limit ≡ (kept session.old).tally.limit }
    ensures cause { HasFaultCause (M.tape machine.old) (M.tape machine.new) result }
    ensures unfailed { OnOk result (NoFault (M.tape machine.old) (M.tape machine.new)) }
    ensures handed_on { OnOk result (M.handed_on machine.new) }
    ensures frame { WritesUsable M.told (M.tape machine.old) (M.tape machine.new) }
    ensures grown { Grown (M.tape machine.old) (M.tape machine.new) }
{
    // One buffer for all lines: each is taken where the last one stood.
    let mut buffer = [0u8; LINE_ROOM];
    let mut left = MOST_KEYS;
    'lines: for _ in 0..MOST_KEYS {
        match answer_next(alloc, machine, session, &mut buffer, &mut left)? {
            Some(Next::More) => {}
            Some(Next::Over) => return Ok(()),
            None => break,
        }
    }
    end_session(alloc, machine, session)
}

/// The operating system: opens the pack, obeys the typed lines by the Executive in order, each with its reply, and closes the pack.
/// `moment` is the time of new dates, in seconds since the start of 1901. `tally` gives the limit of record writes up to which operations
/// are counted, and at the end it counts those of this session; where the pack isn't entered, none. The machine may hold the last replies
/// back until `flush_display`.
///
/// Done: the keys were taken to their end, to a `quit` that was answered `done`, or to 2^31 bytes, and the pack is closed. NeedsScavenge: the
/// pack isn't entered, and the one text says why; or a hint failed in the session. DiskFault, KeyFault, DisplayFault: that device failed, and
/// the session ended there. Memory: none was left. After each of these a pack to which the session wrote may be left open, so that it is
/// entered no more until it is scavenged; one to which it wrote nothing is as before. Whatever stands on the pack, a key is taken only where
/// a sector carries DiskDescriptor's page 1 with the clean mark and the right words, and a record is written only after a key was taken.
/// Sector 0 and each sector with a wrong header keep all of their records, and every sector its header. Usage and CannotScavenge are never
/// answered.
pub fn boot<M: Machine>(alloc: Global, moment: u32, tally: &mut Tally, machine: &mut M) -> Status
    ensures booted { IsTrue M.told → Booted moment (M.tape machine.old) (M.tape machine.new) tally.old tally.new result }
    ensures unread { IsTrue M.told → (M.tape machine.new).keys ≡ (M.tape machine.old).keys → writes_in (added (M.tape machine.old) (M.tape machine.new)) ≡ 0 }
    ensures entered { IsTrue M.told → (M.tape machine.new).keys ≢ (M.tape machine.old).keys → HasCleanPage (pack (M.tape machine.old)) disk_descriptor }
    ensures answers { AnswersBoot result }
    ensures limit { tally.new.limit ≡ tally.old.limit }
    ensures cause { HasStatusCause (M.tape machine.old) (M.tape machine.new) result }
    ensures unfailed { UnlessStopped result (NoFault (M.tape machine.old) (M.tape machine.new)) }
    ensures handed_on { UnlessStopped result (M.handed_on machine.new) }
    ensures frame { WritesUsable M.told (M.tape machine.old) (M.tape machine.new) }
    ensures grown { Grown (M.tape machine.old) (M.tape machine.new) }
{
    let limit = limit_of(tally);
    *tally = Tally {
        limit,
        passed: 0,
        all: 0,
    };
    let mut session = match begin_and_flush(alloc, machine, moment, limit) {
        Ok(session) => session,
        Err(error) => return refuse_pack(alloc, machine, error),
    };
    let ended = obey_lines(alloc, machine, &mut session);
    *tally = session.tally();
    match ended {
        Ok(()) => status_of_need(session.needs_scavenge()),
        Err(fault) => fault.status(),
    }
}
