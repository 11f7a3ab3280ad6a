// Operations that took effect are counted.
ghost use Rattle.std.specs.Prelude.{◌≡◌, ◌+◌};
ghost use Rattle.pack_model.specs.sessions.Tallies.{is_among, took_effect};
ghost use Rattle.file_pages.specs.Counting.{counted_after, is_done};

use disk_records::Tally;
use label_check::GuardError;

/// Whether the `nth` record write since a machine's count was `before`, from 1, is among those that it has counted now.
fn is_among(before: u64, nth: u64, now: u64) -> bool
    ensures { result ≡ is_among before nth now }
{
    match before.checked_add(nth) {
        Some(write) => write <= now,
        None => false,
    }
}

/// Whether a guarded call that began after `before` record writes of the machine, and has ended after `now`, wrote its `nth` one, from 1,
/// which its last sector command writes.
fn is_done(before: u64, nth: u64, now: u64, answer: &Result<(), GuardError>) -> bool
    ensures { result ≡ is_done before nth now answer.now }
{
    match answer {
        Ok(()) => true,
        Err(GuardError::DiskFault) => is_among(before, nth, now),
        // the last sector command wrote nothing
        Err(GuardError::Wrong { .. }) | Err(GuardError::Memory) => false,
    }
}

/// Counts an operation that takes effect by this record write of the machine, the `nth` one since its count was `before`.
fn take_effect(tally: &mut Tally, before: u64, nth: u64)
    ensures { tally.new ≡ took_effect (before + nth) tally.old }
{
    tally.all = tally.all.saturating_add(1);
    if is_among(before, nth, tally.limit) {
        tally.passed = tally.passed.saturating_add(1);
    }
}

/// Counts the operation of a guarded call that began after `before` record writes of the machine and has ended after `now`, and whose `nth`
/// record write, from 1, commits it, if this was written. It is one of its last sector command.
pub(crate) fn count_operation(
    tally: &mut Tally,
    before: u64,
    nth: u64,
    now: u64,
    answer: &Result<(), GuardError>,
)
    ensures { tally.new ≡ counted_after before nth now answer.now tally.old }
{
    if is_done(before, nth, now, answer) {
        take_effect(tally, before, nth);
    }
}
