// The command line.
ghost use Rattle.std.specs.Prelude.{◌≡◌, ◌≢◌, [], ◌∷◌, ◌⊎◌, codes, map, string_bytes, IsFalse, IsTrue};
ghost use Rattle.disk_records.specs.Addresses.{disks_of};
ghost use Rattle.disk_records.specs.Frames.{WritesUsable};
ghost use Rattle.disk_records.specs.Tapes.{Grown, ShowAlone};
ghost use Rattle.session_boot.specs.Boots.{AnswersBoot};
ghost use Rattle.session_boot.specs.Faults.{HasStatusCause, NoFault, UnlessStopped};
ghost use Rattle.alto_top.specs.Faults.{Concludes};
ghost use Rattle.alto_top.specs.Showing.{KeepsKeys};
ghost use Rattle.alto_top.specs.Top.{AnswersPrepare, AnswersTo, AnswersUsage, AsksFor, AsksShow, AsksUsage, BootedAlone, DoesAsAsked, FormatsNothing, MayWrite, PreparesOrUsage, ShowsUsage, Touches, pack_number};

use crate::flushing::after_display;
use crate::formatting::format_pack;
use crate::preparing::prepare_pack;
use crate::scavenging::scavenge_pack;
use crate::show::show_pack;
use alto_words::read_number;
use disk_records::{Console, Machine, Tally};
use session_boot::{Status, boot, show_all};
use std::alloc::Global;

/// What the words of a command line ask for.
#[derive(Clone, Copy, Debug, PartialEq, Eq)]
pub enum Asked {
    /// The typed lines are obeyed.
    Boot,
    /// What the pack shows is shown.
    Show,
    /// The pack is scavenged.
    Scavenge,
    /// The pack is formatted, with this number.
    Format(u16),
    /// The second drive is prepared, with this number of the pack.
    Prepare(u16),
    /// None of these.
    Nothing,
}

/// What the words ask for: a word alone, or `format` or `prepare` with a number.
fn asked_of(words: &[String]) -> Asked
    ensures { AsksFor (map string_bytes words.now) result }
{
    match words {
        [word] => asked_by(word.as_bytes()),
        [verb, number] => asked_by_two(verb.as_bytes(), number.as_bytes()),
        _ => Asked::Nothing,
    }
}

/// Whether what the words ask for may write the pack: a session, a scavenge, a formatting and a preparing may.
pub fn may_write(words: &[String]) -> bool
    ensures writes { IsTrue result → MayWrite (map string_bytes words.now) }
    ensures reads { IsFalse result → AsksShow (map string_bytes words.now) ⊎ AsksUsage (map string_bytes words.now) }
{
    match asked_of(words) {
        Asked::Boot => true,
        Asked::Show => false,
        Asked::Scavenge => true,
        Asked::Format(_) => true,
        Asked::Prepare(_) => true,
        Asked::Nothing => false,
    }
}

/// What one word asks for.
fn asked_by(word: &[u8]) -> Asked
    ensures { AsksFor (word.now ∷ []) result }
{
    match word {
        b"boot" => Asked::Boot,
        b"show" => Asked::Show,
        b"scavenge" => Asked::Scavenge,
        _ => Asked::Nothing,
    }
}

/// What two words ask for.
fn asked_by_two(verb: &[u8], number: &[u8]) -> Asked
    ensures { AsksFor (verb.now ∷ number.now ∷ []) result }
{
    match (verb, pack_number(number)) {
        (b"format", Some(number)) => Asked::Format(number),
        (b"prepare", Some(number)) => Asked::Prepare(number),
        _ => Asked::Nothing,
    }
}

/// The number of a pack that a word gives: 1 to 65,535.
fn pack_number(word: &[u8]) -> Option<u16>
    ensures { result ≡ pack_number word.now }
{
    let number = read_number(word)?;
    if 1 <= number && number <= u32::from(u16::MAX) {
        Some(number as u16)
    } else {
        None
    }
}

/// Shows `usage`.
fn show_usage<C: Console>(console: &mut C) -> Status
    requires handed_on { C.handed_on console.old }
    ensures shown { IsTrue C.told → ShowsUsage (C.tape console.old) (C.tape console.new) result }
    ensures answer { AnswersUsage result }
    ensures cause { HasStatusCause (C.tape console.old) (C.tape console.new) result }
    ensures unfailed { UnlessStopped result (NoFault (C.tape console.old) (C.tape console.new)) }
    ensures handed_on { C.handed_on console.new }
    ensures alone { ShowAlone (C.tape console.old) (C.tape console.new) }
{
    match show_all(console, b"usage\n") {
        Ok(()) => Status::Usage,
        Err(fault) => fault.status(),
    }
}

/// Prepares the second drive of a pack of two; of a pack of one shows `usage`.
fn prepare_or_usage<M: Machine>(alloc: Global, number: u16, machine: &mut M) -> Status
    requires handed_on { M.handed_on machine.old }
    ensures prepares { IsTrue M.told → PreparesOrUsage number (M.tape machine.old) (M.tape machine.new) result }
    ensures answers { AnswersPrepare (disks_of (M.tape machine.old).form) result }
    ensures cause { HasStatusCause (M.tape machine.old) (M.tape machine.new) result }
    ensures unfailed { UnlessStopped result (NoFault (M.tape machine.old) (M.tape machine.new)) }
    ensures handed_on { UnlessStopped result (M.handed_on machine.new) }
    ensures grown { Grown (M.tape machine.old) (M.tape machine.new) }
    ensures keys { KeepsKeys (M.tape machine.old) (M.tape machine.new) }
    ensures unprepared { disks_of (M.tape machine.old).form ≢ 2 → ShowAlone (M.tape machine.old) (M.tape machine.new) }
{
    if machine.shape().disks() == 2 {
        prepare_pack(alloc, number, machine)
    } else {
        show_usage(machine)
    }
}

/// A session whose operations nobody asks for.
fn boot_uncounted<M: Machine>(alloc: Global, moment: u32, machine: &mut M) -> Status
    ensures booted { IsTrue M.told → BootedAlone moment (M.tape machine.old) (M.tape machine.new) result }
    ensures answers { AnswersBoot result }
    ensures cause { HasStatusCause (M.tape machine.old) (M.tape machine.new) result }
    ensures unfailed { UnlessStopped result (NoFault (M.tape machine.old) (M.tape machine.new)) }
    ensures handed_on { UnlessStopped result (M.handed_on machine.new) }
    ensures frame { WritesUsable M.told (M.tape machine.old) (M.tape machine.new) }
    ensures grown { Grown (M.tape machine.old) (M.tape machine.new) }
{
    let mut tally = Tally {
        limit: 0,
        passed: 0,
        all: 0,
    };
    boot(alloc, moment, &mut tally, machine)
}

/// Does what the words of a command line ask for on this machine, as `alto` says. What was shown last may be held back.
fn do_asked<M: Machine>(alloc: Global, words: &[String], moment: u32, machine: &mut M) -> Status
    requires handed_on { M.handed_on machine.old }
    ensures does { IsTrue M.told → DoesAsAsked (map string_bytes words.now) moment (M.tape machine.old) (M.tape machine.new) result }
    ensures answers { AnswersTo (map string_bytes words.now) (disks_of (M.tape machine.old).form) result }
    ensures ends { Concludes (M.handed_on machine.new) (M.tape machine.old) (M.tape machine.new) result }
    ensures frame { FormatsNothing (map string_bytes words.now) → WritesUsable M.told (M.tape machine.old) (M.tape machine.new) }
    ensures touches { Touches (map string_bytes words.now) (M.tape machine.old) (M.tape machine.new) }
{
    match asked_of(words) {
        Asked::Boot => boot_uncounted(alloc, moment, machine),
        Asked::Show => show_pack(alloc, machine),
        Asked::Scavenge => scavenge_pack(alloc, machine),
        Asked::Format(number) => format_pack(alloc, number, moment, machine),
        Asked::Prepare(number) => prepare_or_usage(alloc, number, machine),
        Asked::Nothing => show_usage(machine),
    }
}

/// Does what the words of a command line ask for on this machine. The words are `boot`, `show` or `scavenge` alone, or `format` or `prepare`
/// and the pack's number, 1 to 65,535; with any others, and with `prepare` on one drive, `usage` is shown and nothing else happens. `moment`
/// is the time now, in seconds since the start of 1901. The machine holds no record write back when it comes, as a new one doesn't. At the
/// end it holds back neither a record write nor a byte that was shown, unless a fault or out of memory is answered. With all words but
/// `format` and `prepare` sector 0, sectors with a wrong header and all headers stay, whatever stands on the pack.
///
/// Done: the session was ended, the listing was shown, the pack was scavenged or formatted, or its second drive prepared. Usage: the
/// words are others, or `prepare` on one drive, and `usage` was shown. NeedsScavenge: of `boot` alone; the pack isn't entered, or a
/// hint failed in the session. CannotScavenge: of `scavenge` alone; the text says why the pack can't be scavenged, and nothing was written.
/// DiskFault and KeyFault: that device failed before what was asked for was done; a listing, a scavenge, formatting and preparing take no
/// key. DisplayFault: the display failed, with any words. Memory: none was left. After each of them what was acknowledged stands on a pack
/// that was sound and clean; a pack that was being scavenged shows what it showed and is to be scavenged again, one that was being formatted
/// is to be formatted again, and a drive that was being prepared to be prepared again.
pub fn alto<M: Machine>(alloc: Global, words: &[String], moment: u32, machine: &mut M) -> Status
    requires handed_on { M.handed_on machine.old }
    ensures does { IsTrue M.told → DoesAsAsked (map string_bytes words.now) moment (M.tape machine.old) (M.tape machine.new) result }
    ensures answers { AnswersTo (map string_bytes words.now) (disks_of (M.tape machine.old).form) result }
    ensures ends { Concludes (M.handed_on machine.new × M.displayed machine.new) (M.tape machine.old) (M.tape machine.new) result }
    ensures frame { FormatsNothing (map string_bytes words.now) → WritesUsable M.told (M.tape machine.old) (M.tape machine.new) }
    ensures touches { Touches (map string_bytes words.now) (M.tape machine.old) (M.tape machine.new) }
{
    let answer = do_asked(alloc, words, moment, machine);
    after_display(machine, answer)
}
