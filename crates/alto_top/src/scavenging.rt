// The word `scavenge`: the pack is scavenged, and what was found and done is told, or why it can't be.
ghost use Rattle.std.specs.Prelude.{IsTrue, OnOk, ◌≡◌};
ghost use Rattle.disk_records.specs.Tapes.{DiskAlone, Grown};
ghost use Rattle.alto_top.specs.Faults.{HasDiskCause};
ghost use Rattle.alto_top.specs.Scavenging.{AnswersScavenge, HasRefusal, ScavengesDisk, ScavengesPack, status_in, text_in};
ghost use Rattle.alto_top.specs.Showing.{KeepsKeys};
ghost use Rattle.session_boot.specs.Faults.{HasStatusCause, NoFault, UnlessStopped};

use crate::flushing::flush_disk;
use disk_records::{Disk, Machine};
use exec_words::report_text;
use scavenger::{ScavError, scavenge};
use session_boot::{Fault, Status, push_spaced, push_with_number, show_all};
use std::alloc::Global;

/// What is to be shown of a pack that was to be scavenged.
#[derive(Drop)]
pub enum Told {
    /// The report of a scavenge that is done.
    Report(Vec<u8>),
    /// Why the pack can't be scavenged.
    Refusal(Vec<u8>),
}

impl Told {
    /// The text that is shown.
    fn text(&self) -> &[u8]
        ensures { result.now ≡ text_in self.now }
    {
        match self {
            Told::Report(text) => text,
            Told::Refusal(text) => text,
        }
    }

    /// The status once the text is shown.
    fn status(&self) -> Status
        ensures { result ≡ status_in self.now }
    {
        match self {
            Told::Report(_) => Status::Done,
            Told::Refusal(_) => Status::CannotScavenge,
        }
    }
}

/// The text that says why a pack can't be scavenged: one line. After a fault, and out of memory, there is none.
///
/// Disk: the disk failed, which is no refusal. Memory: none was left, for the scavenge or for the text.
fn refusal_text(alloc: Global, error: ScavError) -> Result<Vec<u8>, Fault>
    ensures { HasRefusal error result }
{
    let mut out = Vec::new(alloc);
    match error {
        ScavError::RootBad { header } => {
            out.extend_from_slice(b"root bad:")?;
            push_spaced(alloc, &mut out, &header)?;
        }
        ScavError::RootTaken { found } => {
            out.extend_from_slice(b"root taken:")?;
            push_spaced(alloc, &mut out, &found)?;
        }
        ScavError::PackFull { needed, free } => {
            push_with_number(alloc, &mut out, b"pack full: needed ", u64::from(needed))?;
            push_with_number(alloc, &mut out, b" free ", u64::from(free))?;
        }
        ScavError::DiskFault => return Err(Fault::Disk),
        ScavError::Memory => return Err(Fault::Memory),
    }
    out.extend_from_slice(b"\n")?;
    Ok(out)
}

/// Scavenges the pack, and gives the text that tells it, once all record writes are handed on.
///
/// Disk: the disk failed, or didn't hand on what it held back. Memory: none was left, for the scavenge or for the text.
fn scavenge_disk<D: Disk>(alloc: Global, disk: &mut D) -> Result<Told, Fault>
    ensures scavenges { IsTrue D.told → ScavengesDisk (D.tape disk.old) (D.tape disk.new) result }
    ensures cause { HasDiskCause (D.tape disk.old) (D.tape disk.new) result }
    ensures handed_on { OnOk result (D.handed_on disk.new) }
    ensures alone { DiskAlone (D.tape disk.old) (D.tape disk.new) }
{
    match scavenge(alloc, disk) {
        Ok(report) => {
            flush_disk(disk)?;
            let text = report_text(
                alloc,
                report.files,
                report.freed,
                report.bad,
                report.adopted,
            )?;
            Ok(Told::Report(text))
        }
        Err(error) => {
            let text = refusal_text(alloc, error)?;
            flush_disk(disk)?;
            Ok(Told::Refusal(text))
        }
    }
}

/// Scavenges the pack, whatever stands on it, and shows the report: the living files, the sectors that were freed, the bad ones, and the files
/// that got a name. Then the pack is sound and clean, with all its hints true. Where it can't be scavenged it shows why instead. What the pack
/// shows stays at each crash point, and a scavenge that stopped can be done again. No key is taken. The machine may hold the text back until
/// `flush_display`.
///
/// CannotScavenge: the pack is refused, and nothing was written. DiskFault: the disk failed; nothing is shown. DisplayFault: the display failed;
/// the pack is scavenged or refused, and a prefix of the text is shown. Memory: none was left, before the scavenge was done or for the text;
/// nothing is shown. Usage, NeedsScavenge and KeyFault are never answered.
pub fn scavenge_pack<M: Machine>(alloc: Global, machine: &mut M) -> Status
    ensures answer { AnswersScavenge result }
    ensures scavenges { IsTrue M.told → ScavengesPack (M.tape machine.old) (M.tape machine.new) result }
    ensures cause { HasStatusCause (M.tape machine.old) (M.tape machine.new) result }
    ensures unfailed { UnlessStopped result (NoFault (M.tape machine.old) (M.tape machine.new)) }
    ensures handed_on { UnlessStopped result (M.handed_on machine.new) }
    ensures grown { Grown (M.tape machine.old) (M.tape machine.new) }
    ensures keys { KeepsKeys (M.tape machine.old) (M.tape machine.new) }
{
    let told = match scavenge_disk(alloc, machine) {
        Ok(told) => told,
        Err(fault) => return fault.status(),
    };
    match show_all(machine, told.text()) {
        Ok(()) => told.status(),
        Err(fault) => fault.status(),
    }
}
