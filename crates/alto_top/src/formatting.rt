// The word `format`: the pack is formatted.
ghost use Rattle.std.specs.Prelude.{◌≡◌, IsTrue, IfOk, OnOk};
ghost use Rattle.disk_records.specs.Addresses.{pages_of};
ghost use Rattle.disk_records.specs.Tapes.{DiskAlone, Grown, pack};
ghost use Rattle.pack_model.specs.sessions.Format.{format_writes, free_after_format};
ghost use Rattle.disk_descriptor.specs.Formatting.{IsFormatted};
ghost use Rattle.alto_top.specs.Faults.{HasDiskCause};
ghost use Rattle.session_boot.specs.Faults.{HasStatusCause, NoFault, UnlessStopped};
ghost use Rattle.alto_top.specs.Formats.{AnswersFormat, FormatsDisk, FormatsPack, format_text};
ghost use Rattle.alto_top.specs.Showing.{KeepsKeys};

use crate::faults::fault_of_format;
use crate::flushing::settle_disk;
use alto_words::{Memory, push_number};
use disk_descriptor::format;
use disk_records::{Disk, Machine};
use session_boot::{Fault, Status, show_all};
use std::alloc::Global;

/// What is shown of a formatted pack with so many free sectors.
fn text_of(alloc: Global, free: u16) -> Result<Vec<u8>, Memory>
    ensures { IfOk result (λ text. text.items ≡ format_text free) }
{
    let mut text = Vec::new(alloc);
    text.extend_from_slice(b"formatted: ")?;
    push_number(alloc, &mut text, u64::from(free))?;
    text.extend_from_slice(b" pages free\n")?;
    Ok(text)
}

/// Formats the pack, and gives the text that tells it, once the device has all record writes.
///
/// Disk: the disk failed, or the device doesn't have all that was written. Memory: none was left, for the writes or for the text.
fn format_disk<D: Disk>(
    alloc: Global,
    disk: &mut D,
    number: u16,
    moment: u32,
) -> Result<Vec<u8>, Fault>
    ensures text { IfOk result (λ text. text.items ≡ format_text (free_after_format (D.tape disk.old).form)) }
    ensures formats { IsTrue D.told → FormatsDisk number moment (D.tape disk.old) (D.tape disk.new) result }
    ensures cause { HasDiskCause (D.tape disk.old) (D.tape disk.new) result }
    ensures handed_on { OnOk result (D.handed_on disk.new) }
    ensures alone { DiskAlone (D.tape disk.old) (D.tape disk.new) }
{
    let free = match format(disk, number, moment) {
        Ok(free) => free,
        Err(error) => return Err(fault_of_format(error)),
    };
    settle_disk(disk)?;
    Ok(text_of(alloc, free)?)
}

/// Formats the pack, whatever stands on it, and shows how many of its sectors are free. `number` is the pack's number; `moment` is the
/// time now, in seconds since the start of 1901, which the leaders of both system files have as their dates. No key is taken. One sector
/// command a sector at most. The machine may hold the text back until `flush_display`.
///
/// DiskFault: a sector may not be written; nothing is shown, and the pack is to be formatted again. DisplayFault: the display failed; the
/// pack is formatted, and a prefix of the text is shown. Memory: none was left; nothing is shown, and the pack is to be formatted
/// again. Usage and KeyFault are never answered.
pub fn format_pack<M: Machine>(alloc: Global, number: u16, moment: u32, machine: &mut M) -> Status
    ensures answer { AnswersFormat result }
    ensures formats { IsTrue M.told → FormatsPack number moment (M.tape machine.old) (M.tape machine.new) result }
    ensures cause { HasStatusCause (M.tape machine.old) (M.tape machine.new) result }
    ensures unfailed { UnlessStopped result (NoFault (M.tape machine.old) (M.tape machine.new)) }
    ensures handed_on { UnlessStopped result (M.handed_on machine.new) }
    ensures grown { Grown (M.tape machine.old) (M.tape machine.new) }
    ensures keys { KeepsKeys (M.tape machine.old) (M.tape machine.new) }
{
    let text = match format_disk(alloc, machine, number, moment) {
        Ok(text) => text,
        Err(fault) => return fault.status(),
    };
    match show_all(machine, &text) {
        Ok(()) => Status::Done,
        Err(fault) => fault.status(),
    }
}
