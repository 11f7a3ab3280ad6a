// The word `prepare`: the second drive of a pack is prepared.
ghost use Rattle.std.specs.Prelude.{◌≡◌, IsTrue, IfOk, OnOk};
ghost use Rattle.disk_records.specs.Addresses.{disks_of};
ghost use Rattle.disk_records.specs.Tapes.{DiskAlone, Grown};
ghost use Rattle.laws_format.specs.Preparing.{drive_pages};
ghost use Rattle.alto_top.specs.Faults.{HasDiskCause};
ghost use Rattle.session_boot.specs.Faults.{HasStatusCause, NoFault, UnlessStopped};
ghost use Rattle.alto_top.specs.Formats.{AnswersFormat, PreparesDisk, PreparesPack, ShowsThroughout, prepare_text};
ghost use Rattle.alto_top.specs.Showing.{KeepsKeys};

use crate::faults::fault_of_format;
use crate::flushing::settle_disk;
use alto_words::{Memory, push_number};
use disk_descriptor::prepare;
use disk_records::{Disk, Machine};
use session_boot::{Fault, Status, show_all};
use std::alloc::Global;

/// What is shown of a second drive of so many sectors that was prepared.
fn text_of(alloc: Global, pages: u16) -> Result<Vec<u8>, Memory>
    ensures { IfOk result (λ text. text.items ≡ prepare_text pages) }
{
    let mut text = Vec::new(alloc);
    text.extend_from_slice(b"prepared: ")?;
    push_number(alloc, &mut text, u64::from(pages))?;
    text.extend_from_slice(b" pages\n")?;
    Ok(text)
}

/// Prepares the second drive, and gives the text that tells it, once the device has all record writes.
///
/// Disk: the disk failed, or the device doesn't have all that was written. Memory: none was left, for the writes or for the text.
fn prepare_disk<D: Disk>(alloc: Global, disk: &mut D, number: u16) -> Result<Vec<u8>, Fault>
    requires two { disks_of (D.tape disk.old).form ≡ 2 }
    ensures text { IfOk result (λ text. text.items ≡ prepare_text (drive_pages (D.tape disk.old).form)) }
    ensures prepares { IsTrue D.told → PreparesDisk number (D.tape disk.old) (D.tape disk.new) result }
    ensures shows { IsTrue D.told → ShowsThroughout (D.tape disk.old) (D.tape disk.new) }
    ensures cause { HasDiskCause (D.tape disk.old) (D.tape disk.new) result }
    ensures handed_on { OnOk result (D.handed_on disk.new) }
    ensures alone { DiskAlone (D.tape disk.old) (D.tape disk.new) }
{
    let pages = match prepare(disk, number) {
        Ok(pages) => pages,
        Err(error) => return Err(fault_of_format(error)),
    };
    settle_disk(disk)?;
    Ok(text_of(alloc, pages)?)
}

/// Prepares the second drive of a pack of two: each of its sectors becomes a free one; and shows how many there are. `number` is the pack's
/// number. Where no sector of the drive carries a page, the pack shows at each crash point what it showed before. No key is taken. Two
/// sector commands a sector of the drive at most. The machine may hold the text back until `flush_display`.
///
/// DiskFault: a sector may not be written; nothing is shown, and the drive is to be prepared again. DisplayFault: the display failed; the
/// drive is prepared, and a prefix of the text is shown. Memory: none was left; nothing is shown, and the drive is to be prepared again.
/// Usage and KeyFault are never answered.
pub fn prepare_pack<M: Machine>(alloc: Global, number: u16, machine: &mut M) -> Status
    requires two { disks_of (M.tape machine.old).form ≡ 2 }
    ensures answer { AnswersFormat result }
    ensures prepares { IsTrue M.told → PreparesPack number (M.tape machine.old) (M.tape machine.new) result }
    ensures shows { IsTrue M.told → ShowsThroughout (M.tape machine.old) (M.tape machine.new) }
    ensures cause { HasStatusCause (M.tape machine.old) (M.tape machine.new) result }
    ensures unfailed { UnlessStopped result (NoFault (M.tape machine.old) (M.tape machine.new)) }
    ensures handed_on { UnlessStopped result (M.handed_on machine.new) }
    ensures grown { Grown (M.tape machine.old) (M.tape machine.new) }
    ensures keys { KeepsKeys (M.tape machine.old) (M.tape machine.new) }
{
    let text = match prepare_disk(alloc, machine, number) {
        Ok(text) => text,
        Err(fault) => return fault.status(),
    };
    match show_all(machine, &text) {
        Ok(()) => Status::Done,
        Err(fault) => fault.status(),
    }
}
