// The word `show`: what the pack shows, as a listing.
ghost use Rattle.std.specs.Prelude.{◌≡◌, ◌-◌, IsTrue, IfOk, OnOk};
ghost use Rattle.disk_records.specs.Addresses.{pages_of};
ghost use Rattle.disk_records.specs.Tapes.{Looks, Grown, pack};
ghost use Rattle.pack_model.specs.showing.Settling.{show};
ghost use Rattle.alto_top.specs.Faults.{HasDiskCause};
ghost use Rattle.session_boot.specs.Faults.{HasStatusCause, NoFault, UnlessStopped};
ghost use Rattle.alto_top.specs.Showing.{listing_text, AnswersShow, KeepsKeys, ShowsPack};

use crate::faults::fault_of_reading;
use crate::flushing::flush_disk;
use crate::listing::listing_of;
use disk_records::{Disk, Machine};
use pack_reading::read_lengths;
use session_boot::{Fault, Status, show_all};
use std::alloc::Global;

/// The listing of what the pack shows, once all record writes are handed on. Which pages count is told by headers and labels alone.
///
/// Disk: the disk failed. Memory: none was left for the listing.
fn list_pack<D: Disk>(alloc: Global, disk: &mut D) -> Result<Vec<u8>, Fault>
    ensures listed { IsTrue D.told → IfOk result (λ text. text.items ≡ listing_text (show (pack (D.tape disk.old)))) }
    ensures cause { HasDiskCause (D.tape disk.old) (D.tape disk.new) result }
    ensures handed_on { OnOk result (D.handed_on disk.new) }
    ensures looks { Looks D.told (pages_of (D.tape disk.old).form - 1) (D.tape disk.old) (D.tape disk.new) }
{
    let shown = match read_lengths(alloc, disk) {
        Ok(shown) => shown,
        Err(error) => return Err(fault_of_reading(error)),
    };
    flush_disk(disk)?;
    Ok(listing_of(alloc, &shown)?)
}

/// Shows what the pack shows, whatever stands on it: a line for each name, SysDir's first, and then the number of files. No key is
/// taken and nothing is written. Fewer sector commands than sectors. The machine may hold the listing back until `flush_display`.
///
/// DiskFault: the disk failed; nothing is shown. DisplayFault: the display failed; a prefix of the listing is shown.
/// Memory: none was left; nothing is shown. Usage and KeyFault are never answered.
pub fn show_pack<M: Machine>(alloc: Global, machine: &mut M) -> Status
    ensures answer { AnswersShow result }
    ensures shown { IsTrue M.told → ShowsPack (M.tape machine.old) (M.tape machine.new) result }
    ensures cause { HasStatusCause (M.tape machine.old) (M.tape machine.new) result }
    ensures unfailed { UnlessStopped result (NoFault (M.tape machine.old) (M.tape machine.new)) }
    ensures handed_on { UnlessStopped result (M.handed_on machine.new) }
    ensures grown { Grown (M.tape machine.old) (M.tape machine.new) }
    ensures keys { KeepsKeys (M.tape machine.old) (M.tape machine.new) }
{
    let text = match list_pack(alloc, machine) {
        Ok(text) => text,
        Err(fault) => return fault.status(),
    };
    match show_all(machine, &text) {
        Ok(()) => Status::Done,
        Err(fault) => fault.status(),
    }
}
