// What the disk and its device hold back of what was written, and the display of what was shown.
ghost use Rattle.alto_top.specs.Faults.{HasDiskCause, IsSameOrUnseen};
ghost use Rattle.disk_records.specs.Tapes.{DiskAlone, ShowAlone};
ghost use Rattle.session_boot.specs.Faults.{NoFault, UnlessStopped};
ghost use Rattle.std.specs.Prelude.{IsOk, IsTrue, OnOk, ◌≡◌};

use disk_records::{Console, Disk};
use session_boot::{Fault, Status, flush_display};

/// Has the disk hand on the record writes that it holds back, so that what is shown next stands on the pack. On a disk that is modelled
/// nothing is held back.
///
/// Disk: the disk failed, and of what it held back the last record writes may be lost.
pub(crate) fn flush_disk<D: Disk>(disk: &mut D) -> Result<(), Fault>
    ensures told { IsTrue D.told → IsOk result × (D.tape disk.new ≡ D.tape disk.old) }
    ensures handed_on { OnOk result (D.handed_on disk.new) }
    ensures cause { HasDiskCause (D.tape disk.old) (D.tape disk.new) result }
    ensures alone { DiskAlone (D.tape disk.old) (D.tape disk.new) }
{
    match disk.flush() {
        Ok(()) => Ok(()),
        Err(_) => Err(Fault::Disk),
    }
}

/// Has the device take all that was written, so that it stands there if the machine loses power once the next text is shown. Nothing is held
/// back after it either. On a disk that is modelled all stands there already.
///
/// Disk: the disk failed, and what was written may be lost.
pub(crate) fn settle_disk<D: Disk>(disk: &mut D) -> Result<(), Fault>
    ensures told { IsTrue D.told → IsOk result × (D.tape disk.new ≡ D.tape disk.old) }
    ensures handed_on { OnOk result (D.handed_on disk.new) }
    ensures cause { HasDiskCause (D.tape disk.old) (D.tape disk.new) result }
    ensures alone { DiskAlone (D.tape disk.old) (D.tape disk.new) }
{
    match disk.settle() {
        Ok(()) => Ok(()),
        Err(_) => Err(Fault::Disk),
    }
}

/// The answer, once the display has all that was shown: `DisplayFault` where it failed, unless a fault or out of memory was answered before.
pub(crate) fn after_display<C: Console>(console: &mut C, answer: Status) -> Status
    ensures told { IsTrue C.told → (result ≡ answer) × (C.tape console.new ≡ C.tape console.old) }
    ensures cause { IsSameOrUnseen (C.tape console.old) (C.tape console.new) answer result }
    ensures unfailed { UnlessStopped result (NoFault (C.tape console.old) (C.tape console.new)) }
    ensures displayed { UnlessStopped result (C.displayed console.new) }
    ensures handed_on { C.handed_on console.old → C.handed_on console.new }
    ensures alone { ShowAlone (C.tape console.old) (C.tape console.new) }
{
    match flush_display(console) {
        Ok(()) => answer,
        Err(_) => match answer {
            Status::DiskFault => Status::DiskFault,
            Status::KeyFault => Status::KeyFault,
            Status::DisplayFault => Status::DisplayFault,
            Status::Memory => Status::Memory,
            Status::Done => Status::DisplayFault,
            Status::Usage => Status::DisplayFault,
            Status::NeedsScavenge => Status::DisplayFault,
            Status::CannotScavenge => Status::DisplayFault,
        },
    }
}
