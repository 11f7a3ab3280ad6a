// The mark: what a line writes first, if it isn't open yet.
ghost use Rattle.disk_descriptor.specs.Fields.{Fits};
ghost use Rattle.disk_records.specs.Causes.{HasCause};
ghost use Rattle.disk_records.specs.Frames.{WritesUsable};
ghost use Rattle.disk_records.specs.Tapes.{DiskAlone, added, pack};
ghost use Rattle.exec_steps.specs.Asked.{Works, IsSameButMark};
ghost use Rattle.exec_session.specs.Meant.{IfRefused, kept};
ghost use Rattle.exec_steps.specs.Midway.{MayStart, Started};
ghost use Rattle.exec_session.specs.Stops.{cause_of_stop};
ghost use Rattle.pack_model.specs.states.Sound.{mark_open};
ghost use Rattle.session_model.specs.Keeping.{Kept};
ghost use Rattle.std.specs.Prelude.{IsTrue, List, [], ℕ, ◌+◌, ◌≡◌, ◌≤◌};

use disk_records::Disk;
use exec_session::{Session, Stop};

/// Opens the mark, if it isn't open: one record write in three sector commands.
///
/// Misled: the sector that is kept doesn't carry DiskDescriptor's first page, and nothing was written. DiskFault: the device failed. Memory:
/// none was left for the record write.
pub fn open_mark<D: Disk>(session: &mut Session, disk: &mut D) -> Result<(), Stop>
    requires shape { session.old.descriptor.shape ≡ (D.tape disk.old).form }
    ensures starts { (one : Kept) (at : ℕ) (reserved : List ℕ) → IsTrue D.told → MayStart (pack (D.tape disk.old)) one (kept session.old) at reserved → Started (D.tape disk.old) (D.tape disk.new) one (kept session.new) at reserved result }
    ensures unwritten { IsTrue D.told → Fits (pack (D.tape disk.old)) session.old.descriptor → (kept session.old).mark ≡ mark_open → added (D.tape disk.old) (D.tape disk.new) ≡ [] }
    ensures runs { IsTrue D.told → Fits (pack (D.tape disk.old)) session.old.descriptor → (D.tape disk.new).runs ≤ (D.tape disk.old).runs + 3 }
    ensures same { IsSameButMark session.old session.new }
    ensures unrefused { IfRefused result (λ r. ⊥) }
    ensures cause { HasCause cause_of_stop (D.tape disk.old) (D.tape disk.new) result }
    ensures works { Works session.old session.new }
    ensures frame { WritesUsable D.told (D.tape disk.old) (D.tape disk.new) }
    ensures alone { DiskAlone (D.tape disk.old) (D.tape disk.new) }
{
    session.descriptor.mark_open(disk)?;
    Ok(())
}
