// The written date of a file.
ghost use Rattle.disk_records.specs.Addresses.{pages_of};
ghost use Rattle.disk_records.specs.Causes.{HasCause};
ghost use Rattle.disk_records.specs.Frames.{WritesUsable};
ghost use Rattle.disk_records.specs.Tapes.{DiskAlone, pack};
ghost use Rattle.exec_steps.specs.Asked.{IsFile, Works, to_stamp};
ghost use Rattle.exec_session.specs.Meant.{IfRefused, kept};
ghost use Rattle.exec_steps.specs.Midway.{StepsOn};
ghost use Rattle.exec_session.specs.Stops.{cause_of_stop};
ghost use Rattle.page_seeking.specs.Seeking.{NamedNearEnd, QuickCache};
ghost use Rattle.std.specs.Prelude.{IsTrue, OnOk, [], length, ℕ, ◌+◌, ◌∷◌, ◌≡◌, ◌≤◌};

use disk_records::{Disk, Sector};
use exec_session::{Session, Stop, limit_of, written};
use file_pages::stamp;
use page_seeking::FileRef;

/// Gives a file the session's moment as its written date: one record write, of its leader's value.
///
/// Misled: the file's address or one of its links doesn't lead to its page. DiskFault: the device failed. Memory: none was left for the record
/// write. The date may be written after DiskFault.
pub fn stamp_file<D: Disk>(session: &mut Session, disk: &mut D, file: &FileRef) -> Result<(), Stop>
    requires shape { session.old.descriptor.shape ≡ (D.tape disk.old).form }
    requires sized { length session.old.hints.table ≡ pages_of (D.tape disk.old).form }
    ensures steps { IsTrue D.told → IsFile (pack (D.tape disk.old)) file.now → StepsOn (D.tape disk.old) (D.tape disk.new) (kept session.old) (kept session.new) (to_stamp file.now.fid session.old.moment ∷ []) ([]) (file.now.fid ∷ []) result }
    ensures unrefused { IfRefused result (λ r. ⊥) }
    ensures cause { HasCause cause_of_stop (D.tape disk.old) (D.tape disk.new) result }
    ensures works { Works session.old session.new }
    ensures descriptor { session.new.descriptor ≡ session.old.descriptor }
    ensures frame { WritesUsable D.told (D.tape disk.old) (D.tape disk.new) }
    ensures alone { DiskAlone (D.tape disk.old) (D.tape disk.new) }
    ensures climbs { (more : ℕ) → IsTrue D.told → QuickCache (pack (D.tape disk.old)) file.now.fid session.old.hints.cache → NamedNearEnd (pack (D.tape disk.old)) file.now.fid more → OnOk result ((D.tape disk.new).runs ≤ (D.tape disk.old).runs + (more + 6)) }
{
    let _limit = limit_of(session);
    let mut buf = Sector::ZEROS;
    let stamped = stamp(
        disk,
        &mut session.hints,
        &mut session.tally,
        file,
        session.moment,
        &mut buf,
    );
    written(file, stamped)
}
