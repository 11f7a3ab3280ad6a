// Bytes after those of a file.
ghost use Rattle.disk_records.specs.Addresses.{pages_of};
ghost use Rattle.disk_records.specs.Causes.{HasCause};
ghost use Rattle.disk_records.specs.Frames.{WritesUsable};
ghost use Rattle.disk_records.specs.Tapes.{DiskAlone, pack};
ghost use Rattle.exec_steps.specs.Asked.{MayGrowFile, Works};
ghost use Rattle.exec_session.specs.Meant.{IfRefused, kept};
ghost use Rattle.exec_steps.specs.Midway.{StepsOn};
ghost use Rattle.exec_session.specs.Stops.{cause_of_stop};
ghost use Rattle.file_pages.specs.Calls.{StaysHandy};
ghost use Rattle.page_seeking.specs.Seeking.{LastNamed, NamedNearEnd, Quick};
ghost use Rattle.session_model.specs.Streams.{grows};
ghost use Rattle.std.specs.Prelude.{IsTrue, OnOk, [], length, ℕ, ◌*◌, ◌+◌, ◌∷◌, ◌≡◌, ◌≤◌};

use disk_records::{Disk, Sector};
use exec_session::{Session, Stop, limit_of, written};
use file_pages::grow;
use page_seeking::FileRef;

/// Puts bytes after those of a file, if there are some, with these sectors for the pages that come: virtual addresses.
///
/// Misled: the file's address or one of its links doesn't lead to its page. DiskFault: the device failed. Memory: none was left for a record
/// write. After each of them a prefix of the record writes was done, on a modelled disk.
pub fn grow_file<D: Disk>(
    session: &mut Session,
    disk: &mut D,
    file: &FileRef,
    bytes: &[u8],
    fresh: &[u16],
) -> Result<(), Stop>
    requires shape { session.old.descriptor.shape ≡ (D.tape disk.old).form }
    requires sized { length session.old.hints.table ≡ pages_of (D.tape disk.old).form }
    ensures steps { IsTrue D.told → MayGrowFile (pack (D.tape disk.old)) file.now bytes.now fresh.now → StepsOn (D.tape disk.old) (D.tape disk.new) (kept session.old) (kept session.new) (grows file.now.fid bytes.now) (fresh.now) (file.now.fid ∷ []) result }
    ensures unrefused { IfRefused result (λ r. ⊥) }
    ensures cause { HasCause cause_of_stop (D.tape disk.old) (D.tape disk.new) result }
    ensures works { Works session.old session.new }
    ensures descriptor { session.new.descriptor ≡ session.old.descriptor }
    ensures frame { WritesUsable D.told (D.tape disk.old) (D.tape disk.new) }
    ensures alone { DiskAlone (D.tape disk.old) (D.tape disk.new) }
    ensures quick { IsTrue D.told → MayGrowFile (pack (D.tape disk.old)) file.now bytes.now fresh.now → Quick (pack (D.tape disk.old)) file.now.fid session.old.hints.cache → LastNamed (pack (D.tape disk.old)) file.now.fid → OnOk result ((D.tape disk.new).runs ≤ (D.tape disk.old).runs + (2 * length fresh.now + 6)) }
    ensures named { (more : ℕ) → IsTrue D.told → MayGrowFile (pack (D.tape disk.old)) file.now bytes.now fresh.now → NamedNearEnd (pack (D.tape disk.old)) file.now.fid more → OnOk result (NamedNearEnd (pack (D.tape disk.new)) file.now.fid (more + length fresh.now)) }
    ensures handy { IsTrue D.told → MayGrowFile (pack (D.tape disk.old)) file.now bytes.now fresh.now → OnOk result (StaysHandy (pack (D.tape disk.old)) (pack (D.tape disk.new)) session.old.hints.cache session.new.hints.cache) }
{
    if bytes.is_empty() {
        return Ok(());
    }
    let _limit = limit_of(session);
    let mut buf = Sector::ZEROS;
    let grown = grow(
        disk,
        &mut session.hints,
        &mut session.tally,
        file,
        bytes,
        &[],
        fresh,
        &mut buf,
    );
    written(file, grown)
}
