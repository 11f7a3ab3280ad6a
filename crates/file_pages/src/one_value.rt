// One value of a page.
ghost use Rattle.std.specs.Prelude.{◌≡◌, ◌≢◌, ◌+◌, ◌<◌, ◌≤◌, Bool, IsTrue, List, Some, []};
ghost use Rattle.disk_records.specs.Addresses.{pages_of};
ghost use Rattle.disk_records.specs.Causes.{HasCause};
ghost use Rattle.disk_records.specs.Frames.{IsPageOf, WritesIn};
ghost use Rattle.disk_records.specs.Packs.{carried};
ghost use Rattle.disk_records.specs.Tapes.{DiskAlone, added, pack};
ghost use Rattle.label_check.specs.Guarded.{Carries, FoundWrong};
ghost use Rattle.laws_call.specs.Acting.{around};
ghost use Rattle.laws_operation.specs.PlaceLaws.{SamePlaces};
ghost use Rattle.page_seeking.specs.Causes.{cause_of_length};
ghost use Rattle.page_seeking.specs.Refs.{IfMisled};
ghost use Rattle.pack_model.specs.operations.Step.{Operation};
ghost use Rattle.file_pages.specs.Calls.{WasHeld};
ghost use Rattle.file_pages.specs.Values.{WroteValue};

use crate::FileError;
use crate::refs::error_at;
use crate::tallying::count_operation;
use disk_records::{Disk, Page, Place, Tally};
use label_check::write_value;

/// Writes another value of the page in the sector at the virtual address `at`, which commits an operation, and counts it. Two sector
/// commands, one record write. Come here for a value of a page that was located, of a file of any kind; its words are the caller's.
///
/// Misled: the sector doesn't carry this page; `place` says that the caller holds the address, and `found` is the label that stands there. DiskFault: the device failed. Memory: no
/// memory was left for the record write. After each of these nothing was written, or after DiskFault all of it may be.
pub fn write_page<D: Disk>(
    disk: &mut D,
    tally: &mut Tally,
    at: u16,
    page: Page,
    value: &[u16; 256],
) -> Result<(), FileError>
    requires first { 1 ≤ at }
    requires place { at < pages_of (D.tape disk.old).form }
    ensures writes { (o : Operation) (bits : List Bool) → IsTrue D.told → WroteValue at value.now o (around (D.tape disk.old) bits tally.old) (around (D.tape disk.new) bits tally.new) result }
    ensures guards { IsTrue D.told → added (D.tape disk.old) (D.tape disk.new) ≢ [] → carried (pack (D.tape disk.old)) at ≡ Some page }
    ensures frame { IsTrue D.told → WritesIn (IsPageOf page.fid (pack (D.tape disk.old))) (added (D.tape disk.old) (D.tape disk.new)) }
    ensures misled { IsTrue D.told → carried (pack (D.tape disk.old)) at ≡ Some page → IfMisled result (λ place at wanted found. ⊥) }
    ensures held { IfMisled result (WasHeld at page) }
    ensures found { IsTrue D.told → IfMisled result (λ place w wanted found. FoundWrong (Carries at page) at (D.tape disk.old) (D.tape disk.new) found) }
    ensures cause { HasCause cause_of_length (D.tape disk.old) (D.tape disk.new) result }
    ensures alone { DiskAlone (D.tape disk.old) (D.tape disk.new) }
    ensures places { IsTrue D.told → SamePlaces (pack (D.tape disk.old)) (pack (D.tape disk.new)) }
    ensures runs { IsTrue D.told → (D.tape disk.new).runs ≤ (D.tape disk.old).runs + 2 }
{
    let before = disk.writes();
    let written = write_value(disk, at, page, value);
    let now = disk.writes();
    count_operation(tally, before, 1, now, &written);
    match written {
        Ok(()) => Ok(()),
        Err(error) => Err(error_at(Place::Held { at }, at, page, error)),
    }
}
