// The words of a file's last page, where more bytes come after it.
ghost use Rattle.std.specs.Prelude.{◌≡◌, ◌≢◌, ◌<◌, ◌≤◌, IsTrue, Some, []};
ghost use Rattle.disk_records.specs.Addresses.{pages_of};
ghost use Rattle.disk_records.specs.Causes.{HasCause};
ghost use Rattle.disk_records.specs.Frames.{WritesIn};
ghost use Rattle.disk_records.specs.Labels.{page_of};
ghost use Rattle.disk_records.specs.Packs.{carried};
ghost use Rattle.disk_records.specs.Tapes.{DiskAlone, added, pack};
ghost use Rattle.page_seeking.specs.Causes.{cause_of_length};
ghost use Rattle.page_seeking.specs.Refs.{IfMisled};
ghost use Rattle.pack_model.specs.operations.PageWords.{relabelled};
ghost use Rattle.file_pages.specs.Calls.{WasHeld};
ghost use Rattle.file_pages.specs.Growing.{Commits};

use crate::FileError;
use crate::making::limit_of;
use crate::refs::error_at;
use crate::tallying::count_operation;
use disk_records::{Disk, Page, Place, Tally};
use label_check::{relabel, write_value};

/// A page's label with another count of bytes and another next link.
pub(crate) fn with_count(label: &[u16; 8], bytes: u16, next: u16) -> [u16; 8]
    ensures { result ≡ relabelled label.now bytes next }
{
    let mut words = *label;
    words[0] = next;
    words[2] = 0;
    words[3] = bytes;
    words
}

/// Writes another value of the page in the sector at the virtual address `at`, and then another label with the same value: the label
/// commits an operation, and is counted. Four sector commands, three record writes.
pub(crate) fn commit_page<D: Disk>(
    disk: &mut D,
    tally: &mut Tally,
    at: u16,
    page: Page,
    label: [u16; 8],
    value: &[u16; 256],
) -> Result<(), FileError>
    requires first { 1 ≤ at }
    requires place { at < pages_of (D.tape disk.old).form }
    requires same { page_of label ≡ Some page }
    ensures commits { IsTrue D.told → carried (pack (D.tape disk.old)) at ≡ Some page → Commits at label value.now (D.tape disk.old) (D.tape disk.new) tally.old tally.new result }
    ensures guards { IsTrue D.told → added (D.tape disk.old) (D.tape disk.new) ≢ [] → carried (pack (D.tape disk.old)) at ≡ Some page }
    ensures frame { IsTrue D.told → WritesIn (λ i. i ≡ at) (added (D.tape disk.old) (D.tape disk.new)) }
    ensures misled { IsTrue D.told → carried (pack (D.tape disk.old)) at ≡ Some page → IfMisled result (λ place at wanted found. ⊥) }
    ensures held { IfMisled result (WasHeld at page) }
    ensures cause { HasCause cause_of_length (D.tape disk.old) (D.tape disk.new) result }
    ensures alone { DiskAlone (D.tape disk.old) (D.tape disk.new) }
{
    match write_value(disk, at, page, value) {
        Ok(()) => {}
        Err(error) => return Err(error_at(Place::Held { at }, at, page, error)),
    }
    let _limit = limit_of(tally);
    let before = disk.writes();
    let labelled = relabel(disk, at, page, label);
    let now = disk.writes();
    count_operation(tally, before, 1, now, &labelled);
    match labelled {
        Ok(()) => Ok(()),
        Err(error) => Err(error_at(Place::Held { at }, at, page, error)),
    }
}
