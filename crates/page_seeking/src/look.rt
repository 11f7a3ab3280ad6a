// Reading a page at an address that may be no sector's.
ghost use Rattle.std.specs.Prelude.{◌≡◌, IsTrue, IsErrOf, IfOk, OnOk, []};
ghost use Rattle.disk_records.specs.Tapes.{Looks, pack};
ghost use Rattle.label_check.specs.Guarded.{Carries, FoundWrong, IfWrong};
ghost use Rattle.page_seeking.specs.Seeking.{Seen, Stands};
ghost use Rattle.disk_records.specs.Causes.{HasCause};
ghost use Rattle.label_check.specs.Causes.{cause_of_guard};

use disk_records::{Disk, Page, Sector};
use label_check::{GuardError, PageInfo, read_page};

/// Reads the page at the virtual address `at` to `buf`, in one sector command. Wrong: no usable sector has the address, or it doesn't
/// carry the page.
pub(crate) fn look_at<D: Disk>(
    disk: &mut D,
    at: u16,
    page: Page,
    buf: &mut Sector,
) -> Result<PageInfo, GuardError>
    ensures seen { IfOk result (λ info. Seen (D.tape disk.old).form page at info buf.new) }
    ensures stands { IsTrue D.told → OnOk result (Stands (pack (D.tape disk.old)) page at buf.new) }
    ensures wrong { IsTrue D.told → IfWrong result (FoundWrong (Carries at page) at (D.tape disk.old) (D.tape disk.new)) }
    ensures cause { HasCause cause_of_guard (D.tape disk.old) (D.tape disk.new) result }
    ensures want { IsTrue D.told → IsErrOf result GuardError.Memory → ⊥ }
    ensures looks { Looks D.told 1 (D.tape disk.old) (D.tape disk.new) }
{
    if at == 0 || at >= disk.shape().pages() {
        return Err(GuardError::Wrong { found: None });
    }
    read_page(disk, at, page, buf)
}
