// Free sectors by their labels.
ghost use Rattle.std.specs.Prelude.{◌≡◌, ◌+◌, ◌-◌, ◌<◌, ◌≤◌, cond, IsTrue, IsErrOf, IfOk, length};
ghost use Rattle.disk_records.specs.Addresses.{pages_of};
ghost use Rattle.disk_records.specs.Causes.{HasCause};
ghost use Rattle.disk_records.specs.Packs.{is_free_at};
ghost use Rattle.disk_records.specs.Tapes.{Looks, pack};
ghost use Rattle.label_check.specs.Causes.{cause_of_look};
ghost use Rattle.page_alloc.specs.Free.{free_addresses};

use disk_records::{Disk, Sector, is_free_label};
use label_check::{LookError, look};

/// Whether the sector at this address is free. At most one sector command.
pub(crate) fn is_free<D: Disk>(disk: &mut D, at: u16, buf: &mut Sector) -> Result<bool, LookError>
    requires first { 1 ≤ at }
    requires place { at < pages_of (D.tape disk.old).form }
    ensures free { IsTrue D.told → IfOk result (λ free. free ≡ is_free_at (pack (D.tape disk.old)) at) }
    ensures cause { HasCause cause_of_look (D.tape disk.old) (D.tape disk.new) result }
    ensures want { IsTrue D.told → IsErrOf result LookError.Memory → ⊥ }
    ensures looks { Looks D.told 1 (D.tape disk.old) (D.tape disk.new) }
{
    if look(disk, at, buf)? {
        Ok(is_free_label(&buf.label))
    } else {
        Ok(false)
    }
}

/// One more where another sector is free.
pub(crate) fn counted(free: u16, is_free: bool) -> u16
    requires { free < 65535 }
    ensures { result ≡ free + cond is_free 1 0 }
{
    if is_free { free + 1 } else { free }
}

/// The number of free sectors, by a sweep of all labels, in fewer sector commands than sectors. It takes no memory of its own;
/// Memory comes only from a device that wants some.
pub fn count_free<D: Disk>(disk: &mut D, buf: &mut Sector) -> Result<u16, LookError>
    ensures counted { IsTrue D.told → IfOk result (λ free. free ≡ length (free_addresses (pack (D.tape disk.old)))) }
    ensures few { IfOk result (λ free. free < pages_of (D.tape disk.old).form) }
    ensures cause { HasCause cause_of_look (D.tape disk.old) (D.tape disk.new) result }
    ensures want { IsTrue D.told → IsErrOf result LookError.Memory → ⊥ }
    ensures looks { Looks D.told (pages_of (D.tape disk.old).form - 1) (D.tape disk.old) (D.tape disk.new) }
{
    let mut free = 0;
    let end = disk.shape().pages();
    for at in 1..end {
        free = counted(free, is_free(disk, at, buf)?);
    }
    Ok(free)
}
