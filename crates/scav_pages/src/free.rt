// Free sectors, in rising order.
ghost use Rattle.std.specs.Prelude.{◌≡◌, ◌+◌, ◌<◌, ◌≤◌, IsTrue, IfOk, IsErrOf};
ghost use Rattle.disk_records.specs.Addresses.{pages_of};
ghost use Rattle.disk_records.specs.Causes.{HasCause};
ghost use Rattle.disk_records.specs.Packs.{is_free_at};
ghost use Rattle.disk_records.specs.Tapes.{Looks, pack};
ghost use Rattle.scav_pages.specs.Free.{IsNextFree, NoneFreeFrom};
ghost use Rattle.scav_pages.specs.Stops.{cause_of_stop};

use crate::errors::Stop;
use disk_records::{Disk, Sector, is_free_label};
use label_check::look;

/// Finds the lowest free sector from the sector `from` on, which is 1 at least, and sets `from` to the sector after it.
///
/// One sector command for each sector that it looks at, and nothing is written. Astray: no sector from `from` on is free. DiskFault: the
/// disk failed. Memory: no memory was left, which never comes on a machine that is modelled. After each of them `from` is no less than
/// it was.
pub fn next_free<D: Disk>(disk: &mut D, from: &mut u16) -> Result<u16, Stop>
    requires first { 1 ≤ from.old }
    ensures free { IsTrue D.told → IfOk result (IsNextFree (pack (D.tape disk.old)) from.old) }
    ensures least { from.old ≤ from.new }
    ensures want { IsTrue D.told → IsErrOf result Stop.Memory → ⊥ }
    ensures first { IfOk result (λ at. from.old ≤ at) }
    ensures place { IfOk result (λ at. at < pages_of (D.tape disk.old).form) }
    ensures next { IfOk result (λ at. from.new ≡ at + 1) }
    ensures none { IsTrue D.told → IsErrOf result Stop.Astray → NoneFreeFrom (pack (D.tape disk.old)) from.old }
    ensures cause { HasCause cause_of_stop (D.tape disk.old) (D.tape disk.new) result }
    ensures looks { Looks D.told (pages_of (D.tape disk.old).form) (D.tape disk.old) (D.tape disk.new) }
{
    let mut buf = Sector::ZEROS;
    let end = disk.shape().pages();
    for at in *from..end {
        *from = at + 1;
        if is_free(disk, at, &mut buf)? {
            return Ok(at);
        }
    }
    Err(Stop::Astray)
}

/// Whether this sector is free. One sector command.
fn is_free<D: Disk>(disk: &mut D, at: u16, buf: &mut Sector) -> Result<bool, Stop>
    requires first { 1 ≤ at }
    requires place { at < pages_of (D.tape disk.old).form }
    ensures free { IsTrue D.told → IfOk result (λ free. free ≡ is_free_at (pack (D.tape disk.old)) at) }
    ensures want { IsTrue D.told → IsErrOf result Stop.Memory → ⊥ }
    ensures found { IsErrOf result Stop.Astray → ⊥ }
    ensures cause { HasCause cause_of_stop (D.tape disk.old) (D.tape disk.new) result }
    ensures looks { Looks D.told 1 (D.tape disk.old) (D.tape disk.new) }
{
    if !look(disk, at, buf)? {
        return Ok(false);
    }
    Ok(is_free_label(&buf.label))
}
