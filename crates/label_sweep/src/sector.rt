// One sector.
ghost use Rattle.std.specs.Prelude.{◌≡◌, ◌<◌, ◌≤◌, IsTrue, IsErrOf, IfOk, OnOk, length};
ghost use Rattle.disk_records.specs.Addresses.{pages_of};
ghost use Rattle.disk_records.specs.Causes.{HasCause};
ghost use Rattle.disk_records.specs.Packs.{sector_at};
ghost use Rattle.disk_records.specs.Tapes.{Looks, pack};
ghost use Rattle.label_check.specs.Causes.{cause_of_look};
ghost use Rattle.pack_model.specs.reading.Sights.{sight};
ghost use Rattle.label_sweep.specs.Shown.{shown, IsCounted};

use crate::Sight;
use crate::sight::sight_in;
use disk_records::{Disk, Sector};
use label_check::{LookError, look};

/// What the sector at the virtual address `at` shows, whose three records are read to `buf`. One sector command. After an error what
/// `buf` holds is open.
///
/// DiskFault: the disk failed. Memory: no memory was left, which never comes on a machine that is modelled.
pub fn see<D: Disk>(disk: &mut D, at: u16, buf: &mut Sector) -> Result<Sight, LookError>
    requires first { 1 ≤ at }
    requires place { at < pages_of (D.tape disk.old).form }
    ensures sight { IsTrue D.told → IfOk result (λ s. shown s buf.new.value ≡ sight (D.tape disk.old).form at (sector_at (pack (D.tape disk.old)) at)) }
    ensures holds { IsTrue D.told → OnOk result (buf.new ≡ sector_at (pack (D.tape disk.old)) at) }
    ensures counted { IfOk result IsCounted }
    ensures whole { OnOk result (length buf.new.value ≡ 256) }
    ensures cause { HasCause cause_of_look (D.tape disk.old) (D.tape disk.new) result }
    ensures want { IsTrue D.told → IsErrOf result LookError.Memory → ⊥ }
    ensures looks { Looks D.told 1 (D.tape disk.old) (D.tape disk.new) }
{
    let right = look(disk, at, buf)?;
    let sight = sight_in(buf);
    Ok(if right { sight } else { Sight::Hidden })
}
