// All sectors except the first, which is never used.
ghost use Rattle.std.specs.Prelude.{◌≡◌, ℕ, ◌-◌, ◌<◌, ◌≤◌, Bool, IsTrue, IsErrOf, OnOk, OnErr, length};
ghost use Rattle.disk_records.specs.Addresses.{pages_of};
ghost use Rattle.disk_records.specs.Causes.{HasCause};
ghost use Rattle.disk_records.specs.Packs.{sector_at};
ghost use Rattle.disk_records.specs.Tapes.{Looks, pack};
ghost use Rattle.label_check.specs.Causes.{cause_of_look};
ghost use Rattle.pack_model.specs.reading.Sights as model;
ghost use Rattle.pack_model.specs.reading.Sights.{sight};
ghost use Rattle.label_sweep.specs.Shown.{shown, IsCounted};
ghost use Rattle.label_sweep.specs.Swept.{HasSeen, Swept};

use crate::{Sight, see};
use alto_words::Memory;
use disk_records::{Disk, Sector};
use label_check::LookError;

/// What is done with each sector of a sweep.
pub trait Visit {
    /// The visitor before a sector, the sector's address, what it shows, and the visitor after it.
    ghost step: { Self → ℕ → model.Sight → Self → Type 0 };

    /// Whether a step takes memory: a constant of the type.
    ghost takes_memory: { Bool };

    /// Takes what the sector at the virtual address `at` shows; its records are those of `sector`. Memory: no memory was left.
    fn visit(&mut self, at: u16, sight: Sight, sector: &Sector) -> Result<(), Memory>
        requires counted { IsCounted sight }
        requires whole { length sector.now.value ≡ 256 }
        ensures step { OnOk result (step self.old at (shown sight sector.now.value) self.new) }
        ensures want { OnErr result (IsTrue takes_memory) };
}

/// Hands one sector to the visitor. One sector command.
fn visit_sector<D: Disk, V: Visit>(
    disk: &mut D,
    at: u16,
    visitor: &mut V,
    buf: &mut Sector,
) -> Result<(), LookError>
    requires first { 1 ≤ at }
    requires place { at < pages_of (D.tape disk.old).form }
    ensures seen { OnOk result (HasSeen D.told (sight (D.tape disk.old).form at (sector_at (pack (D.tape disk.old)) at)) (λ s. V.step visitor.old at s visitor.new)) }
    ensures cause { HasCause cause_of_look (D.tape disk.old) (D.tape disk.new) result }
    ensures want { IsTrue D.told → IsErrOf result LookError.Memory → IsTrue V.takes_memory }
    ensures looks { Looks D.told 1 (D.tape disk.old) (D.tape disk.new) }
{
    let sight = see(disk, at, buf)?;
    match visitor.visit(at, sight, buf) {
        Ok(()) => Ok(()),
        Err(Memory) => Err(LookError::Memory),
    }
}

/// Hands each sector from 1 on to the visitor, in rising order. It takes no memory of its own, and one sector command a sector.
///
/// DiskFault: the disk failed. Memory: no memory was left for the visitor. After either of them the visitor has seen the sectors
/// below the one that ended the sweep.
pub fn sweep<D: Disk, V: Visit>(disk: &mut D, visitor: &mut V) -> Result<(), LookError>
    ensures swept { OnOk result (Swept D.told V.step (D.tape disk.old) visitor.old visitor.new) }
    ensures cause { HasCause cause_of_look (D.tape disk.old) (D.tape disk.new) result }
    ensures want { IsTrue D.told → IsErrOf result LookError.Memory → IsTrue V.takes_memory }
    ensures looks { Looks D.told (pages_of (D.tape disk.old).form - 1) (D.tape disk.old) (D.tape disk.new) }
{
    let mut buf = Sector::ZEROS;
    let end = disk.shape().pages();
    for at in 1..end {
        visit_sector(disk, at, visitor, &mut buf)?;
    }
    Ok(())
}
