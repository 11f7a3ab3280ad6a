// The free sectors of a pack, and those of DiskDescriptor.
ghost use Rattle.std.specs.Prelude.{◌≡◌, ℕ, List, IsTrue, IfOk, IsErrOf, length};
ghost use Rattle.label_sweep.specs.Shown.{shown};
ghost use Rattle.pack_model.specs.states.InUse.{is_free_sight};
ghost use Rattle.disk_records.specs.Addresses.{pages_of};
ghost use Rattle.disk_records.specs.Causes.{HasCause};
ghost use Rattle.disk_records.specs.Tapes.{Looks, pack};
ghost use Rattle.scav_pages.specs.Ends.{AreWithin};
ghost use Rattle.scav_pages.specs.Stops.{cause_of_stop};
ghost use Rattle.scavenger.specs.Describing.{IsMap, marked};

use crate::descriptor::{Places, note_page};
use alto_words::Memory;
use disk_records::{Disk, Sector};
use hint_cache::BitTable;
use label_sweep::{Sight, Visit, sweep};
use scav_pages::Stop;
use std::alloc::Global;

/// The sectors of a pack that aren't free, and those of DiskDescriptor.
#[derive(Drop)]
pub(crate) struct Map {
    pub(crate) table: BitTable,
    pub(crate) places: Places,
}

/// Marks what the sector at this address shows as free, if it is.
fn mark_free(table: &mut BitTable, at: u16, sight: Sight)
    ensures { (value : List ℕ) → table.new ≡ marked table.old at (shown sight value) }
{
    if is_free(sight) && at < table.pages() {
        table.set(at, false);
    }
}

/// Whether this shows that a sector is free.
fn is_free(sight: Sight) -> bool
    ensures { (value : List ℕ) → result ≡ is_free_sight (shown sight value) }
{
    match sight {
        Sight::Free => true,
        Sight::Hidden => false,
        Sight::Stray => false,
        Sight::Leads { .. } => false,
        Sight::Holds { .. } => false,
    }
}

impl Visit for Map {
    ghost use Rattle.std.specs.Prelude.{false};
    ghost use Rattle.scavenger.specs.Describing.{Maps};

    ghost step = { Maps };

    ghost takes_memory = { false };

    fn visit(&mut self, at: u16, sight: Sight, _sector: &Sector) -> Result<(), Memory> {
        mark_free(&mut self.table, at, sight);
        note_page(&mut self.places, at, sight);
        Ok(())
    }
}

/// Looks at all sectors: which are free, and which carry DiskDescriptor's pages.
pub(crate) fn map_sectors<D: Disk>(alloc: Global, disk: &mut D) -> Result<Map, Stop>
    ensures map { IsTrue D.told → IfOk result (IsMap (pack (D.tape disk.old))) }
    ensures sized { IfOk result (λ map. length map.table ≡ pages_of (D.tape disk.old).form) }
    ensures within { IfOk result (λ map. AreWithin (pages_of (D.tape disk.old).form) map.places) }
    ensures found { IsErrOf result Stop.Astray → ⊥ }
    ensures cause { HasCause cause_of_stop (D.tape disk.old) (D.tape disk.new) result }
    ensures looks { Looks D.told (pages_of (D.tape disk.old).form) (D.tape disk.old) (D.tape disk.new) }
{
    let mut map = Map {
        table: BitTable::new(alloc, disk.shape().pages())?,
        places: [0; 6],
    };
    sweep(disk, &mut map)?;
    Ok(map)
}
