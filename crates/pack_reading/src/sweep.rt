// The sweep of all sectors.
ghost use Rattle.std.specs.Prelude.{◌-◌, IsTrue, IfOk};
ghost use Rattle.disk_records.specs.Addresses.{pages_of};
ghost use Rattle.disk_records.specs.Causes.{HasCause};
ghost use Rattle.disk_records.specs.Tapes.{Looks, pack};
ghost use Rattle.pack_model.specs.reading.Sights.{sights};
ghost use Rattle.pack_reading.specs.Errors.{cause_of_reading};
ghost use Rattle.pack_reading.specs.Kept.{HoldsSights};

use crate::error::ReadingError;
use crate::swept::{Leaders, Pages, Swept, counted_bytes, leader_in};
use alto_words::Memory;
use disk_records::{Disk, Page, Sector};
use label_sweep::{Sight, Visit, sweep};
use std::alloc::Global;

/// What the sectors seen so far show, and where the memory for it comes from.
#[derive(Drop)]
struct Reading {
    alloc: Global,
    swept: Swept,
}

impl Visit for Reading {
    ghost use Rattle.std.specs.Prelude.{true};
    ghost use Rattle.pack_reading.specs.Kept.{KeepsSight};

    ghost step = { λ old at s new. KeepsSight s old.swept new.swept };

    ghost takes_memory = { true };

    fn visit(&mut self, _at: u16, sight: Sight, sector: &Sector) -> Result<(), Memory> {
        match sight {
            Sight::Leads { fid } => {
                let leader = leader_in(fid, &sector.value);
                self.swept.leaders.keep(fid, leader)
            }
            Sight::Holds { fid, number, bytes } => {
                let bytes = counted_bytes(self.alloc, &sector.value, bytes)?;
                self.swept.pages.keep(Page { fid, number }, bytes)
            }
            Sight::Hidden => Ok(()),
            Sight::Free => Ok(()),
            Sight::Stray => Ok(()),
        }
    }
}

/// What all sectors show, except the first, which is never used. Fewer sector commands than sectors.
pub(crate) fn sweep_all<D: Disk>(alloc: Global, disk: &mut D) -> Result<Swept, ReadingError>
    ensures holds { IsTrue D.told → IfOk result (HoldsSights (sights (pack (D.tape disk.old)))) }
    ensures cause { HasCause cause_of_reading (D.tape disk.old) (D.tape disk.new) result }
    ensures looks { Looks D.told (pages_of (D.tape disk.old).form - 1) (D.tape disk.old) (D.tape disk.new) }
{
    let mut reading = Reading {
        alloc,
        swept: Swept {
            leaders: Leaders::new(alloc),
            pages: Pages::new(alloc),
        },
    };
    sweep(disk, &mut reading)?;
    Ok(reading.swept)
}
