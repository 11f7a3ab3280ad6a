// Sectors by their numbers, of which some may be missing.
//
// The memory for all of them is taken at once, and touched as they come.
ghost use Rattle.std.specs.Prelude.{◌≡◌, ◌≢◌, ℕ, ◌+◌, ◌<◌, ◌≤◌, length, Some, None, IfOk, vec_len, vec_capacity};
ghost use Rattle.std.specs.Option.{option_copied, option_map};
ghost use Rattle.disk_image.specs.Kept.{sector_in, PutsCylinder};

use crate::codec::{SECTOR_BYTES, read_sector};
use crate::spot::CYLINDER_SECTORS;
use alto_words::Memory;
use disk_records::Sector;
use std::alloc::Global;

/// Sectors by their numbers.
#[derive(Drop)]
pub(crate) struct SectorTable {
    // the first sectors, None for one that is missing; those after them are missing too
    sectors: Vec<Option<Sector>>,
}

impl SectorTable {
    /// No sectors; it takes no memory.
    pub(crate) fn new(alloc: Global) -> SectorTable
        ensures { (k : ℕ) → sector_in result k ≡ None }
    {
        SectorTable {
            sectors: Vec::new(alloc),
        }
    }

    /// No sectors yet, and memory for so many.
    pub(crate) fn with_room(alloc: Global, count: u16) -> Result<SectorTable, Memory>
        ensures { IfOk result (λ table. (k : ℕ) → sector_in table k ≡ None) }
    {
        Ok(SectorTable {
            sectors: Vec::with_capacity(alloc, count as usize)?,
        })
    }

    /// How many sectors there is memory for.
    pub(crate) fn room(&self) -> usize
        ensures { result ≡ vec_capacity self.now.sectors }
    {
        self.sectors.capacity()
    }

    /// The sector of this number. None where it is missing.
    pub(crate) fn sector(&self, number: u16) -> Option<&Sector>
        ensures { option_copied result ≡ sector_in self.now number }
    {
        match self.sectors.get(number as usize) {
            Some(Some(sector)) => Some(sector),
            _ => None,
        }
    }

    /// Puts the sectors of a cylinder at their numbers, as these bytes say, the first of them at this one. No memory is taken.
    pub(crate) fn put_cylinder(&mut self, first: usize, bytes: &[u8])
        requires capacity { first + 24 ≤ vec_capacity self.old.sectors }
        requires length { length bytes.now ≡ 12768 }
        ensures { PutsCylinder first bytes.now self.old self.new }
    {
        self.reach_to(first);
        for sector in 0..CYLINDER_SECTORS as usize {
            let from = sector * SECTOR_BYTES;
            self.put(
                first + sector,
                read_sector(&bytes[from..from + SECTOR_BYTES]),
            );
        }
    }

    /// Has at least so many sectors in the list, the new ones missing.
    fn reach_to(&mut self, end: usize)
        requires { end ≤ vec_capacity self.old.sectors }
        ensures long { end ≤ vec_len self.new.sectors }
        ensures capacity { vec_capacity self.new.sectors ≡ vec_capacity self.old.sectors }
        ensures same { (k : ℕ) → sector_in self.new k ≡ sector_in self.old k }
    {
        for _ in self.sectors.len()..end {
            self.sectors.push_reserved(None);
        }
    }

    /// Puts a sector at this place of the list, or at its end.
    fn put(&mut self, place: usize, sector: Sector)
        requires capacity { place < vec_capacity self.old.sectors }
        requires long { place ≤ vec_len self.old.sectors }
        ensures long { place < vec_len self.new.sectors }
        ensures same_capacity { vec_capacity self.new.sectors ≡ vec_capacity self.old.sectors }
        ensures here { sector_in self.new place ≡ Some sector }
        ensures others { (k : ℕ) → k ≢ place → sector_in self.new k ≡ sector_in self.old k }
    {
        if place < self.sectors.len() {
            self.sectors[place] = Some(sector);
        } else {
            self.sectors.push_reserved(Some(sector));
        }
    }

    /// Puts this sector in the place of the one that has this number, if one has.
    pub(crate) fn replace(&mut self, number: u16, sector: &Sector)
        ensures here { sector_in self.new number ≡ option_map (λ old. sector.now) (sector_in self.old number) }
        ensures others { (k : ℕ) → k ≢ number → sector_in self.new k ≡ sector_in self.old k }
    {
        if let Some(place) = self.sectors.get_mut(number as usize) {
            write_over(place, sector);
        }
    }

    /// Takes out the sector of this number.
    pub(crate) fn forget(&mut self, number: u16)
        ensures here { sector_in self.new number ≡ None }
        ensures others { (k : ℕ) → k ≢ number → sector_in self.new k ≡ sector_in self.old k }
    {
        if let Some(sector) = self.sectors.get_mut(number as usize) {
            *sector = None;
        }
    }
}

/// Puts this sector in the place of another, if one is there. It is copied once, which `Some(*sector)` isn't.
fn write_over(place: &mut Option<Sector>, sector: &Sector)
    ensures { place.new ≡ option_map (λ old. sector.now) place.old }
{
    if let Some(old) = place {
        *old = *sector;
    }
}
