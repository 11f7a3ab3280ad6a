// What is kept in memory of the sectors of a pack.
//
// A pass over the pack that is the only one, as that of a listing, needs each sector once: so of the cylinders that were read once only
// the one that was read last is kept, always in the same memory, which costs less than new memory for each. One that is read again is
// kept from then on. Once a sector was written each one that is read is, and none takes the place of another: a session that makes files
// comes back to the cylinders that it reads. Memory for all sectors of the pack is taken once, before the first is kept, and touched as it
// is needed. Where it is refused nothing is ever kept.
//
// Words are kept and not bytes: they are converted once, and a sweep of what is kept copies words alone. Under a limit on memory what is
// kept may be what others lack; it isn't given back, since no call can be told that it is wanted.
ghost use Rattle.std.specs.Prelude.{◌≡◌, ◌≢◌, ℕ, length, None, IfOk, IsTrue};
ghost use Rattle.std.specs.Option.{option_copied, option_map};
ghost use Rattle.disk_image.specs.Kept.{kept_at, place_of, HasRoom, KeepsCylinder};

use crate::spot::CYLINDER_SECTORS;
use crate::table::SectorTable;
use alto_words::Memory;
use disk_records::{Sector, Shape};
use std::alloc::Global;

/// How often a cylinder was read, up to where it stays.
#[derive(Clone, Copy, PartialEq, Eq)]
pub(crate) enum Reads {
    Never,
    Once,
    /// More often, or after a write.
    Often,
}

/// Where a sector may be kept.
#[derive(Clone, Copy, PartialEq, Eq)]
pub(crate) enum Place {
    /// It isn't kept.
    Nowhere,
    /// With the cylinder that passes: the one that was read last of those that were read once, before any write.
    Passing,
    /// With the cylinders that stay.
    Staying,
}

/// The sectors that are kept of a pack, each at its virtual address: those of the cylinder that was read last of those that were read
/// once, before any write, and those of each cylinder that was read again or after a write.
#[derive(Drop)]
pub(crate) struct KeptSectors {
    // how often each cylinder was read
    reads: Vec<Reads>,
    // the cylinder that passes, and its sectors from 0 on
    latest: u16,
    passing: SectorTable,
    // the sectors of cylinders that stay
    staying: SectorTable,
    // whether a sector was written
    is_written: bool,
}

impl KeptSectors {
    /// None yet, and memory for all sectors of a pack of this shape, or for none of them where it is refused.
    pub(crate) fn none_of(alloc: Global, shape: Shape) -> KeptSectors
        ensures { (k : ℕ) → kept_at result k ≡ None }
    {
        match KeptSectors::with_room(alloc, shape) {
            Ok(kept) => kept,
            Err(_) => KeptSectors {
                reads: Vec::new(alloc),
                latest: 0,
                passing: SectorTable::new(alloc),
                staying: SectorTable::new(alloc),
                is_written: false,
            },
        }
    }

    /// None yet, and memory for all sectors of a pack of this shape.
    fn with_room(alloc: Global, shape: Shape) -> Result<KeptSectors, Memory>
        ensures { IfOk result (λ kept. (k : ℕ) → kept_at kept k ≡ None) }
    {
        let cylinders = shape.pages() / CYLINDER_SECTORS;
        Ok(KeptSectors {
            reads: vec![in alloc; Reads::Never; cylinders as usize]?,
            latest: 0,
            passing: SectorTable::with_room(alloc, CYLINDER_SECTORS)?,
            staying: SectorTable::with_room(alloc, shape.pages())?,
            is_written: false,
        })
    }

    /// Where the sector at this virtual address may be kept.
    fn place_of(&self, at: u16) -> Place
        ensures { result ≡ place_of self.now at }
    {
        let cylinder = at / CYLINDER_SECTORS;
        match self.reads.get(cylinder as usize) {
            None => Place::Nowhere,
            Some(Reads::Never) => Place::Nowhere,
            Some(Reads::Once) => if cylinder == self.latest {
                Place::Passing
            } else {
                Place::Nowhere
            },
            Some(Reads::Often) => Place::Staying,
        }
    }

    /// The sector that is kept at this virtual address. None where it isn't kept.
    pub(crate) fn sector(&self, at: u16) -> Option<&Sector>
        ensures { option_copied result ≡ kept_at self.now at }
    {
        match self.place_of(at) {
            Place::Nowhere => None,
            Place::Passing => self.passing.sector(at % CYLINDER_SECTORS),
            Place::Staying => self.staying.sector(at),
        }
    }

    /// Whether there is memory for the sectors of a cylinder.
    pub(crate) fn has_room(&self, cylinder: u16) -> bool
        ensures { IsTrue result → HasRoom self.now cylinder }
    {
        let sectors = CYLINDER_SECTORS as usize;
        (cylinder as usize) < self.reads.len()
            && sectors <= self.passing.room()
            && (cylinder as usize + 1) * sectors <= self.staying.room()
    }

    /// Keeps the sectors of a cylinder, as these bytes say: from now on, unless it is read for the first time, before any write. No memory is
    /// taken.
    pub(crate) fn keep_cylinder(&mut self, cylinder: u16, bytes: &[u8])
        requires room { HasRoom self.old cylinder }
        requires length { length bytes.now ≡ 12768 }
        ensures { KeepsCylinder cylinder bytes.now self.old self.new }
    {
        let is_first = self.reads[cylinder as usize] == Reads::Never;
        if is_first && !self.is_written {
            self.let_pass(cylinder, bytes);
        } else {
            self.let_stay(cylinder, bytes);
        }
    }

    /// Keeps the sectors of a cylinder in the place of those of the one that was read before it.
    fn let_pass(&mut self, cylinder: u16, bytes: &[u8])
        requires room { HasRoom self.old cylinder }
        requires length { length bytes.now ≡ 12768 }
        ensures { KeepsCylinder cylinder bytes.now self.old self.new }
    {
        self.passing.put_cylinder(0, bytes);
        self.latest = cylinder;
        self.reads[cylinder as usize] = Reads::Once;
    }

    /// Keeps the sectors of a cylinder from now on.
    fn let_stay(&mut self, cylinder: u16, bytes: &[u8])
        requires room { HasRoom self.old cylinder }
        requires length { length bytes.now ≡ 12768 }
        ensures { KeepsCylinder cylinder bytes.now self.old self.new }
    {
        let first = cylinder as usize * CYLINDER_SECTORS as usize;
        self.staying.put_cylinder(first, bytes);
        self.reads[cylinder as usize] = Reads::Often;
    }

    /// Keeps this sector, which was written, in the place of the one that is kept at this virtual address, if one is. What is kept by now
    /// stays.
    pub(crate) fn replace(&mut self, at: u16, sector: &Sector)
        ensures here { kept_at self.new at ≡ option_map (λ kept. sector.now) (kept_at self.old at) }
        ensures others { (k : ℕ) → k ≢ at → kept_at self.new k ≡ kept_at self.old k }
    {
        self.is_written = true;
        match self.place_of(at) {
            Place::Nowhere => {}
            Place::Passing => self.passing.replace(at % CYLINDER_SECTORS, sector),
            Place::Staying => self.staying.replace(at, sector),
        }
    }

    /// Keeps the sector at this virtual address no longer.
    pub(crate) fn forget(&mut self, at: u16)
        ensures here { kept_at self.new at ≡ None }
        ensures others { (k : ℕ) → k ≢ at → kept_at self.new k ≡ kept_at self.old k }
    {
        match self.place_of(at) {
            Place::Nowhere => {}
            Place::Passing => self.passing.forget(at % CYLINDER_SECTORS),
            Place::Staying => self.staying.forget(at),
        }
    }
}
