// What no contract shows: an answer over a disk that isn't modelled.
ghost use Rattle.std.specs.Prelude.{[], false};
ghost use Rattle.std.proofs.lemmas.Bool.{false≢true};

use crate::calling::expect;
use crate::damaging::zeros;
use disk_records::{
    Act, Disk, DiskError, Plan, Sector, Shape, Tape, first_mismatch, update_memory,
};
use scav_pages::{Stop, mend_pages, mend_pages_or_stop};
use scav_table::{Table, sweep};
use scavenger::{ScavError, scavenge};
use std::alloc::Global;
use std::test::Fail;

/// When another process seems to have written a sector.
#[derive(Drop)]
enum Change {
    Never,
    /// Just before its label is written.
    BeforeWrite,
    /// Just before it is checked.
    BeforeCheck,
}

/// A disk that isn't modelled, as if another process wrote there meanwhile. It never fails, and is never out of memory.
#[derive(Drop)]
struct Changing {
    shape: Shape,
    sectors: Vec<Sector>,
    change: Change,
}

impl Tape for Changing {
    ghost told = { false };

    ghost tape = { λ d. record { form = d.shape; base = []; events = []; keys = []; disk_faults = 0; key_faults = 0; show_faults = 0; runs = 0; writes = 0; spare = 0 } };

    ghost handed_on = { λ d. Unit {0} };
}

impl Disk for Changing {
    fn shape(&self) -> Shape {
        self.shape
    }

    fn writes(&self) -> u64 {
        0
    }

    fn run(&mut self, at: u16, plan: Plan, buf: &mut Sector) -> Result<(), DiskError> {
        let changed = match self.change {
            Change::Never => false,
            Change::BeforeWrite => plan.label == Act::Write,
            Change::BeforeCheck => true,
        };
        let Some(sector) = self.sectors.get_mut(usize::from(at)) else {
            return Err(DiskError::Memory);
        };
        if plan.header == Act::Check && (changed || first_mismatch(plan, buf, sector).is_some()) {
            return Err(DiskError::Mismatch { part: 0, word: 1 });
        }
        update_memory(plan, buf, sector);
        // what it doesn't write is as on the disk now
        *sector = *buf;
        Ok(())
    }

    fn flush(&mut self) -> Result<(), DiskError> {
        Ok(())
    }

    ghost counted = { λ d told. absurd (false≢true told) };

    ghost sized = { λ d told. absurd (false≢true told) };

    ghost formed = { λ d told. absurd (false≢true told) };
}

/// Gives all sectors headers with their addresses, and this label.
fn put_labels(sectors: &mut [Sector], shape: Shape, label: [u16; 8]) {
    for at in 0..shape.pages() {
        if let Some(sector) = sectors.get_mut(usize::from(at)) {
            sector.header = [1, shape.real_of(at)];
            sector.label = label;
        }
    }
}

/// A disk of 48 sectors, each with this label. None if no memory is left.
fn changing_disk(alloc: Global, label: [u16; 8], change: Change) -> Option<Changing> {
    let shape = Shape::new(1, 2)?;
    let mut sectors = zeros(alloc, shape)?;
    put_labels(&mut sectors, shape, label);
    Some(Changing {
        shape,
        sectors,
        change,
    })
}

/// The label of a leader page.
const LEADER: [u16; 8] = [0xFFFF, 0xFFFF, 0, 512, 0, 1, 0, 100];

/// Mends the pages of a disk as far as they go, and then again, by a table that was swept.
fn goes_astray_by(disk: &mut Changing, table: &mut Table) -> bool {
    table.rows().len() == 47
        && mend_pages(disk, table) == Ok(0)
        && mend_pages_or_stop(disk, table) == Err(Stop::Astray)
}

/// Sweeps a disk, and mends its pages.
fn goes_astray(alloc: Global, disk: &mut Changing) -> bool {
    match sweep(alloc, disk) {
        Ok(mut table) => goes_astray_by(disk, &mut table),
        Err(_) => false,
    }
}

/// Each sector shows the leader page of one file when it is read, and nothing of that when it is checked. It is no want of memory, and is told.
#[test]
fn a_changing_page_is_not_out_of_memory(rt: HostRuntime) -> Result<(), Fail> {
    let alloc = rt.alloc();
    let Some(mut disk) = changing_disk(alloc, LEADER, Change::BeforeCheck) else {
        return Err(Fail::new("no disk"));
    };
    expect(goes_astray(alloc, &mut disk), "another answer")
}

/// Scavenges a disk three times. Before the second one the leader page of SysDir gets a link to a page before it, which has to be mended, and
/// sectors change.
fn scavenges_thrice(alloc: Global, disk: &mut Changing) -> bool {
    if scavenge(alloc, disk).is_err() {
        return false;
    }
    let Some(sector) = disk.sectors.get_mut(1) else {
        return false;
    };
    sector.label[1] = 5;
    disk.change = Change::BeforeWrite;
    let second = scavenge(alloc, disk);
    disk.change = Change::Never;
    second == Err(ScavError::Memory) && scavenge(alloc, disk).is_ok()
}

#[test]
fn a_change_while_pages_are_mended_ends_it(rt: HostRuntime) -> Result<(), Fail> {
    let alloc = rt.alloc();
    let Some(mut disk) = changing_disk(alloc, [0xFFFF; 8], Change::Never) else {
        return Err(Fail::new("no disk"));
    };
    expect(scavenges_thrice(alloc, &mut disk), "another answer")
}
