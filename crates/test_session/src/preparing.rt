// Packs of every size formatted over zeros, and the word `prepare` over two drives of 203 cylinders.
use crate::obeying::obey;
use alto_top::Status;
use disk_memory::{MemMachine, SureMachine};
use disk_records::{Disk, Sector, Shape};
use std::alloc::Global;
use std::process::Abort;
use std::test::Fail;

/// The sectors of one drive of 203 cylinders.
const DRIVE: usize = 4872;

/// What is shown of a second drive that was prepared.
const PREPARED: &[u8] = b"prepared: 4872 pages\n";

/// The shape of so many drives with so many cylinders each.
fn shape_of(disks: u16, cylinders: u16) -> Result<Shape, Fail> {
    Ok(Shape::new(disks, cylinders).ok_or("no shape")?)
}

/// Formats a pack of zeros and this shape. Gives its sectors, if this was shown and each sector was written whole.
fn formatted<R: Abort + AllocGlobal>(
    rt: &R,
    disks: u16,
    cylinders: u16,
    shown: &[u8],
) -> Result<Vec<Sector>, Fail> {
    let alloc = rt.alloc();
    let shape = shape_of(disks, cylinders)?;
    let zeros = vec![in alloc; Sector::ZEROS; shape.pages() as usize]?;
    let mut machine = SureMachine::new(alloc, shape, zeros, Vec::new(alloc))?;
    let status = obey(alloc, &["format", "7"], &mut machine)?;
    assert!(rt; status == Status::Done);
    assert_eq!(rt; machine.shown(alloc)?.as_slice(), shown);
    assert!(rt;
        machine.writes() == 3 * u64::from(shape.pages()),
        "record writes"
    );
    Ok(machine.into_sectors())
}

#[test]
fn every_size(rt: HostRuntime) -> Result<(), Fail> {
    formatted(&rt, 1, 160, b"formatted: 3834 pages free\n")?;
    formatted(&rt, 1, 203, b"formatted: 4866 pages free\n")?;
    formatted(&rt, 1, 406, b"formatted: 9737 pages free\n")?;
    formatted(&rt, 2, 203, b"formatted: 9737 pages free\n")?;
    formatted(&rt, 2, 406, b"formatted: 19479 pages free\n")?;
    Ok(())
}

/// A formatted pack of one drive, and the zeros of a second one after it.
fn two_drives<R: Abort + AllocGlobal>(rt: &R) -> Result<Vec<Sector>, Fail> {
    let mut sectors = formatted(rt, 1, 203, b"formatted: 4866 pages free\n")?;
    sectors.resize(2 * DRIVE, Sector::ZEROS)?;
    Ok(sectors)
}

/// A second drive of free sectors, with the pack number 7.
fn free_drive(alloc: Global) -> Result<Vec<Sector>, Fail> {
    let mut sectors = Vec::new(alloc);
    for cylinder in 0..203u16 {
        for head in 0..2u16 {
            for sector in 0..12u16 {
                sectors.push(Sector {
                    header: [7, sector * 4096 + cylinder * 8 + head * 4 + 2],
                    label: [0xFFFF; 8],
                    value: [0xFFFF; 256],
                })?;
            }
        }
    }
    Ok(sectors)
}

/// Prepares the second drive of these sectors, of which each is free then. The first drive has these sectors before and after.
fn expect_prepared<R: Abort + AllocGlobal>(
    rt: &R,
    sectors: Vec<Sector>,
    first: &[Sector],
) -> Result<(), Fail> {
    let alloc = rt.alloc();
    let mut machine = SureMachine::new(alloc, shape_of(2, 203)?, sectors, Vec::new(alloc))?;
    let status = obey(alloc, &["prepare", "7"], &mut machine)?;
    assert!(rt; status == Status::Done);
    assert_eq!(rt; machine.shown(alloc)?.as_slice(), PREPARED);
    assert!(rt; machine.writes() == 24_360, "record writes");
    let sectors = machine.into_sectors();
    let free = free_drive(alloc)?;
    assert!(rt; sectors.get(..DRIVE) == Some(first), "the first drive");
    assert!(rt;
        sectors.get(DRIVE..) == Some(free.as_slice()),
        "the second drive"
    );
    Ok(())
}

#[test]
fn second_drive(rt: HostRuntime) -> Result<(), Fail> {
    let sectors = two_drives(&rt)?;
    let before = sectors.clone()?;
    let first = before.get(..DRIVE).ok_or("no first drive")?;
    expect_prepared(&rt, sectors, first)
}

/// The first sector command over the middle sector of the second drive fails after one of its two record writes; five were made for each
/// sector before. Prepared again, the drive is as if nothing had failed.
#[test]
fn disk_that_fails(rt: HostRuntime) -> Result<(), Fail> {
    let alloc = rt.alloc();
    let sectors = two_drives(&rt)?;
    let before = sectors.clone()?;
    let first = before.get(..DRIVE).ok_or("no first drive")?;
    let mut machine = MemMachine::new(alloc, shape_of(2, 203)?, sectors, Vec::new(alloc))?;
    machine.fail_at(alloc, 4872, 1)?;
    let status = obey(alloc, &["prepare", "7"], &mut machine)?;
    assert!(rt; status == Status::DiskFault);
    assert!(rt; machine.writes() == 12_181, "record writes");
    assert!(rt; machine.shown(alloc)?.is_empty(), "shown");
    let broken = machine.into_sectors();
    assert!(rt; broken.get(..DRIVE) == Some(first), "the first drive");
    expect_prepared(&rt, broken, first)
}
