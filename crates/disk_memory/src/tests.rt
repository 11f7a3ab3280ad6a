// What no clause says: that calls answer with ample memory, and how a few of them go together.
ghost use Rattle.std.specs.Prelude.{◌≡◌, ◌<◌, IfOk};
ghost use Rattle.disk_records.specs.Addresses.{pages_of};

use crate::{MemMachine, NewError, SureMachine};
use disk_records::{Act, Console, ConsoleError, Disk, DiskError, Plan, Sector, Shape, Tape};
use std::alloc::{AllocError, Global};
use std::test::Fail;

fn blank_sectors(alloc: Global, count: u16) -> Result<Vec<Sector>, AllocError> {
    let mut sectors = Vec::new(alloc);
    for _ in 0..count {
        sectors.push(Sector::ZEROS)?;
    }
    Ok(sectors)
}

/// A sector whose records hold one word each over and over.
fn filled(header: u16, label: u16, value: u16) -> Sector {
    Sector {
        header: [header; 2],
        label: [label; 8],
        value: [value; 256],
    }
}

/// A machine with 48 blank sectors and the keys `ok`.
fn small_machine(alloc: Global) -> Result<MemMachine, Fail>
    ensures { IfOk result (λ machine. pages_of (⟦<MemMachine as Tape>⟧.tape machine).form ≡ 48) }
{
    let Some(shape) = Shape::new(1, 2) else {
        return Err(Fail::from("shape"));
    };
    let keys = b"ok".to_vec(alloc)?;
    let machine = MemMachine::new(alloc, shape, blank_sectors(alloc, 48)?, keys)?;
    Ok(machine)
}

#[test]
fn too_few_sectors_make_no_machine(rt: HostRuntime) -> Result<(), Fail> {
    let alloc = rt.alloc();
    let shape = Shape::new(1, 2).expect(&rt, "two cylinders");
    let wanted = NewError::WrongCount {
        wanted: 48,
        got: 47,
    };
    let sure = SureMachine::new(alloc, shape, blank_sectors(alloc, 47)?, Vec::new(alloc));
    assert!(rt; sure.err() == Some(wanted));
    let failing = MemMachine::new(alloc, shape, blank_sectors(alloc, 47)?, Vec::new(alloc));
    assert!(rt; failing.err() == Some(wanted));
    Ok(())
}

#[test]
fn a_checked_zero_is_filled_from_the_disk(rt: HostRuntime) -> Result<(), Fail> {
    let mut machine = small_machine(rt.alloc())?;
    let mut written = filled(1, 2, 3);
    machine.run(7, Plan::WRITE_ALL, &mut written)?;

    let mut memory = filled(0, 2, 8);
    memory.label[4] = 0;
    let plan = Plan {
        header: Act::Check,
        label: Act::Check,
        value: Act::Read,
    };
    machine.run(7, plan, &mut memory)?;
    assert!(rt; memory == filled(1, 2, 3));

    memory.label[5] = 8;
    let wanted = DiskError::Mismatch { part: 1, word: 5 };
    assert!(rt; machine.run(7, plan, &mut memory) == Err(wanted));
    Ok(())
}

#[test]
fn a_cut_ends_between_two_records(rt: HostRuntime) -> Result<(), Fail> {
    let alloc = rt.alloc();
    let mut machine = small_machine(alloc)?;
    machine.show(b"a")?;
    machine.run(7, Plan::WRITE_ALL, &mut filled(1, 2, 3))?;
    machine.show(b"b")?;
    assert!(rt; machine.shown(alloc)?.as_slice() == b"ab".as_slice());
    assert!(rt; machine.event_count() == 5);
    for (k, place) in [(0, 0), (1, 2), (3, 4), (4, 5)] {
        assert_eq!(rt; machine.place_of_write(k), place, "at {k}");
    }

    let count = machine.place_of_write(2);
    assert!(rt; count <= machine.event_count());
    let mut cut = machine.cut(alloc, count)?;
    assert!(rt; *cut.sector(7) == filled(1, 2, 0));
    assert!(rt; cut.shown(alloc)?.as_slice() == b"a".as_slice());
    assert!(rt; cut.read(&mut [0; 4])? == 0);
    Ok(())
}

#[test]
fn calls_fail_where_they_are_told_to(rt: HostRuntime) -> Result<(), Fail> {
    let alloc = rt.alloc();
    let mut machine = small_machine(alloc)?;
    machine.fail_at(alloc, 1, 2)?;
    machine.fail_at(alloc, 2, 0)?;
    machine.fail_at(alloc, 4, 9)?;
    machine.run(7, Plan::WRITE_ALL, &mut filled(1, 2, 3))?;
    let failed = machine.run(8, Plan::WRITE_ALL, &mut filled(1, 2, 3));
    assert!(rt; failed == Err(DiskError::Failed));
    assert!(rt; *machine.sector(8) == filled(1, 2, 0));

    let mut keys = [0; 4];
    assert!(rt; machine.read(&mut keys) == Err(ConsoleError::Failed));
    assert!(rt; machine.read(&mut keys)? == 2);
    assert!(rt; keys == *b"ok\0\0");
    assert!(rt; machine.show(b"a") == Err(ConsoleError::Failed));
    machine.show(b"b")?;
    assert!(rt; machine.shown(alloc)?.as_slice() == b"b".as_slice());
    Ok(())
}

#[test]
fn memory_kept_ready_serves_a_command(rt: HostRuntime) -> Result<(), Fail> {
    let alloc = rt.alloc();
    let mut machine = small_machine(alloc)?;
    machine.reserve(alloc, 3)?;
    machine.run(7, Plan::WRITE_ALL, &mut filled(1, 2, 3))?;
    assert!(rt; machine.writes() == 3);
    let sectors = machine.into_sectors();
    assert!(rt; sectors.len() == 48);
    assert!(rt; sectors[7] == filled(1, 2, 3));
    Ok(())
}
