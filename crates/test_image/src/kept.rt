// Sectors that are kept: that real files are read once, and again where they have to be.
use crate::samples::filled;
use disk_image::FileMachine;
use disk_records::{Disk, DiskError, Plan, Sector};
use std::alloc::{AllocError, Global};
use std::fs;
use std::fs::{OpenFile, OpenOptions};
use std::test::Fail;

/// The bytes of a file, all of them this one.
fn bytes_of(alloc: Global, byte: u8, count: usize) -> Result<Vec<u8>, AllocError> {
    vec![in alloc; byte; count]
}

/// What a command that reads all of a sector brings to memory.
fn read_at<D: Disk>(machine: &mut D, at: u16) -> Result<Sector, DiskError> {
    let mut memory = filled(9, 9, 9);
    if at >= machine.shape().pages() {
        return Err(DiskError::Failed);
    }
    machine.read_sector(at, &mut memory)?;
    Ok(memory)
}

#[test]
fn a_kept_sector_meets_no_fault(rt: HostRuntime) -> Result<(), Fail> {
    let mut machine = FileMachine::create(&rt, rt.alloc(), "kept", 2)?;
    machine.run(5, Plan::WRITE_ALL, &mut filled(1, 2, 3))?;
    assert!(rt; read_at(&mut machine, 5) == Ok(filled(1, 2, 3)));
    // the first cylinder was read, and the other one wasn't
    let file = OpenOptions::new().write(true).open(&rt, "kept")?;
    file.set_len(0)?;
    for at in 0u16..24 {
        let wanted = if at == 5 {
            filled(1, 2, 3)
        } else {
            filled(0, 0, 0)
        };
        assert!(rt; read_at(&mut machine, at) == Ok(wanted), "{at}");
    }
    for at in 24u16..48 {
        assert!(rt; read_at(&mut machine, at) == Err(DiskError::Failed), "{at}");
    }
    fs::remove_file(&rt, "kept")?;
    Ok(())
}

#[test]
fn a_cylinder_that_is_read_again_stays(rt: HostRuntime) -> Result<(), Fail> {
    let mut machine = FileMachine::create(&rt, rt.alloc(), "again", 2)?;
    // the byte that the file is full of by now, the sector that is read, and the words that it is read as
    let steps = [
        (1u8, 0u16, 0x0101u16),
        (2, 1, 0x0101),
        // the second cylinder takes the place of the first one, which is read again and stays beside it
        (2, 24, 0x0202),
        (3, 0, 0x0303),
        (4, 1, 0x0303),
        (4, 25, 0x0202),
    ];
    for (byte, at, word) in steps {
        fs::write(&rt, "again", bytes_of(rt.alloc(), byte, 25_536)?.as_slice())?;
        let wanted = filled(word, word, word);
        assert!(rt; read_at(&mut machine, at) == Ok(wanted), "{at} of {byte}");
    }
    fs::remove_file(&rt, "again")?;
    Ok(())
}

#[test]
fn a_cylinder_that_is_read_after_a_write_stays(rt: HostRuntime) -> Result<(), Fail> {
    let ones = filled(0x0101, 0x0101, 0x0101);
    let mut machine = FileMachine::create(&rt, rt.alloc(), "after", 3)?;
    fs::write(&rt, "after", bytes_of(rt.alloc(), 1, 38_304)?.as_slice())?;
    machine.run(1, Plan::WRITE_ALL, &mut filled(7, 8, 9))?;
    // the last cylinder doesn't take the place of the second one
    assert!(rt; read_at(&mut machine, 24) == Ok(ones));
    assert!(rt; read_at(&mut machine, 48) == Ok(ones));
    fs::write(&rt, "after", bytes_of(rt.alloc(), 2, 38_304)?.as_slice())?;
    for at in 24u16..72 {
        assert!(rt; read_at(&mut machine, at) == Ok(ones), "{at}");
    }
    fs::remove_file(&rt, "after")?;
    Ok(())
}

#[test]
fn a_cylinder_that_is_written_stays(rt: HostRuntime) -> Result<(), Fail> {
    let ones = filled(0x0101, 0x0101, 0x0101);
    let mut machine = FileMachine::create(&rt, rt.alloc(), "stays", 2)?;
    fs::write(&rt, "stays", bytes_of(rt.alloc(), 1, 25_536)?.as_slice())?;
    // each cylinder is read once, and the first one is written before the second is read
    assert!(rt; read_at(&mut machine, 0) == Ok(ones));
    machine.run(1, Plan::WRITE_ALL, &mut filled(7, 8, 9))?;
    assert!(rt; read_at(&mut machine, 24) == Ok(ones));
    // no call reads the file that is full of another byte by now
    fs::write(&rt, "stays", bytes_of(rt.alloc(), 2, 25_536)?.as_slice())?;
    for at in 0u16..48 {
        let wanted = if at == 1 { filled(7, 8, 9) } else { ones };
        assert!(rt; read_at(&mut machine, at) == Ok(wanted), "{at}");
    }
    fs::remove_file(&rt, "stays")?;
    Ok(())
}

#[test]
fn a_sector_is_forgotten_after_a_fault(rt: HostRuntime) -> Result<(), Fail> {
    let mut machine = FileMachine::create(&rt, rt.alloc(), "forgotten", 2)?;
    machine.run(7, Plan::WRITE_ALL, &mut filled(1, 2, 3))?;
    machine.run(6, Plan::WRITE_ALL, &mut filled(4, 5, 6))?;
    assert!(rt; read_at(&mut machine, 7) == Ok(filled(1, 2, 3)));
    // after a flush the file's length is asked for again
    machine.flush()?;
    // sector 20 is held back, and has to go ahead of sector 7, which it doesn't touch
    machine.run(20, Plan::WRITE_ALL, &mut filled(7, 8, 9))?;
    let file = OpenOptions::new().write(true).open(&rt, "forgotten")?;
    file.set_len(0)?;
    let failed = machine.run(7, Plan::WRITE_VALUE, &mut filled(0, 0, 7));
    assert!(rt; failed == Err(DiskError::Failed));
    assert!(rt; read_at(&mut machine, 7) == Err(DiskError::Failed));
    assert!(rt; read_at(&mut machine, 6) == Ok(filled(4, 5, 6)));
    assert!(rt; fs::read(&rt, "forgotten")?.is_empty());
    // now it is read again, with its cylinder, of which sector 20 was handed on just before
    file.set_len(25_536)?;
    assert!(rt; read_at(&mut machine, 7) == Ok(filled(0, 0, 0)));
    assert!(rt; read_at(&mut machine, 6) == Ok(filled(0, 0, 0)));
    assert!(rt; read_at(&mut machine, 20) == Ok(filled(7, 8, 9)));
    assert_eq!(rt; machine.writes(), 9);
    fs::remove_file(&rt, "forgotten")?;
    Ok(())
}

#[test]
fn a_cylinder_that_is_cut_is_not_kept(rt: HostRuntime) -> Result<(), Fail> {
    let ones = filled(0x0101, 0x0101, 0x0101);
    let twos = filled(0x0202, 0x0202, 0x0202);
    let mut machine = FileMachine::create(&rt, rt.alloc(), "cut", 2)?;
    for (byte, sector) in [(1u8, ones), (2, twos)] {
        fs::write(&rt, "cut", bytes_of(rt.alloc(), byte, 25_535)?.as_slice())?;
        assert!(rt; read_at(&mut machine, 47) == Err(DiskError::Failed));
        assert!(rt; read_at(&mut machine, 46) == Ok(sector));
        assert!(rt; read_at(&mut machine, 24) == Ok(sector));
    }
    // whole again it is kept
    fs::write(&rt, "cut", bytes_of(rt.alloc(), 1, 25_536)?.as_slice())?;
    assert!(rt; read_at(&mut machine, 47) == Ok(ones));
    fs::write(&rt, "cut", bytes_of(rt.alloc(), 2, 25_536)?.as_slice())?;
    assert!(rt; read_at(&mut machine, 46) == Ok(ones));
    assert!(rt; read_at(&mut machine, 23) == Ok(twos));
    fs::remove_file(&rt, "cut")?;
    Ok(())
}

#[test]
fn a_kept_sector_is_the_one_of_its_drive(rt: HostRuntime) -> Result<(), Fail> {
    let mut machine = FileMachine::create_two(&rt, rt.alloc(), "here", "there", 2)?;
    fs::write(&rt, "here", bytes_of(rt.alloc(), 1, 25_536)?.as_slice())?;
    fs::write(&rt, "there", bytes_of(rt.alloc(), 2, 25_536)?.as_slice())?;
    // both cylinders of the second drive, and then those of the first; the second time they stay
    for at in [95u16, 48, 0, 47, 95, 48, 0, 47] {
        let wanted = if at < 48 { 0x0101 } else { 0x0202 };
        let sector = filled(wanted, wanted, wanted);
        assert!(rt; read_at(&mut machine, at) == Ok(sector), "{at}");
    }
    // of these one is written, and all are kept
    assert!(rt; 53 < machine.shape().pages());
    machine.run(53, Plan::WRITE_ALL, &mut filled(3, 3, 3))?;
    fs::write(&rt, "here", b"")?;
    fs::write(&rt, "there", b"")?;
    for at in 0u16..96 {
        let wanted = match at {
            0..48 => 0x0101,
            53 => 3,
            _ => 0x0202,
        };
        let sector = filled(wanted, wanted, wanted);
        assert!(rt; read_at(&mut machine, at) == Ok(sector), "{at}");
    }
    fs::remove_file(&rt, "here")?;
    fs::remove_file(&rt, "there")?;
    Ok(())
}

#[test]
fn a_write_at_a_lost_sector_is_a_fault(rt: HostRuntime) -> Result<(), Fail> {
    let alloc = rt.alloc();
    fs::write(&rt, "lost", bytes_of(alloc, 0, 25_536)?.as_slice())?;
    let file = OpenOptions::new().write(true).open(&rt, "lost")?;
    // sector 2 ends at byte 1,596; sector 3 is cut short, and sectors 4 and 47 are lost
    for (length, at) in [
        (2_127u64, 3u16),
        (1_700, 3),
        (1_596, 3),
        (2_127, 4),
        (1_596, 4),
        (1_596, 47),
    ] {
        let mut machine = FileMachine::reach(&rt, alloc, "lost")?;
        file.set_len(length)?;
        assert!(rt; at < machine.shape().pages() && 7 < machine.shape().pages());
        machine.run(2, Plan::WRITE_ALL, &mut filled(0, 0, 7))?;
        machine.flush()?;
        // the bytes are held back, until they can't be written
        machine.run(at, Plan::WRITE_ALL, &mut filled(0, 0, 7))?;
        assert!(rt;
            machine.flush() == Err(DiskError::Failed),
            "{at} of {length}"
        );
        assert!(rt;
            machine.flush() == Err(DiskError::Failed),
            "{at} of {length}"
        );
        // nothing goes ahead of them: sector 7, which they don't touch, can't be written either
        for plan in [Plan::WRITE_ALL, Plan::WRITE_VALUE] {
            let failed = machine.run(7, plan, &mut filled(0, 0, 7));
            assert!(rt; failed == Err(DiskError::Failed), "{at} of {length}");
        }
        assert!(rt; fs::read(&rt, "lost")?.len() as u64 == length);
        assert_eq!(rt; machine.writes(), 6);
        // where the file is whole again they can be written
        assert!(rt; file.set_len(25_536).is_ok());
        machine.flush()?;
        drop(machine);
        let bytes = fs::read(&rt, "lost")?;
        for (place, byte) in bytes.iter().enumerate() {
            let number = place / 532;
            let is_written = (number == 2 || number == at as usize) && place % 532 >= 20;
            let wanted = if is_written && place % 2 == 1 { 7 } else { 0 };
            assert!(rt; *byte == wanted, "{place} of {length}");
        }
        fs::write(&rt, "lost", bytes_of(alloc, 0, 25_536)?.as_slice())?;
    }
    fs::remove_file(&rt, "lost")?;
    Ok(())
}
