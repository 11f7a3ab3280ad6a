// Sector commands over real files: where the records stand that they write, and what they read.
use crate::samples::{bytes_from, filled};
use disk_image::FileMachine;
use disk_records::{Disk, DiskError, Plan};
use std::fs;
use std::test::Fail;

/// The byte of a pack file at this place, where sector 7 is filled with three words and all others are zeros.
fn byte_at(place: usize, header: u16, label: u16, value: u16) -> u8 {
    let word = match place {
        3724..=3727 => header,
        3728..=3743 => label,
        3744..=4255 => value,
        _ => 0,
    };
    word.to_be_bytes()[place % 2]
}

#[test]
fn records_are_written_in_place(rt: HostRuntime) -> Result<(), Fail> {
    let mut machine = FileMachine::create(&rt, rt.alloc(), "written", 2)?;
    machine.run(7, Plan::WRITE_ALL, &mut filled(0x0102, 0x0304, 0x0506))?;
    assert_eq!(rt; machine.writes(), 3);

    let mut memory = filled(0, 0x0304, 0x0708);
    memory.label[5] = 8;
    let mismatch = DiskError::Mismatch { part: 1, word: 5 };
    assert!(rt; machine.run(7, Plan::WRITE_VALUE, &mut memory) == Err(mismatch));
    memory.label[5] = 0;
    machine.run(7, Plan::WRITE_VALUE, &mut memory)?;
    assert!(rt; memory == filled(0x0102, 0x0304, 0x0708));
    assert_eq!(rt; machine.writes(), 4);

    machine.flush()?;
    let bytes = fs::read(&rt, "written")?;
    assert_eq!(rt; bytes.len(), 25_536);
    for (place, byte) in bytes.iter().enumerate() {
        assert_eq!(rt; *byte, byte_at(place, 0x0102, 0x0304, 0x0708), "at {place}");
    }
    machine.run(7, Plan::READ, &mut memory)?;
    assert!(rt; memory == filled(0x0102, 0x0304, 0x0708));
    machine.run(47, Plan::READ, &mut memory)?;
    assert!(rt; memory == filled(0, 0, 0));
    fs::remove_file(&rt, "written")?;
    Ok(())
}

#[test]
fn every_byte_of_two_files_is_read_and_written_back(rt: HostRuntime) -> Result<(), Fail> {
    let alloc = rt.alloc();
    let front = bytes_from(alloc, 0, 25_536)?;
    let back = bytes_from(alloc, 25_536, 25_536)?;
    fs::write(&rt, "front", front.as_slice())?;
    fs::write(&rt, "back", back.as_slice())?;
    let mut every = FileMachine::reach_two(&rt, alloc, "front", "back")?;
    let mut again = FileMachine::create_two(&rt, alloc, "again", "also", 2)?;
    // the sectors of the second drive follow those of the first
    let mut sector = filled(9, 9, 9);
    for at in 0u16..96 {
        assert!(rt; at < every.shape().pages() && at < again.shape().pages());
        every.run(at, Plan::READ, &mut sector)?;
        again.run(at, Plan::WRITE_ALL, &mut sector)?;
    }
    assert_eq!(rt; again.writes(), 3 * 96);
    again.flush()?;
    for (path, wanted) in [
        ("front", &front),
        ("back", &back),
        ("again", &front),
        ("also", &back),
    ] {
        assert!(rt;
            fs::read(&rt, path)?.as_slice() == wanted.as_slice(),
            "{path}"
        );
        fs::remove_file(&rt, path)?;
    }
    Ok(())
}
