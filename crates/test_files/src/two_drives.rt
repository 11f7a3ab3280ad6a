// Two drives of two cylinders each over real files: which file a command goes to, and what stands where calls fail or are short.
use crate::outside::{Broken, FileCall, Log, Outside};
use crate::samples::{MADE, MARK_AT, ZEROS, expect_done, start};
use alto_top::{Status, format_pack};
use disk_image::{FileMachine, ReachError, encode_two};
use disk_records::{Disk, Plan, Sector, Shape};
use std::fs;
use std::io::SeekFrom;
use std::process::Abort;
use std::test::Fail;
use test_packs::{Placed, set_page};

/// The file with serial 3: its leader on the first drive, at sector 5, and the page of its five bytes `ABCDE` on the second, at sector 50.
const FRONT_LEADER: Placed = Placed {
    at: 5,
    label: [0x2002, 0xFFFF, 0, 512, 0, 1, 0, 3],
    front: [0; 3],
};

const BACK_DATA: Placed = Placed {
    at: 50,
    label: [0xFFFF, 0x5000, 0, 5, 1, 1, 0, 3],
    front: [0x4142, 0x4344, 0x4500],
};

/// The file with serial 4 the other way round: its leader at sector 70 and the page of its five bytes, the same ones, at sector 7.
const BACK_LEADER: Placed = Placed {
    at: 70,
    label: [0x7000, 0xFFFF, 0, 512, 0, 1, 0, 4],
    front: [0; 3],
};

const FRONT_DATA: Placed = Placed {
    at: 7,
    label: [0xFFFF, 0xA006, 0, 5, 1, 1, 0, 4],
    front: [0x4142, 0x4344, 0x4500],
};

/// Where the bytes of a second page stand in the second file: after the sector of the first, a header and a label.
const IN_SECOND: usize = 532 + 20;

/// Where the map's words of the first drive stand in the first file: words 16 to 18 of DiskDescriptor's page, on sector 4.
const MAP_AT: usize = 4 * 532 + 20 + 32;

/// The bytes of the two files of a pack.
#[derive(Drop)]
struct Pair {
    first: Vec<u8>,
    second: Vec<u8>,
}

/// The pair of the pack with the two files.
fn old_pair<R: Abort + AllocGlobal>(rt: &R) -> Result<Pair, Fail> {
    let shape = Shape::new(2, 2).ok_or("two drives of two cylinders")?;
    let mut sectors = Vec::new(rt.alloc());
    for at in 0..shape.pages() {
        sectors.push(Sector {
            header: [1, shape.real_of(at)],
            label: [0xFFFF; 8],
            value: [0xFFFF; 256],
        })?;
    }
    for page in &[FRONT_LEADER, BACK_DATA, BACK_LEADER, FRONT_DATA] {
        set_page(&mut sectors, page);
    }
    assert!(rt; sectors.len() == shape.pages() as usize && shape.disks() == 2);
    let (first, second) = encode_two(rt.alloc(), shape, &sectors)?;
    Ok(Pair { first, second })
}

/// Writes the two files.
fn place(rt: &HostRuntime, pair: &Pair) -> Result<(), Fail> {
    fs::write(rt, "first", pair.first.as_slice())?;
    fs::write(rt, "second", pair.second.as_slice())?;
    Ok(())
}

/// Whether the two files have these bytes, and removes them.
fn stood(rt: &HostRuntime, pair: &Pair) -> Result<bool, Fail> {
    let first = fs::read(rt, "first")?;
    let second = fs::read(rt, "second")?;
    fs::remove_file(rt, "first")?;
    fs::remove_file(rt, "second")?;
    Ok(first.as_slice() == pair.first.as_slice() && second.as_slice() == pair.second.as_slice())
}

/// Makes a formatted pack on two files, on whose map the first drive is busy, and in a session the file with serial 3 and its five bytes
/// `ABCDE`; so its pages stand on the second drive. Gives the bytes of the files.
fn typed_pair(rt: &HostRuntime) -> Result<Pair, Fail> {
    let alloc = rt.alloc();
    let log = Log::new(alloc);
    let outside = Outside::new(rt, MADE, Broken::Nothing, &log);
    let mut machine = FileMachine::create_two(&outside, alloc, "first", "second", 2)?;
    expect_done(format_pack(alloc, 1, 1000, &mut machine))?;
    drop(machine);
    let mut first = fs::read(rt, "first")?;
    for byte in first.iter_mut().skip(MAP_AT).take(6) {
        *byte = 0xFF;
    }
    fs::write(rt, "first", first.as_slice())?;
    let mut machine = FileMachine::reach_two(&outside, alloc, "first", "second")?;
    expect_done(start(alloc, &mut machine))?;
    drop(machine);
    let first = fs::read(rt, "first")?;
    let second = fs::read(rt, "second")?;
    Ok(Pair { first, second })
}

#[test]
fn short_and_refused_writes_of_the_second_drive(rt: HostRuntime) -> Result<(), Fail> {
    let alloc = rt.alloc();
    let keys = b"patch #3 0 565758595A\n".as_slice();
    let rows = [
        (
            Broken::Short,
            Status::Done,
            b"done\n".as_slice(),
            1,
            b"VWXYZ",
        ),
        (Broken::Writing, Status::DiskFault, b"", 1, b"ABCDE"),
        // after the mark, which stands on the first drive
        (Broken::WriteCall(1), Status::DiskFault, b"", 2, b"ABCDE"),
    ];
    for (broken, ended, shown, mark, bytes) in rows {
        let mut pair = typed_pair(&rt)?;
        let log = Log::new(alloc);
        let outside = Outside::new(&rt, keys, broken, &log);
        let mut machine = FileMachine::reach_two(&outside, alloc, "first", "second")?;
        assert!(rt; start(alloc, &mut machine) == ended, "{broken:?}");
        assert_eq!(rt; log.shown(alloc)?.as_slice(), shown, "{broken:?}");
        if let Some(byte) = pair.first.get_mut(MARK_AT) {
            *byte = mark;
        }
        for (byte, placed) in pair.second.iter_mut().skip(IN_SECOND).zip(bytes) {
            *byte = *placed;
        }
        assert!(rt; stood(&rt, &pair)?, "{broken:?}");
    }
    Ok(())
}

#[test]
fn a_command_on_the_second_drive_goes_to_its_file(rt: HostRuntime) -> Result<(), Fail> {
    let alloc = rt.alloc();
    let pair = old_pair(&rt)?;
    place(&rt, &pair)?;
    let log = Log::new(alloc);
    let outside = Outside::new(&rt, b"", Broken::Nothing, &log);
    let mut machine = FileMachine::reach_two(&outside, alloc, "first", "second")?;
    // the leader at sector 70 stands on the first cylinder of the second file, the free sector 77 on the second, and the data page at
    // sector 7 on the first cylinder of the first file
    let rows = [
        (70u16, Some(0u64), BACK_LEADER.label, [1, 0xA006]),
        (77, Some(12_768), [0xFFFF; 8], [1, 0x500A]),
        (7, Some(0), FRONT_DATA.label, [1, 0x7000]),
        // the other two cylinders were read since, so that of this one isn't kept any more; read again it stays
        (50, Some(0), BACK_DATA.label, [1, 0x2002]),
        (70, None, BACK_LEADER.label, [1, 0xA006]),
    ];
    for (at, begin, label, header) in rows {
        let mut sector = ZEROS;
        assert!(rt; at < machine.shape().pages());
        machine.run(at, Plan::READ, &mut sector)?;
        assert!(rt; sector.label == label, "{at}");
        assert!(rt; sector.header == header, "{at}");
        let calls = log.take_file_calls(alloc)?;
        match begin {
            Some(from) => {
                let wanted = [FileCall::ReadAt(from, 12_768)];
                assert!(rt; calls.as_slice() == wanted.as_slice(), "{at}");
            }
            None => assert!(rt; calls.is_empty(), "{at}"),
        }
    }
    assert!(rt; stood(&rt, &pair)?);
    Ok(())
}

#[test]
fn writes_of_the_other_drive_go_ahead(rt: HostRuntime) -> Result<(), Fail> {
    let alloc = rt.alloc();
    let log = Log::new(alloc);
    let outside = Outside::new(&rt, b"", Broken::Nothing, &log);
    let mut machine = FileMachine::create_two(&outside, alloc, "first", "second", 2)?;
    drop(log.take_file_calls(alloc)?);
    let end = FileCall::Seek(SeekFrom::End(0));
    let of_first = [end, FileCall::WriteAt(0, 532)];
    let of_second = [end, FileCall::WriteAt(532, 1_064)];
    // the sector that is written, and the calls for it: sector 48 is the first one of the second file
    let rows = [
        (0u16, [].as_slice()),
        (49, &of_first),
        (50, &[]),
        (0, &of_second),
    ];
    for (at, calls) in rows {
        assert!(rt; at < machine.shape().pages());
        machine.run(at, Plan::WRITE_ALL, &mut ZEROS)?;
        assert!(rt; log.take_file_calls(alloc)?.as_slice() == calls, "{at}");
    }
    // a command that only reads leaves what is held back of the other file
    assert!(rt; 72 < machine.shape().pages());
    machine.run(72, Plan::READ, &mut ZEROS)?;
    let read = [FileCall::ReadAt(12_768, 12_768)];
    assert!(rt; log.take_file_calls(alloc)?.as_slice() == read.as_slice());
    // the first file's length was asked for when sector 49 was written, and no flush came since
    machine.flush()?;
    let again = [FileCall::WriteAt(0, 532)];
    assert!(rt; log.take_file_calls(alloc)?.as_slice() == again.as_slice());
    fs::remove_file(&rt, "first")?;
    fs::remove_file(&rt, "second")?;
    Ok(())
}

#[test]
fn both_files_are_opened_and_made_or_none(rt: HostRuntime) -> Result<(), Fail> {
    let alloc = rt.alloc();
    let pair = old_pair(&rt)?;
    // of each file three openings hold the places of the standard streams, and the fourth is its own; of a new one the fifth is that of its
    // folder, which may fail; two write calls fill a file
    for failing in 0u64..=15 {
        let broken = if failing <= 10 {
            Broken::Opening(failing)
        } else {
            Broken::WriteCall(failing - 11)
        };
        let is_made = failing == 4 || failing == 9 || failing == 10 || failing == 15;
        let log = Log::new(alloc);
        let outside = Outside::new(&rt, b"", broken, &log);
        let made = FileMachine::create_two(&outside, alloc, "first", "second", 2).err();
        assert!(rt; made == refusal_unless(is_made), "{broken:?}");
        for path in ["first", "second"] {
            assert!(rt; fs::metadata(&rt, path).is_ok() == is_made, "{broken:?}");
        }
        place(&rt, &pair)?;
        let log = Log::new(alloc);
        let outside = Outside::new(&rt, b"", broken, &log);
        let reached = FileMachine::reach_two(&outside, alloc, "first", "second").err();
        assert!(rt; reached == refusal_unless(failing >= 8), "{broken:?}");
        assert!(rt; stood(&rt, &pair)?, "{broken:?}");
    }
    Ok(())
}

/// What reaching two files answers where it can, and where it can't.
fn refusal_unless(is_possible: bool) -> Option<ReachError> {
    if is_possible {
        None
    } else {
        Some(ReachError::NoFile)
    }
}

#[test]
fn a_pack_file_in_use_is_refused(rt: HostRuntime) -> Result<(), Fail> {
    let alloc = rt.alloc();
    let pair = old_pair(&rt)?;
    let rows = [
        (Broken::Nothing, None),
        (Broken::InUse, Some(ReachError::InUse)),
        (Broken::Lockless, Some(ReachError::NoFile)),
    ];
    for (broken, refused) in rows {
        place(&rt, &pair)?;
        let log = Log::new(alloc);
        let outside = Outside::new(&rt, b"", broken, &log);
        assert!(rt;
            FileMachine::reach(&outside, alloc, "first").err() == refused,
            "{broken:?}"
        );
        assert!(rt;
            FileMachine::reach_to_read(&outside, alloc, "first").err() == refused,
            "{broken:?}"
        );
        let two = FileMachine::reach_two_to_read(&outside, alloc, "first", "second").err();
        assert!(rt; two == refused, "{broken:?}");
        assert!(rt;
            FileMachine::create(&outside, alloc, "third", 2).err() == refused,
            "{broken:?}"
        );
        assert!(rt;
            fs::metadata(&rt, "third").is_ok() == refused.is_none(),
            "{broken:?}"
        );
        let _ = fs::remove_file(&rt, "third");
        // the files stayed as they were
        assert!(rt; stood(&rt, &pair)?, "{broken:?}");
    }
    Ok(())
}

#[test]
fn a_pack_file_is_read_by_some_or_written_by_one(rt: HostRuntime) -> Result<(), Fail> {
    let alloc = rt.alloc();
    let pair = old_pair(&rt)?;
    place(&rt, &pair)?;
    let log = Log::new(alloc);
    let outside = Outside::new(&rt, b"", Broken::Nothing, &log);
    let reading = FileMachine::reach_to_read(&outside, alloc, "first")?;
    assert!(rt; FileMachine::reach_to_read(&outside, alloc, "first").is_ok());
    assert!(rt; FileMachine::reach(&outside, alloc, "first").err() == Some(ReachError::InUse));
    drop(reading);
    assert!(rt; FileMachine::reach(&outside, alloc, "first").is_ok());
    assert!(rt;
        FileMachine::reach_two(&outside, alloc, "first", "first").err() == Some(ReachError::NoFile)
    );
    assert!(rt; stood(&rt, &pair)?);
    Ok(())
}

#[test]
fn the_device_is_waited_for_once_for_what_was_written(rt: HostRuntime) -> Result<(), Fail> {
    let alloc = rt.alloc();
    let pair = old_pair(&rt)?;
    for (broken, is_done) in [(Broken::Nothing, true), (Broken::Syncing, false)] {
        place(&rt, &pair)?;
        let log = Log::new(alloc);
        let outside = Outside::new(&rt, b"", broken, &log);
        let mut machine = FileMachine::reach_two(&outside, alloc, "first", "second")?;
        // nothing was written, so nobody is asked
        assert!(rt; machine.settle().is_ok());
        assert!(rt; log.take_file_calls(alloc)?.is_empty());
        assert!(rt; 49 < machine.shape().pages());
        machine.run(49, Plan::WRITE_ALL, &mut ZEROS)?;
        assert!(rt; machine.settle().is_ok() == is_done, "{broken:?}");
        let calls = [
            FileCall::Seek(SeekFrom::End(0)),
            FileCall::WriteAt(532, 532),
            FileCall::Sync,
        ];
        assert!(rt;
            log.take_file_calls(alloc)?.as_slice() == calls.as_slice(),
            "{broken:?}"
        );
        drop(machine);
        fs::remove_file(&rt, "first")?;
        fs::remove_file(&rt, "second")?;
    }
    Ok(())
}
