// Sessions over real files: what stands in a pack file afterwards, and what ends a session where the outside fails.
ghost use Rattle.std.specs.Prelude.{IsTrue};
ghost use Rattle.disk_records.specs.Checks.{is_legal};

use crate::outside::{Broken, FileCall, Log, Outside};
use crate::samples::{MADE, MARK_AT, ZEROS, expect_done, start};
use alto_top::{Status, format_pack};
use disk_image::FileMachine;
use disk_records::{Disk, DiskError, Plan, Sector};
use std::fs;
use std::fs::{OpenFile, OpenOptions};
use std::io::SeekFrom;
use std::test::Fail;

/// The five bytes `ABCDE` of the file with serial 3 become these.
const KEYS: &[u8] = b"patch #3 0 565758595A\n";

const PLACED: &[u8] = b"VWXYZ";

/// Where the file's bytes stand in the pack file: after the six sectors ahead, a header and a label.
const BYTES_AT: usize = 6 * 532 + 20;

/// How much of the session stands in the pack file: nothing, the open mark, the bytes too, or the bytes after the pack was closed.
#[derive(Clone, Copy)]
enum Stands {
    Nothing,
    Mark,
    Bytes,
    Closed,
}

/// The bytes of the pack file with so much of the session, where these stood before.
fn bytes_with(mut bytes: Vec<u8>, stands: Stands) -> Vec<u8> {
    let (mark, placed) = match stands {
        Stands::Nothing => (1, false),
        Stands::Mark => (2, false),
        Stands::Bytes => (2, true),
        Stands::Closed => (1, true),
    };
    if let Some(byte) = bytes.get_mut(MARK_AT) {
        *byte = mark;
    }
    if placed {
        for (byte, letter) in bytes.iter_mut().skip(BYTES_AT).zip(PLACED) {
            *byte = *letter;
        }
    }
    bytes
}

/// Makes a formatted pack file with the one file.
fn place_pack(host: &HostRuntime, path: &str) -> Result<(), Fail> {
    let alloc = host.alloc();
    let log = Log::new(alloc);
    let outside = Outside::new(host, MADE, Broken::Nothing, &log);
    let mut machine = FileMachine::create(&outside, alloc, path, 2)?;
    expect_done(format_pack(alloc, 1, 1000, &mut machine))?;
    expect_done(start(alloc, &mut machine))
}

/// A machine over a new pack file with the one file.
fn machine_over<'a>(
    host: &HostRuntime,
    outside: &'a Outside<'a>,
    path: &str,
) -> Result<FileMachine<'a, Outside<'a>>, Fail> {
    place_pack(host, path)?;
    Ok(FileMachine::reach(outside, host.alloc(), path)?)
}

#[test]
fn what_fails_and_what_stands_in_the_file(rt: HostRuntime) -> Result<(), Fail> {
    let alloc = rt.alloc();
    place_pack(&rt, "old")?;
    let old = fs::read(&rt, "old")?;
    // what fails is asked once, and a reply is shown once
    let rows = [
        (Broken::Nothing, Status::Done, Stands::Closed, 1u64, 2u64),
        (Broken::Display, Status::DisplayFault, Stands::Bytes, 1, 1),
        (Broken::Keyboard, Status::KeyFault, Stands::Bytes, 1, 2),
        (Broken::Writing, Status::DiskFault, Stands::Nothing, 0, 1),
        (
            Broken::WriteCall(0),
            Status::DiskFault,
            Stands::Nothing,
            0,
            1,
        ),
        (Broken::WriteCall(1), Status::DiskFault, Stands::Mark, 0, 1),
        // the pack isn't closed
        (Broken::WriteCall(2), Status::DiskFault, Stands::Bytes, 1, 2),
        (Broken::Reading, Status::DiskFault, Stands::Nothing, 0, 0),
        // the cylinder can't be read, and its sectors can, one by one
        (Broken::ReadCall(0), Status::Done, Stands::Closed, 1, 2),
        // of the 22 keys a short read takes 5, and the last one finds the end
        (Broken::Short, Status::Done, Stands::Closed, 1, 6),
        (Broken::Interrupted, Status::Done, Stands::Closed, 1, 4),
    ];
    for (broken, ended, stands, shows, key_reads) in rows {
        let log = Log::new(alloc);
        let outside = Outside::new(&rt, KEYS, broken, &log);
        let mut machine = machine_over(&rt, &outside, "patched")?;
        assert!(rt; start(alloc, &mut machine) == ended, "{broken:?}");
        let shown = if shows == 1 && broken != Broken::Display {
            b"done\n".as_slice()
        } else {
            b""
        };
        assert_eq!(rt; log.shown(alloc)?.as_slice(), shown, "{broken:?}");
        assert_eq!(rt; log.shows(), shows, "{broken:?}");
        assert_eq!(rt; log.key_reads(), key_reads, "{broken:?}");
        assert!(rt;
            fs::read(&rt, "patched")?.as_slice() == bytes_with(old.clone()?, stands).as_slice(),
            "{broken:?}"
        );
        fs::remove_file(&rt, "patched")?;
    }
    Ok(())
}

#[test]
fn short_and_interrupted_calls_fill_a_new_file(rt: HostRuntime) -> Result<(), Fail> {
    let alloc = rt.alloc();
    for broken in [Broken::Short, Broken::Interrupted] {
        let log = Log::new(alloc);
        let outside = Outside::new(&rt, b"", broken, &log);
        let made = FileMachine::create(&outside, alloc, "rough", 2)?;
        drop(made);
        let zeros = vec![in alloc; 0u8; 25_536]?;
        assert!(rt;
            fs::read(&rt, "rough")?.as_slice() == zeros.as_slice(),
            "{broken:?}"
        );
        fs::remove_file(&rt, "rough")?;
    }
    Ok(())
}

/// A sector whose records hold 1, 2 and 3 over and over.
const NUMBERED: Sector = Sector {
    header: [1; 2],
    label: [2; 8],
    value: [3; 256],
};

/// Whether one sector command on sector 31 of a new pack makes these calls of the file, the flush after it those to write, and the same
/// command and flush once more the latter alone.
fn makes_calls(
    host: &HostRuntime,
    plan: Plan,
    read: &[FileCall],
    written: &[FileCall],
) -> Result<bool, Fail>
    requires { IsTrue (is_legal plan) }
{
    let alloc = host.alloc();
    let log = Log::new(alloc);
    let outside = Outside::new(host, b"", Broken::Nothing, &log);
    let mut machine = FileMachine::create(&outside, alloc, "called", 2)?;
    drop(log.take_file_calls(alloc)?);
    machine.run(31, plan, &mut ZEROS)?;
    let first = log.take_file_calls(alloc)?;
    machine.flush()?;
    let flushed = log.take_file_calls(alloc)?;
    machine.run(31, plan, &mut ZEROS)?;
    machine.flush()?;
    let again = log.take_file_calls(alloc)?;
    fs::remove_file(host, "called")?;
    Ok(first.as_slice() == read && flushed.as_slice() == written && again.as_slice() == written)
}

#[test]
fn a_sector_command_is_few_calls(rt: HostRuntime) -> Result<(), Fail> {
    // the second cylinder begins at byte 12,768, and its sector 7 is 3,724 bytes further on
    let cylinder = [FileCall::ReadAt(12_768, 12_768)];
    // the file's length is asked first, again after each flush; the sector is written whole, whichever records the command writes
    let sector = [
        FileCall::Seek(SeekFrom::End(0)),
        FileCall::WriteAt(16_492, 532),
    ];
    assert!(rt; makes_calls(&rt, Plan::READ, &cylinder, &[])?);
    assert!(rt; makes_calls(&rt, Plan::WRITE_ALL, &[], &sector)?);
    assert!(rt; makes_calls(&rt, Plan::WRITE_LABEL, &cylinder, &sector)?);
    assert!(rt; makes_calls(&rt, Plan::WRITE_VALUE, &cylinder, &sector)?);
    Ok(())
}

#[test]
fn writes_that_touch_are_handed_on_by_one_call(rt: HostRuntime) -> Result<(), Fail> {
    let alloc = rt.alloc();
    let log = Log::new(alloc);
    let outside = Outside::new(&rt, b"", Broken::Nothing, &log);
    let mut machine = FileMachine::create(&outside, alloc, "joined", 2)?;
    drop(log.take_file_calls(alloc)?);
    let end = FileCall::Seek(SeekFrom::End(0));
    let three = [end, FileCall::WriteAt(0, 1_596)];
    let two = [end, FileCall::WriteAt(532, 1_064)];
    let sector_4 = [FileCall::WriteAt(2_128, 532)];
    let sector_6 = [FileCall::WriteAt(3_192, 532)];
    let sector_7 = [FileCall::WriteAt(3_724, 532)];
    let sector_8 = [FileCall::WriteAt(4_256, 532)];
    let both = [end, FileCall::WriteAt(3_724, 1_064)];
    // the length is asked for before the first write call after a flush alone
    let sector_7_first = [end, FileCall::WriteAt(3_724, 532)];
    // the sector that is written, or none where the machine is flushed, and the calls for it
    let rows = [
        (Some(0u16), [].as_slice()),
        (Some(1), &[]),
        (Some(2), &[]),
        (None, &three),
        (None, &[]),
        // over it again, and the one ahead of it
        (Some(2), &[]),
        (Some(2), &[]),
        (Some(1), &[]),
        // sector 3 is left out
        (Some(4), &two),
        (Some(8), &sector_4),
        // sector 7 crosses byte 4,096, so that it begins in the page before that of sector 8
        (Some(7), &sector_8),
        // and ends in the page after it, so that it isn't held with what it was before
        (Some(7), &sector_7),
        (None, &sector_7),
        // sector 6 is in the page before that in which sector 7 ends
        (Some(7), &[]),
        (Some(6), &sector_7_first),
        (None, &sector_6),
        // sector 7 again, after which sector 8 is held
        (Some(7), &[]),
        (Some(8), &[]),
        (Some(7), &both),
        (None, &sector_7),
        (Some(0), &[]),
    ];
    for (sector, calls) in rows {
        match sector {
            Some(at) => {
                assert!(rt; at < machine.shape().pages());
                machine.run(at, Plan::WRITE_ALL, &mut NUMBERED)?;
            }
            None => machine.flush()?,
        }
        assert!(rt;
            log.take_file_calls(alloc)?.as_slice() == calls,
            "{sector:?}"
        );
    }
    // what is held back goes ahead of a cylinder that is read
    let read = [end, FileCall::WriteAt(0, 532), FileCall::ReadAt(0, 12_768)];
    let mut sector = ZEROS;
    machine.run(1, Plan::READ, &mut sector)?;
    assert!(rt; log.take_file_calls(alloc)?.as_slice() == read.as_slice());
    assert!(rt; sector == NUMBERED);
    fs::remove_file(&rt, "joined")?;
    Ok(())
}

#[test]
fn the_length_is_asked_once_between_two_flushes(rt: HostRuntime) -> Result<(), Fail> {
    let alloc = rt.alloc();
    let log = Log::new(alloc);
    let outside = Outside::new(&rt, b"", Broken::Nothing, &log);
    let mut machine = FileMachine::create(&outside, alloc, "asked", 2)?;
    drop(log.take_file_calls(alloc)?);
    let end = FileCall::Seek(SeekFrom::End(0));
    // sectors 0, 2 and 4 don't touch
    for at in [0u16, 2, 4] {
        assert!(rt; at < machine.shape().pages());
        machine.run(at, Plan::WRITE_ALL, &mut NUMBERED)?;
    }
    machine.flush()?;
    let apart = [
        end,
        FileCall::WriteAt(0, 532),
        FileCall::WriteAt(1_064, 532),
        FileCall::WriteAt(2_128, 532),
    ];
    assert!(rt; log.take_file_calls(alloc)?.as_slice() == apart.as_slice());
    // another process shortens the file after the flush, with which a typed line ends: what the next line writes past its end is a fault,
    // each time that it is tried, and the file isn't made longer again
    let file = OpenOptions::new().write(true).open(&rt, "asked")?;
    file.set_len(12_768)?;
    assert!(rt; 30 < machine.shape().pages());
    machine.run(30, Plan::WRITE_ALL, &mut NUMBERED)?;
    for _ in 0u8..2 {
        assert!(rt; machine.flush() == Err(DiskError::Failed));
        assert!(rt; log.take_file_calls(alloc)?.as_slice() == [end].as_slice());
        assert!(rt; fs::metadata(&rt, "asked")?.len() == 12_768);
    }
    // after a fault the length is asked for again
    file.set_len(25_536)?;
    machine.flush()?;
    let sector_30 = [end, FileCall::WriteAt(15_960, 532)];
    assert!(rt; log.take_file_calls(alloc)?.as_slice() == sector_30.as_slice());
    // so it is after a read call that is short: sector 0 was handed on by the length that was answered then
    for at in [0u16, 2] {
        assert!(rt; at < machine.shape().pages());
        machine.run(at, Plan::WRITE_ALL, &mut NUMBERED)?;
    }
    file.set_len(12_768)?;
    assert!(rt; 40 < machine.shape().pages());
    assert!(rt; machine.run(40, Plan::READ, &mut NUMBERED) == Err(DiskError::Failed));
    drop(log.take_file_calls(alloc)?);
    assert!(rt; 4 < machine.shape().pages());
    machine.run(4, Plan::WRITE_ALL, &mut NUMBERED)?;
    machine.flush()?;
    let sector_4 = [end, FileCall::WriteAt(2_128, 532)];
    assert!(rt; log.take_file_calls(alloc)?.as_slice() == sector_4.as_slice());
    fs::remove_file(&rt, "asked")?;
    Ok(())
}

#[test]
fn writes_over_some_pages_are_handed_on_by_one_call(rt: HostRuntime) -> Result<(), Fail> {
    let alloc = rt.alloc();
    let log = Log::new(alloc);
    let outside = Outside::new(&rt, b"", Broken::Nothing, &log);
    let mut machine = FileMachine::create(&outside, alloc, "paged", 2)?;
    drop(log.take_file_calls(alloc)?);
    let end = FileCall::Seek(SeekFrom::End(0));
    // the sectors from one on up to another, and the call for them. Each is written twice, but those once that cross a multiple of 4,096, as
    // sectors 7 and 15 do. Sectors 0 to 29 are in four pages, and sector 30 ends after them, at byte 16,492
    for (from, until, place, count) in [
        (7u16, 16u16, 3_724u64, 4_788usize),
        (0, 30, 0, 15_960),
        (30, 40, 15_960, 5_320),
    ] {
        for at in from..until {
            let times = if [7, 15, 23, 30, 38].contains(&at) {
                1
            } else {
                2
            };
            for _ in 0..times {
                assert!(rt; at < machine.shape().pages());
                machine.run(at, Plan::WRITE_ALL, &mut NUMBERED)?;
            }
        }
        machine.flush()?;
        let calls = [end, FileCall::WriteAt(place, count)];
        assert!(rt;
            log.take_file_calls(alloc)?.as_slice() == calls.as_slice(),
            "from {from}"
        );
    }
    // sector 30 isn't held with the 30 ahead of it
    for at in 0u16..=30 {
        assert!(rt; at < machine.shape().pages());
        machine.run(at, Plan::WRITE_ALL, &mut NUMBERED)?;
    }
    let four = [end, FileCall::WriteAt(0, 15_960)];
    assert!(rt; log.take_file_calls(alloc)?.as_slice() == four.as_slice());
    fs::remove_file(&rt, "paged")?;
    Ok(())
}

#[test]
fn what_cannot_be_handed_on_is_a_fault_and_stays(rt: HostRuntime) -> Result<(), Fail> {
    let alloc = rt.alloc();
    let made = FileMachine::create(&rt, alloc, "stuck", 2)?;
    drop(made);
    // the first write call fails: in a flush, in a command that writes elsewhere, or in one that reads another cylinder
    for way in 0..3u8 {
        let log = Log::new(alloc);
        let outside = Outside::new(&rt, b"", Broken::WriteCall(0), &log);
        let mut machine = FileMachine::reach(&outside, alloc, "stuck")?;
        assert!(rt; 24 < machine.shape().pages());
        machine.run(0, Plan::WRITE_ALL, &mut NUMBERED)?;
        let failed = match way {
            0 => machine.flush(),
            1 => machine.run(8, Plan::WRITE_ALL, &mut NUMBERED),
            _ => machine.run(24, Plan::READ, &mut NUMBERED),
        };
        assert!(rt; failed == Err(DiskError::Failed), "{way}");
        assert_eq!(rt; machine.writes(), 3, "{way}");
        // the sector is held back still, and is written now
        let calls = [FileCall::Seek(SeekFrom::End(0)), FileCall::WriteAt(0, 532)];
        drop(log.take_file_calls(alloc)?);
        machine.flush()?;
        assert!(rt;
            log.take_file_calls(alloc)?.as_slice() == calls.as_slice(),
            "{way}"
        );
    }
    fs::remove_file(&rt, "stuck")?;
    Ok(())
}

#[test]
fn a_cylinder_is_read_twice_at_most_and_else_by_sectors(rt: HostRuntime) -> Result<(), Fail> {
    let alloc = rt.alloc();
    let cylinder = |byte| FileCall::ReadAt(byte, 12_768);
    let sector = |byte| FileCall::ReadAt(byte, 532);
    // after the first pass the second cylinder alone is kept, and after the next one both are
    let twice_at_most = [cylinder(0), cylinder(12_768), cylinder(0)];
    // the second time the cylinder can be read, and is kept
    let one_by_one = [cylinder(0), sector(3_192), cylinder(0)];
    // of the cylinder a byte is missing, and none comes for it
    let rest = FileCall::ReadAt(25_535, 1);
    let cut_short = [
        cylinder(12_768),
        rest,
        sector(24_472),
        cylinder(12_768),
        rest,
        sector(24_472),
    ];
    // the first sector that is read in turn, the one after the last, how often, and the calls for it
    let rows = [
        (
            Broken::Nothing,
            25_536,
            0u16,
            48,
            3,
            twice_at_most.as_slice(),
        ),
        (Broken::ReadCall(0), 25_536, 6, 7, 3, &one_by_one),
        (Broken::Nothing, 25_535, 46, 47, 2, &cut_short),
    ];
    for (broken, length, first, end, times, calls) in rows {
        let log = Log::new(alloc);
        let outside = Outside::new(&rt, b"", broken, &log);
        let mut machine = machine_over(&rt, &outside, "read")?;
        let file = OpenOptions::new().write(true).open(&rt, "read")?;
        file.set_len(length)?;
        for _ in 0u8..times {
            for at in first..end {
                assert!(rt; at < machine.shape().pages());
                machine.run(at, Plan::READ, &mut ZEROS)?;
            }
        }
        assert!(rt;
            log.take_file_calls(alloc)?.as_slice() == calls,
            "{length} and {broken:?}"
        );
        fs::remove_file(&rt, "read")?;
    }
    Ok(())
}

/// The bytes of a sector where so many of its records are those of `NUMBERED` and the others zeros.
fn first_records(at: usize, records: u64) -> u8 {
    let (record, byte) = match at {
        0..=3 => (0, 1),
        4..=19 => (1, 2),
        _ => (2, 3),
    };
    if record < records && at % 2 == 1 {
        byte
    } else {
        0
    }
}

#[test]
fn a_write_that_breaks_off_leaves_the_records_ahead(rt: HostRuntime) -> Result<(), Fail> {
    let alloc = rt.alloc();
    // how many records are whole when the file takes no more bytes
    for (records, room) in [(0u64, 0usize), (1, 4), (2, 20)] {
        let made = FileMachine::create(&rt, alloc, "failing", 2)?;
        drop(made);
        let log = Log::new(alloc);
        let outside = Outside::new(&rt, b"", Broken::Full(room), &log);
        let mut machine = FileMachine::reach(&outside, alloc, "failing")?;
        assert!(rt; 7 < machine.shape().pages());
        machine.run(7, Plan::WRITE_ALL, &mut NUMBERED)?;
        assert!(rt; machine.flush() == Err(DiskError::Failed), "{room}");
        // the sector is held back still, and a command that doesn't touch it fails as it is tried again
        let failed = machine.run(0, Plan::WRITE_ALL, &mut NUMBERED);
        assert!(rt; failed == Err(DiskError::Failed), "{room}");
        assert!(rt; machine.writes() == 3, "{room}");
        let bytes = fs::read(&rt, "failing")?;
        assert!(rt; bytes.len() == 25_536, "{room}");
        for (place, byte) in bytes.iter().enumerate() {
            let wanted = match place {
                3724..=4255 => first_records(place - 3724, records),
                _ => 0,
            };
            assert!(rt; *byte == wanted, "{room} at {place}");
        }
        fs::remove_file(&rt, "failing")?;
    }
    Ok(())
}

#[test]
fn a_call_that_breaks_off_at_a_page_leaves_what_was_written_first(
    rt: HostRuntime,
) -> Result<(), Fail> {
    let alloc = rt.alloc();
    let made = FileMachine::create(&rt, alloc, "parted", 2)?;
    drop(made);
    let log = Log::new(alloc);
    let outside = Outside::new(&rt, b"", Broken::Full(4_096), &log);
    let mut machine = FileMachine::reach(&outside, alloc, "parted")?;
    for at in [3u16, 2, 1, 0, 4, 5, 6, 7, 8, 9] {
        assert!(rt; at < machine.shape().pages());
        machine.run(at, Plan::WRITE_ALL, &mut NUMBERED)?;
    }
    assert!(rt; machine.flush() == Err(DiskError::Failed));
    let bytes = fs::read(&rt, "parted")?;
    assert!(rt; bytes.len() == 25_536);
    // sector 7 crosses byte 4,096
    for (place, byte) in bytes.iter().enumerate() {
        let wanted = if place < 4_096 {
            first_records(place % 532, 3)
        } else {
            0
        };
        assert!(rt; *byte == wanted, "{place}");
    }
    fs::remove_file(&rt, "parted")?;
    Ok(())
}

#[test]
fn keys_are_read_ahead_and_replies_shown_together(rt: HostRuntime) -> Result<(), Fail> {
    let alloc = rt.alloc();
    // a pair of lines has 1,017 keys: 19,323 of them in two reads and one that finds the end, and 67,122 in five and one
    for (pairs, most_reads) in [(19u64, 3), (66, 6)] {
        let mut keys = Vec::new(alloc);
        let mut replies = Vec::new(alloc);
        for _ in 0..pairs {
            keys.extend_from_slice(b"patch #3 0 -\npatch #3 0 ")?;
            keys.extend_from_slice(&[b'0'; 992])?;
            keys.push(b'\n')?;
            replies.extend_from_slice(b"done\nbeyond length 5\n")?;
        }
        let log = Log::new(alloc);
        let outside = Outside::new(&rt, &keys, Broken::Nothing, &log);
        let mut machine = machine_over(&rt, &outside, "typed")?;
        assert!(rt; start(alloc, &mut machine) == Status::Done);
        assert!(rt;
            log.shown(alloc)?.as_slice() == replies.as_slice(),
            "{pairs}"
        );
        // the replies to the lines that one read brings are shown by one call, before the next read
        assert!(rt; log.shows() == most_reads - 1, "{pairs}");
        assert!(rt; log.key_reads() <= most_reads, "{pairs}");
        fs::remove_file(&rt, "typed")?;
    }
    Ok(())
}

#[test]
fn the_length_is_asked_once_for_lines_that_were_read_together(rt: HostRuntime) -> Result<(), Fail> {
    let alloc = rt.alloc();
    let keys = b"patch #3 0 41\npatch #3 1 42\npatch #3 2 43\n";
    let log = Log::new(alloc);
    let outside = Outside::new(&rt, keys, Broken::Nothing, &log);
    let mut machine = machine_over(&rt, &outside, "together")?;
    assert!(rt; start(alloc, &mut machine) == Status::Done);
    assert!(rt; log.shown(alloc)?.as_slice() == b"done\ndone\ndone\n".as_slice());
    // for the three lines, and for the closing, before which the keyboard was asked for more
    assert!(rt; log.lengths() == 2);
    fs::remove_file(&rt, "together")?;
    Ok(())
}
