// Pages of files that hints lead to or mislead from: a row that isn't one, a cache of ones, and a long file that is read in parts.
use crate::long_file::{file_at, long_file};
use alto_words::Fid;
use disk_memory::MemMachine;
use disk_records::{Disk, Place, Sector, Shape};
use hint_cache::{BitTable, HintCache, Hints};
use page_seeking::{FileError, FileRef, last_page, length, locate, read_all, read_part};
use std::test::Fail;
use test_packs::{Placed, failing_machine, sectors_of};

/// Three pages of the file with serial 3 that aren't in a row: the leader in sector 5, page 1 with 512 bytes in
/// sector 9, and page 2 with 3 bytes in sector 11. Then a file with serial 4 that has no bytes, in sectors 6 and 7,
/// whose leader's label counts none either; and of the one with serial 5
/// the leader, in sector 8, and page 65,535 with 512 bytes, in sector 10.
/// The real address of a sector below 12 is 4,096 times its own.
const SCATTERED: [Placed; 7] = [
    Placed {
        at: 5,
        label: [0x9000, 0xFFFF, 0, 512, 0, 1, 0, 3],
        front: [0, 0, 0],
    },
    Placed {
        at: 9,
        label: [0xB000, 0x5000, 0, 512, 1, 1, 0, 3],
        front: [0x4142, 0x4344, 0],
    },
    Placed {
        at: 11,
        label: [0xFFFF, 0x9000, 0, 3, 2, 1, 0, 3],
        front: [0x5859, 0x5A00, 0],
    },
    Placed {
        at: 6,
        label: [0x7000, 0xFFFF, 0, 0, 0, 1, 0, 4],
        front: [0, 0, 0],
    },
    Placed {
        at: 7,
        label: [0xFFFF, 0x6000, 0, 0, 1, 1, 0, 4],
        front: [0x4142, 0, 0],
    },
    Placed {
        at: 8,
        label: [0xA000, 0xFFFF, 0, 512, 0, 1, 0, 5],
        front: [0, 0, 0],
    },
    Placed {
        at: 10,
        label: [0xFFFF, 0x8000, 0, 512, 65535, 1, 0, 5],
        front: [0, 0, 0],
    },
];

/// The file with this serial, named by the address of its leader.
fn file_of(low: u16, leader_at: u16) -> FileRef {
    FileRef {
        fid: Fid {
            high: 0,
            low,
            version: 1,
        },
        leader_at,
        from: Place::Held { at: leader_at },
    }
}

/// Past the end of 515 bytes.
const PAST: Result<usize, FileError> = Err(FileError::Beyond { length: 515 });

/// Word 247 of the leader says that the pages lie in a row, which they don't: it is passed over, all bytes are read, and nothing is misled.
/// A cache of ones is as one without entries.
#[test]
fn a_row_that_is_none(rt: HostRuntime) -> Result<(), Fail> {
    let mut sectors = sectors_of(rt.alloc(), &SCATTERED)?;
    sectors.get_mut(5).ok_or("no sector")?.value[247] = 1;
    let mut machine = failing_machine(rt.alloc(), sectors, b"")?;
    let mut hints = Hints {
        cache: HintCache::from_words(rt.alloc(), &[0xFFFF; 241])?,
        table: BitTable::from_words(rt.alloc(), machine.shape().pages(), &[0; 3])?,
    };
    let file = file_at(5);
    let mut buf = Sector::ZEROS;
    let bytes = read_all(rt.alloc(), &mut machine, &mut hints, &file)?;
    assert_eq!(rt; bytes.len(), 515);
    assert!(rt; bytes.starts_with(&[0x41, 0x42, 0x43, 0x44, 0]));
    assert!(rt; bytes.ends_with(&[0, 0x58, 0x59, 0x5A]));
    let (at, info) = locate(&mut machine, &mut hints, &file, 2, &mut buf)?;
    assert_eq!(rt; at, 11);
    assert_eq!(rt; info.bytes, 3);
    let last = last_page(&mut machine, &mut hints, &file, &mut buf)?;
    assert_eq!(rt; last.number, 2);
    assert_eq!(rt; last.at, 11);
    assert_eq!(rt; buf.value[0], 0x5859);
    let mut part = [0; 600];
    for (offset, read) in [(0, Ok(515)), (512, Ok(3)), (515, Ok(0)), (516, PAST)] {
        let answer = read_part(&mut machine, &mut hints, &file, offset, &mut part, &mut buf);
        assert_eq!(rt; answer, read, "at {offset}");
    }
    assert_eq!(rt; length(&mut machine, &mut hints, &file, &mut buf)?, 515);
    assert_eq!(rt; hints.table.word(0), 0);
    assert_eq!(rt; hints.table.word(2), 0);
    Ok(())
}

/// A file without bytes is read from its beginning, also one whose leader names a missing page as the last. A file that ends with its last
/// possible page, which is full, is as long as any, though all pages before are missing.
#[test]
fn no_bytes_and_the_most(rt: HostRuntime) -> Result<(), Fail> {
    let mut sectors = sectors_of(rt.alloc(), &SCATTERED)?;
    let leader = sectors.get_mut(8).ok_or("no sector")?;
    leader.value[253] = 10;
    leader.value[254] = 65535;
    let mut machine = failing_machine(rt.alloc(), sectors, b"")?;
    let mut hints = Hints {
        cache: HintCache::new(rt.alloc())?,
        table: BitTable::from_words(rt.alloc(), machine.shape().pages(), &[0; 3])?,
    };
    let (empty, longest) = (file_of(4, 6), file_of(5, 8));
    let mut buf = Sector::ZEROS;
    let mut part = [0; 600];
    let n = read_part(&mut machine, &mut hints, &empty, 0, &mut part, &mut buf)?;
    assert_eq!(rt; n, 0);
    assert!(rt; read_all(rt.alloc(), &mut machine, &mut hints, &empty)?.is_empty());
    assert_eq!(rt;
        length(&mut machine, &mut hints, &longest, &mut buf)?,
        33_553_920
    );
    Ok(())
}

/// A file of 60,000 bytes that is read in parts of 2,048 takes two sector commands for its first page, and one for each of the 117 others:
/// the next one would fail. Then its last page is known.
#[test]
fn a_long_file_in_parts(rt: HostRuntime) -> Result<(), Fail> {
    let shape = Shape::new(1, 203).ok_or("no shape")?;
    let mut machine = MemMachine::new(
        rt.alloc(),
        shape,
        long_file(rt.alloc())?,
        Vec::new(rt.alloc()),
    )?;
    machine.fail_at(rt.alloc(), 119, 0)?;
    let mut hints = Hints {
        cache: HintCache::new(rt.alloc())?,
        table: BitTable::new(rt.alloc(), machine.shape().pages())?,
    };
    let file = file_at(100);
    let mut buf = Sector::ZEROS;
    let mut part = [0; 2048];
    for number in 0..29 {
        let n = read_part(
            &mut machine,
            &mut hints,
            &file,
            number * 2048,
            &mut part,
            &mut buf,
        )?;
        assert_eq!(rt; n, 2048);
        assert_eq!(rt; u32::from(part[1]), number * 4 + 1);
        assert_eq!(rt; u32::from(part[2047]), number * 4 + 4);
    }
    let n = read_part(&mut machine, &mut hints, &file, 59_392, &mut part, &mut buf)?;
    assert_eq!(rt; n, 608);
    assert_eq!(rt; part[607], 118);
    let failed = length(&mut machine, &mut hints, &file, &mut buf);
    assert_eq!(rt; failed, Err(FileError::DiskFault));
    assert_eq!(rt; length(&mut machine, &mut hints, &file, &mut buf)?, 60_000);
    Ok(())
}

/// Where its leader names the last page, all of its bytes are read in 121 sector commands, three more than that page's number: the next one
/// would fail.
#[test]
fn a_long_file_at_once(rt: HostRuntime) -> Result<(), Fail> {
    let shape = Shape::new(1, 203).ok_or("no shape")?;
    let mut sectors = long_file(rt.alloc())?;
    let leader = sectors.get_mut(100).ok_or("no sector")?;
    leader.value[253] = 218;
    leader.value[254] = 118;
    let mut machine = MemMachine::new(rt.alloc(), shape, sectors, Vec::new(rt.alloc()))?;
    machine.fail_at(rt.alloc(), 121, 0)?;
    let mut hints = Hints {
        cache: HintCache::new(rt.alloc())?,
        table: BitTable::new(rt.alloc(), machine.shape().pages())?,
    };
    let bytes = read_all(rt.alloc(), &mut machine, &mut hints, &file_at(100))?;
    assert_eq!(rt; bytes.len(), 60_000);
    Ok(())
}
