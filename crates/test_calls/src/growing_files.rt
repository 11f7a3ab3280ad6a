// A new file in sectors 5 and 6 that is given bytes, with pages in sectors 7, 8 and 47, the last one.
use alto_words::{Fid, Name};
use disk_memory::MemMachine;
use disk_records::{Disk, Page, Place, Sector, Tally};
use file_pages::{FileError, FileRef, grow, length, make};
use hint_cache::{BitTable, HintCache, Hints};
use std::alloc::Global;
use std::test::Fail;
use test_packs::{failing_machine, sectors_of};

const FID: Fid = Fid {
    high: 0,
    low: 3,
    version: 1,
};

/// The file, named by the address of its leader.
const FILE: FileRef = FileRef {
    fid: FID,
    leader_at: 5,
    from: Place::Held { at: 5 },
};

/// The labels of its pages 1 to 3 after 1,200 bytes, which fill two pages and 176 bytes of the third. The real address of a sector below 12
/// is 4,096 times its own.
const PAGES: [[u16; 8]; 3] = [
    [0x7000, 0x5000, 0, 512, 1, 1, 0, 3],
    [0x8000, 0x6000, 0, 512, 2, 1, 0, 3],
    [0xFFFF, 0x7000, 0, 176, 3, 1, 0, 3],
];

/// 512 times `A`, 512 times `B` and 176 times `C`.
fn letters() -> [u8; 1200] {
    let mut bytes = [0x41; 1200];
    bytes[512..1024].copy_from_slice(&[0x42; 512]);
    bytes[1024..1200].copy_from_slice(&[0x43; 176]);
    bytes
}

/// What a session holds beside the machine.
#[derive(Drop)]
pub(crate) struct Held {
    pub(crate) hints: Hints,
    pub(crate) tally: Tally,
}

/// The file is made, by six record writes in four calls of the machine.
fn made(alloc: Global, limit: u64) -> Result<(MemMachine, Held), Fail> {
    let name = Name::parse(b"Memo").ok_or("no name")?;
    let mut machine = failing_machine(alloc, sectors_of(alloc, &[])?, b"")?;
    let mut hints = Hints {
        cache: HintCache::new(alloc)?,
        table: BitTable::from_words(alloc, machine.shape().pages(), &[0; 3])?,
    };
    let mut tally = Tally {
        limit,
        passed: 0,
        all: 0,
    };
    make(
        &mut machine,
        &mut hints,
        &mut tally,
        FID,
        &name,
        65_537,
        [5, 6],
    )?;
    Ok((machine, Held { hints, tally }))
}

/// Puts these bytes after those of the file. Memory: there are none, or the table isn't the machine's.
fn grown(
    machine: &mut MemMachine,
    held: &mut Held,
    bytes: &[u8],
    past: &[u16],
    fresh: &[u16],
) -> Result<(), FileError> {
    let mut buf = Sector::ZEROS;
    if bytes.is_empty() || held.hints.table.pages() != machine.shape().pages() {
        return Err(FileError::Memory);
    }
    grow(
        machine,
        &mut held.hints,
        &mut held.tally,
        &FILE,
        bytes,
        past,
        fresh,
        &mut buf,
    )
}

/// The length of the file.
fn size(machine: &mut MemMachine, held: &mut Held) -> Result<u32, FileError> {
    let mut buf = Sector::ZEROS;
    length(machine, &mut held.hints, &FILE, &mut buf)
}

/// Nine record writes are made, and the eighth of them commits, so the fourteenth: a tally counts it up to a limit of 14, and not up to one
/// of
/// 13. Ten bytes more stay in the last page, with a word after them; and 326 fill it, so that a page without bytes comes.
#[test]
fn a_file_that_grows(rt: HostRuntime) -> Result<(), Fail> {
    for limit in 13..15 {
        let (mut machine, mut held) = made(rt.alloc(), limit)?;
        grown(&mut machine, &mut held, &letters(), &[], &[7, 8])?;
        assert_eq!(rt; machine.writes(), 15);
        assert_eq!(rt; held.tally.all, 2);
        assert_eq!(rt; held.tally.passed, limit - 12);
        assert_eq!(rt; machine.sector(6).label, PAGES[0]);
        assert_eq!(rt; machine.sector(7).label, PAGES[1]);
        assert_eq!(rt; machine.sector(8).label, PAGES[2]);
        assert_eq!(rt; machine.sector(6).value, [0x4141; 256]);
        assert_eq!(rt; machine.sector(7).value, [0x4242; 256]);
        assert_eq!(rt; &machine.sector(8).value[87..89], [0x4343, 0].as_slice());
        assert_eq!(rt; held.hints.table.word(0), 0x0780);
        assert_eq!(rt; size(&mut machine, &mut held)?, 1200);
        for (number, at) in [(1, 6), (2, 7), (3, 8)] {
            assert_eq!(rt;
                held.hints.cache.recall(Page { fid: FID, number }),
                Some(at)
            );
        }

        grown(&mut machine, &mut held, &[0x44; 10], &[0x1234], &[])?;
        assert_eq!(rt; machine.writes(), 18);
        assert_eq!(rt;
            machine.sector(8).label,
            [0xFFFF, 0x7000, 0, 186, 3, 1, 0, 3]
        );
        assert_eq!(rt;
            &machine.sector(8).value[87..95],
            [0x4343, 0x4444, 0x4444, 0x4444, 0x4444, 0x4444, 0x1234, 0].as_slice()
        );
        assert_eq!(rt; size(&mut machine, &mut held)?, 1210);

        grown(&mut machine, &mut held, &[0x45; 326], &[], &[47])?;
        assert_eq!(rt; machine.writes(), 24);
        assert_eq!(rt;
            machine.sector(8).label,
            [0xB00C, 0x7000, 0, 512, 3, 1, 0, 3]
        );
        assert_eq!(rt;
            machine.sector(47).label,
            [0xFFFF, 0x8000, 0, 0, 4, 1, 0, 3]
        );
        assert_eq!(rt; machine.sector(47).value, [0; 256]);
        assert_eq!(rt;
            &machine.sector(8).value[92..94],
            [0x4444, 0x4545].as_slice()
        );
        assert_eq!(rt; machine.sector(8).value[255], 0x4545);
        assert_eq!(rt; size(&mut machine, &mut held)?, 1536);
        assert_eq!(rt; held.tally.all, 4);
        // the leader names the page that was the last as the file was made
        assert_eq!(rt; &machine.sector(5).value[253..256], [6, 1, 0].as_slice());
    }
    Ok(())
}

/// Twenty growths by a page each, without a date between them, so that the leader names page 1 still. The first takes eight sector commands
/// and each of the others nine, and then the length takes three: the next one would fail.
#[test]
fn growths_without_a_date(rt: HostRuntime) -> Result<(), Fail> {
    let (mut machine, mut held) = made(rt.alloc(), 0)?;
    // the file was made by four calls
    machine.fail_at(rt.alloc(), 4 + 8 + 19 * 9 + 3, 0)?;
    for at in 7..27 {
        grown(&mut machine, &mut held, &[0x41; 512], &[], &[at])?;
    }
    assert_eq!(rt; size(&mut machine, &mut held)?, 10_240);
    assert_eq!(rt; size(&mut machine, &mut held), Err(FileError::DiskFault));
    assert_eq!(rt; &machine.sector(5).value[253..256], [6, 1, 0].as_slice());
    Ok(())
}

/// The call of the machine that fails, and after how many of its record writes; then the record writes that were made, the operations that
/// are counted, and the length. Calls 4 and 5 find the last page, 6 to 9 claim, and 13 is the old last page's label.
const FAULTS: [(u64, u8, u64, u64, u32); 3] = [
    (8, 0, 9, 1, 0),
    (13, 0, 13, 1, 0),
    (13, 1, 14, 2, 1200),
];

/// Sectors that can't be given: the first that can't carry a page, and the last page as the one that is wanted; or the first that isn't free,
/// here the leader's, and the page that was to come there, after three record writes for page 2.
const UNUSABLE: [([u16; 2], u16, u16, Option<[u16; 8]>, u64); 3] = [
    ([7, 48], 48, 1, None, 6),
    ([0, 48], 0, 1, None, 6),
    ([7, 5], 5, 3, Some([0x6000, 0xFFFF, 0, 512, 0, 1, 0, 3]), 9),
];

/// A growth that fails at a claim, at the label, and after the label; and one in sectors that it can't be given.
#[test]
fn a_growth_that_fails(rt: HostRuntime) -> Result<(), Fail> {
    for (call, after, writes, all, bytes) in FAULTS {
        let (mut machine, mut held) = made(rt.alloc(), 0)?;
        machine.fail_at(rt.alloc(), call, after)?;
        let answer = grown(&mut machine, &mut held, &letters(), &[], &[7, 8]);
        assert_eq!(rt; answer, Err(FileError::DiskFault));
        assert_eq!(rt; machine.writes(), writes);
        assert_eq!(rt; held.tally.all, all);
        assert_eq!(rt; size(&mut machine, &mut held)?, bytes);
        assert_eq!(rt; held.hints.table.word(0), 0x0600);
    }
    for (fresh, at, number, found, writes) in UNUSABLE {
        let (mut machine, mut held) = made(rt.alloc(), 0)?;
        let answer = grown(&mut machine, &mut held, &letters(), &[], &fresh);
        let misled = FileError::Misled {
            place: Place::Held { at },
            at,
            wanted: Page { fid: FID, number },
            found,
        };
        assert_eq!(rt; answer, Err(misled));
        assert_eq!(rt; machine.writes(), writes);
        assert_eq!(rt; held.hints.table.word(0), 0x0600);
    }
    Ok(())
}
