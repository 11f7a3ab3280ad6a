// A new file in sectors 5 and 6 of a pack of free sectors.
use alto_words::{Fid, Name};
use disk_memory::MemMachine;
use disk_records::{Disk, Page, Place, Tally};
use file_pages::{FileError, make};
use hint_cache::{BitTable, HintCache, Hints};
use std::alloc::Global;
use std::test::Fail;
use test_packs::{DATA, Placed, failing_machine, sectors_of, sure_machine};

/// The file that is made: an ordinary one with serial 3.
const FID: Fid = Fid {
    high: 0,
    low: 3,
    version: 1,
};

/// The label of its leader in sector 5, which names sector 6 as the next, and the label of its page 1 without bytes, which names sector 5
/// as the previous. The real address of a sector below 12 is 4,096 times its own.
const LEADER: [u16; 8] = [0x6000, 0xFFFF, 0, 512, 0, 1, 0, 3];

const PAGE: [u16; 8] = [0xFFFF, 0x5000, 0, 0, 1, 1, 0, 3];

/// Six record writes are made, and the fifth commits: a tally counts it up to a limit of 5, and not up to one of 4.
#[test]
fn a_new_file(rt: HostRuntime) -> Result<(), Fail> {
    let name = Name::parse(b"Memo").ok_or("no name")?;
    for limit in 4..6 {
        let mut machine = sure_machine(rt.alloc(), sectors_of(rt.alloc(), &[])?, b"")?;
        let mut hints = Hints {
            cache: HintCache::new(rt.alloc())?,
            table: BitTable::from_words(rt.alloc(), machine.shape().pages(), &[0; 3])?,
        };
        let mut tally = Tally {
            limit,
            passed: 0,
            all: 0,
        };
        make(
            &mut machine,
            &mut hints,
            &mut tally,
            FID,
            &name,
            65_537,
            [5, 6],
        )?;
        assert_eq!(rt; machine.writes(), 6);
        assert_eq!(rt; tally.all, 1);
        assert_eq!(rt; tally.passed, limit - 4);
        assert_eq!(rt; machine.sector(5).label, LEADER);
        assert_eq!(rt; machine.sector(6).label, PAGE);
        assert_eq!(rt; machine.sector(6).value, [0; 256]);
        // three dates, the length 5 with `Memo.`, and the last page
        let value = machine.sector(5).value;
        assert_eq!(rt;
            &value[0..10],
            [1, 1, 1, 1, 1, 1, 0x054D, 0x656D, 0x6F2E, 0].as_slice()
        );
        assert_eq!(rt; &value[253..256], [6, 1, 0].as_slice());
        assert_eq!(rt; hints.table.word(0), 0x0600);
        assert_eq!(rt; hints.table.word(1), 0);
        assert_eq!(rt;
            hints.cache.recall(Page {
                fid: FID,
                number: 0
            }),
            Some(5)
        );
        assert_eq!(rt;
            hints.cache.recall(Page {
                fid: FID,
                number: 1
            }),
            Some(6)
        );
    }
    Ok(())
}

/// What making the file in these sectors of a pack with a page answers, where the sector command with this number fails, counted from 0; and
/// the machine then. The table is as before, and nothing is counted.
fn made_in(
    alloc: Global,
    page: Placed,
    fresh: [u16; 2],
    fails: u64,
) -> Result<(Result<(), FileError>, MemMachine), Fail> {
    let name = Name::parse(b"Memo").ok_or("no name")?;
    let mut machine = failing_machine(alloc, sectors_of(alloc, &[page])?, b"")?;
    machine.fail_at(alloc, fails, 0)?;
    let mut hints = Hints {
        cache: HintCache::new(alloc)?,
        table: BitTable::from_words(alloc, machine.shape().pages(), &[0; 3])?,
    };
    let mut tally = Tally {
        limit: 0,
        passed: 0,
        all: 0,
    };
    let answer = make(&mut machine, &mut hints, &mut tally, FID, &name, 1, fresh);
    if answer.is_err() && (hints.table.word(0) != 0 || tally.all != 0) {
        return Err("the table or the tally is another".into());
    }
    Ok((answer, machine))
}

/// Where the file isn't made: the page's sector on the pack, the sectors for the leader and for page 1, the address that misleads, the number
/// of the page that is wanted there, whether a label was found, and the record writes. A call takes four sector commands at most: the next one
/// would fail.
const REFUSED: [(u16, [u16; 2], u16, u16, bool, u64); 5] = [
    (6, [0, 5], 0, 0, false, 0),
    (6, [5, 48], 48, 1, false, 0),
    (6, [48, 0], 48, 0, false, 0),
    (6, [5, 6], 6, 1, true, 0),
    (5, [5, 6], 5, 0, true, 3),
];

/// A file isn't made in a sector that can't carry a page or isn't free, nor where the disk fails; it is in the first and the last sector.
#[test]
fn a_file_that_is_not_made(rt: HostRuntime) -> Result<(), Fail> {
    for (at, fresh, misled, number, found, writes) in REFUSED {
        let (answer, machine) = made_in(rt.alloc(), Placed { at, ..DATA }, fresh, 4)?;
        let wanted = FileError::Misled {
            place: Place::Held { at: misled },
            at: misled,
            wanted: Page { fid: FID, number },
            found: found.then_some(DATA.label),
        };
        assert_eq!(rt; answer, Err(wanted));
        assert_eq!(rt; machine.writes(), writes);
    }
    for fails in 0..4 {
        let (answer, _) = made_in(rt.alloc(), DATA, [5, 47], fails)?;
        assert_eq!(rt; answer, Err(FileError::DiskFault));
    }
    for fresh in [[1, 47], [47, 1]] {
        let (answer, machine) = made_in(rt.alloc(), DATA, fresh, 4)?;
        assert_eq!(rt; answer, Ok(()));
        assert_eq!(rt; machine.writes(), 6);
    }
    Ok(())
}
