// Pages that a cut and a drop release, of a file of 1,200 bytes in sectors 5 to 8.
use alto_words::Fid;
use disk_records::{Disk, Page, Place, Sector, Tally};
use file_pages::{FileError, FileRef, cut, drop_file};
use hint_cache::{BitTable, HintCache, Hints};
use std::test::Fail;
use test_packs::{Placed, sectors_of, sure_machine};

/// The file with serial 3, named by the sector of its leader.
pub(crate) const FILE: FileRef = FileRef {
    fid: Fid {
        high: 0,
        low: 3,
        version: 1,
    },
    leader_at: 5,
    from: Place::Held { at: 5 },
};

/// The labels of its leader and of its pages: 512, 512 and 176 bytes. The real address of a sector below 12 is 4,096 times its own.
const LEADER: [u16; 8] = [0x6000, 0xFFFF, 0, 512, 0, 1, 0, 3];

const FIRST: [u16; 8] = [0x7000, 0x5000, 0, 512, 1, 1, 0, 3];

const SECOND: [u16; 8] = [0x8000, 0x6000, 0, 512, 2, 1, 0, 3];

pub(crate) const THIRD: [u16; 8] = [0xFFFF, 0x7000, 0, 176, 3, 1, 0, 3];

/// The label of a page that isn't the file's: page 3 of the file with serial 4.
pub(crate) const STRANGE: [u16; 8] = [0xFFFF, 0x7000, 0, 176, 3, 1, 0, 4];

pub(crate) const FREE: [u16; 8] = [0xFFFF; 8];

/// A page in a sector, by its label, with zeros for a value.
fn placed(at: u16, label: [u16; 8]) -> Placed {
    Placed {
        at,
        label,
        front: [0; 3],
    }
}

/// The file on its pack, with this label in the sector of page 3.
pub(crate) fn pages(last: [u16; 8]) -> [Placed; 4] {
    [
        placed(5, LEADER),
        placed(6, FIRST),
        placed(7, SECOND),
        placed(8, last),
    ]
}

/// Nothing is counted yet, up to 100 record writes.
fn no_tally() -> Tally {
    Tally {
        limit: 100,
        passed: 0,
        all: 0,
    }
}

/// Cuts to each length: the page that is the last then, which is listed; the record writes, the operations that were counted, the labels of
/// pages 1 to 3, and the bits of the table.
#[test]
fn cuts(rt: HostRuntime) -> Result<(), Fail> {
    let rows: [(u32, u16, u64, u64, [[u16; 8]; 3], u16); 5] = [
        (1200, 3, 0, 0, [FIRST, SECOND, THIRD], 0x0780),
        (
            1024,
            3,
            2,
            1,
            [FIRST, SECOND, [0xFFFF, 0x7000, 0, 0, 3, 1, 0, 3]],
            0x0780,
        ),
        (
            512,
            2,
            4,
            1,
            [FIRST, [0xFFFF, 0x6000, 0, 0, 2, 1, 0, 3], FREE],
            0x0700,
        ),
        (
            100,
            1,
            6,
            1,
            [[0xFFFF, 0x5000, 0, 100, 1, 1, 0, 3], FREE, FREE],
            0x0600,
        ),
        (
            0,
            1,
            6,
            1,
            [[0xFFFF, 0x5000, 0, 0, 1, 1, 0, 3], FREE, FREE],
            0x0600,
        ),
    ];
    for (length, number, writes, operations, labels, busy) in rows {
        let sectors = sectors_of(rt.alloc(), &pages(THIRD))?;
        let mut machine = sure_machine(rt.alloc(), sectors, b"")?;
        let mut hints = Hints {
            cache: HintCache::new(rt.alloc())?,
            table: BitTable::from_words(rt.alloc(), machine.shape().pages(), &[0x0780, 0, 0])?,
        };
        let mut tally = no_tally();
        let mut buf = Sector::ZEROS;
        cut(
            &mut machine,
            &mut hints,
            &mut tally,
            &FILE,
            length,
            &mut buf,
        )?;
        assert_eq!(rt; machine.writes(), writes);
        assert_eq!(rt; tally.all, operations);
        assert_eq!(rt; tally.passed, operations);
        assert_eq!(rt; machine.sector(5).label, LEADER);
        assert_eq!(rt; machine.sector(6).label, labels[0]);
        assert_eq!(rt; machine.sector(7).label, labels[1]);
        assert_eq!(rt; machine.sector(8).label, labels[2]);
        assert_eq!(rt; hints.table.word(0), busy);
        let page = Page {
            fid: FILE.fid,
            number,
        };
        assert_eq!(rt; hints.cache.recall(page), number.checked_add(5));
    }
    Ok(())
}

/// A cut past the end answers the length, and writes nothing.
#[test]
fn no_cut_past_the_end(rt: HostRuntime) -> Result<(), Fail> {
    for length in [1201, 40_000_000] {
        let sectors = sectors_of(rt.alloc(), &pages(THIRD))?;
        let mut machine = sure_machine(rt.alloc(), sectors, b"")?;
        let mut hints = Hints {
            cache: HintCache::new(rt.alloc())?,
            table: BitTable::from_words(rt.alloc(), machine.shape().pages(), &[0x0780, 0, 0])?,
        };
        let mut tally = no_tally();
        let mut buf = Sector::ZEROS;
        assert_eq!(rt;
            cut(
                &mut machine,
                &mut hints,
                &mut tally,
                &FILE,
                length,
                &mut buf
            ),
            Err(FileError::Beyond { length: 1200 })
        );
        assert_eq!(rt; machine.writes(), 0);
        assert_eq!(rt; tally.all, 0);
    }
    Ok(())
}

/// A drop releases the leader and all pages, and the cache forgets them.
#[test]
fn a_drop(rt: HostRuntime) -> Result<(), Fail> {
    let sectors = sectors_of(rt.alloc(), &pages(THIRD))?;
    let mut machine = sure_machine(rt.alloc(), sectors, b"")?;
    let mut hints = Hints {
        cache: HintCache::new(rt.alloc())?,
        table: BitTable::from_words(rt.alloc(), machine.shape().pages(), &[0x0780, 0, 0])?,
    };
    let mut tally = no_tally();
    let mut buf = Sector::ZEROS;
    drop_file(&mut machine, &mut hints, &mut tally, &FILE, &mut buf)?;
    assert_eq!(rt; machine.writes(), 8);
    assert_eq!(rt; tally.all, 1);
    assert_eq!(rt; hints.table.word(0), 0);
    for at in 5..9 {
        assert_eq!(rt; machine.sector(at).label, FREE);
    }
    for number in 0..4 {
        let page = Page {
            fid: FILE.fid,
            number,
        };
        assert_eq!(rt; hints.cache.recall(page), None);
    }
    Ok(())
}

/// A next link that names another file's page misleads, after the cut or the drop has begun; that page stays.
#[test]
fn a_page_of_another_file(rt: HostRuntime) -> Result<(), Fail> {
    for (drops, writes) in [(false, 4), (true, 6)] {
        let sectors = sectors_of(rt.alloc(), &pages(STRANGE))?;
        let mut machine = sure_machine(rt.alloc(), sectors, b"")?;
        let mut hints = Hints {
            cache: HintCache::new(rt.alloc())?,
            table: BitTable::from_words(rt.alloc(), machine.shape().pages(), &[0x0780, 0, 0])?,
        };
        let mut tally = no_tally();
        let mut buf = Sector::ZEROS;
        let answer = if drops {
            drop_file(&mut machine, &mut hints, &mut tally, &FILE, &mut buf)
        } else {
            cut(&mut machine, &mut hints, &mut tally, &FILE, 100, &mut buf)
        };
        assert_eq!(rt;
            answer,
            Err(FileError::Misled {
                place: Place::Next { at: 7 },
                at: 0x8000,
                wanted: Page {
                    fid: FILE.fid,
                    number: 3
                },
                found: Some(STRANGE)
            })
        );
        assert_eq!(rt; machine.writes(), writes);
        assert_eq!(rt; tally.all, 1);
        assert_eq!(rt; machine.sector(8).label, STRANGE);
        assert_eq!(rt; hints.table.word(0) % 0x0100, 0x0080);
    }
    Ok(())
}
