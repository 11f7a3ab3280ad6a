// Bytes put in the place of others in a file of five bytes, whose leader is on sector 5 and whose page 1 is on sector 6.
use alto_words::Fid;
use disk_records::{Disk, Page, Place, Sector, Tally};
use file_pages::{FileError, FileRef, put, write_page};
use hint_cache::{BitTable, HintCache, Hints};
use std::test::Fail;
use test_packs::{DATA, LEADER, sectors_of, sure_machine};

/// The file, named by the address of its leader.
const FILE: FileRef = FileRef {
    fid: Fid {
        high: 0,
        low: 3,
        version: 1,
    },
    leader_at: 5,
    from: Place::Held { at: 5 },
};

/// Offsets at which two bytes would end after the file does: over its end, at it, in the next page, and past the last page that a file can
/// have.
const PAST: [u32; 4] = [4, 5, 512, 33_553_920];

/// One record write is made, and counts up to a limit of 1: `BCDE` from byte 1 on, and then `BF` with a word after it. Bytes that would end
/// after the file are refused with its length, as are words after bytes that don't end it, and a page that the sector doesn't carry with
/// the label there; and nothing is written.
#[test]
fn bytes_in_a_page(rt: HostRuntime) -> Result<(), Fail> {
    let mut machine = sure_machine(rt.alloc(), sectors_of(rt.alloc(), &[LEADER, DATA])?, b"")?;
    let mut hints = Hints {
        cache: HintCache::new(rt.alloc())?,
        table: BitTable::from_words(rt.alloc(), machine.shape().pages(), &[0; 3])?,
    };
    let mut tally = Tally {
        limit: 1,
        passed: 0,
        all: 0,
    };
    let mut buf = Sector::ZEROS;
    put(
        &mut machine,
        &mut hints,
        &mut tally,
        &FILE,
        1,
        b"bc",
        &[],
        &mut buf,
    )?;
    assert_eq!(rt;
        &machine.sector(6).value[0..4],
        [0x4162, 0x6344, 0x4500, 0].as_slice()
    );
    put(
        &mut machine,
        &mut hints,
        &mut tally,
        &FILE,
        3,
        b"de",
        &[0x1234],
        &mut buf,
    )?;
    assert_eq!(rt;
        &machine.sector(6).value[0..5],
        [0x4162, 0x6364, 0x6512, 0x3400, 0].as_slice()
    );
    assert_eq!(rt; machine.sector(6).label, DATA.label);
    assert_eq!(rt; machine.writes(), 2);
    assert_eq!(rt; tally.all, 2);
    assert_eq!(rt; tally.passed, 1);
    for offset in PAST {
        let answer = put(
            &mut machine,
            &mut hints,
            &mut tally,
            &FILE,
            offset,
            b"xy",
            &[],
            &mut buf,
        );
        assert_eq!(rt; answer, Err(FileError::Beyond { length: 5 }));
    }
    let answer = put(
        &mut machine,
        &mut hints,
        &mut tally,
        &FILE,
        1,
        b"xy",
        &[0x1234],
        &mut buf,
    );
    assert_eq!(rt; answer, Err(FileError::Beyond { length: 5 }));
    let wanted = Page {
        fid: FILE.fid,
        number: 2,
    };
    let misled = FileError::Misled {
        place: Place::Held { at: 6 },
        at: 6,
        wanted,
        found: Some(DATA.label),
    };
    assert!(rt; 6 < machine.shape().pages());
    assert_eq!(rt;
        write_page(&mut machine, &mut tally, 6, wanted, &buf.value),
        Err(misled)
    );
    assert_eq!(rt; machine.writes(), 2);
    assert_eq!(rt; tally.all, 2);
    Ok(())
}
