// The leader, on sector 5, of a file of five bytes on sector 6 gets another written date, and another name.
use alto_words::{Fid, Name};
use disk_records::{Disk, Place, Sector, Tally};
use file_pages::{FileRef, stamp, title};
use hint_cache::{BitTable, HintCache, Hints};
use std::test::Fail;
use test_packs::{DATA, LEADER, sectors_of, sure_machine};

/// The file, named by the address of its leader.
const FILE: FileRef = FileRef {
    fid: Fid {
        high: 0,
        low: 3,
        version: 1,
    },
    leader_at: 5,
    from: Place::Held { at: 5 },
};

/// Each stamp is one record write. The first finds a leader that names no last page, the second one that does. A title is one too, and
/// leaves all other words.
#[test]
fn stamped_twice_and_titled(rt: HostRuntime) -> Result<(), Fail> {
    let name = Name::parse(b"Memo").ok_or("no name")?;
    let mut machine = sure_machine(rt.alloc(), sectors_of(rt.alloc(), &[LEADER, DATA])?, b"")?;
    let mut hints = Hints {
        cache: HintCache::new(rt.alloc())?,
        table: BitTable::from_words(rt.alloc(), machine.shape().pages(), &[0; 3])?,
    };
    let mut tally = Tally {
        limit: 1,
        passed: 0,
        all: 0,
    };
    let mut buf = Sector::ZEROS;
    for high in 1..3 {
        stamp(
            &mut machine,
            &mut hints,
            &mut tally,
            &FILE,
            high * 65_536 + 7,
            &mut buf,
        )?;
        let value = machine.sector(5).value;
        assert_eq!(rt; &value[0..6], [0, 0, high as u16, 7, 0, 0].as_slice());
        assert_eq!(rt; &value[252..256], [0, 6, 1, 5].as_slice());
        assert_eq!(rt; machine.sector(5).label, LEADER.label);
    }
    title(&mut machine, &mut hints, &mut tally, &FILE, &name, &mut buf)?;
    let value = machine.sector(5).value;
    assert_eq!(rt;
        &value[0..10],
        [0, 0, 2, 7, 0, 0, 0x054D, 0x656D, 0x6F2E, 0].as_slice()
    );
    assert_eq!(rt; &value[252..256], [0, 6, 1, 5].as_slice());
    assert_eq!(rt; machine.writes(), 3);
    assert_eq!(rt; tally.all, 3);
    assert_eq!(rt; tally.passed, 1);
    Ok(())
}
