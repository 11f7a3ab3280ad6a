// The main directory of a formatted pack, with a page more in sector 11. Its page 1 counts 510 bytes before.
use crate::pack::{ROOT, formatted};
use alto_words::Fid;
use dir_slots::Slot;
use directory::{DirError, list, room, widen};
use disk_memory::SureMachine;
use disk_records::{Disk, Page, Sector, Tally};
use hint_cache::Hints;
use std::test::Fail;

/// Gives the main directory a page more. NoSuchName: the table isn't the machine's.
fn widened(
    machine: &mut SureMachine,
    hints: &mut Hints,
    tally: &mut Tally,
    buf: &mut Sector,
) -> Result<(), DirError> {
    if hints.table.pages() != machine.shape().pages() {
        return Err(DirError::NoSuchName);
    }
    widen(machine, hints, tally, &ROOT, 11, buf)
}

/// A free slot of 256 words comes, which begins with the last word of page 1; six record writes are made, and the fifth of them commits.
#[test]
fn a_page_more(rt: HostRuntime) -> Result<(), Fail> {
    let (mut machine, mut hints) = formatted(rt.alloc())?;
    let before = machine.writes();
    let mut tally = Tally {
        limit: before.saturating_add(5),
        passed: 0,
        all: 0,
    };
    let mut buf = Sector::ZEROS;
    widened(&mut machine, &mut hints, &mut tally, &mut buf)?;
    assert_eq!(rt; machine.writes(), before.saturating_add(6));
    assert_eq!(rt; tally.all, 1);
    assert_eq!(rt; tally.passed, 1);
    assert_eq!(rt; machine.sector(2).value[255], 256);
    assert_eq!(rt; machine.sector(11).value, [0; 256]);
    assert_eq!(rt; machine.sector(2).label[3], 512);
    assert_eq!(rt;
        &machine.sector(11).label[0..5],
        [0xFFFF, 0x2000, 0, 510, 2].as_slice()
    );
    assert_eq!(rt; hints.table.word(0), 0x0010);
    let page = Page {
        fid: Fid::SYS_DIR,
        number: 2,
    };
    assert_eq!(rt; hints.cache.recall(page), Some(11));
    let slots = list(rt.alloc(), &mut machine, &mut hints, &ROOT)?;
    assert_eq!(rt; slots.len(), 4);
    assert_eq!(rt; slots[2], Slot::Free { words: 231 });
    assert_eq!(rt; slots[3], Slot::Free { words: 256 });
    assert_eq!(rt; room(&mut machine, &mut hints, &ROOT, &mut buf)?, 487);
    Ok(())
}
