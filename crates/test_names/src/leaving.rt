// An entry of `A.` after the two of a formatted pack: words 24 to 31 of the main directory, with 223 free ones after them.
use crate::pack::{ROOT, formatted};
use alto_words::Name;
use dir_slots::Slot;
use directory::{DirError, free_slot, leave, list};
use disk_memory::SureMachine;
use disk_records::{Disk, Sector, Tally};
use file_pages::put;
use hint_cache::Hints;
use std::alloc::Global;
use std::test::Fail;

/// Its words and the first one of the free slot, as bytes.
const ENTRY: [u8; 18] = [4, 8, 0, 0, 0, 3, 0, 1, 0, 0, 0, 5, 2, 0x41, 0x2E, 0, 0, 223];

/// The same words once its slot is free: the first one alone is another.
const FREED: [u16; 9] = [8, 0, 3, 1, 0, 5, 0x0241, 0x2E00, 223];

/// A formatted pack with that entry.
fn entered(alloc: Global) -> Result<(SureMachine, Hints), Fail> {
    let (mut machine, mut hints) = formatted(alloc)?;
    let mut tally = Tally {
        limit: 0,
        passed: 0,
        all: 0,
    };
    let mut buf = Sector::ZEROS;
    put(
        &mut machine,
        &mut hints,
        &mut tally,
        &ROOT,
        48,
        &ENTRY,
        &[],
        &mut buf,
    )?;
    Ok((machine, hints))
}

/// Its slot becomes a free one of 8 words by one record write, which is counted. A name that no entry has then is refused, and nothing is
/// written or counted.
#[test]
fn an_entry_that_leaves(rt: HostRuntime) -> Result<(), Fail> {
    let (mut machine, mut hints) = entered(rt.alloc())?;
    let written = machine.writes().saturating_add(1);
    let mut tally = Tally {
        limit: written,
        passed: 0,
        all: 0,
    };
    let mut buf = Sector::ZEROS;
    let name = Name::parse(b"a").ok_or("no name")?;
    leave(&mut machine, &mut hints, &mut tally, &ROOT, &name, &mut buf)?;
    assert_eq!(rt; machine.writes(), written);
    assert_eq!(rt; tally.all, 1);
    assert_eq!(rt; tally.passed, 1);
    assert_eq!(rt; &machine.sector(2).value[24..33], FREED.as_slice());
    let slots = list(rt.alloc(), &mut machine, &mut hints, &ROOT)?;
    assert_eq!(rt; slots.len(), 4);
    assert_eq!(rt; slots[2], Slot::Free { words: 8 });
    assert_eq!(rt; slots[3], Slot::Free { words: 223 });
    let again = leave(&mut machine, &mut hints, &mut tally, &ROOT, &name, &mut buf);
    assert_eq!(rt; again, Err(DirError::NoSuchName));
    assert_eq!(rt; machine.writes(), written);
    assert_eq!(rt; tally.all, 1);
    Ok(())
}

/// The end of a drop frees the slot by the same record write.
#[test]
fn the_end_of_a_drop(rt: HostRuntime) -> Result<(), Fail> {
    let (mut machine, mut hints) = entered(rt.alloc())?;
    let written = machine.writes().saturating_add(1);
    let mut buf = Sector::ZEROS;
    let name = Name::parse(b"A").ok_or("no name")?;
    free_slot(&mut machine, &mut hints, &ROOT, &name, &mut buf)?;
    assert_eq!(rt; machine.writes(), written);
    assert_eq!(rt; &machine.sector(2).value[24..33], FREED.as_slice());
    assert_eq!(rt;
        free_slot(&mut machine, &mut hints, &ROOT, &name, &mut buf),
        Err(DirError::NoSuchName)
    );
    assert_eq!(rt; machine.writes(), written);
    Ok(())
}
