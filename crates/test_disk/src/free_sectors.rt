// Free sectors on a pack of 48 sectors of which 43 to 47 are free, over tables that are true and tables that aren't.
use disk_records::{Disk, Sector};
use hint_cache::BitTable;
use page_alloc::{AllocError, count_free, reserve};
use std::alloc::Global;
use std::process::Abort;
use std::test::Fail;
use test_packs::{Placed, failing_machine, sectors_of, set_page, sure_machine};

/// The bits of sectors 0 to 47: busy except the free ones, all busy, and all free.
const TRUE: [u16; 3] = [0xFFFF, 0xFFFF, 0xFFE0];

const BUSY: [u16; 3] = [0xFFFF; 3];

const FREE: [u16; 3] = [0; 3];

/// Sector 10, which isn't free, and two that are: 44 and 46.
const SOME: [u16; 3] = [0xFFDF, 0xFFFF, 0xFFF5];

/// Whether a sector is free: only these five are.
fn is_free(at: u16) -> bool {
    43 <= at && at <= 47
}

/// Whether the sector at this address is busy by the words of a table.
fn is_busy(words: &[u16; 3], at: u16) -> bool {
    match words.get(usize::from(at / 16)) {
        Some(word) => (word >> (15 - at % 16)) % 2 == 1,
        None => true,
    }
}

/// Sectors of which each below 43 carries a page, except two: sector 0 has a free label, and sector 20 has one after the
/// header of another sector.
fn sectors(alloc: Global) -> Result<Vec<Sector>, Fail> {
    let mut sectors = sectors_of(alloc, &[])?;
    for at in 1..43 {
        if at == 20 {
            continue;
        }
        let page = Placed {
            at,
            label: [0xFFFF, 0xFFFF, 0, 512, at, 1, 0, 3],
            front: [0; 3],
        };
        set_page(&mut sectors, &page);
    }
    if let Some(sector) = sectors.get_mut(20) {
        sector.header[1] = 0;
    }
    Ok(sectors)
}

/// What `reserve` answers, and the table's words afterwards.
#[derive(Drop)]
struct Answer {
    taken: Result<Vec<u16>, AllocError>,
    words: [u16; 3],
}

/// Asks a disk for `n` sectors with this table.
fn ask_disk<D: Disk>(alloc: Global, disk: &mut D, words: [u16; 3], n: u16) -> Result<Answer, Fail> {
    let mut table = BitTable::from_words(alloc, disk.shape().pages(), &words)?;
    let taken = reserve(alloc, disk, &mut table, n);
    Ok(Answer {
        taken,
        words: [table.word(0), table.word(1), table.word(2)],
    })
}

/// Asks a disk that never fails.
fn ask(alloc: Global, words: [u16; 3], n: u16) -> Result<Answer, Fail> {
    let mut disk = sure_machine(alloc, sectors(alloc)?, b"")?;
    ask_disk(alloc, &mut disk, words, n)
}

/// Asks a disk whose sector command with this number fails.
fn ask_failing(alloc: Global, words: [u16; 3], n: u16, call: u64) -> Result<Answer, Fail> {
    let mut disk = failing_machine(alloc, sectors(alloc)?, b"")?;
    disk.fail_at(alloc, call, 0)?;
    ask_disk(alloc, &mut disk, words, n)
}

/// Checks that six of five were too many.
fn expect_full<A: Abort>(rt: &A, taken: &Result<Vec<u16>, AllocError>) {
    match taken {
        Err(AllocError::Full { needed, free }) => {
            assert_eq!(rt; *needed, 6);
            assert_eq!(rt; *free, 5);
        }
        _ => assert!(rt; false, "six of five"),
    }
}

#[test]
fn a_true_table_gives_the_lowest(rt: HostRuntime) -> Result<(), Fail> {
    let answer = ask(rt.alloc(), TRUE, 2)?;
    assert_eq!(rt; answer.words, [0xFFFF, 0xFFFF, 0xFFF8]);
    assert_eq!(rt; answer.taken?.as_slice(), [43, 44].as_slice());
    Ok(())
}

#[test]
fn a_busy_table_is_swept(rt: HostRuntime) -> Result<(), Fail> {
    let taken = ask(rt.alloc(), BUSY, 2)?.taken?;
    assert_eq!(rt; taken.len(), 2);
    assert!(rt; 43 <= taken[0] && taken[0] < taken[1] && taken[1] <= 47);
    Ok(())
}

#[test]
fn a_free_table_is_checked(rt: HostRuntime) -> Result<(), Fail> {
    let answer = ask(rt.alloc(), FREE, 5)?;
    // the bit of sector 0, whose label isn't read, stays
    assert_eq!(rt; answer.words, [0x7FFF, 0xFFFF, 0xFFFF]);
    assert_eq!(rt; answer.taken?.as_slice(), [43, 44, 45, 46, 47].as_slice());
    Ok(())
}

#[test]
fn six_are_too_many(rt: HostRuntime) -> Result<(), Fail> {
    for words in [TRUE, BUSY, FREE, SOME] {
        let answer = ask(rt.alloc(), words, 6)?;
        expect_full(&rt, &answer.taken);
        // none is taken, and the swept table is true except sector 0, whose bit stays
        assert_eq!(rt; is_busy(&answer.words, 0), is_busy(&words, 0));
        for at in 1..48 {
            assert_eq!(rt; is_busy(&answer.words, at), !is_free(at));
        }
    }
    Ok(())
}

#[test]
fn none_are_wanted(rt: HostRuntime) -> Result<(), Fail> {
    for words in [TRUE, BUSY, FREE, SOME] {
        let answer = ask(rt.alloc(), words, 0)?;
        assert_eq!(rt; answer.words, words);
        assert_eq!(rt; answer.taken?.len(), 0);
    }
    Ok(())
}

#[test]
fn offers_that_are_too_few_lead_to_a_sweep(rt: HostRuntime) -> Result<(), Fail> {
    let answer = ask(rt.alloc(), SOME, 4)?;
    let taken = answer.taken?;
    assert_eq!(rt; taken.len(), 4);
    for pair in taken.as_slice().windows(2) {
        assert!(rt; pair[0] < pair[1]);
    }
    for at in taken.as_slice() {
        assert!(rt; is_free(*at));
    }
    // the false offer is mended, and the one that isn't taken is free
    for at in 0..48 {
        assert_eq!(rt;
            is_busy(&answer.words, at),
            !is_free(at) || taken.contains(&at)
        );
    }
    Ok(())
}

#[test]
fn offers_that_are_enough_are_looked_at_alone(rt: HostRuntime) -> Result<(), Fail> {
    for call in 0..3 {
        let answer = ask_failing(rt.alloc(), SOME, 2, call)?;
        assert!(rt; matches!(answer.taken, Err(AllocError::DiskFault)));
    }
    // there is no fourth sector command
    let answer = ask_failing(rt.alloc(), SOME, 2, 3)?;
    assert_eq!(rt; answer.words, BUSY);
    assert_eq!(rt; answer.taken?.as_slice(), [44, 46].as_slice());
    Ok(())
}

#[test]
fn a_fault_leaves_what_labels_say(rt: HostRuntime) -> Result<(), Fail> {
    for words in [TRUE, BUSY, FREE, SOME] {
        for call in 0..47 {
            let answer = ask_failing(rt.alloc(), words, 6, call)?;
            assert!(rt; matches!(answer.taken, Err(AllocError::DiskFault)));
            for at in 0..48 {
                let busy = is_busy(&answer.words, at);
                assert!(rt; busy == is_busy(&words, at) || busy != is_free(at));
            }
        }
        // each label except that of sector 0 is read, and none twice
        expect_full(&rt, &ask_failing(rt.alloc(), words, 6, 47)?.taken);
    }
    Ok(())
}

#[test]
fn five_are_counted(rt: HostRuntime) -> Result<(), Fail> {
    let mut disk = sure_machine(rt.alloc(), sectors(rt.alloc())?, b"")?;
    let mut buf = Sector::ZEROS;
    assert_eq!(rt; count_free(&mut disk, &mut buf)?, 5);
    Ok(())
}
