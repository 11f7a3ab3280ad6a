// Entries around the 48th, words made by hand, and each call that takes memory once with enough of it.
use crate::{BitTable, HintCache, Hints};
use alto_words::{Fid, Memory};
use dir_slots::{Passing, Walk};
use disk_records::Page;
use std::test::Fail;

/// A page of the ordinary file with serial 7.
fn page(number: u16) -> Page {
    Page {
        fid: Fid::ordinary(7),
        number,
    }
}

/// Notes page 1 at 101, page 2 at 102 and so on to page 48.
fn note_all(cache: &mut HintCache) -> Result<(), Memory> {
    for number in 1..49 {
        cache.note(page(number), 100 + number)?;
    }
    Ok(())
}

#[test]
fn forty_eight_entries_are_kept(rt: HostRuntime) -> Result<(), Fail> {
    let mut cache = HintCache::new(rt.alloc())?;
    note_all(&mut cache)?;
    assert_eq!(rt; cache.recall(page(1)), Some(101));
    assert_eq!(rt; cache.recall(page(48)), Some(148));
    assert_eq!(rt; cache.recall(page(49)), None);
    assert_eq!(rt; cache.refused(), 0);
    Ok(())
}

#[test]
fn the_last_of_forty_nine_is_dropped(rt: HostRuntime) -> Result<(), Fail> {
    let mut cache = HintCache::new(rt.alloc())?;
    note_all(&mut cache)?;
    // page 1 comes to the front, so page 2 is the last
    assert_eq!(rt; cache.recall(page(1)), Some(101));
    cache.note(page(49), 149)?;
    assert_eq!(rt; cache.recall(page(2)), None);
    assert_eq!(rt; cache.recall(page(1)), Some(101));
    assert_eq!(rt; cache.recall(page(49)), Some(149));
    // a listed page takes no other's place
    cache.note(page(49), 249)?;
    assert_eq!(rt; cache.recall(page(3)), Some(103));
    assert_eq!(rt; cache.recall(page(49)), Some(249));
    Ok(())
}

#[test]
fn a_forgotten_page_makes_room(rt: HostRuntime) -> Result<(), Fail> {
    let mut cache = HintCache::new(rt.alloc())?;
    note_all(&mut cache)?;
    cache.forget(page(30));
    cache.forget(page(60));
    assert_eq!(rt; cache.recall(page(30)), None);
    cache.note(page(49), 149)?;
    assert_eq!(rt; cache.recall(page(1)), Some(101));
    assert_eq!(rt; cache.recall(page(49)), Some(149));
    Ok(())
}

#[test]
fn the_highest_page_below_a_number(rt: HostRuntime) -> Result<(), Fail> {
    let mut cache = HintCache::new(rt.alloc())?;
    cache.note(page(5), 105)?;
    cache.note(page(9), 109)?;
    cache.note(page(3), 103)?;
    let fid = Fid::ordinary(7);
    assert_eq!(rt;
        cache.highest_below(fid, 9).map(|entry| entry.at),
        Some(105)
    );
    assert_eq!(rt;
        cache.highest_below(fid, 10).map(|entry| entry.at),
        Some(109)
    );
    assert!(rt; cache.highest_below(fid, 3).is_none());
    assert!(rt; cache.highest_below(Fid::ordinary(8), 10).is_none());
    Ok(())
}

#[test]
fn a_cache_as_words(rt: HostRuntime) -> Result<(), Fail> {
    let mut cache = HintCache::new(rt.alloc())?;
    cache.note(page(1), 101)?;
    cache.note(page(2), 102)?;
    let words = cache.to_words();
    // a count, and then serial high, serial low, version, page number and address, the most recently used first
    assert!(rt; words[..12] == [2, 0, 7, 1, 2, 102, 0, 7, 1, 1, 101, 0]);
    assert_eq!(rt; words[240], 0);
    let mut again = HintCache::from_words(rt.alloc(), &words)?;
    assert!(rt; again.to_words() == words);
    assert_eq!(rt; again.recall(page(1)), Some(101));
    Ok(())
}

#[test]
fn a_cache_of_any_words(rt: HostRuntime) -> Result<(), Fail> {
    let mut ones = HintCache::from_words(rt.alloc(), &[0xFFFF; 241])?;
    assert_eq!(rt; ones.recall(page(1)), None);
    assert_eq!(rt; ones.to_words()[0], 1);
    assert_eq!(rt; ones.refused(), 0);
    // of two entries for one page the first counts
    let mut words = [0; 241];
    words[..11].copy_from_slice(&[2, 0, 7, 1, 1, 101, 0, 7, 1, 1, 201]);
    let mut twice = HintCache::from_words(rt.alloc(), &words)?;
    assert_eq!(rt; twice.recall(page(1)), Some(101));
    assert_eq!(rt; twice.to_words()[0], 1);
    Ok(())
}

#[test]
fn slots_are_judged_by_their_words(rt: HostRuntime) -> Result<(), Fail> {
    // a free slot, the entry of A, and one of A!2
    let mut page = [0; 256];
    page[0] = 5;
    page[5..13].copy_from_slice(&[1032, 0, 3, 1, 0, 5, 577, 11776]);
    page[13..22].copy_from_slice(&[1033, 0, 3, 1, 0, 5, 0x0441, 0x2132, 0x2E00]);
    let bare = Passing {
        free: true,
        name: None,
    };
    let mut cache = HintCache::new(rt.alloc())?;
    for _ in 0..3 {
        let (mut walk, mut from) = (Walk::new(), 0);
        cache.pass_others(&mut walk, &page, &mut from, &bare);
        assert_eq!(rt; from, 13);
        assert_eq!(rt; walk.place(), 13);
    }
    // A!2 comes in the place of A
    page[5..14].copy_from_slice(&[1033, 0, 3, 1, 0, 5, 0x0441, 0x2132, 0x2E00]);
    let (mut walk, mut from) = (Walk::new(), 0);
    cache.pass_others(&mut walk, &page, &mut from, &bare);
    assert_eq!(rt; from, 5);
    Ok(())
}

#[test]
fn words_of_a_table(rt: HostRuntime) -> Result<(), Fail> {
    // the second word's first four bits are sectors 16 to 19; the rest and the third word are too many
    let table = BitTable::from_words(rt.alloc(), 20, &[0x8001, 0x5FFF, 7])?;
    assert_eq!(rt; table.pages(), 20);
    assert_eq!(rt; table.word(0), 0x8001);
    assert_eq!(rt; table.word(1), 0x5000);
    assert_eq!(rt; table.word(2), 0);
    // sectors without a word are busy
    let short = BitTable::from_words(rt.alloc(), 20, &[0])?.copied(rt.alloc())?;
    assert_eq!(rt; short.word(0), 0);
    assert_eq!(rt; short.word(1), 0xF000);
    Ok(())
}

#[test]
fn a_new_table_is_busy(rt: HostRuntime) -> Result<(), Fail> {
    let mut hints = Hints {
        cache: HintCache::new(rt.alloc())?,
        table: BitTable::new(rt.alloc(), 48)?,
    };
    assert_eq!(rt; hints.table.word(2), 0xFFFF);
    assert_eq!(rt; hints.table.word(3), 0);
    hints.table.set(47, false);
    assert!(rt; !hints.table.is_busy(47));
    assert_eq!(rt; hints.table.next_free(1), Some(47));
    assert_eq!(rt; hints.table.next_free(47), Some(47));
    assert_eq!(rt; hints.table.next_free(48), None);
    assert!(rt; hints.table.is_busy(46));
    assert_eq!(rt; hints.table.word(2), 0xFFFE);
    assert_eq!(rt; hints.cache.recall(page(0)), None);
    Ok(())
}
