// Rows of slots whose words and rooms are known, and each call that takes memory once with enough of it.
use crate::{
    JudgedPages, Passing, PlacedSlot, Room, Slot, Walk, entry_words, find_room, largest_run,
    read_slots, slot_here, write_slots,
};
use alto_words::{Fid, Memory, Name};
use std::alloc::Global;
use std::process::Abort;
use std::test::Fail;

/// The words of the entry of `A.`, the ordinary file with serial 3, whose leader is at 5.
const ENTRY_OF_A: [u16; 8] = [1032, 0, 3, 1, 0, 5, 577, 11776];

/// The words of the entry of `A!2.`, the same file otherwise.
const ENTRY_WITH_A_VERSION: [u16; 9] = [1033, 0, 3, 1, 0, 5, 0x0441, 0x2132, 0x2E00];

/// The entry of that file under another name.
fn entry(name: Name) -> Slot {
    Slot::Entry {
        fid: Fid {
            high: 0,
            low: 3,
            version: 1,
        },
        leader_at: 5,
        name,
    }
}

#[test]
fn the_entry_of_a_has_eight_words(rt: HostRuntime) -> Result<(), Fail> {
    let name = Name::parse(b"A.").ok_or("a name")?;
    let (slots, length) = read_slots(rt.alloc(), &ENTRY_OF_A)?;
    assert_eq!(rt; length, 8);
    assert_eq!(rt; slots.as_slice(), [entry(name)].as_slice());
    Ok(())
}

#[test]
fn entries_under_names_with_versions(rt: HostRuntime) -> Result<(), Fail> {
    let slot = entry(Name::parse(b"A!2").ok_or("a name")?);
    assert_eq!(rt; slot_here(&ENTRY_WITH_A_VERSION, 9), Some(slot));
    assert!(rt; slot.is_in_range());
    let written = write_slots(rt.alloc(), &[slot])?;
    assert_eq!(rt; written.as_slice(), ENTRY_WITH_A_VERSION.as_slice());
    // `A!02.`, and `A!1.`, whose version isn't spelled
    let leading_zero = [1033, 0, 3, 1, 0, 5, 0x0541, 0x2130, 0x322E];
    assert_eq!(rt; slot_here(&leading_zero, 9), None);
    let version_one = [1033, 0, 3, 1, 0, 5, 0x0441, 0x2131, 0x2E00];
    assert_eq!(rt; slot_here(&version_one, 9), None);
    Ok(())
}

/// A slot is written and read back, and has so many words.
fn goes_round(rt: &impl Abort, alloc: Global, text: &[u8], words: usize) -> Result<(), Fail> {
    let name = Name::parse(text).ok_or("a name")?;
    assert_eq!(rt; entry_words(&name) as usize, words);
    let slot = entry(name);
    assert!(rt; slot.is_in_range());
    let written = write_slots(alloc, &[slot])?;
    assert_eq!(rt; written.as_slice().len(), words);
    let (read, length) = read_slots(alloc, written.as_slice())?;
    assert_eq!(rt; length, words);
    assert_eq!(rt; read.as_slice(), [slot].as_slice());
    Ok(())
}

#[test]
fn names_go_round(rt: HostRuntime) -> Result<(), Fail> {
    goes_round(&rt, rt.alloc(), b"Z", 8)?;
    goes_round(&rt, rt.alloc(), b"Z!65534", 11)?;
    goes_round(
        &rt,
        rt.alloc(),
        b"abcdefghijklmnopqrstuvwxyz0123456789+-.",
        26,
    )
}

/// The room for the longest entry among the slots of these words.
fn room_in(alloc: Global, words: &[u16; 256]) -> Result<Option<Room>, Memory> {
    let (slots, _) = read_slots(alloc, words)?;
    Ok(find_room(slots.as_slice(), 26))
}

#[test]
fn room_is_found_after_an_entry(rt: HostRuntime) -> Result<(), Fail> {
    let mut page = [0; 256];
    page[..8].copy_from_slice(&ENTRY_OF_A);
    page[8] = 248;
    let room = Room {
        first: 1,
        place: 8,
        total: 248,
    };
    assert_eq!(rt; room_in(rt.alloc(), &page)?, Some(room));
    Ok(())
}

#[test]
fn free_slots_side_by_side_are_joined(rt: HostRuntime) -> Result<(), Fail> {
    let mut page = [0; 256];
    page[0] = 10;
    page[10] = 20;
    page[30..38].copy_from_slice(&ENTRY_OF_A);
    page[38] = 218;
    let room = Room {
        first: 0,
        place: 0,
        total: 30,
    };
    assert_eq!(rt; room_in(rt.alloc(), &page)?, Some(room));
    let (slots, _) = read_slots(rt.alloc(), &page)?;
    assert_eq!(rt; largest_run(slots.as_slice()), 218);
    Ok(())
}

#[test]
fn the_first_room_is_found_and_not_the_best(rt: HostRuntime) -> Result<(), Fail> {
    let mut page = [0; 256];
    page[0] = 40;
    page[40..48].copy_from_slice(&ENTRY_OF_A);
    page[48] = 26;
    page[74..82].copy_from_slice(&ENTRY_OF_A);
    let room = Room {
        first: 0,
        place: 0,
        total: 40,
    };
    assert_eq!(rt; room_in(rt.alloc(), &page)?, Some(room));
    Ok(())
}

/// 2,000 times a free slot of one word and an entry, then 25 free slots of one word and one of 1,023.
fn long_directory() -> [u16; 19_048] {
    let mut words = [1; 19_048];
    for at in 0..2000 {
        words[9 * at + 1..9 * at + 9].copy_from_slice(&ENTRY_OF_A);
    }
    words[18_025] = 1023;
    words
}

#[test]
fn room_is_found_at_the_end_of_4026_slots(rt: HostRuntime) -> Result<(), Fail> {
    let (slots, length) = read_slots(rt.alloc(), &long_directory())?;
    assert_eq!(rt; length, 19_048);
    assert_eq!(rt; slots.as_slice().len(), 4026);
    assert_eq!(rt; largest_run(slots.as_slice()), 1048);
    // the one slot of 1,023 words, since with any before it the room has more
    let last = Room {
        first: 4025,
        place: 18_025,
        total: 1023,
    };
    assert_eq!(rt; find_room(slots.as_slice(), 26), Some(last));
    let two = Room {
        first: 4000,
        place: 18_000,
        total: 2,
    };
    assert_eq!(rt; find_room(slots.as_slice(), 2), Some(two));
    Ok(())
}

#[test]
fn a_slot_is_read_from_its_first_words(rt: HostRuntime) {
    // a free slot of 1,000 words, of which 26 are here
    let mut front = [7; 26];
    front[0] = 1000;
    assert_eq!(rt; slot_here(&front, 1000), Some(Slot::Free { words: 1000 }));
    assert_eq!(rt; slot_here(&front, 999), None);
}

#[test]
fn a_walk_ends_at_a_slot_of_no_words(rt: HostRuntime) -> Result<(), Fail> {
    let mut page = [0; 256];
    page[..8].copy_from_slice(&ENTRY_OF_A);
    page[8] = 3;
    let (mut walk, mut from) = (Walk::new(), 0);
    let slot = entry(Name::parse(b"A").ok_or("a name")?);
    assert_eq!(rt;
        walk.next(&page, &mut from),
        Some(PlacedSlot { place: 0, slot })
    );
    assert_eq!(rt; from, 8);
    let free = Slot::Free { words: 3 };
    assert_eq!(rt;
        walk.next(&page, &mut from),
        Some(PlacedSlot {
            place: 8,
            slot: free
        })
    );
    assert!(rt; !walk.has_ended());
    assert_eq!(rt; walk.next(&page, &mut from), None);
    assert!(rt; walk.has_ended());
    // nothing is met after it
    walk.feed(&ENTRY_OF_A);
    assert_eq!(rt; walk.place(), 11);
    Ok(())
}

#[test]
fn a_walk_goes_over_the_end_of_a_page(rt: HostRuntime) -> Result<(), Fail> {
    // a free slot of 252 words, and an entry of which four words stand in the next page
    let mut page = [0; 256];
    page[0] = 252;
    page[252..].copy_from_slice(&ENTRY_OF_A[..4]);
    let mut next_page = [0; 256];
    next_page[..4].copy_from_slice(&ENTRY_OF_A[4..]);
    // and then a free slot that ends in the page after that
    next_page[4] = 300;
    let (mut walk, mut from) = (Walk::new(), 0);
    let free = Slot::Free { words: 252 };
    assert_eq!(rt;
        walk.next(&page, &mut from),
        Some(PlacedSlot {
            place: 0,
            slot: free
        })
    );
    assert_eq!(rt; walk.next(&page, &mut from), None);
    assert_eq!(rt; from, 256);
    assert_eq!(rt; walk.place(), 252);
    from = 0;
    let slot = entry(Name::parse(b"A").ok_or("a name")?);
    assert_eq!(rt;
        walk.next(&next_page, &mut from),
        Some(PlacedSlot { place: 252, slot })
    );
    assert_eq!(rt; from, 4);
    assert_eq!(rt; walk.next(&next_page, &mut from), None);
    assert_eq!(rt; walk.place(), 260);
    walk.feed(&[0; 48]);
    assert_eq!(rt; walk.place(), 560);
    Ok(())
}

#[test]
fn a_walk_passes_over_other_names(rt: HostRuntime) -> Result<(), Fail> {
    // a free slot, the entries of B and A, and then one of A!2
    let mut page = [0; 256];
    page[0] = 5;
    page[5..13].copy_from_slice(&ENTRY_OF_A);
    page[11] = 0x0242;
    page[13..21].copy_from_slice(&ENTRY_OF_A);
    page[21..30].copy_from_slice(&ENTRY_WITH_A_VERSION);
    let (mut walk, mut from) = (Walk::new(), 0);
    let but_a = Passing {
        free: true,
        name: Some(Name::parse(b"a").ok_or("a name")?),
    };
    walk.pass_others(&page, &mut from, &but_a);
    assert_eq!(rt; from, 13);
    let but_b = Passing {
        free: true,
        name: Some(Name::parse(b"b").ok_or("a name")?),
    };
    walk.pass_others(&page, &mut from, &but_b);
    // a version is met
    assert_eq!(rt; from, 21);
    assert_eq!(rt; walk.place(), 21);
    Ok(())
}

#[test]
fn a_walk_passes_over_entries_alone(rt: HostRuntime) {
    // the entry of A, a free slot, that entry again, and then one of A!2
    let mut page = [0; 256];
    page[..8].copy_from_slice(&ENTRY_OF_A);
    page[8] = 5;
    page[13..21].copy_from_slice(&ENTRY_OF_A);
    page[21..30].copy_from_slice(&ENTRY_WITH_A_VERSION);
    let entries = Passing {
        free: false,
        name: None,
    };
    let (mut walk, mut from) = (Walk::new(), 0);
    walk.pass_others(&page, &mut from, &entries);
    // a free slot is met
    assert_eq!(rt; from, 8);
    assert_eq!(rt;
        walk.next(&page, &mut from),
        Some(PlacedSlot {
            place: 8,
            slot: Slot::Free { words: 5 }
        })
    );
    walk.pass_others(&page, &mut from, &entries);
    // and a version
    assert_eq!(rt; from, 21);
    assert_eq!(rt; walk.place(), 21);
}

#[test]
fn a_walk_passes_over_a_slot_in_hand(rt: HostRuntime) -> Result<(), Fail> {
    // the entries of A and B, and then one of A!2, in two pages that meet anywhere
    let mut words = [0; 25];
    words[..8].copy_from_slice(&ENTRY_OF_A);
    words[8..16].copy_from_slice(&ENTRY_OF_A);
    words[14] = 0x0242;
    words[16..].copy_from_slice(&ENTRY_WITH_A_VERSION);
    let but_c = Passing {
        free: true,
        name: Some(Name::parse(b"c").ok_or("a name")?),
    };
    let slot = entry(Name::parse(b"A!2").ok_or("a name")?);
    for split in 0..25usize {
        let (mut walk, mut from) = (Walk::new(), 0);
        walk.pass_others(&words[..split], &mut from, &but_c);
        assert_eq!(rt; walk.next(&words[..split], &mut from), None);
        from = 0;
        walk.pass_others(&words[split..], &mut from, &but_c);
        // a version is met
        assert_eq!(rt; (walk.place(), from), (16, 16usize.saturating_sub(split)));
        assert_eq!(rt;
            walk.next(&words[split..], &mut from),
            Some(PlacedSlot { place: 16, slot })
        );
        assert_eq!(rt; from, 25 - split);
    }
    Ok(())
}

/// Where a scan for a name stops in the second of two pages, of which the first has no slot that it is handed.
fn second_stop(
    judged: &mut JudgedPages,
    pages: [&[u16; 256]; 2],
    name: &[u8],
) -> Result<(u32, usize), Fail> {
    let passing = Passing {
        free: true,
        name: Some(Name::parse(name).ok_or("a name")?),
    };
    let (mut walk, mut from) = (Walk::new(), 0);
    judged.pass_others(&mut walk, pages[0], &mut from, &passing);
    walk.next(pages[0], &mut from);
    from = 0;
    judged.pass_others(&mut walk, pages[1], &mut from, &passing);
    Ok((walk.place(), from))
}

#[test]
fn a_page_is_judged_after_a_slot_in_hand(rt: HostRuntime) -> Result<(), Fail> {
    // a free slot of 252 words, and the entries of A, of which four words stand in the next page, of B, and of A!2
    let mut page = [0; 256];
    page[0] = 252;
    page[252..].copy_from_slice(&ENTRY_OF_A[..4]);
    let mut next_page = [0; 256];
    next_page[..4].copy_from_slice(&ENTRY_OF_A[4..]);
    next_page[4..12].copy_from_slice(&ENTRY_OF_A);
    next_page[10] = 0x0242;
    next_page[12..21].copy_from_slice(&ENTRY_WITH_A_VERSION);
    let mut judged = JudgedPages::new(rt.alloc());
    let pages = [&page, &next_page];
    assert_eq!(rt; second_stop(&mut judged, pages, b"c")?, (268, 12));
    assert_eq!(rt; second_stop(&mut judged, pages, b"c")?, (268, 12));
    assert_eq!(rt; second_stop(&mut judged, pages, b"b")?, (260, 4));
    // the entry of A stays in hand, and is met
    assert_eq!(rt; second_stop(&mut judged, pages, b"a")?, (252, 0));
    Ok(())
}

/// Where a scan for a name first stops in the first page of a directory: by what was judged before, and with nothing judged.
fn first_stops(
    judged: &mut JudgedPages,
    page: &[u16; 256],
    name: &[u8],
) -> Result<(usize, usize), Fail> {
    let passing = Passing {
        free: true,
        name: Some(Name::parse(name).ok_or("a name")?),
    };
    let (mut walk, mut from) = (Walk::new(), 0);
    judged.pass_others(&mut walk, page, &mut from, &passing);
    let (mut fresh, mut stop) = (Walk::new(), 0);
    fresh.pass_others(page, &mut stop, &passing);
    Ok((from, stop))
}

#[test]
fn words_that_change_are_judged_again(rt: HostRuntime) -> Result<(), Fail> {
    // the entries of A and B, and then one of A!2
    let mut page = [0; 256];
    page[..8].copy_from_slice(&ENTRY_OF_A);
    page[8..16].copy_from_slice(&ENTRY_OF_A);
    page[14] = 0x0242;
    page[16..25].copy_from_slice(&ENTRY_WITH_A_VERSION);
    let mut judged = JudgedPages::new(rt.alloc());
    assert_eq!(rt; first_stops(&mut judged, &page, b"c")?, (16, 16));
    assert_eq!(rt; first_stops(&mut judged, &page, b"c")?, (16, 16));
    assert_eq!(rt; first_stops(&mut judged, &page, b"b")?, (8, 8));
    // the first becomes an entry of C, and then none
    page[6] = 0x0243;
    assert_eq!(rt; first_stops(&mut judged, &page, b"c")?, (0, 0));
    assert_eq!(rt; first_stops(&mut judged, &page, b"b")?, (8, 8));
    page[7] = 0x2E01;
    assert_eq!(rt; first_stops(&mut judged, &page, b"b")?, (0, 0));
    Ok(())
}

#[test]
fn names_that_keys_do_not_tell_apart(rt: HostRuntime) -> Result<(), Fail> {
    // the entries of XAB and YAB, which differ in the first character alone
    let mut page = [0; 256];
    page[..9].copy_from_slice(&[1033, 0, 3, 1, 0, 5, 0x0458, 0x4142, 0x2E00]);
    page[9..18].copy_from_slice(&[1033, 0, 3, 1, 0, 5, 0x0459, 0x4142, 0x2E00]);
    let mut judged = JudgedPages::new(rt.alloc());
    assert_eq!(rt; first_stops(&mut judged, &page, b"zzz")?, (18, 18));
    assert_eq!(rt; first_stops(&mut judged, &page, b"yab")?, (9, 9));
    assert_eq!(rt; first_stops(&mut judged, &page, b"XAB")?, (0, 0));
    Ok(())
}
