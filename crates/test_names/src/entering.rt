// Entries that come into the main directory of a formatted pack: words 0 to 23 are those of its two entries, and 231 free ones follow.
use crate::pack::{ROOT, formatted};
use alto_words::{Fid, Name, Wanted};
use dir_slots::Slot;
use directory::{DirError, FileRef, VersionFound, enter, greatest, list, lookup, widen};
use disk_memory::SureMachine;
use disk_records::{Disk, Place, Sector, Tally};
use file_pages::put;
use hint_cache::Hints;
use std::test::Fail;

/// Nothing is counted yet.
const NO_TALLY: Tally = Tally {
    limit: 1000,
    passed: 0,
    all: 0,
};

/// The ordinary file with this serial.
fn file(serial: u16) -> Fid {
    Fid {
        high: 0,
        low: serial,
        version: 1,
    }
}

/// Enters the file with this serial, with the address 5 of a leader, under a name; and answers how many record writes there were.
fn entering(
    machine: &mut SureMachine,
    hints: &mut Hints,
    tally: &mut Tally,
    text: &[u8],
    serial: u16,
) -> Result<u64, Fail> {
    let name = Name::parse(text).ok_or("no name")?;
    let mut buf = Sector::ZEROS;
    let before = machine.writes();
    enter(
        machine,
        hints,
        tally,
        &ROOT,
        &name,
        file(serial),
        5,
        &mut buf,
    )?;
    Ok(machine.writes().saturating_sub(before))
}

/// What a call that enters a name is refused for, if nothing was written then or counted.
fn refused(machine: &mut SureMachine, hints: &mut Hints, text: &[u8]) -> Result<DirError, Fail> {
    let name = Name::parse(text).ok_or("no name")?;
    let mut buf = Sector::ZEROS;
    let mut tally = NO_TALLY;
    let before = machine.writes();
    let answer = enter(
        machine,
        hints,
        &mut tally,
        &ROOT,
        &name,
        file(50),
        5,
        &mut buf,
    );
    if machine.writes() != before || tally.all != 0 {
        return Err(Fail::from("it was written"));
    }
    match answer {
        Ok(()) => Err(Fail::from("it was entered")),
        Err(error) => Ok(error),
    }
}

/// The entry of `A.` stands in the first free words, by one record write, with a free slot of those left over; and its name is taken then, in
/// whatever case of its letter.
#[test]
fn an_entry_that_comes(rt: HostRuntime) -> Result<(), Fail> {
    let (mut machine, mut hints) = formatted(rt.alloc())?;
    let mut tally = NO_TALLY;
    let writes = entering(&mut machine, &mut hints, &mut tally, b"A", 3)?;
    assert_eq!(rt; writes, 1);
    assert_eq!(rt; tally.all, 1);
    assert_eq!(rt;
        &machine.sector(2).value[24..33],
        [1032, 0, 3, 1, 0, 5, 577, 11776, 223].as_slice()
    );
    assert_eq!(rt;
        refused(&mut machine, &mut hints, b"a")?,
        DirError::NameTaken
    );
    Ok(())
}

/// The file with this serial, by its entry: the address 5 stands at this word.
fn entry_of(serial: u16, word: u32) -> FileRef {
    FileRef {
        fid: file(serial),
        leader_at: 5,
        from: Place::Entry {
            dir: Fid::SYS_DIR,
            word,
        },
    }
}

/// `A.` comes into words 24 to 31, and `A!2.` into words 32 to 40. The bare name means the greater version, `A!1` the first. The name of a
/// directory is held, and that of these files isn't.
#[test]
fn two_versions(rt: HostRuntime) -> Result<(), Fail> {
    let (mut machine, mut hints) = formatted(rt.alloc())?;
    let mut tally = NO_TALLY;
    let mut buf = Sector::ZEROS;
    entering(&mut machine, &mut hints, &mut tally, b"A", 3)?;
    entering(&mut machine, &mut hints, &mut tally, b"A!2", 4)?;
    assert_eq!(rt;
        &machine.sector(2).value[32..42],
        [1033, 0, 4, 1, 0, 5, 0x0441, 0x2132, 0x2E00, 214].as_slice()
    );
    let newest = Wanted::parse(b"A").ok_or("no operand")?;
    let (file, name) = lookup(&mut machine, &mut hints, &ROOT, &newest, &mut buf)?;
    assert_eq!(rt; file, entry_of(4, 37));
    assert_eq!(rt; name, Name::parse(b"A!2").ok_or("no name")?);
    let oldest = Wanted::parse(b"A!1").ok_or("no operand")?;
    let (file, name) = lookup(&mut machine, &mut hints, &ROOT, &oldest, &mut buf)?;
    assert_eq!(rt; file, entry_of(3, 29));
    assert_eq!(rt; name, Name::parse(b"A").ok_or("no name")?);
    let base = Name::parse_bare(b"a").ok_or("no name")?;
    assert_eq!(rt;
        greatest(&mut machine, &mut hints, &ROOT, &base, &mut buf)?,
        VersionFound {
            version: 2,
            held: false
        }
    );
    let held = Name::parse_bare(b"D").ok_or("no name")?;
    enter(
        &mut machine,
        &mut hints,
        &mut tally,
        &ROOT,
        &held,
        Fid::directory(5),
        5,
        &mut buf,
    )?;
    assert_eq!(rt;
        greatest(&mut machine, &mut hints, &ROOT, &held, &mut buf)?,
        VersionFound {
            version: 1,
            held: true
        }
    );
    Ok(())
}

/// Free slots of 10 and 20 words side by side have room for the longest entry: a record write makes them one, and the next is the entry's.
#[test]
fn free_slots_are_joined(rt: HostRuntime) -> Result<(), Fail> {
    let (mut machine, mut hints) = formatted(rt.alloc())?;
    let mut tally = NO_TALLY;
    let mut buf = Sector::ZEROS;
    for (at, words) in [(48, 10), (68, 20), (108, 201)] {
        put(
            &mut machine,
            &mut hints,
            &mut tally,
            &ROOT,
            at,
            &[0, words],
            &[],
            &mut buf,
        )?;
    }
    let writes = entering(
        &mut machine,
        &mut hints,
        &mut tally,
        b"abcdefghijklmnopqrstuvwxyz0123456789+-",
        3,
    )?;
    assert_eq!(rt; writes, 2);
    assert_eq!(rt; machine.sector(2).value[24], 1050);
    assert_eq!(rt; machine.sector(2).value[49], 0x2D2E);
    assert_eq!(rt; machine.sector(2).value[50], 4);
    let slots = list(rt.alloc(), &mut machine, &mut hints, &ROOT)?;
    assert_eq!(rt; slots.len(), 5);
    assert_eq!(rt; slots[3], Slot::Free { words: 4 });
    assert_eq!(rt; slots[4], Slot::Free { words: 201 });
    Ok(())
}

/// Words 232 to 239 of a page.
fn eight_words(value: &[u16; 256]) -> &[u16] {
    &value[232..240]
}

/// Eight names of 38 letters leave 23 words, which are too few for a ninth. Once the directory is widened they are joined with the 256 words
/// that came, and the entry lies over the page's end: the joining is the first record write, the next page's words are the second.
#[test]
fn an_entry_over_a_pages_end(rt: HostRuntime) -> Result<(), Fail> {
    let (mut machine, mut hints) = formatted(rt.alloc())?;
    let mut tally = NO_TALLY;
    let letters = [
        (3, b'a'),
        (4, b'b'),
        (5, b'c'),
        (6, b'd'),
        (7, b'e'),
        (8, b'f'),
        (9, b'g'),
        (10, b'h'),
    ];
    for (serial, letter) in letters {
        let text = [letter; 38];
        let writes = entering(&mut machine, &mut hints, &mut tally, &text, serial)?;
        assert_eq!(rt; writes, 1);
    }
    assert_eq!(rt;
        refused(&mut machine, &mut hints, &[0x69; 38])?,
        DirError::NoSlot { largest: 23 }
    );
    let mut buf = Sector::ZEROS;
    assert!(rt; hints.table.pages() == machine.shape().pages());
    widen(&mut machine, &mut hints, &mut tally, &ROOT, 11, &mut buf)?;
    let writes = entering(&mut machine, &mut hints, &mut tally, &[0x69; 38], 11)?;
    assert_eq!(rt; writes, 3);
    assert_eq!(rt; tally.all, 10);
    let first = machine.sector(2).value;
    assert_eq!(rt;
        eight_words(&first),
        [1050, 0, 11, 1, 0, 5, 0x2769, 0x6969].as_slice()
    );
    assert_eq!(rt; first[255], 0x6969);
    assert_eq!(rt;
        &machine.sector(11).value[..3],
        [0x6969, 0x692E, 253].as_slice()
    );
    let slots = list(rt.alloc(), &mut machine, &mut hints, &ROOT)?;
    assert_eq!(rt; slots.len(), 12);
    assert_eq!(rt; slots[11], Slot::Free { words: 253 });
    Ok(())
}
