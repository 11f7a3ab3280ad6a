// Opening a formatted pack: DiskDescriptor has 38 bytes in sector 4, for 48 sectors and so 3 map words, and sectors 0 to 4 are used.
ghost use Rattle.std.specs.Prelude.{◌≡◌};

use alto_words::{Fid, Wanted};
use directory::{FileRef, lookup};
use disk_descriptor::{DescError, OpenError, enter_pack, format};
use disk_memory::SureMachine;
use disk_records::{Disk, Page, Place, Plan, Sector, Shape, Tape};
use hint_cache::{BitTable, HintCache, Hints};
use label_check::read_page;
use std::alloc::Global;
use std::process::Abort;
use std::test::Fail;
use test_names::{ROOT, formatted};

/// DiskDescriptor, by its entry in SysDir.
pub(crate) const DESCRIPTOR: FileRef = FileRef {
    fid: Fid::DISK_DESCRIPTOR,
    leader_at: 3,
    from: Place::Entry {
        dir: Fid::SYS_DIR,
        word: 15,
    },
};

/// Its first data page.
const FIRST: Page = Page {
    fid: Fid::DISK_DESCRIPTOR,
    number: 1,
};

/// The page with SysDir's words.
const ENTRIES: Page = Page {
    fid: Fid::SYS_DIR,
    number: 1,
};

/// Puts the number in the place of a word of the page that this sector carries: of its value below 256, and after that of its label.
fn change<A: Abort>(
    rt: &A,
    machine: &mut SureMachine,
    at: u16,
    page: Page,
    word: usize,
    number: u16,
) -> Result<(), Fail>
    ensures form { (⟦<SureMachine as Tape>⟧.tape machine.new).form ≡ (⟦<SureMachine as Tape>⟧.tape machine.old).form }
{
    let mut buf = Sector::ZEROS;
    assert!(rt; 0 < at && at < machine.shape().pages() && word < 264);
    read_page(machine, at, page, &mut buf)?;
    if word < 256 {
        buf.value[word] = number;
    } else {
        buf.label[word - 256] = number;
    }
    assert!(rt; at < machine.shape().pages());
    machine.run(at, Plan::WRITE_ALL, &mut buf)?;
    Ok(())
}

/// The last serial, the mark and the map are those that formatting writes, and nothing is written. Once the mark is open the pack isn't clean.
#[test]
fn formatted_pack(rt: HostRuntime) -> Result<(), Fail> {
    let (mut machine, mut hints) = formatted(rt.alloc())?;
    assert!(rt; hints.table.pages() == machine.shape().pages());
    let events = machine.event_count();
    let mut kept = enter_pack(&mut machine, &mut hints, &DESCRIPTOR)?;
    assert_eq!(rt; machine.event_count(), events);
    assert_eq!(rt; kept.last(), 2);
    assert_eq!(rt; kept.mark(), 1);
    assert_eq!(rt; hints.table.word(0), 0xF800);
    assert_eq!(rt; hints.table.word(1), 0);
    kept.mark_open(&mut machine)?;
    assert!(rt; hints.table.pages() == machine.shape().pages());
    let again = enter_pack(&mut machine, &mut hints, &DESCRIPTOR);
    assert!(rt; matches!(again, Err(OpenError::NotClean { mark: 2 })));
    Ok(())
}

/// Each of these is tested before those that are wrong already: the mark, the number of map words, the number of sectors to a track, and
/// the length. The table stays, which has no sector as busy.
#[test]
fn refusals(rt: HostRuntime) -> Result<(), Fail> {
    let (mut machine, mut hints) = formatted(rt.alloc())?;
    let rows = [
        (6, 3, OpenError::NotClean { mark: 3 }),
        (
            8,
            65535,
            OpenError::BadDescriptor {
                word: 8,
                found: 65535,
            },
        ),
        (3, 13, OpenError::BadDescriptor { word: 3, found: 13 }),
        (259, 36, OpenError::WrongLength { length: 36 }),
    ];
    for (word, number, refusal) in rows {
        change(&rt, &mut machine, 4, FIRST, word, number)?;
        assert!(rt; hints.table.pages() == machine.shape().pages());
        match enter_pack(&mut machine, &mut hints, &DESCRIPTOR) {
            Ok(_) => assert!(rt; false),
            Err(error) => assert_eq!(rt; error, refusal),
        }
    }
    assert_eq!(rt; hints.table.word(0), 0);
    Ok(())
}

/// The serial after 2,147,483,645 is the last one that is given.
#[test]
fn last_serials(rt: HostRuntime) -> Result<(), Fail> {
    let (mut machine, mut hints) = formatted(rt.alloc())?;
    change(&rt, &mut machine, 4, FIRST, 4, 0x7FFF)?;
    change(&rt, &mut machine, 4, FIRST, 5, 0xFFFD)?;
    assert!(rt; hints.table.pages() == machine.shape().pages());
    let mut kept = enter_pack(&mut machine, &mut hints, &DESCRIPTOR)?;
    assert_eq!(rt; kept.next_serial(&mut machine)?, 2_147_483_646);
    assert_eq!(rt;
        kept.next_serial(&mut machine),
        Err(DescError::Spent {
            last: 2_147_483_646
        })
    );
    assert_eq!(rt; kept.last(), 2_147_483_646);
    Ok(())
}

/// The sector of the first data page carries page 1 of the file with the serial 9 by then: no call writes there, whether it opens the mark,
/// gives a serial or closes, and what is kept stays, of the pack as it was before its mark was open and after that.
#[test]
fn another_page_there(rt: HostRuntime) -> Result<(), Fail> {
    let (mut machine, mut hints) = formatted(rt.alloc())?;
    assert!(rt; hints.table.pages() == machine.shape().pages());
    let mut closed = enter_pack(&mut machine, &mut hints, &DESCRIPTOR)?;
    assert!(rt; hints.table.pages() == machine.shape().pages());
    let mut opened = enter_pack(&mut machine, &mut hints, &DESCRIPTOR)?;
    opened.mark_open(&mut machine)?;
    change(&rt, &mut machine, 4, FIRST, 263, 9)?;
    let held = DescError::Held {
        at: 4,
        found: Some([0xFFFF, 0x3000, 0, 38, 1, 1, 0, 9]),
    };
    let events = machine.event_count();
    assert_eq!(rt; closed.mark_open(&mut machine), Err(held));
    let Err(given) = opened.next_serial(&mut machine) else {
        return Err("a serial is given".into());
    };
    assert_eq!(rt; given, held);
    assert!(rt; hints.table.pages() == machine.shape().pages());
    assert_eq!(rt; opened.close_pack(&mut machine, &hints.table), Err(held));
    assert_eq!(rt; machine.event_count(), events);
    assert_eq!(rt; closed.mark(), 1);
    assert_eq!(rt; opened.last(), 2);
    assert_eq!(rt; opened.mark(), 2);
    Ok(())
}

/// An entry with the address of the data page misleads: the label there isn't the leader's.
#[test]
fn misled_by_its_entry(rt: HostRuntime) -> Result<(), Fail> {
    let (mut machine, mut hints) = formatted(rt.alloc())?;
    change(&rt, &mut machine, 2, ENTRIES, 15, 4)?;
    let wanted = Wanted::parse(b"DiskDescriptor").ok_or("no operand")?;
    let mut buf = Sector::ZEROS;
    let (file, _) = lookup(&mut machine, &mut hints, &ROOT, &wanted, &mut buf)?;
    assert!(rt; hints.table.pages() == machine.shape().pages());
    match enter_pack(&mut machine, &mut hints, &file) {
        Ok(_) => assert!(rt; false),
        Err(error) => assert_eq!(rt;
            error,
            OpenError::Misled {
                place: Place::Entry {
                    dir: Fid::SYS_DIR,
                    word: 15,
                },
                at: 4,
                wanted: Page {
                    fid: Fid::DISK_DESCRIPTOR,
                    number: 0,
                },
                found: Some([0xFFFF, 0x3000, 0, 38, 1, 1, 0, 2]),
            }
        ),
    }
    Ok(())
}

/// So does the leader's next link, where the label that it leads to has another page's number. What the leader says of its pages is passed
/// over before.
#[test]
fn misled_by_a_link(rt: HostRuntime) -> Result<(), Fail> {
    let (mut machine, mut hints) = formatted(rt.alloc())?;
    change(&rt, &mut machine, 4, FIRST, 260, 2)?;
    assert!(rt; hints.table.pages() == machine.shape().pages());
    match enter_pack(&mut machine, &mut hints, &DESCRIPTOR) {
        Ok(_) => assert!(rt; false),
        Err(error) => assert_eq!(rt;
            error,
            OpenError::Misled {
                place: Place::Next { at: 3 },
                at: 0x4000,
                wanted: FIRST,
                found: Some([0xFFFF, 0x3000, 0, 38, 2, 1, 0, 2]),
            }
        ),
    }
    Ok(())
}

/// A formatted pack of 160 cylinders, and 240 words of ones as the table. DiskDescriptor has 512 bytes, so that its second data page, in
/// sector 5, is empty; sectors 0 to 5 are used, of 3,840.
pub(crate) fn formatted_large(alloc: Global) -> Result<(SureMachine, Hints), Fail> {
    let shape = Shape::new(1, 160).ok_or("no shape")?;
    let mut sectors = Vec::new(alloc);
    for _ in 0..3840 {
        sectors.push(Sector::ZEROS)?;
    }
    let mut machine = SureMachine::new(alloc, shape, sectors, Vec::new(alloc))?;
    machine.reserve(alloc, 11_600)?;
    if format(&mut machine, 1, 0)? != 3834 {
        return Err("another number of free sectors".into());
    }
    let hints = Hints {
        cache: HintCache::new(alloc)?,
        table: BitTable::new(alloc, machine.shape().pages())?,
    };
    Ok((machine, hints))
}

/// Marks a sector that the table has as busy.
fn mark_busy(table: &mut BitTable, at: u16) -> Result<(), Fail> {
    if at >= table.pages() {
        return Err("no such sector".into());
    }
    table.set(at, true);
    Ok(())
}

/// A pack of two data pages is entered, opened, given a serial and closed over a table with its last sector as busy, which stands there as
/// it is entered again. Formatting makes 11,520 record writes, the mark and the serial one each, and closing two; closing again none.
#[test]
fn large_pack(rt: HostRuntime) -> Result<(), Fail> {
    let (mut machine, mut hints) = formatted_large(rt.alloc())?;
    assert!(rt; hints.table.pages() == machine.shape().pages());
    let mut kept = enter_pack(&mut machine, &mut hints, &DESCRIPTOR)?;
    assert_eq!(rt; hints.table.word(0), 0xFC00);
    assert_eq!(rt; hints.table.word(239), 0);
    kept.mark_open(&mut machine)?;
    assert_eq!(rt; kept.next_serial(&mut machine)?, 3);
    mark_busy(&mut hints.table, 3839)?;
    assert!(rt; hints.table.pages() == machine.shape().pages());
    kept.close_pack(&mut machine, &hints.table)?;
    assert_eq!(rt; machine.event_count(), 11_524);
    assert!(rt; hints.table.pages() == machine.shape().pages());
    kept.close_pack(&mut machine, &hints.table)?;
    assert_eq!(rt; machine.event_count(), 11_524);
    mark_busy(&mut hints.table, 100)?;
    assert!(rt; hints.table.pages() == machine.shape().pages());
    let again = enter_pack(&mut machine, &mut hints, &DESCRIPTOR)?;
    assert_eq!(rt; again.last(), 3);
    assert_eq!(rt; again.mark(), 1);
    assert_eq!(rt; hints.table.word(0), 0xFC00);
    assert_eq!(rt; hints.table.word(6), 0);
    assert_eq!(rt; hints.table.word(239), 1);
    Ok(())
}
