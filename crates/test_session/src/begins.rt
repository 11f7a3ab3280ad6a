// A session that begins: on a formatted pack, and each reason why one doesn't, by one word of such a pack that is another.
use alto_words::Fid;
use disk_descriptor::format;
use disk_memory::SureMachine;
use disk_records::{Disk, Page, Place, Sector};
use exec_session::{OpenError, Session};
use exec_steps::reserve_pages;
use std::alloc::Global;
use std::process::Abort;
use std::test::Fail;
use test_packs::{sectors_of, sure_machine};

/// The 48 sectors of a formatted pack.
fn formatted(alloc: Global) -> Result<Vec<Sector>, Fail> {
    let mut machine = sure_machine(alloc, sectors_of(alloc, &[])?, b"")?;
    machine.reserve(alloc, 200)?;
    format(&mut machine, 1, 0)?;
    Ok(machine.into_sectors())
}

/// What is put in the place of a word of a sector, of its value below 256 and after that of its label; and why no session begins then.
struct Row {
    at: usize,
    word: usize,
    number: u16,
    error: OpenError,
}

/// Each reason once, in the order in which they are tested.
const ROWS: [Row; 6] = [
    Row {
        at: 1,
        word: 263,
        number: 9,
        error: OpenError::NoRoot {
            found: Some([0x2000, 0xFFFF, 0, 512, 0, 1, 0x8000, 9]),
        },
    },
    Row {
        at: 2,
        word: 12,
        number: 9,
        error: OpenError::NoDescriptor,
    },
    Row {
        at: 2,
        word: 15,
        number: 7,
        error: OpenError::Misled {
            place: Place::Entry {
                dir: Fid::SYS_DIR,
                word: 15,
            },
            at: 7,
            wanted: Page {
                fid: Fid::DISK_DESCRIPTOR,
                number: 0,
            },
            found: Some([0xFFFF; 8]),
        },
    },
    Row {
        at: 4,
        word: 259,
        number: 36,
        error: OpenError::WrongLength { length: 36 },
    },
    Row {
        at: 4,
        word: 3,
        number: 13,
        error: OpenError::BadDescriptor { word: 3, found: 13 },
    },
    Row {
        at: 4,
        word: 6,
        number: 2,
        error: OpenError::NotClean { mark: 2 },
    },
];

/// A machine over a formatted pack of which this word is another.
fn changed(alloc: Global, row: &Row) -> Result<SureMachine, Fail> {
    let mut sectors = formatted(alloc)?;
    let sector = sectors.get_mut(row.at).ok_or("no sector")?;
    let word = if row.word < 256 {
        sector.value.get_mut(row.word)
    } else {
        sector.label.get_mut(row.word - 256)
    };
    *word.ok_or("no word")? = row.number;
    Ok(sure_machine(alloc, sectors, b"")?)
}

/// All levels are there, nothing is counted, and the pack is entered again. Nothing is written. Of the first 16 sectors 0 to 4 are busy in the
/// table, and then the three besides that were reserved; it stays where none is reserved.
#[test]
fn formatted_pack(rt: HostRuntime) -> Result<(), Fail> {
    let alloc = rt.alloc();
    let mut machine = sure_machine(alloc, formatted(alloc)?, b"")?;
    let mut session = Session::begin(alloc, &mut machine, 1000, 0)?;
    assert!(rt; session.level() == 8 && !session.needs_scavenge() && session.tally().all == 0);
    assert_eq!(rt; session.hints.table.word(0), 0xF800);
    reserve_pages(alloc, &mut session, &mut machine, 3)?;
    assert_eq!(rt; session.hints.table.word(0), 0xFF00);
    reserve_pages(alloc, &mut session, &mut machine, 0)?;
    assert_eq!(rt; session.hints.table.word(0), 0xFF00);
    session.renew(alloc, &mut machine)?;
    assert!(rt; !session.needs_scavenge());
    assert_eq!(rt; machine.event_count(), 0);
    Ok(())
}

#[test]
fn refusals(rt: HostRuntime) -> Result<(), Fail> {
    let alloc = rt.alloc();
    for row in &ROWS {
        let mut machine = changed(alloc, row)?;
        match Session::begin(alloc, &mut machine, 1000, 0) {
            Ok(_) => assert!(rt; false),
            Err(error) => assert_eq!(rt; error, row.error),
        }
        assert_eq!(rt; machine.event_count(), 0);
    }
    Ok(())
}
