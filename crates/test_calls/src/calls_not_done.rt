// Calls on a file of 1,200 bytes in sectors 5 to 8 that are misled or fail, and how many sector commands they take.
ghost use Rattle.std.specs.Prelude.{[], false};
ghost use Rattle.std.proofs.lemmas.Bool.{false≢true};

use crate::growing_files::Held;
use crate::released_pages::{FILE, FREE, STRANGE, THIRD, pages};
use alto_words::Name;
use disk_memory::MemMachine;
use disk_records::{Act, Disk, DiskError, Page, Place, Plan, Sector, Shape, Tally, Tape};
use file_pages::{FileError, FileRef, cut, drop_file, grow, put, stamp, title};
use hint_cache::{BitTable, HintCache, Hints};
use std::alloc::Global;
use std::test::Fail;
use test_packs::{failing_machine, sectors_of};

/// A call on the file: three bytes are put in page 3, or ten come after the last, or a prefix of 600 bytes is kept.
#[derive(Clone, Copy, Debug)]
enum Call {
    Put,
    Title,
    Stamp,
    Grow,
    Cut,
    Drop,
}

/// An empty cache, and the file's sectors as busy. Nothing is counted.
fn nothing_held(alloc: Global) -> Result<Held, Fail> {
    Ok(Held {
        hints: Hints {
            cache: HintCache::new(alloc)?,
            table: BitTable::from_words(alloc, 48, &[0x0780, 0, 0])?,
        },
        tally: Tally {
            limit: 100,
            passed: 0,
            all: 0,
        },
    })
}

/// Makes the call. Memory: the table isn't the machine's.
fn called<D: Disk>(
    disk: &mut D,
    held: &mut Held,
    file: &FileRef,
    call: Call,
) -> Result<(), FileError> {
    let (hints, tally) = (&mut held.hints, &mut held.tally);
    let mut buf = Sector::ZEROS;
    let Some(name) = Name::parse(b"Memo") else {
        return Err(FileError::Memory);
    };
    if hints.table.pages() != disk.shape().pages() {
        return Err(FileError::Memory);
    }
    match call {
        Call::Put => put(disk, hints, tally, file, 1024, b"abc", &[], &mut buf),
        Call::Title => title(disk, hints, tally, file, &name, &mut buf),
        Call::Stamp => stamp(disk, hints, tally, file, 7, &mut buf),
        Call::Grow => grow(disk, hints, tally, file, &[0x41; 10], &[], &[], &mut buf),
        Call::Cut => cut(disk, hints, tally, file, 600, &mut buf),
        Call::Drop => drop_file(disk, hints, tally, file, &mut buf),
    }
}

/// A machine over the file with this label in the sector of page 3, and a leader that names this address and number as those of the last page.
fn machine_over(alloc: Global, last: [u16; 8], named: [u16; 2]) -> Result<MemMachine, Fail> {
    let mut sectors = sectors_of(alloc, &pages(last))?;
    let leader = sectors.get_mut(5).ok_or("no sector")?;
    leader.value[253] = named[0];
    leader.value[254] = named[1];
    Ok(failing_machine(alloc, sectors, b"")?)
}

/// The answer of a call that is misled.
fn misled(place: Place, at: u16, number: u16, found: Option<[u16; 8]>) -> Result<(), FileError> {
    let wanted = Page {
        fid: FILE.fid,
        number,
    };
    Err(FileError::Misled {
        place,
        at,
        wanted,
        found,
    })
}

/// A file named with the address of a free sector, and a next link that names another file's page: nothing is written or counted, and the
/// table stays.
#[test]
fn misled_before_a_write(rt: HostRuntime) -> Result<(), Fail> {
    let elsewhere = FileRef {
        leader_at: 9,
        from: Place::Held { at: 9 },
        ..FILE
    };
    let leader = misled(Place::Held { at: 9 }, 9, 0, Some(FREE));
    let link = misled(Place::Next { at: 7 }, 0x8000, 3, Some(STRANGE));
    let rows = [
        (Call::Put, elsewhere, leader),
        (Call::Title, elsewhere, leader),
        (Call::Stamp, elsewhere, leader),
        (Call::Grow, elsewhere, leader),
        (Call::Cut, elsewhere, leader),
        (Call::Drop, elsewhere, leader),
        (Call::Put, FILE, link),
        (Call::Stamp, FILE, link),
        (Call::Grow, FILE, link),
    ];
    for (call, file, wanted) in rows {
        let mut machine = machine_over(rt.alloc(), STRANGE, [0, 0])?;
        let mut held = nothing_held(rt.alloc())?;
        let answer = called(&mut machine, &mut held, &file, call);
        assert_eq!(rt; answer, wanted, "{call:?}");
        assert_eq!(rt; machine.event_count(), 0);
        assert_eq!(rt; held.tally.all, 0);
        assert_eq!(rt; held.hints.table.word(0), 0x0780);
    }
    Ok(())
}

/// Each call with what the leader names, the sector commands that it takes, and those that it takes again; and the page that is listed then,
/// with its sector.
const COMMANDS: [(Call, [u16; 2], u64, u64, u16, u16); 5] = [
    (Call::Put, [0, 0], 6, 3, 3, 8),
    (Call::Title, [0, 0], 3, 3, 0, 5),
    (Call::Stamp, [8, 3], 4, 4, 3, 8),
    (Call::Stamp, [6, 1], 6, 4, 3, 8),
    (Call::Grow, [8, 3], 6, 6, 3, 8),
];

/// The sector command after these would fail. Each of the first ones fails the call that makes it.
#[test]
fn commands_that_fail(rt: HostRuntime) -> Result<(), Fail> {
    for (call, named, first, again, number, at) in COMMANDS {
        let mut machine = machine_over(rt.alloc(), THIRD, named)?;
        let mut held = nothing_held(rt.alloc())?;
        machine.fail_at(rt.alloc(), first.saturating_add(again), 0)?;
        called(&mut machine, &mut held, &FILE, call)?;
        let page = Page {
            fid: FILE.fid,
            number,
        };
        assert_eq!(rt; held.hints.cache.recall(page), Some(at), "{call:?}");
        called(&mut machine, &mut held, &FILE, call)?;
        assert_eq!(rt; held.hints.table.word(0), 0x0780);
        for fails in 0..first {
            let mut machine = machine_over(rt.alloc(), THIRD, named)?;
            let mut held = nothing_held(rt.alloc())?;
            machine.fail_at(rt.alloc(), fails, 0)?;
            let answer = called(&mut machine, &mut held, &FILE, call);
            assert_eq!(rt; answer, Err(FileError::DiskFault), "{call:?}");
        }
    }
    Ok(())
}

/// The label of the sector at this address, with the file's pages on sectors 5 to 8.
fn label_at(at: u16) -> [u16; 8] {
    let mut label = FREE;
    for page in pages(THIRD) {
        if page.at == at {
            label = page.label;
        }
    }
    label
}

/// A disk that isn't modelled, as if another process wrote there meanwhile: each sector shows the file's pages when it is read, and nothing of
/// that when it is checked.
#[derive(Drop)]
struct Unsteady {
    shape: Shape,
}

impl Tape for Unsteady {
    ghost told = { false };

    ghost tape = { λ d. record { form = d.shape; base = []; events = []; keys = []; disk_faults = 0; key_faults = 0; show_faults = 0; runs = 0; writes = 0; spare = 0 } };

    ghost handed_on = { λ d. Unit {0} };
}

impl Disk for Unsteady {
    fn shape(&self) -> Shape {
        self.shape
    }

    fn writes(&self) -> u64 {
        0
    }

    fn run(&mut self, at: u16, plan: Plan, buf: &mut Sector) -> Result<(), DiskError> {
        if plan.header == Act::Check {
            return Err(DiskError::Mismatch { part: 0, word: 1 });
        }
        buf.header = [1, self.shape.real_of(at)];
        let label = label_at(at);
        buf.label = label;
        buf.value = [0; 256];
        Ok(())
    }

    fn flush(&mut self) -> Result<(), DiskError> {
        Ok(())
    }

    ghost counted = { λ d told. absurd (false≢true told) };

    ghost sized = { λ d told. absurd (false≢true told) };

    ghost formed = { λ d told. absurd (false≢true told) };
}

/// A call that finds its page in a sector, which carries it no longer as the call comes to write, names this sector and this page.
#[test]
fn a_page_that_goes_meanwhile(rt: HostRuntime) -> Result<(), Fail> {
    let rows = [
        (Call::Put, 8, 3),
        (Call::Title, 5, 0),
        (Call::Stamp, 5, 0),
        (Call::Grow, 8, 3),
        (Call::Cut, 7, 2),
        (Call::Drop, 5, 0),
    ];
    let shape = Shape::new(1, 2).ok_or("no shape")?;
    for (call, at, number) in rows {
        let mut disk = Unsteady { shape };
        let mut held = nothing_held(rt.alloc())?;
        let answer = called(&mut disk, &mut held, &FILE, call);
        assert_eq!(rt;
            answer,
            misled(Place::Held { at }, at, number, None),
            "{call:?}"
        );
        assert_eq!(rt; held.tally.all, 0);
    }
    Ok(())
}
