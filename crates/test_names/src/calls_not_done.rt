// Calls on the main directory of a formatted pack that are misled or fail, and what those leave that are done.
ghost use Rattle.std.specs.Prelude.{[], false};
ghost use Rattle.std.proofs.lemmas.Bool.{false≢true};

use crate::pack::{ROOT, formatted};
use alto_words::{Fid, Name, Wanted};
use directory::{
    DirError, FileError, FileRef, ListError, enter, free_slot, greatest, leave, list, lookup, room,
    widen,
};
use disk_memory::MemMachine;
use disk_records::{Act, Disk, DiskError, Page, Place, Plan, Sector, Shape, Tally, Tape};
use hint_cache::{BitTable, HintCache, Hints};
use std::alloc::Global;
use std::test::Fail;
use test_packs::small_shape;

/// A call on the directory. `A` is the name that is entered or leaves, and a page more comes to sector 11.
#[derive(Clone, Copy, Debug)]
enum Call {
    Lookup,
    Greatest,
    Room,
    List,
    Enter,
    Leave,
    FreeSlot,
    Widen,
}

const CALLS: [Call; 8] = [
    Call::Lookup,
    Call::Greatest,
    Call::Room,
    Call::List,
    Call::Enter,
    Call::Leave,
    Call::FreeSlot,
    Call::Widen,
];

/// What a session holds beside the machine.
#[derive(Drop)]
struct Held {
    hints: Hints,
    tally: Tally,
}

/// An empty cache, and no sector as busy. Nothing is counted.
fn nothing_held(alloc: Global) -> Result<Held, Fail> {
    Ok(Held {
        hints: Hints {
            cache: HintCache::new(alloc)?,
            table: BitTable::from_words(alloc, 48, &[0; 3])?,
        },
        tally: Tally {
            limit: 1000,
            passed: 0,
            all: 0,
        },
    })
}

/// A call that reads, as one that answers nothing.
fn read<D: Disk>(
    alloc: Global,
    disk: &mut D,
    hints: &mut Hints,
    dir: &FileRef,
    name: &Name,
    call: Call,
) -> Result<(), DirError> {
    let mut buf = Sector::ZEROS;
    match call {
        Call::Greatest => {
            let base = name.base();
            greatest(disk, hints, dir, &base, &mut buf)?;
        }
        Call::Room => {
            room(disk, hints, dir, &mut buf)?;
        }
        Call::List => match list(alloc, disk, hints, dir) {
            Ok(_) => {}
            Err(ListError::File { fault }) => return Err(DirError::File { fault }),
            Err(ListError::Memory) => return Err(DirError::from(FileError::Memory)),
        },
        _ => {
            lookup(disk, hints, dir, &Wanted::Exact { name: *name }, &mut buf)?;
        }
    }
    Ok(())
}

/// Makes the call. Memory: the table isn't the machine's.
fn called<D: Disk>(
    alloc: Global,
    disk: &mut D,
    held: &mut Held,
    dir: &FileRef,
    call: Call,
) -> Result<(), DirError> {
    let (hints, tally) = (&mut held.hints, &mut held.tally);
    let mut buf = Sector::ZEROS;
    let Some(name) = Name::parse(b"A") else {
        return Err(DirError::from(FileError::Memory));
    };
    if hints.table.pages() != disk.shape().pages() {
        return Err(DirError::from(FileError::Memory));
    }
    match call {
        Call::Enter => enter(
            disk,
            hints,
            tally,
            dir,
            &name,
            Fid::ordinary(3),
            5,
            &mut buf,
        ),
        Call::Leave => leave(disk, hints, tally, dir, &name, &mut buf),
        Call::FreeSlot => free_slot(disk, hints, dir, &name, &mut buf),
        Call::Widen => widen(disk, hints, tally, dir, 11, &mut buf),
        Call::Lookup | Call::Greatest | Call::Room | Call::List => {
            read(alloc, disk, hints, dir, &name, call)
        }
    }
}

/// The answer of a call that is misled.
fn misled(place: Place, at: u16, number: u16, found: Option<[u16; 8]>) -> Result<(), DirError> {
    let wanted = Page {
        fid: Fid::SYS_DIR,
        number,
    };
    Err(DirError::File {
        fault: FileError::Misled {
            place,
            at,
            wanted,
            found,
        },
    })
}

/// A formatted pack, on a machine of which no call fails yet, with this link in the label of SysDir's leader, which names its page nowhere else.
fn formatted_with(alloc: Global, link: u16) -> Result<MemMachine, Fail> {
    let (machine, _) = formatted(alloc)?;
    let mut sectors = machine.into_sectors();
    let leader = sectors.get_mut(1).ok_or("no sector")?;
    leader.label[0] = link;
    leader.value[247] = 0;
    leader.value[254] = 0;
    Ok(MemMachine::new(alloc, small_shape(), sectors, Vec::new(alloc))?)
}

/// The directory with the address of a free sector, and a leader whose link names a sector of DiskDescriptor: nothing is written or counted, and
/// the table stays. A disk that fails at the first or the second command is told.
#[test]
fn misled_before_a_write(rt: HostRuntime) -> Result<(), Fail> {
    let alloc = rt.alloc();
    let elsewhere = FileRef {
        leader_at: 9,
        ..ROOT
    };
    let leader = misled(Place::Root, 9, 0, Some([0xFFFF; 8]));
    let other = [0x4000, 0xFFFF, 0, 512, 0, 1, 0, 2];
    let link = misled(Place::Next { at: 1 }, 0x3000, 1, Some(other));
    for call in CALLS {
        for (dir, next, wanted) in [(elsewhere, 0x2000, leader), (ROOT, 0x3000, link)] {
            let mut machine = formatted_with(alloc, next)?;
            let mut held = nothing_held(alloc)?;
            let answer = called(alloc, &mut machine, &mut held, &dir, call);
            assert_eq!(rt; answer, wanted, "{call:?}");
            assert_eq!(rt; machine.event_count(), 0);
            assert_eq!(rt; held.tally.all, 0);
            assert_eq!(rt; held.hints.table.word(0), 0);
        }
        for fails in 0..2 {
            let mut machine = formatted_with(alloc, 0x2000)?;
            let mut held = nothing_held(alloc)?;
            machine.fail_at(alloc, fails, 0)?;
            let answer = called(alloc, &mut machine, &mut held, &ROOT, call);
            let fault = FileError::DiskFault;
            assert_eq!(rt; answer, Err(DirError::File { fault }), "{call:?}");
        }
    }
    Ok(())
}

/// Each call with the answer over a formatted pack, the record writes, and the words of the table: links are true, and none is misled. Then the
/// page that is listed, with its sector.
#[test]
fn what_is_left(rt: HostRuntime) -> Result<(), Fail> {
    let alloc = rt.alloc();
    let rows = [
        (Call::Lookup, Err(DirError::NoSuchName), 0, 0, 1, 2),
        (Call::Greatest, Ok(()), 0, 0, 1, 2),
        (Call::Room, Ok(()), 0, 0, 1, 2),
        (Call::List, Ok(()), 0, 0, 1, 2),
        (Call::Enter, Ok(()), 1, 0, 1, 2),
        (Call::Leave, Err(DirError::NoSuchName), 0, 0, 1, 2),
        (Call::FreeSlot, Err(DirError::NoSuchName), 0, 0, 1, 2),
        (Call::Widen, Ok(()), 6, 0x0010, 2, 11),
    ];
    for (call, wanted, writes, word, number, at) in rows {
        let mut machine = formatted_with(alloc, 0x2000)?;
        let mut held = nothing_held(alloc)?;
        let answer = called(alloc, &mut machine, &mut held, &ROOT, call);
        assert_eq!(rt; answer, wanted, "{call:?}");
        assert_eq!(rt; machine.event_count(), writes, "{call:?}");
        assert_eq!(rt; held.hints.table.word(0), word, "{call:?}");
        let page = Page {
            fid: Fid::SYS_DIR,
            number,
        };
        assert_eq!(rt; held.hints.cache.recall(page), Some(at), "{call:?}");
    }
    Ok(())
}

/// A disk that isn't modelled, as if another process wrote there meanwhile: sectors 1 and 2 show SysDir's pages when they are read, with an entry
/// of `B.` or of `A.`, and nothing of that when they are checked.
#[derive(Drop)]
struct Unsteady {
    shape: Shape,
    letter: u16,
}

impl Tape for Unsteady {
    ghost told = { false };

    ghost tape = { λ d. record { form = d.shape; base = []; events = []; keys = []; disk_faults = 0; key_faults = 0; show_faults = 0; runs = 0; writes = 0; spare = 0 } };

    ghost handed_on = { λ d. Unit {0} };
}

impl Disk for Unsteady {
    fn shape(&self) -> Shape {
        self.shape
    }

    fn writes(&self) -> u64 {
        0
    }

    fn run(&mut self, at: u16, plan: Plan, buf: &mut Sector) -> Result<(), DiskError> {
        if plan.header == Act::Check {
            return Err(DiskError::Mismatch { part: 0, word: 1 });
        }
        buf.header = [1, self.shape.real_of(at)];
        let label = match at {
            1 => [0x2000, 0xFFFF, 0, 512, 0, 1, 0x8000, 1],
            2 => [0xFFFF, 0x1000, 0, 510, 1, 1, 0x8000, 1],
            _ => [0xFFFF; 8],
        };
        buf.label = label;
        buf.value = [0; 256];
        buf.value[..9].copy_from_slice(&[1032, 0, 3, 1, 0, 5, self.letter, 0x2E00, 247]);
        Ok(())
    }

    fn flush(&mut self) -> Result<(), DiskError> {
        Ok(())
    }

    ghost counted = { λ d told. absurd (false≢true told) };

    ghost sized = { λ d told. absurd (false≢true told) };

    ghost formed = { λ d told. absurd (false≢true told) };
}

/// A call that finds its page in a sector, which carries it no longer as the call comes to write, names this sector and this page; a widening
/// the sector that it was given.
#[test]
fn a_page_that_goes_meanwhile(rt: HostRuntime) -> Result<(), Fail> {
    let alloc = rt.alloc();
    let shape = Shape::new(1, 2).ok_or("no shape")?;
    let free = Some([0xFFFF; 8]);
    let rows = [
        (Call::Enter, 0x0242, 2, 1, None),
        (Call::Leave, 0x0241, 2, 1, None),
        (Call::FreeSlot, 0x0241, 2, 1, None),
        (Call::Widen, 0x0241, 11, 2, free),
    ];
    for (call, letter, at, number, found) in rows {
        let mut disk = Unsteady { shape, letter };
        let mut held = nothing_held(alloc)?;
        let answer = called(alloc, &mut disk, &mut held, &ROOT, call);
        let wanted = misled(Place::Held { at }, at, number, found);
        assert_eq!(rt; answer, wanted, "{call:?}");
        assert_eq!(rt; held.tally.all, 0);
    }
    Ok(())
}
