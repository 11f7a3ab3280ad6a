// Packs that aren't entered, since one word of a formatted pack is another: one text, and nothing else, or no text after a fault.
use crate::typing::{Changed, MOMENT, change, expect, formatted, shape_of, text_of};
use alto_top::{Status, boot};
use disk_memory::{MemMachine, SureMachine};
use disk_records::{Console, Disk, Sector, Shape, Tally};
use std::alloc::Global;
use std::test::Fail;

/// What is put in the place of a word of a formatted pack, and the text without its last byte.
struct Row {
    changed: Changed,
    text: &'static str,
}

/// Each reason once, in the order in which they are tested.
const ROWS: [Row; 6] = [
    Row {
        changed: Changed {
            at: 1,
            word: 263,
            number: 9,
        },
        text: "no root: found 8192 65535 0 512 0 1 32768 9",
    },
    Row {
        changed: Changed {
            at: 2,
            word: 12,
            number: 9,
        },
        text: "no descriptor",
    },
    Row {
        changed: Changed {
            at: 2,
            word: 15,
            number: 7,
        },
        text: "hint failed: entry #1 word 15 at 7 wanted #2 v 1 page 0 found 65535 65535 65535 65535 65535 65535 65535 65535",
    },
    Row {
        changed: Changed {
            at: 4,
            word: 259,
            number: 36,
        },
        text: "wrong descriptor length 36",
    },
    Row {
        changed: Changed {
            at: 4,
            word: 3,
            number: 13,
        },
        text: "bad descriptor: word 3 is 13",
    },
    Row {
        changed: Changed {
            at: 4,
            word: 6,
            number: 2,
        },
        text: "pack not clean: mark 2",
    },
];

#[test]
fn one_text_says_why(rt: HostRuntime) -> Result<(), Fail> {
    let alloc = rt.alloc();
    for row in &ROWS {
        let mut sectors = formatted(alloc, shape_of(2)?)?;
        change(&mut sectors, &[row.changed])?;
        let keys = b"make A\n".to_vec(alloc)?;
        let mut machine = SureMachine::new(alloc, shape_of(2)?, sectors, keys)?;
        let mut tally = Tally {
            limit: 7,
            passed: 8,
            all: 9,
        };
        let status = boot(alloc, MOMENT, &mut tally, &mut machine);
        assert!(rt; status == Status::NeedsScavenge);
        let shown = machine.shown(alloc)?;
        assert_eq!(rt; shown.as_slice(), text_of(alloc, row.text)?.as_slice());
        assert!(rt; machine.event_count() == shown.len());
        assert!(rt; machine.read(&mut [0; 8])? == 7, "a key was taken");
        assert!(rt; tally.limit == 7 && tally.passed == 0 && tally.all == 0);
    }
    Ok(())
}

/// How a session over this pack ends in which this call fails: with nothing written, nothing shown, no key taken and none of the session's
/// record writes counted, unless the call comes after those of the session.
fn status_at(alloc: Global, shape: Shape, pack: &[Sector], fails: u64) -> Result<Status, Fail> {
    let keys = b"make A\n".to_vec(alloc)?;
    let mut machine = MemMachine::new(alloc, shape, pack.to_vec(alloc)?, keys)?;
    machine.fail_at(alloc, fails, 0)?;
    let mut tally = Tally {
        limit: 7,
        passed: 8,
        all: 9,
    };
    let status = boot(alloc, MOMENT, &mut tally, &mut machine);
    if status == Status::NeedsScavenge {
        return Ok(status);
    }
    expect(machine.event_count() == 0, "something was done")?;
    expect(machine.read(&mut [0; 8])? == 7, "a key was taken")?;
    expect(tally.passed == 0 && tally.all == 0, "a write is counted")?;
    Ok(status)
}

/// The last call is the one that shows the text, and all before it are sector commands.
#[test]
fn each_call_fails_once(rt: HostRuntime) -> Result<(), Fail> {
    let alloc = rt.alloc();
    let shape = shape_of(2)?;
    for row in &ROWS {
        let mut sectors = formatted(alloc, shape)?;
        change(&mut sectors, &[row.changed])?;
        let mut last = Status::DiskFault;
        for call in 0..100u64 {
            let status = status_at(alloc, shape, &sectors, call)?;
            if status == Status::NeedsScavenge {
                break;
            }
            assert!(rt; last == Status::DiskFault, "{}", row.text);
            last = status;
        }
        assert!(rt; last == Status::DisplayFault, "{}", row.text);
    }
    Ok(())
}
