// Worked rows, each a list of calls on one pack.
use crate::calling::{ANYTHING, Call, NEVER, check_call, expect, machine_over, pack_at, run};
use crate::damaging::{Damage, damage_pack, zeros};
use alto_top::Status;
use disk_records::{Sector, Shape};
use std::alloc::Global;
use std::test::Fail;

/// What is done in a row.
enum Step {
    /// A call.
    Call(Call),
    /// The last call is looked at again: it wrote so many records.
    Wrote(u64),
    /// Damages that are done by hand.
    Damage(&'static [Damage]),
    /// A call of these words with these typed lines, of which the pack is left as it stood after so many record writes.
    Cut(&'static str, &'static str, u64),
    /// A second drive of zeros is put beside the first.
    Second,
}

/// The steps of a row on a pack of zeros, one drive with so many cylinders.
struct Row {
    name: &'static str,
    cylinders: u16,
    steps: &'static [Step],
}

const SMALL: Step = Step::Call(Call {
    words: "format 1",
    typed: "",
    shown: "formatted: 43 pages free",
    status: Status::Done,
});

const MADE: Step = Step::Call(Call {
    words: "boot",
    typed: "make A",
    shown: "made #3",
    status: Status::Done,
});

/// Five files come, each with 131,076 bytes.
const FIVE_FILES: &str = "\
    make Alpha\n\
    append Alpha 41*2000^65\n\
    append Alpha 41*1076\n\
    make Beta\n\
    append Beta 41*2000^65\n\
    append Beta 41*1076\n\
    make Gamma\n\
    append Gamma 41*2000^65\n\
    append Gamma 41*1076\n\
    make Delta\n\
    append Delta 41*2000^65\n\
    append Delta 41*1076\n\
    make Omega\n\
    append Omega 41*2000^65\n\
    append Omega 41*1076\n\
    quit";

static ROWS: [Row; 12] = [
    Row {
        name: "a pack of zeros",
        cylinders: 2,
        steps: &[
            Step::Call(Call {
                words: "scavenge",
                typed: "",
                shown: "root bad: 0 0",
                status: Status::CannotScavenge,
            }),
            Step::Wrote(0),
        ],
    },
    Row {
        name: "the sector of SysDir's leader page is in use",
        cylinders: 2,
        steps: &[
            SMALL,
            Step::Call(Call {
                words: "boot",
                typed: "make A\nappend A 4142434445",
                shown: "made #3\nlength 5",
                status: Status::Done,
            }),
            Step::Damage(&[Damage::Copy(6, 1)]),
            Step::Call(Call {
                words: "scavenge",
                typed: "",
                shown: "root taken: 65535 20480 0 5 1 1 0 3",
                status: Status::CannotScavenge,
            }),
            Step::Wrote(0),
        ],
    },
    Row {
        name: "a full pack with two bad sectors",
        cylinders: 2,
        steps: &[
            SMALL,
            Step::Call(Call {
                words: "boot",
                typed: "make A\nappend A 41*2000\nappend A 41*2000\nappend A 41*2000\nappend A 41*2000\nappend A 41*2000\nappend A 41*2000\nappend A 41*2000\nappend A 41*2000\nappend A 41*2000\nappend A 41*2000\nappend A 41*480\nfree",
                shown: "made #3\nlength 2000\nlength 4000\nlength 6000\nlength 8000\nlength 10000\nlength 12000\nlength 14000\nlength 16000\nlength 18000\nlength 20000\nlength 20480\n1 pages free",
                status: Status::Done,
            }),
            Step::Damage(&[
                Damage::Free(1),
                Damage::Header(2, 1, 0),
                Damage::Header(47, 1, 0),
            ]),
            Step::Call(Call {
                words: "scavenge",
                typed: "",
                shown: "pack full: needed 2 free 1",
                status: Status::CannotScavenge,
            }),
            Step::Wrote(0),
        ],
    },
    Row {
        name: "a make that was stopped after its file was there",
        cylinders: 2,
        steps: &[
            SMALL,
            Step::Cut("boot", "make A\nquit", 7),
            Step::Call(Call {
                words: "boot",
                typed: "free",
                shown: "pack not clean: mark 2",
                status: Status::NeedsScavenge,
            }),
            Step::Wrote(0),
            Step::Call(Call {
                words: "scavenge",
                typed: "",
                shown: "scavenged: files 3, freed 0, bad 0, adopted 1",
                status: Status::Done,
            }),
            Step::Call(Call {
                words: "show",
                typed: "",
                shown: "SysDir>A. length 0\n1 files",
                status: Status::Done,
            }),
        ],
    },
    Row {
        name: "a make that was stopped before its file was there",
        cylinders: 2,
        steps: &[
            SMALL,
            Step::Cut("boot", "make A\nquit", 6),
            Step::Call(Call {
                words: "scavenge",
                typed: "",
                shown: "scavenged: files 2, freed 1, bad 0, adopted 0",
                status: Status::Done,
            }),
            Step::Call(Call {
                words: "show",
                typed: "",
                shown: "0 files",
                status: Status::Done,
            }),
        ],
    },
    Row {
        name: "a delete that was stopped after its file was gone",
        cylinders: 2,
        steps: &[
            SMALL,
            MADE,
            Step::Cut("boot", "delete A", 2),
            Step::Call(Call {
                words: "scavenge",
                typed: "",
                shown: "scavenged: files 2, freed 1, bad 0, adopted 0",
                status: Status::Done,
            }),
            Step::Call(Call {
                words: "show",
                typed: "",
                shown: "0 files",
                status: Status::Done,
            }),
        ],
    },
    Row {
        name: "an append that was stopped before its bytes counted",
        cylinders: 2,
        steps: &[
            SMALL,
            MADE,
            Step::Cut("boot", "append A 41*1200", 8),
            Step::Call(Call {
                words: "scavenge",
                typed: "",
                shown: "scavenged: files 3, freed 2, bad 0, adopted 0",
                status: Status::Done,
            }),
            Step::Call(Call {
                words: "show",
                typed: "",
                shown: "SysDir>A. length 0\n1 files",
                status: Status::Done,
            }),
        ],
    },
    Row {
        name: "an append that was stopped after its bytes counted",
        cylinders: 2,
        steps: &[
            SMALL,
            MADE,
            Step::Cut("boot", "append A 41*1200", 9),
            Step::Call(Call {
                words: "scavenge",
                typed: "",
                shown: "scavenged: files 3, freed 0, bad 0, adopted 0",
                status: Status::Done,
            }),
            Step::Call(Call {
                words: "show",
                typed: "",
                shown: "SysDir>A. length 1200\n1 files",
                status: Status::Done,
            }),
        ],
    },
    Row {
        name: "a pack moves to two drives",
        cylinders: 203,
        steps: &[
            Step::Call(Call {
                words: "format 1",
                typed: "",
                shown: "formatted: 4866 pages free",
                status: Status::Done,
            }),
            MADE,
            Step::Second,
            Step::Call(Call {
                words: "boot",
                typed: "free",
                shown: "wrong descriptor length 642",
                status: Status::NeedsScavenge,
            }),
            Step::Wrote(0),
            Step::Call(Call {
                words: "prepare 1",
                typed: "",
                shown: "prepared: 4872 pages",
                status: Status::Done,
            }),
            Step::Call(Call {
                words: "scavenge",
                typed: "",
                shown: "scavenged: files 3, freed 0, bad 0, adopted 0",
                status: Status::Done,
            }),
            Step::Call(Call {
                words: "boot",
                typed: "free",
                shown: "9735 pages free",
                status: Status::Done,
            }),
        ],
    },
    Row {
        name: "five files whose pages are rows of two windows",
        cylinders: 203,
        steps: &[
            Step::Call(Call {
                words: "format 1",
                typed: "",
                shown: "formatted: 4866 pages free",
                status: Status::Done,
            }),
            Step::Call(Call {
                words: "boot",
                typed: FIVE_FILES,
                shown: ANYTHING,
                status: Status::Done,
            }),
            Step::Call(Call {
                words: "scavenge",
                typed: "",
                shown: "scavenged: files 7, freed 0, bad 0, adopted 0",
                status: Status::Done,
            }),
            Step::Call(Call {
                words: "boot",
                typed: "free",
                shown: "3576 pages free",
                status: Status::Done,
            }),
        ],
    },
    // one record write opens the mark, three claim SysDir's new page, two give the page before it its label with its value, one enters A, and
    // one writes DiskDescriptor
    Row {
        name: "the words that count in a longer SysDir stand there already",
        cylinders: 2,
        steps: &[
            SMALL,
            MADE,
            Step::Damage(&[
                Damage::Label(2, 3, 48),
                Damage::Value(2, 24, 256),
                Damage::Value(2, 26, 0),
                Damage::Value(2, 27, 0),
                Damage::Value(2, 29, 0),
                Damage::Value(2, 30, 0),
                Damage::Value(2, 31, 0),
                Damage::Value(2, 32, 0),
            ]),
            Step::Call(Call {
                words: "scavenge",
                typed: "",
                shown: "scavenged: files 3, freed 0, bad 0, adopted 1",
                status: Status::Done,
            }),
            Step::Wrote(8),
        ],
    },
    Row {
        name: "other words",
        cylinders: 2,
        steps: &[
            SMALL,
            Step::Call(Call {
                words: "scavenge 1",
                typed: "",
                shown: "usage",
                status: Status::Usage,
            }),
            Step::Wrote(0),
            Step::Call(Call {
                words: "Scavenge",
                typed: "",
                shown: "usage",
                status: Status::Usage,
            }),
            Step::Wrote(0),
        ],
    },
];

/// The pack of a row, its shape, and how many records the last call wrote.
#[derive(Drop)]
struct Stand {
    shape: Shape,
    pack: Vec<Sector>,
    wrote: u64,
}

/// Puts a second drive of zeros beside the first. Answers whether memory is left.
fn put_second(stand: &mut Stand) -> bool {
    let Some(shape) = Shape::new(2, stand.shape.cylinders()) else {
        return false;
    };
    stand.shape = shape;
    let count = usize::from(shape.pages());
    stand.pack.resize(count, Sector::ZEROS).is_ok()
}

/// Leaves of a call the pack as it stood after so many of its record writes. None if no memory is left.
fn cut_call(
    alloc: Global,
    shape: Shape,
    pack: &[Sector],
    words: &str,
    typed: &str,
    writes: u64,
) -> Option<Vec<Sector>> {
    let mut machine = machine_over(alloc, shape, pack, typed, NEVER, 0)?;
    run(alloc, words, &mut machine);
    pack_at(alloc, &machine, machine.place_of_write(writes))
}

/// Does a step of a row. Answers whether it goes as it has to.
fn take(alloc: Global, stand: &mut Stand, step: &Step) -> bool {
    match step {
        Step::Call(call) => match check_call(alloc, stand.shape, &mut stand.pack, call) {
            Some(wrote) => {
                stand.wrote = wrote;
                true
            }
            None => false,
        },
        Step::Wrote(writes) => stand.wrote == *writes,
        Step::Damage(damages) => damage_pack(&mut stand.pack, damages),
        Step::Cut(words, typed, writes) => {
            match cut_call(alloc, stand.shape, &stand.pack, words, typed, *writes) {
                Some(left) => {
                    stand.pack = left;
                    true
                }
                None => false,
            }
        }
        Step::Second => put_second(stand),
    }
}

/// Does steps one after another.
fn take_all(alloc: Global, stand: &mut Stand, steps: &[Step]) -> bool {
    for step in steps {
        if !take(alloc, stand, step) {
            return false;
        }
    }
    true
}

/// Does a row.
fn passes(alloc: Global, row: &Row) -> bool {
    let Some(shape) = Shape::new(1, row.cylinders) else {
        return false;
    };
    let Some(pack) = zeros(alloc, shape) else {
        return false;
    };
    let mut stand = Stand {
        shape,
        pack,
        wrote: 0,
    };
    take_all(alloc, &mut stand, row.steps)
}

#[test]
fn worked_rows(rt: HostRuntime) -> Result<(), Fail> {
    for row in &ROWS {
        expect(passes(rt.alloc(), row), row.name)?;
    }
    Ok(())
}
