// Worked rows, each a list of calls on one pack.
use crate::typing::{
    Call, Changed, MOMENT, change, expect, keys_of, labels_in_use, make_call, text_of, words_of,
};
use alto_top::{Status, alto};
use disk_memory::SureMachine;
use disk_records::{Sector, Shape};
use std::alloc::Global;
use std::test::Fail;

/// What is done in a row.
enum Step {
    /// A call.
    Call(Call),
    /// A call of which the last typed line has no byte 10.
    Unended(Call),
    /// A call that writes no record.
    Unwritten(Call),
    /// Words that are put in the place of others.
    Change(&'static [Changed]),
    /// A session of these lines, of which the pack is left as it stood after so many record writes.
    Cut(&'static str, u64),
}

/// The steps of a row on a pack of zeros with so many cylinders a drive.
struct Row {
    name: &'static str,
    disks: u16,
    cylinders: u16,
    steps: &'static [Step],
}

const ROWS: [Row; 22] = [
    Row {
        name: "a formatted pack",
        disks: 1,
        cylinders: 2,
        steps: &[
            Step::Call(Call {
                words: "format 1",
                typed: "",
                shown: "formatted: 43 pages free",
                status: Status::Done,
            }),
            Step::Call(Call {
                words: "boot",
                typed: "free",
                shown: "43 pages free",
                status: Status::Done,
            }),
            Step::Call(Call {
                words: "boot",
                typed: "list",
                shown: "DiskDescriptor.\nSysDir.\n2 entries",
                status: Status::Done,
            }),
            Step::Call(Call {
                words: "show",
                typed: "",
                shown: "0 files",
                status: Status::Done,
            }),
        ],
    },
    Row {
        name: "a large pack",
        disks: 1,
        cylinders: 203,
        steps: &[
            Step::Call(Call {
                words: "format 1",
                typed: "",
                shown: "formatted: 4866 pages free",
                status: Status::Done,
            }),
            Step::Call(Call {
                words: "boot",
                typed: "free",
                shown: "4866 pages free",
                status: Status::Done,
            }),
        ],
    },
    Row {
        name: "a full page forces an empty last page",
        disks: 1,
        cylinders: 2,
        steps: &[
            Step::Call(Call {
                words: "format 1",
                typed: "",
                shown: "formatted: 43 pages free",
                status: Status::Done,
            }),
            Step::Call(Call {
                words: "boot",
                typed: "make A\nappend A 41*512\nfree",
                shown: "made #3\nlength 512\n40 pages free",
                status: Status::Done,
            }),
        ],
    },
    Row {
        name: "no bytes",
        disks: 1,
        cylinders: 2,
        steps: &[
            Step::Call(Call {
                words: "format 1",
                typed: "",
                shown: "formatted: 43 pages free",
                status: Status::Done,
            }),
            Step::Unended(Call {
                words: "boot",
                typed: "make A\nappend A -\ntype A\nfree",
                shown: "made #3\nlength 0\n0 bytes\n41 pages free",
                status: Status::Done,
            }),
        ],
    },
    Row {
        name: "an address of another page",
        disks: 1,
        cylinders: 2,
        steps: &[
            Step::Call(Call {
                words: "format 1",
                typed: "",
                shown: "formatted: 43 pages free",
                status: Status::Done,
            }),
            Step::Call(Call {
                words: "boot",
                typed: "make A",
                shown: "made #3",
                status: Status::Done,
            }),
            Step::Change(&[Changed {
                at: 2,
                word: 29,
                number: 6,
            }]),
            Step::Call(Call {
                words: "boot",
                typed: "type A\nfree",
                shown: "hint failed: entry #1 word 29 at 6 wanted #3 v 1 page 0 found 65535 20480 0 0 1 1 0 3\nneeds scavenging",
                status: Status::NeedsScavenge,
            }),
        ],
    },
    Row {
        name: "all busy",
        disks: 1,
        cylinders: 2,
        steps: &[
            Step::Call(Call {
                words: "format 1",
                typed: "",
                shown: "formatted: 43 pages free",
                status: Status::Done,
            }),
            Step::Change(&[
                Changed {
                    at: 4,
                    word: 16,
                    number: 65535,
                },
                Changed {
                    at: 4,
                    word: 17,
                    number: 65535,
                },
                Changed {
                    at: 4,
                    word: 18,
                    number: 65535,
                },
            ]),
            Step::Call(Call {
                words: "boot",
                typed: "make B",
                shown: "made #3",
                status: Status::Done,
            }),
        ],
    },
    Row {
        name: "all free",
        disks: 1,
        cylinders: 2,
        steps: &[
            Step::Call(Call {
                words: "format 1",
                typed: "",
                shown: "formatted: 43 pages free",
                status: Status::Done,
            }),
            Step::Change(&[
                Changed {
                    at: 4,
                    word: 16,
                    number: 0,
                },
                Changed {
                    at: 4,
                    word: 17,
                    number: 0,
                },
                Changed {
                    at: 4,
                    word: 18,
                    number: 0,
                },
            ]),
            Step::Call(Call {
                words: "boot",
                typed: "make B",
                shown: "made #3",
                status: Status::Done,
            }),
            Step::Call(Call {
                words: "show",
                typed: "",
                shown: "SysDir>B. length 0\n1 files",
                status: Status::Done,
            }),
        ],
    },
    Row {
        name: "a full pack",
        disks: 1,
        cylinders: 2,
        steps: &[
            Step::Call(Call {
                words: "format 1",
                typed: "",
                shown: "formatted: 43 pages free",
                status: Status::Done,
            }),
            Step::Call(Call {
                words: "boot",
                typed: "make A\nappend A 41*2000\nappend A 41*2000\nappend A 41*2000\nappend A 41*2000\nappend A 41*2000\nappend A 41*2000\nappend A 41*2000\nappend A 41*2000\nappend A 41*2000\nappend A 41*2000\nappend A 41*480\nfree\nmake C",
                shown: "made #3\nlength 2000\nlength 4000\nlength 6000\nlength 8000\nlength 10000\nlength 12000\nlength 14000\nlength 16000\nlength 18000\nlength 20000\nlength 20480\n1 pages free\nfull: needed 2 free 1",
                status: Status::Done,
            }),
            Step::Unwritten(Call {
                words: "boot",
                typed: "make C",
                shown: "full: needed 2 free 1",
                status: Status::Done,
            }),
        ],
    },
    Row {
        name: "an open mark",
        disks: 1,
        cylinders: 2,
        steps: &[
            Step::Call(Call {
                words: "format 1",
                typed: "",
                shown: "formatted: 43 pages free",
                status: Status::Done,
            }),
            Step::Cut("make A", 7),
            Step::Unwritten(Call {
                words: "boot",
                typed: "free",
                shown: "pack not clean: mark 2",
                status: Status::NeedsScavenge,
            }),
        ],
    },
    Row {
        name: "the mark is opened once in a session",
        disks: 1,
        cylinders: 2,
        steps: &[
            Step::Call(Call {
                words: "format 1",
                typed: "",
                shown: "formatted: 43 pages free",
                status: Status::Done,
            }),
            Step::Call(Call {
                words: "boot",
                typed: "make A\nappend A 4142",
                shown: "made #3\nlength 2",
                status: Status::Done,
            }),
            // the mark, and then one value for each line
            Step::Cut("patch A 0 43\npatch A 1 44", 3),
            Step::Call(Call {
                words: "scavenge",
                typed: "",
                shown: "scavenged: files 3, freed 0, bad 0, adopted 0",
                status: Status::Done,
            }),
            Step::Call(Call {
                words: "boot",
                typed: "type A",
                shown: "4344\n2 bytes",
                status: Status::Done,
            }),
        ],
    },
    Row {
        name: "a cut past the end",
        disks: 1,
        cylinders: 2,
        steps: &[
            Step::Call(Call {
                words: "format 1",
                typed: "",
                shown: "formatted: 43 pages free",
                status: Status::Done,
            }),
            Step::Call(Call {
                words: "boot",
                typed: "make A\nappend A 41*512",
                shown: "made #3\nlength 512",
                status: Status::Done,
            }),
            Step::Call(Call {
                words: "boot",
                typed: "cut A 1000",
                shown: "beyond length 512",
                status: Status::Done,
            }),
        ],
    },
    Row {
        name: "a patch",
        disks: 1,
        cylinders: 2,
        steps: &[
            Step::Call(Call {
                words: "format 1",
                typed: "",
                shown: "formatted: 43 pages free",
                status: Status::Done,
            }),
            Step::Call(Call {
                words: "boot",
                typed: "make A\nappend A 4142434445",
                shown: "made #3\nlength 5",
                status: Status::Done,
            }),
            // the mark is written first, alone, and then the value of the file's page: not the value ahead of the mark
            Step::Cut("patch A 1 4343", 1),
            Step::Unwritten(Call {
                words: "boot",
                typed: "free",
                shown: "pack not clean: mark 2",
                status: Status::NeedsScavenge,
            }),
            Step::Call(Call {
                words: "scavenge",
                typed: "",
                shown: "scavenged: files 3, freed 0, bad 0, adopted 0",
                status: Status::Done,
            }),
            Step::Call(Call {
                words: "boot",
                typed: "type A",
                shown: "4142434445\n5 bytes",
                status: Status::Done,
            }),
            Step::Cut("patch A 1 4343", 2),
            Step::Call(Call {
                words: "scavenge",
                typed: "",
                shown: "scavenged: files 3, freed 0, bad 0, adopted 0",
                status: Status::Done,
            }),
            Step::Call(Call {
                words: "boot",
                typed: "type A",
                shown: "4143434445\n5 bytes",
                status: Status::Done,
            }),
            Step::Call(Call {
                words: "boot",
                typed: "patch #3 1 4242\ntype A\npatch A 4 4242",
                shown: "done\n4142424445\n5 bytes\nbeyond length 5",
                status: Status::Done,
            }),
            Step::Unwritten(Call {
                words: "boot",
                typed: "patch #4 0 00\npatch #2 0 00\npatch #3 0 -\npatch #3 6 -",
                shown: "no such name\nsystem file\ndone\nbeyond length 5",
                status: Status::Done,
            }),
        ],
    },
    Row {
        name: "refusals",
        disks: 1,
        cylinders: 2,
        steps: &[
            Step::Call(Call {
                words: "format 1",
                typed: "",
                shown: "formatted: 43 pages free",
                status: Status::Done,
            }),
            Step::Call(Call {
                words: "boot",
                typed: "make A\nappend A 0102\nstat A\nmake a\ntype SysDir\ntype DiskDescriptor\nmake Z>Q\nlist A",
                shown: "made #3\nlength 2\n#3 length 2 pages 2 created 1000 written 1000 read 1000 name A.\nmade #4\nis a directory\nsystem file\nno such name\nnot a directory",
                status: Status::Done,
            }),
            Step::Call(Call {
                words: "show",
                typed: "",
                shown: "SysDir>A. length 2\nSysDir>a!2. length 0\n2 files",
                status: Status::Done,
            }),
        ],
    },
    Row {
        name: "nothing typed",
        disks: 1,
        cylinders: 2,
        steps: &[
            Step::Call(Call {
                words: "format 1",
                typed: "",
                shown: "formatted: 43 pages free",
                status: Status::Done,
            }),
            Step::Unwritten(Call {
                words: "boot",
                typed: "",
                shown: "",
                status: Status::Done,
            }),
        ],
    },
    Row {
        name: "bad lines",
        disks: 1,
        cylinders: 2,
        steps: &[
            Step::Call(Call {
                words: "format 1",
                typed: "",
                shown: "formatted: 43 pages free",
                status: Status::Done,
            }),
            Step::Unwritten(Call {
                words: "boot",
                typed: "Free\n\nfree  \nx*4097",
                shown: "bad line\nbad line\nbad line\nbad line",
                status: Status::Done,
            }),
        ],
    },
    Row {
        name: "versions",
        disks: 1,
        cylinders: 2,
        steps: &[
            Step::Call(Call {
                words: "format 1",
                typed: "",
                shown: "formatted: 43 pages free",
                status: Status::Done,
            }),
            Step::Call(Call {
                words: "boot",
                typed: "make A\nappend A 01\nmake A\nappend A 0202\nlist\ntype A!1\ndelete A\nstat A\nmake A!1\nmake A!0\nmake A!02\nmkdir D!2\nmake SysDir",
                shown: "made #3\nlength 1\nmade #4\nlength 2\nA.\nA!2.\nDiskDescriptor.\nSysDir.\n4 entries\n01\n1 bytes\ndone\n#3 length 1 pages 2 created 1000 written 1000 read 1000 name A.\nname taken\nbad line\nbad line\nbad line\nname taken",
                status: Status::Done,
            }),
        ],
    },
    Row {
        name: "a quit, and keys after it",
        disks: 1,
        cylinders: 2,
        steps: &[
            Step::Call(Call {
                words: "format 1",
                typed: "",
                shown: "formatted: 43 pages free",
                status: Status::Done,
            }),
            Step::Call(Call {
                words: "boot",
                typed: "make A\nquit\nmake B",
                shown: "made #3\ndone",
                status: Status::Done,
            }),
            Step::Call(Call {
                words: "show",
                typed: "",
                shown: "SysDir>A. length 0\n1 files",
                status: Status::Done,
            }),
        ],
    },
    Row {
        name: "a quit in need",
        disks: 1,
        cylinders: 2,
        steps: &[
            Step::Call(Call {
                words: "format 1",
                typed: "",
                shown: "formatted: 43 pages free",
                status: Status::Done,
            }),
            Step::Call(Call {
                words: "boot",
                typed: "make A",
                shown: "made #3",
                status: Status::Done,
            }),
            Step::Change(&[Changed {
                at: 2,
                word: 29,
                number: 6,
            }]),
            Step::Unwritten(Call {
                words: "boot",
                typed: "type A\nsettime 5\nscavenge\n\nmake B\nquit",
                shown: "hint failed: entry #1 word 29 at 6 wanted #3 v 1 page 0 found 65535 20480 0 0 1 1 0 3\nneeds scavenging\nbad line\nbad line\nneeds scavenging\ndone",
                status: Status::NeedsScavenge,
            }),
        ],
    },
    Row {
        name: "no link",
        disks: 1,
        cylinders: 2,
        steps: &[
            Step::Call(Call {
                words: "format 1",
                typed: "",
                shown: "formatted: 43 pages free",
                status: Status::Done,
            }),
            Step::Call(Call {
                words: "boot",
                typed: "make A\nappend A 11*600",
                shown: "made #3\nlength 600",
                status: Status::Done,
            }),
            Step::Change(&[
                Changed {
                    at: 5,
                    word: 256,
                    number: 65535,
                },
                Changed {
                    at: 5,
                    word: 257,
                    number: 65535,
                },
                Changed {
                    at: 6,
                    word: 256,
                    number: 65535,
                },
                Changed {
                    at: 6,
                    word: 257,
                    number: 65535,
                },
                Changed {
                    at: 7,
                    word: 256,
                    number: 65535,
                },
                Changed {
                    at: 7,
                    word: 257,
                    number: 65535,
                },
            ]),
            Step::Unwritten(Call {
                words: "boot",
                typed: "type A",
                shown: "hint failed: next of 5 at 65535 wanted #3 v 1 page 1 found none",
                status: Status::NeedsScavenge,
            }),
            Step::Unwritten(Call {
                words: "boot",
                typed: "free",
                shown: "40 pages free",
                status: Status::Done,
            }),
        ],
    },
    Row {
        name: "a drop that breaks off",
        disks: 1,
        cylinders: 2,
        steps: &[
            Step::Call(Call {
                words: "format 1",
                typed: "",
                shown: "formatted: 43 pages free",
                status: Status::Done,
            }),
            Step::Call(Call {
                words: "boot",
                typed: "make A",
                shown: "made #3",
                status: Status::Done,
            }),
            Step::Change(&[Changed {
                at: 5,
                word: 256,
                number: 65535,
            }]),
            Step::Call(Call {
                words: "boot",
                typed: "delete A\nfree\nquit",
                shown: "hint failed: next of 5 at 65535 wanted #3 v 1 page 1 found none\nneeds scavenging\ndone",
                status: Status::NeedsScavenge,
            }),
            Step::Unwritten(Call {
                words: "boot",
                typed: "free",
                shown: "pack not clean: mark 2",
                status: Status::NeedsScavenge,
            }),
            Step::Unwritten(Call {
                words: "show",
                typed: "",
                shown: "0 files",
                status: Status::Done,
            }),
        ],
    },
    Row {
        name: "other words",
        disks: 1,
        cylinders: 2,
        steps: &[Step::Call(Call {
            words: "halt",
            typed: "",
            shown: "usage",
            status: Status::Usage,
        })],
    },
    Row {
        name: "a full page on two drives",
        disks: 2,
        cylinders: 2,
        steps: &[
            Step::Call(Call {
                words: "format 1",
                typed: "",
                shown: "formatted: 91 pages free",
                status: Status::Done,
            }),
            Step::Call(Call {
                words: "boot",
                typed: "make A\nappend A 41*512\nfree",
                shown: "made #3\nlength 512\n88 pages free",
                status: Status::Done,
            }),
        ],
    },
];

/// Makes a call with these keys, and answers how many records it writes. The message of a failure is the row's name.
fn call(
    alloc: Global,
    name: &'static str,
    shape: Shape,
    pack: &mut Vec<Sector>,
    asked: &Call,
    keys: Vec<u8>,
) -> Result<u64, Fail> {
    let said = make_call(alloc, shape, pack, asked.words, keys)?;
    expect(said.status == asked.status, name)?;
    expect(
        said.shown.as_slice() == text_of(alloc, asked.shown)?.as_slice(),
        name,
    )?;
    Ok(said.writes)
}

/// The pack after so many record writes of a session of these lines.
fn cut(
    alloc: Global,
    shape: Shape,
    pack: &[Sector],
    typed: &str,
    writes: u64,
) -> Result<Vec<Sector>, Fail> {
    let mut machine = SureMachine::new(alloc, shape, pack.to_vec(alloc)?, keys_of(alloc, typed)?)?;
    alto(alloc, &words_of(alloc, "boot")?, MOMENT, &mut machine);
    let count = machine.place_of_write(writes).min(machine.event_count());
    Ok(machine.cut(alloc, count)?.into_sectors())
}

/// Does a step of a row.
fn take(
    alloc: Global,
    name: &'static str,
    shape: Shape,
    pack: &mut Vec<Sector>,
    step: &Step,
) -> Result<(), Fail> {
    match step {
        Step::Call(asked) => {
            call(
                alloc,
                name,
                shape,
                pack,
                asked,
                keys_of(alloc, asked.typed)?,
            )?;
        }
        Step::Unended(asked) => {
            let mut keys = keys_of(alloc, asked.typed)?;
            keys.pop();
            call(alloc, name, shape, pack, asked, keys)?;
        }
        Step::Unwritten(asked) => {
            let writes = call(
                alloc,
                name,
                shape,
                pack,
                asked,
                keys_of(alloc, asked.typed)?,
            )?;
            expect(writes == 0, name)?;
        }
        Step::Change(words) => change(pack, words)?,
        Step::Cut(typed, writes) => *pack = cut(alloc, shape, pack, typed, *writes)?,
    }
    Ok(())
}

/// Goes through the steps of a row. Once the pack is formatted, no page in use loses its sector to another.
fn run(alloc: Global, row: &Row) -> Result<(), Fail> {
    let shape = Shape::new(row.disks, row.cylinders).ok_or("no shape")?;
    let mut pack = vec![in alloc; Sector::ZEROS; shape.pages() as usize]?;
    let mut labels = None;
    for step in row.steps {
        take(alloc, row.name, shape, &mut pack, step)?;
        let now = labels_in_use(&pack);
        expect(labels.unwrap_or(now) == now, row.name)?;
        labels = Some(now);
    }
    Ok(())
}

#[test]
fn worked_rows(rt: HostRuntime) -> Result<(), Fail> {
    for row in &ROWS {
        run(rt.alloc(), row)?;
    }
    Ok(())
}
