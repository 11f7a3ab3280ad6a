// How many sector commands lines take on a pack of 203 cylinders, which has 4,872 sectors.
ghost use Rattle.disk_records.specs.declared.shape.Shape.{Shape};
ghost use Rattle.exec_session.specs.Meant.{kept};
ghost use Rattle.session_model.specs.Keeping.{Formed};

use crate::packs::formatted;
use crate::rows::{NOTHING, Row, run};
use crate::talk::{ANY, begin, expect, talk};
use disk_records::{Sector, Shape};
use executive::Session;
use std::alloc::Global;
use std::test::Fail;

/// A file of 20,480 bytes is made.
const MADE: &str = "make A\n\
    append A 41*2000\n\
    append A 41*2000\n\
    append A 41*2000\n\
    append A 41*2000\n\
    append A 41*2000\n\
    append A 41*2000\n\
    append A 41*2000\n\
    append A 41*2000\n\
    append A 41*2000\n\
    append A 41*2000\n\
    append A 41*480";

/// It is typed: one command for the data page of SysDir, one for each 512 bytes, and eight more.
const TYPED: u64 = 1 + 40 + 8;

/// 2,000 bytes come after its last one: one command for the data page of SysDir, three for each of three pages, and 24 more.
const GROWN: u64 = 1 + 9 + 24;

/// What is shown of it is 640 lines of 32 bytes.
const SHOWN_LINE: &[u8] = b"4141414141414141414141414141414141414141414141414141414141414141\n";

/// Fewer commands than a sweep of all labels takes.
const NO_SWEEP: u64 = 4870;

/// Each line that isn't `free`, that names no serial, and that isn't refused since the pack is full.
const LINES: Row = Row {
    name: "no sweep of all labels",
    cylinders: 203,
    earlier: "",
    changed: NOTHING,
    typed: "make A\n\
        append A 41*600\n\
        patch A 500 42*100\n\
        cut A 2\n\
        cut A 2\n\
        cut A 3\n\
        type A\n\
        stat A\n\
        mkdir D\n\
        copy A D>B\n\
        copy A D\n\
        rename D>B C\n\
        rename D>B C\n\
        make D>X\n\
        rmdir D\n\
        delete D>X\n\
        list D\n\
        rmdir D\n\
        type D>X\n\
        list\n\
        rmdir SysDir\n\
        delete SysDir\n\
        settime 2000\n\
        block 100\n\
        store 1025 7\n\
        fetch 1025\n\
        unblock 1025\n\
        junta 5\n\
        counterjunta\n\
        append C 43\n\
        stat C\n\
        quit",
    shown: "made #3\n\
        length 600\n\
        done\n\
        length 2\n\
        length 2\n\
        beyond length 2\n\
        4141\n\
        2 bytes\n\
        #3 length 2 pages 2 created 1000 written 1000 read 1000 name A.\n\
        made #4\n\
        made #5\n\
        name taken\n\
        done\n\
        no such name\n\
        made #6\n\
        not empty\n\
        done\n\
        0 entries\n\
        done\n\
        no such name\n\
        A.\n\
        C.\n\
        DiskDescriptor.\n\
        SysDir.\n\
        4 entries\n\
        system file\n\
        is a directory\n\
        done\n\
        at 1025\n\
        done\n\
        7\n\
        done\n\
        level 5\n\
        level 8\n\
        length 3\n\
        #5 length 3 pages 2 created 1000 written 2000 read 1000 name C.\n\
        done",
    most: NO_SWEEP,
    stays: false,
};

/// Whether this is what is shown as a long file is typed and grows: the lines of its bytes, their number, and the length.
fn is_long_text(shown: &[u8]) -> bool {
    let mut rest = shown;
    for _ in 0..640 {
        let Some(more) = rest.strip_prefix(SHOWN_LINE) else {
            return false;
        };
        rest = more;
    }
    rest == b"20480 bytes\nlength 22480\n".as_slice()
}

/// Makes the long file, and puts after a text what is shown as it is typed and grows.
fn long_file(
    alloc: Global,
    shape: Shape,
    pack: &mut Vec<Sector>,
    session: &mut Session,
    shown: &mut Vec<u8>,
) -> Result<(), Fail>
    requires formed { Formed shape (kept session.old) }
{
    talk(alloc, shape, pack, session, MADE, ANY, shown)?;
    shown.clear();
    talk(alloc, shape, pack, session, "type A", TYPED, shown)?;
    talk(
        alloc,
        shape,
        pack,
        session,
        "append A 42*2000",
        GROWN,
        shown,
    )
}

#[test]
fn few_for_a_long_file(rt: HostRuntime) -> Result<(), Fail> {
    let alloc = rt.alloc();
    let Some(shape) = Shape::new(1, 203) else {
        return Err(Fail::new("no shape"));
    };
    let Some(mut pack) = formatted(alloc, shape) else {
        return Err(Fail::new("no pack"));
    };
    let Some(mut session) = begin(alloc, shape, &pack) else {
        return Err(Fail::new("no session"));
    };
    let mut shown = Vec::new(alloc);
    long_file(alloc, shape, &mut pack, &mut session, &mut shown)?;
    expect(is_long_text(&shown), "another text")
}

#[test]
fn no_sweep_of_all_labels(rt: HostRuntime) -> Result<(), Fail> {
    let alloc = rt.alloc();
    run(alloc, &LINES, &mut Vec::new(alloc))
}
