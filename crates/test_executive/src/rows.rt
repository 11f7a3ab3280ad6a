// Worked rows: what is shown in one session on a formatted pack, after an earlier one and words that are others.
use crate::packs::{Changed, change, formatted, labels_in_use};
use crate::talk::{ANY, begin, earlier_session, expect, talk};
use disk_records::{Sector, Shape};
use std::alloc::Global;
use std::test::Fail;

/// Lines of an earlier session, words that are others after it, and the lines of the session, each of which takes at most so many sector
/// commands, with the texts that are shown of them, all without the last byte 10; and whether the labels of the pages that a formatted pack of
/// 48 sectors uses stay.
pub(crate) struct Row {
    pub name: &'static str,
    pub cylinders: u16,
    pub earlier: &'static str,
    pub changed: Changed,
    pub typed: &'static str,
    pub shown: &'static str,
    pub most: u64,
    pub stays: bool,
}

const ROWS: [Row; 25] = [
    Row {
        name: "free pages of a large pack",
        cylinders: 203,
        earlier: "",
        changed: NOTHING,
        typed: "free",
        shown: "4866 pages free",
        most: ANY,
        stays: true,
    },
    Row {
        name: "a full page forces an empty last page",
        cylinders: 2,
        earlier: "",
        changed: NOTHING,
        typed: "make A\nappend A 41*512\nfree",
        shown: "made #3\nlength 512\n40 pages free",
        most: ANY,
        stays: true,
    },
    Row {
        name: "no bytes",
        cylinders: 2,
        earlier: "",
        changed: NOTHING,
        typed: "make A\nappend A -\ntype A\nfree",
        shown: "made #3\nlength 0\n0 bytes\n41 pages free",
        most: ANY,
        stays: true,
    },
    Row {
        name: "the address of an entry is that of another page",
        cylinders: 2,
        earlier: "make A",
        changed: ELSEWHERE,
        typed: "type A\nfree",
        shown: "hint failed: entry #1 word 29 at 6 wanted #3 v 1 page 0 found 65535 20480 0 0 1 1 0 3\n\
            needs scavenging",
        most: ANY,
        stays: true,
    },
    Row {
        name: "a map on which all is busy",
        cylinders: 2,
        earlier: "",
        changed: BUSY,
        typed: "make B",
        shown: "made #3",
        most: ANY,
        stays: true,
    },
    Row {
        name: "a map on which all is free",
        cylinders: 2,
        earlier: "",
        changed: FREE,
        typed: "make B",
        shown: "made #3",
        most: ANY,
        stays: true,
    },
    Row {
        name: "a full pack",
        cylinders: 2,
        earlier: "",
        changed: NOTHING,
        typed: "make A\n\
            append A 41*2000\n\
            append A 41*2000\n\
            append A 41*2000\n\
            append A 41*2000\n\
            append A 41*2000\n\
            append A 41*2000\n\
            append A 41*2000\n\
            append A 41*2000\n\
            append A 41*2000\n\
            append A 41*2000\n\
            append A 41*480\n\
            free\n\
            make C",
        shown: "made #3\n\
            length 2000\n\
            length 4000\n\
            length 6000\n\
            length 8000\n\
            length 10000\n\
            length 12000\n\
            length 14000\n\
            length 16000\n\
            length 18000\n\
            length 20000\n\
            length 20480\n\
            1 pages free\n\
            full: needed 2 free 1",
        most: ANY,
        stays: true,
    },
    Row {
        name: "a cut past the end",
        cylinders: 2,
        earlier: "make A\nappend A 41*512",
        changed: NOTHING,
        typed: "cut A 1000",
        shown: "beyond length 512",
        most: ANY,
        stays: true,
    },
    Row {
        name: "bytes in the place of others",
        cylinders: 2,
        earlier: "make A\nappend A 4142434445",
        changed: NOTHING,
        typed: "patch #3 1 4242\ntype A\npatch A 4 4242",
        shown: "done\n4142424445\n5 bytes\nbeyond length 5",
        most: ANY,
        stays: true,
    },
    Row {
        name: "names of one base, system files, and what is no directory",
        cylinders: 2,
        earlier: "",
        changed: NOTHING,
        typed: "make A\n\
            append A 0102\n\
            stat A\n\
            make a\n\
            type SysDir\n\
            type DiskDescriptor\n\
            make Z>Q\n\
            list A\n\
            list",
        shown: "made #3\n\
            length 2\n\
            #3 length 2 pages 2 created 1000 written 1000 read 1000 name A.\n\
            made #4\n\
            is a directory\n\
            system file\n\
            no such name\n\
            not a directory\n\
            A.\n\
            a!2.\n\
            DiskDescriptor.\n\
            SysDir.\n\
            4 entries",
        most: ANY,
        stays: true,
    },
    Row {
        name: "bad lines",
        cylinders: 2,
        earlier: "",
        changed: NOTHING,
        // the last one has 4,097 bytes
        typed: "Free\n\nfree  \nlist 41*2046",
        shown: "bad line\nbad line\nbad line\nbad line",
        most: ANY,
        stays: true,
    },
    Row {
        name: "versions",
        cylinders: 2,
        earlier: "",
        changed: NOTHING,
        typed: "make A\nappend A 01\nmake A\nappend A 0202\nlist\ntype A!1\ndelete A\nstat A\nmake A!1",
        shown: "made #3\n\
            length 1\n\
            made #4\n\
            length 2\n\
            A.\n\
            A!2.\n\
            DiskDescriptor.\n\
            SysDir.\n\
            4 entries\n\
            01\n\
            1 bytes\n\
            done\n\
            #3 length 1 pages 2 created 1000 written 1000 read 1000 name A.\n\
            name taken",
        most: ANY,
        stays: true,
    },
    Row {
        name: "lines that are refused or only read, before anything is written",
        cylinders: 2,
        earlier: "make A\nappend A 0102",
        changed: NOTHING,
        typed: "type A\n\
            stat A\n\
            list\n\
            free\n\
            type B\n\
            stat DiskDescriptor\n\
            list A\n\
            append SysDir 41\n\
            patch A 2 41\n\
            cut A 3\n\
            copy A A!1\n\
            copy A B>C\n\
            rename A A!1\n\
            rename A A>B\n\
            delete SysDir\n\
            delete A>B\n\
            rmdir A\n\
            rmdir SysDir\n\
            make SysDir\n\
            make A>B\n\
            mkdir A",
        shown: "0102\n\
            2 bytes\n\
            #3 length 2 pages 2 created 1000 written 1000 read 1000 name A.\n\
            A.\n\
            DiskDescriptor.\n\
            SysDir.\n\
            3 entries\n\
            41 pages free\n\
            no such name\n\
            system file\n\
            not a directory\n\
            is a directory\n\
            beyond length 2\n\
            beyond length 2\n\
            name taken\n\
            no such name\n\
            name taken\n\
            not a directory\n\
            is a directory\n\
            no such name\n\
            not a directory\n\
            system file\n\
            name taken\n\
            not a directory\n\
            name taken",
        most: ANY,
        stays: true,
    },
    Row {
        name: "a pack that was full as the session began",
        cylinders: 2,
        earlier: "make A\n\
            append A 41*2000\n\
            append A 41*2000\n\
            append A 41*2000\n\
            append A 41*2000\n\
            append A 41*2000\n\
            append A 41*2000\n\
            append A 41*2000\n\
            append A 41*2000\n\
            append A 41*2000\n\
            append A 41*2000\n\
            append A 41*480",
        changed: NOTHING,
        typed: "make C\nmkdir D\nappend A 41*1024\ncopy A C",
        shown: "full: needed 2 free 1\n\
            full: needed 2 free 1\n\
            full: needed 2 free 1\n\
            full: needed 42 free 1",
        most: ANY,
        stays: true,
    },
    Row {
        name: "new names that can't be given",
        cylinders: 2,
        earlier: "",
        changed: NOTHING,
        typed: "make A!0\nmake A!02\nmkdir D!2\nmake SysDir",
        shown: "bad line\nbad line\nbad line\nname taken",
        most: ANY,
        stays: true,
    },
    Row {
        name: "blocks",
        cylinders: 2,
        earlier: "",
        changed: NOTHING,
        typed: "block 100\n\
            block 40000\n\
            store 1025 7\n\
            fetch 1025\n\
            store 2000 7\n\
            unblock 1025\n\
            unblock 1025",
        shown: "at 1025\n\
            no room: largest 39833\n\
            done\n\
            7\n\
            not a block\n\
            done\n\
            not a block",
        most: 0,
        stays: true,
    },
    Row {
        name: "no line reaches the tag of a block",
        cylinders: 2,
        earlier: "",
        changed: NOTHING,
        typed: "block 1\n\
            block 1\n\
            store 1024 4\n\
            store 1026 5\n\
            fetch 1026\n\
            fetch 1024\n\
            store 1025 65535\n\
            fetch 1025\n\
            fetch 1027\n\
            unblock 1027\n\
            fetch 1025",
        shown: "at 1025\n\
            at 1027\n\
            not a block\n\
            not a block\n\
            not a block\n\
            not a block\n\
            done\n\
            65535\n\
            0\n\
            done\n\
            65535",
        most: 0,
        stays: true,
    },
    Row {
        name: "the lowest free block with room is taken",
        cylinders: 2,
        earlier: "",
        changed: NOTHING,
        typed: "block 20\n\
            block 1\n\
            block 10\n\
            block 1\n\
            unblock 1025\n\
            unblock 1049\n\
            block 10\n\
            block 10\n\
            block 10",
        shown: "at 1025\n\
            at 1047\n\
            at 1049\n\
            at 1061\n\
            done\n\
            done\n\
            at 1025\n\
            at 1049\n\
            at 1063",
        most: 0,
        stays: true,
    },
    Row {
        name: "a level that goes and comes back",
        cylinders: 2,
        earlier: "",
        changed: NOTHING,
        typed: "junta 2\n\
            type A\n\
            block 60000\n\
            counterjunta\n\
            unblock 1025\n\
            counterjunta",
        shown: "level 2\n\
            needs level 5\n\
            at 1025\n\
            in use at 1025\n\
            done\n\
            level 8",
        most: 0,
        stays: true,
    },
    Row {
        name: "words of the user, of the zone, and of the services",
        cylinders: 2,
        earlier: "",
        changed: NOTHING,
        typed: "block 65535\n\
            store 1023 5\n\
            fetch 1023\n\
            store 1024 5\n\
            fetch 1025\n\
            fetch 40960\n\
            block 39935\n\
            store 40959 9\n\
            fetch 40959\n\
            fetch 40960\n\
            block 1",
        shown: "no room: largest 39935\n\
            done\n\
            5\n\
            not a block\n\
            not a block\n\
            not a block\n\
            at 1025\n\
            done\n\
            9\n\
            not a block\n\
            no room: largest 0",
        most: 0,
        stays: true,
    },
    Row {
        name: "blocks join free ones on both sides",
        cylinders: 2,
        earlier: "",
        changed: NOTHING,
        typed: "block 10\n\
            block 10\n\
            block 10\n\
            unblock 1037\n\
            block 12\n\
            unblock 1061\n\
            block 11\n\
            unblock 1037\n\
            unblock 1025\n\
            block 24\n\
            unblock 1061\n\
            block 23\n\
            unblock 1025\n\
            unblock 1049\n\
            block 39935",
        shown: "at 1025\n\
            at 1037\n\
            at 1049\n\
            done\n\
            at 1061\n\
            done\n\
            at 1037\n\
            done\n\
            done\n\
            at 1061\n\
            done\n\
            at 1025\n\
            done\n\
            done\n\
            at 1025",
        most: 0,
        stays: true,
    },
    Row {
        name: "words of a service after a block that is used",
        cylinders: 2,
        earlier: "",
        changed: NOTHING,
        typed: "block 39935\n\
            junta 7\n\
            block 65535\n\
            counterjunta\n\
            junta 7\n\
            block 4095\n\
            junta 6\n\
            block 4095\n\
            counterjunta\n\
            unblock 45057\n\
            unblock 40961\n\
            block 8191\n\
            unblock 40961\n\
            counterjunta",
        shown: "at 1025\n\
            level 7\n\
            no room: largest 4095\n\
            level 8\n\
            level 7\n\
            at 40961\n\
            level 6\n\
            at 45057\n\
            in use at 40961\n\
            done\n\
            done\n\
            at 40961\n\
            done\n\
            level 8",
        most: 0,
        stays: true,
    },
    Row {
        name: "the level is tested before room and blocks",
        cylinders: 2,
        earlier: "",
        changed: NOTHING,
        typed: "junta 5\n\
            junta 7\n\
            junta 1\n\
            settime 5\n\
            free\n\
            block 65535\n\
            unblock 7\n\
            unblock 65536\n\
            store 0 1\n\
            fetch 0\n\
            counterjunta",
        shown: "level 5\n\
            level 5\n\
            level 1\n\
            done\n\
            needs level 3\n\
            needs level 2\n\
            needs level 2\n\
            bad line\n\
            done\n\
            1\n\
            level 8",
        most: 0,
        stays: true,
    },
    Row {
        name: "levels come back in need of a scavenge, too",
        cylinders: 2,
        earlier: "make A",
        changed: ELSEWHERE,
        typed: "junta 5\n\
            block 50000\n\
            type A\n\
            counterjunta\n\
            unblock 1025\n\
            mkdir D\n\
            junta 9\n\
            counterjunta",
        shown: "level 5\n\
            at 1025\n\
            hint failed: entry #1 word 29 at 6 wanted #3 v 1 page 0 found 65535 20480 0 0 1 1 0 3\n\
            in use at 1025\n\
            needs scavenging\n\
            needs scavenging\n\
            bad line\n\
            in use at 1025",
        most: ANY,
        stays: true,
    },
    Row {
        name: "numbers that don't fit",
        cylinders: 2,
        earlier: "",
        changed: NOTHING,
        typed: "block 0\n\
            block 65536\n\
            junta 0\n\
            junta 9\n\
            store 65536 0\n\
            store 0 65536\n\
            fetch 65536\n\
            unblock 65536\n\
            counterjunta 8",
        shown: "bad line\n\
            bad line\n\
            bad line\n\
            bad line\n\
            bad line\n\
            bad line\n\
            bad line\n\
            bad line\n\
            bad line",
        most: 0,
        stays: true,
    },
];

/// No word is another.
pub(crate) const NOTHING: Changed = Changed {
    at: 0,
    from: 0,
    to: 0,
    number: 0,
};

/// The three words of the map of a pack of 48 sectors are all ones.
const BUSY: Changed = Changed {
    at: 4,
    from: 16,
    to: 19,
    number: 0xFFFF,
};

/// The same, all zeros.
const FREE: Changed = Changed {
    at: 4,
    from: 16,
    to: 19,
    number: 0,
};

/// The address in the entry of A in SysDir is 6.
const ELSEWHERE: Changed = Changed {
    at: 2,
    from: 29,
    to: 30,
    number: 6,
};

/// Whether this text and the byte 10 are shown.
fn is_text(shown: &[u8], text: &str) -> bool {
    let Some((last, line)) = shown.split_last() else {
        return false;
    };
    *last == b'\n' && line == text.as_bytes()
}

/// Passes if the sessions of a row show what they are to show, on this pack.
fn take(alloc: Global, shape: Shape, pack: &mut Vec<Sector>, row: &Row) -> Result<(), Fail> {
    earlier_session(alloc, shape, pack, row.earlier)?;
    if !change(pack, &row.changed) {
        return Err(Fail::new("no sector"));
    }
    let Some(mut session) = begin(alloc, shape, pack) else {
        return Err(Fail::new(row.name));
    };
    let mut shown = Vec::new(alloc);
    talk(
        alloc,
        shape,
        pack,
        &mut session,
        row.typed,
        row.most,
        &mut shown,
    )?;
    expect(is_text(&shown, row.shown), row.name)
}

/// Passes if a row holds on a formatted pack, which it leaves in `pack`.
pub(crate) fn run(alloc: Global, row: &Row, pack: &mut Vec<Sector>) -> Result<(), Fail> {
    let Some(shape) = Shape::new(1, row.cylinders) else {
        return Err(Fail::new("no shape"));
    };
    let Some(sectors) = formatted(alloc, shape) else {
        return Err(Fail::new("no pack"));
    };
    *pack = sectors;
    let labels = labels_in_use(pack);
    take(alloc, shape, pack, row)?;
    expect(!row.stays || labels_in_use(pack) == labels, row.name)
}

#[test]
fn worked_rows(rt: HostRuntime) -> Result<(), Fail> {
    let mut pack = Vec::new(rt.alloc());
    for row in &ROWS {
        run(rt.alloc(), row, &mut pack)?;
    }
    Ok(())
}
