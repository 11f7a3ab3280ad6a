// Packs that are damaged: the report of a scavenge of each, what it shows before it, at each event and after it, and a session on it then.
use crate::damaging::Damage;

/// A damaged pack: the typed lines that it is made by and what was done to it then; the report, what it shows throughout, and the report of a
/// second scavenge; and the lines of a session on the scavenged pack, with their replies.
pub(crate) struct Damaged {
    pub name: &'static str,
    pub typed: &'static str,
    pub damages: &'static [Damage],
    pub report: &'static str,
    pub shown: &'static str,
    pub again: &'static str,
    pub lines: &'static str,
    pub replies: &'static str,
}

const ONES: u16 = 0xFFFF;

/// A file with its leader page on sector 5 and its bytes on 6. Its entry begins at word 24 of SysDir, whose pages are on 1 and 2. Those of
/// DiskDescriptor are on 3 and 4.
const FILE: &str = "make A\nappend A 4142434445";

/// What the pack with this file shows, and two lines on it with their replies.
const SHOWN: &str = "SysDir>A. length 5\n1 files";

const LINES: &str = "type A\nfree";

const REPLIES: &str = "4142434445\n5 bytes\n41 pages free";

/// The report of a scavenge that frees nothing and adopts nothing.
const QUIET: &str = "scavenged: files 3, freed 0, bad 0, adopted 0";

static DAMAGED: [Damaged; 18] = [
    Damaged {
        name: "names are taken from two directories",
        typed: "mkdir D\nmake D>X\nmkdir E\nmake E>X\nmake X",
        damages: &[Damage::Value(6, 0, 8), Damage::Value(10, 0, 8)],
        report: "scavenged: files 7, freed 0, bad 0, adopted 2",
        shown: "SysDir>D. directory\nSysDir>E. directory\nSysDir>X. length 0\nSysDir>X.$1. length 0\nSysDir>X.$2. length 0\n5 files",
        again: "scavenged: files 7, freed 0, bad 0, adopted 0",
        lines: "stat X.$1\nlist D\nfree",
        replies: "#4 length 0 pages 2 created 1000 written 1000 read 1000 name X.\n0 entries\n33 pages free",
    },
    Damaged {
        name: "a page is carried twice",
        typed: FILE,
        damages: &[
            Damage::Copy(6, 20),
            Damage::Value(20, 0, 0x5858),
            Damage::Value(20, 1, 0x5858),
            Damage::Value(20, 2, 0x5800),
        ],
        report: "scavenged: files 3, freed 1, bad 0, adopted 0",
        shown: SHOWN,
        again: QUIET,
        lines: LINES,
        replies: REPLIES,
    },
    Damaged {
        name: "a next link names its own sector",
        typed: FILE,
        damages: &[Damage::Label(5, 0, 0x5000)],
        report: QUIET,
        shown: SHOWN,
        again: QUIET,
        lines: LINES,
        replies: REPLIES,
    },
    Damaged {
        name: "a slot has no words",
        typed: FILE,
        damages: &[Damage::Value(2, 24, 0)],
        report: "scavenged: files 3, freed 0, bad 0, adopted 1",
        shown: SHOWN,
        again: QUIET,
        lines: LINES,
        replies: "4142434445\n5 bytes\n40 pages free",
    },
    Damaged {
        name: "an entry of no file has the one room",
        typed: FILE,
        damages: &[Damage::Value(2, 26, 9), Damage::Label(2, 3, 64)],
        report: "scavenged: files 3, freed 0, bad 0, adopted 1",
        shown: SHOWN,
        again: QUIET,
        lines: LINES,
        replies: REPLIES,
    },
    Damaged {
        name: "every label and value is ones",
        typed: FILE,
        damages: &[Damage::Blank],
        report: "scavenged: files 2, freed 0, bad 0, adopted 0",
        shown: "0 files",
        again: "scavenged: files 2, freed 0, bad 0, adopted 0",
        lines: "free\nlist",
        replies: "43 pages free\nDiskDescriptor.\nSysDir.\n2 entries",
    },
    Damaged {
        name: "the mark is open",
        typed: FILE,
        damages: &[Damage::Value(4, 6, 2)],
        report: QUIET,
        shown: SHOWN,
        again: QUIET,
        lines: LINES,
        replies: REPLIES,
    },
    Damaged {
        name: "an entry has the address of another page",
        typed: FILE,
        damages: &[Damage::Value(2, 29, 6)],
        report: QUIET,
        shown: SHOWN,
        again: QUIET,
        lines: LINES,
        replies: REPLIES,
    },
    Damaged {
        name: "a header is wrong",
        typed: FILE,
        damages: &[Damage::Header(20, 1, 0)],
        report: "scavenged: files 3, freed 0, bad 1, adopted 0",
        shown: SHOWN,
        again: "scavenged: files 3, freed 0, bad 1, adopted 0",
        lines: LINES,
        replies: "4142434445\n5 bytes\n40 pages free",
    },
    Damaged {
        name: "a label names no page",
        typed: FILE,
        damages: &[Damage::Label(20, 5, 0)],
        report: "scavenged: files 3, freed 1, bad 0, adopted 0",
        shown: SHOWN,
        again: QUIET,
        lines: LINES,
        replies: REPLIES,
    },
    Damaged {
        name: "a page is past the end",
        typed: FILE,
        damages: &[Damage::Copy(6, 20), Damage::Label(20, 4, 9)],
        report: "scavenged: files 3, freed 1, bad 0, adopted 0",
        shown: SHOWN,
        again: QUIET,
        lines: LINES,
        replies: REPLIES,
    },
    Damaged {
        name: "the last page is free",
        typed: "make A\nappend A 11*600",
        damages: &[Damage::Free(7)],
        report: QUIET,
        shown: "SysDir>A. length 512\n1 files",
        again: QUIET,
        lines: "append A 11\nfree",
        replies: "length 513\n40 pages free",
    },
    Damaged {
        name: "the leader page is free",
        typed: FILE,
        damages: &[Damage::Free(5)],
        report: "scavenged: files 2, freed 1, bad 0, adopted 0",
        shown: "0 files",
        again: "scavenged: files 2, freed 0, bad 0, adopted 0",
        lines: "type A\nfree",
        replies: "no such name\n43 pages free",
    },
    Damaged {
        name: "a file without an entry has no name",
        typed: FILE,
        damages: &[Damage::Value(5, 6, 0), Damage::Value(2, 24, 8)],
        report: "scavenged: files 3, freed 0, bad 0, adopted 1",
        shown: "SysDir>Lost3. length 5\n1 files",
        again: QUIET,
        lines: "type Lost3\nfree",
        replies: REPLIES,
    },
    Damaged {
        name: "the leader page of SysDir stands elsewhere",
        typed: FILE,
        damages: &[Damage::Copy(1, 20), Damage::Free(1)],
        report: QUIET,
        shown: SHOWN,
        again: QUIET,
        lines: LINES,
        replies: REPLIES,
    },
    Damaged {
        name: "SysDir has no leader page",
        typed: FILE,
        damages: &[Damage::Free(1)],
        report: "scavenged: files 3, freed 1, bad 0, adopted 1",
        shown: SHOWN,
        again: QUIET,
        lines: LINES,
        replies: REPLIES,
    },
    Damaged {
        name: "DiskDescriptor has no leader page",
        typed: FILE,
        damages: &[Damage::Free(3)],
        report: "scavenged: files 3, freed 1, bad 0, adopted 0",
        shown: SHOWN,
        again: QUIET,
        lines: LINES,
        replies: REPLIES,
    },
    Damaged {
        name: "every link is ones",
        typed: FILE,
        damages: &[
            Damage::Label(1, 0, ONES),
            Damage::Label(2, 1, ONES),
            Damage::Label(3, 0, ONES),
            Damage::Label(4, 1, ONES),
            Damage::Label(5, 0, ONES),
            Damage::Label(6, 1, ONES),
        ],
        report: QUIET,
        shown: SHOWN,
        again: QUIET,
        lines: LINES,
        replies: REPLIES,
    },
];

/// The rows of the table.
pub(crate) fn rows() -> &'static [Damaged] {
    &DAMAGED
}
