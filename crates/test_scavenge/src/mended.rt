// Packs that are damaged, what a mending of their pages frees, and what they show before it, at each event, and then.
use crate::damaging::Damage;

/// A word of a label or a value that has to stand: its sector, its place, and the number.
pub(crate) enum Wanted {
    Label(u16, usize, u16),
    Value(u16, usize, u16),
}

/// A damaged pack: the drives that it stands on, the typed lines that it is made by, what was done to it, how many sectors a mending frees,
/// what the pack shows throughout, and words that stand in the end.
pub(crate) struct Mended {
    pub name: &'static str,
    pub drives: u16,
    pub typed: &'static str,
    pub damages: &'static [Damage],
    pub freed: u32,
    pub shown: &'static str,
    pub then: &'static [Wanted],
}

const ONES: u16 = 0xFFFF;

/// File A of 600 bytes, each of which is 41 in hex.
pub(crate) const FILE: &str = "make A\nappend A 41*600";

/// The file, and directory D.
const FILE_AND_DIRECTORY: &str = "make A\nappend A 41*600\nmkdir D";

/// The listing of the pack with the file.
const WHOLE: &str = "SysDir>A. length 600\n1 files";

/// The listing of the pack with directory D beside it.
const WITH_DIRECTORY: &str = "SysDir>A. length 600\nSysDir>D. directory\n2 files";

/// The true links of the pack with the file.
const TRUE_LINKS: &[Wanted] = &[
    Wanted::Label(1, 0, 0x2000),
    Wanted::Label(1, 1, ONES),
    Wanted::Label(2, 0, ONES),
    Wanted::Label(2, 1, 0x1000),
    Wanted::Label(3, 0, 0x4000),
    Wanted::Label(3, 1, ONES),
    Wanted::Label(4, 0, ONES),
    Wanted::Label(4, 1, 0x3000),
    Wanted::Label(5, 0, 0x6000),
    Wanted::Label(5, 1, ONES),
    Wanted::Label(6, 0, 0x7000),
    Wanted::Label(6, 1, 0x5000),
    Wanted::Label(7, 0, ONES),
    Wanted::Label(7, 1, 0x6000),
];

/// File A has its leader page on sector 5 and its data pages, of 512 and 88 bytes, on 6 and 7. SysDir's pages are on 1 and 2, those of
/// DiskDescriptor on 3 and 4, and those of directory D, if it is made, on 8 and 9. The entry of A begins at word 24 of SysDir. Its
/// leader's name is in the words from 6 on: the number of its bytes, and `Lost3.` where none can be read. Its dates are 1000, as those of
/// all leaders, before the name.
static MENDED: [Mended; 24] = [
    Mended {
        name: "every link is wrong",
        drives: 1,
        typed: FILE,
        damages: &[
            Damage::Label(1, 0, ONES),
            Damage::Label(1, 1, 0),
            Damage::Label(2, 0, 0),
            Damage::Label(2, 1, ONES),
            Damage::Label(3, 0, ONES),
            Damage::Label(3, 1, 0),
            Damage::Label(4, 0, 0),
            Damage::Label(4, 1, ONES),
            Damage::Label(5, 0, ONES),
            Damage::Label(5, 1, 0),
            Damage::Label(6, 0, ONES),
            Damage::Label(6, 1, ONES),
            Damage::Label(7, 0, 0),
            Damage::Label(7, 1, ONES),
        ],
        freed: 0,
        shown: WHOLE,
        then: TRUE_LINKS,
    },
    Mended {
        name: "no page has a link",
        drives: 1,
        typed: FILE,
        damages: &[
            Damage::Label(1, 0, ONES),
            Damage::Label(2, 1, ONES),
            Damage::Label(3, 0, ONES),
            Damage::Label(4, 1, ONES),
            Damage::Label(5, 0, ONES),
            Damage::Label(6, 0, ONES),
            Damage::Label(6, 1, ONES),
            Damage::Label(7, 1, ONES),
        ],
        freed: 0,
        shown: WHOLE,
        then: TRUE_LINKS,
    },
    Mended {
        name: "a link names its own sector",
        drives: 1,
        typed: FILE,
        damages: &[Damage::Label(6, 0, 0x6000)],
        freed: 0,
        shown: WHOLE,
        then: &[Wanted::Label(6, 0, 0x7000)],
    },
    Mended {
        name: "the last page is free",
        drives: 1,
        typed: FILE,
        damages: &[Damage::Free(7)],
        freed: 0,
        shown: "SysDir>A. length 512\n1 files",
        then: &[
            Wanted::Label(7, 3, 0),
            Wanted::Label(7, 4, 2),
            Wanted::Label(6, 0, 0x7000),
            Wanted::Value(7, 0, 0),
        ],
    },
    Mended {
        name: "the leader page is free",
        drives: 1,
        typed: FILE,
        damages: &[Damage::Free(5)],
        freed: 2,
        shown: "0 files",
        then: &[
            Wanted::Label(6, 7, ONES),
            Wanted::Label(7, 7, ONES),
            Wanted::Value(6, 0, ONES),
        ],
    },
    Mended {
        name: "a page is carried twice",
        drives: 1,
        typed: FILE,
        damages: &[Damage::Copy(6, 20), Damage::Value(20, 0, 0x4242)],
        freed: 1,
        shown: WHOLE,
        then: &[Wanted::Label(6, 7, 3), Wanted::Label(20, 7, ONES)],
    },
    Mended {
        name: "a label is of no file",
        drives: 1,
        typed: FILE,
        damages: &[Damage::Label(20, 5, 0)],
        freed: 1,
        shown: WHOLE,
        then: &[Wanted::Label(20, 5, ONES)],
    },
    Mended {
        name: "a page is past the end",
        drives: 1,
        typed: FILE,
        damages: &[Damage::Copy(7, 20), Damage::Label(20, 4, 9)],
        freed: 1,
        shown: WHOLE,
        then: &[Wanted::Label(20, 7, ONES)],
    },
    Mended {
        name: "a label is of no file after a wrong header",
        drives: 1,
        typed: FILE,
        damages: &[Damage::Label(20, 5, 0), Damage::Header(20, 1, 0)],
        freed: 0,
        shown: WHOLE,
        then: &[Wanted::Label(20, 5, 0), Wanted::Label(20, 6, ONES)],
    },
    Mended {
        name: "the leader page of SysDir stands elsewhere",
        drives: 1,
        typed: FILE,
        damages: &[Damage::Copy(1, 20), Damage::Free(1)],
        freed: 0,
        shown: WHOLE,
        then: &[
            Wanted::Label(1, 4, 0),
            Wanted::Label(1, 7, 1),
            Wanted::Label(20, 7, ONES),
        ],
    },
    Mended {
        name: "SysDir has no leader page",
        drives: 1,
        typed: FILE,
        damages: &[Damage::Free(1)],
        freed: 1,
        shown: WHOLE,
        then: &[
            Wanted::Label(1, 4, 0),
            Wanted::Label(1, 7, 1),
            Wanted::Label(2, 3, 510),
            Wanted::Value(2, 0, 255),
            Wanted::Value(1, 1, 0),
            Wanted::Value(1, 6, 0x0753),
            Wanted::Value(1, 9, 0x722E),
        ],
    },
    Mended {
        name: "DiskDescriptor has no leader page",
        drives: 1,
        typed: FILE,
        damages: &[Damage::Free(3)],
        freed: 1,
        shown: WHOLE,
        then: &[
            Wanted::Label(3, 4, 1),
            Wanted::Label(4, 4, 0),
            Wanted::Value(3, 6, 0),
            Wanted::Value(4, 1, 0),
            Wanted::Value(4, 6, 0x0F44),
            Wanted::Value(4, 13, 0x722E),
        ],
    },
    Mended {
        name: "a slot has no words",
        drives: 1,
        typed: FILE,
        damages: &[Damage::Value(2, 24, 0)],
        freed: 0,
        shown: WHOLE,
        then: &[Wanted::Label(2, 3, 48)],
    },
    Mended {
        name: "a leader's name has no bytes",
        drives: 1,
        typed: FILE,
        damages: &[Damage::Value(5, 6, 0)],
        freed: 0,
        shown: WHOLE,
        then: &[
            Wanted::Value(5, 6, 0x064C),
            Wanted::Value(5, 7, 0x6F73),
            Wanted::Value(5, 8, 0x7433),
            Wanted::Value(5, 9, 0x2E00),
        ],
    },
    Mended {
        name: "DiskDescriptor has no data page",
        drives: 1,
        typed: FILE,
        damages: &[Damage::Free(4)],
        freed: 0,
        shown: WHOLE,
        then: &[
            Wanted::Label(3, 0, 0x4000),
            Wanted::Label(4, 3, 38),
            Wanted::Label(4, 4, 1),
            Wanted::Value(4, 6, 0),
        ],
    },
    Mended {
        name: "DiskDescriptor counts too few bytes",
        drives: 1,
        typed: FILE,
        damages: &[Damage::Label(4, 3, 20)],
        freed: 0,
        shown: WHOLE,
        then: &[Wanted::Label(4, 3, 38), Wanted::Value(4, 6, 1)],
    },
    Mended {
        name: "pages past the end of slots and one of DiskDescriptor are carried twice",
        drives: 1,
        typed: FILE,
        damages: &[
            Damage::Copy(2, 20),
            Damage::Label(20, 4, 2),
            Damage::Copy(20, 21),
            Damage::Copy(4, 22),
            Damage::Label(2, 3, 512),
            Damage::Value(2, 24, 0),
        ],
        freed: 3,
        shown: WHOLE,
        then: &[
            Wanted::Label(2, 3, 48),
            Wanted::Label(4, 4, 1),
            Wanted::Label(20, 7, ONES),
            Wanted::Label(21, 7, ONES),
            Wanted::Label(22, 7, ONES),
        ],
    },
    Mended {
        name: "a slot of another directory has no words",
        drives: 1,
        typed: FILE_AND_DIRECTORY,
        damages: &[Damage::Value(9, 0, 0)],
        freed: 0,
        shown: WITH_DIRECTORY,
        then: &[Wanted::Label(9, 3, 0), Wanted::Label(2, 3, 510)],
    },
    Mended {
        name: "slots end in the second page of a directory",
        drives: 1,
        typed: FILE_AND_DIRECTORY,
        damages: &[
            Damage::Copy(9, 20),
            Damage::Label(20, 3, 80),
            Damage::Label(20, 4, 2),
            Damage::Value(20, 14, 0),
            Damage::Label(9, 3, 512),
            Damage::Value(9, 0, 250),
            Damage::Value(9, 250, 20),
        ],
        freed: 0,
        shown: WITH_DIRECTORY,
        then: &[
            Wanted::Label(9, 0, 0x8004),
            Wanted::Label(9, 3, 512),
            Wanted::Label(20, 1, 0x9000),
            Wanted::Label(20, 3, 28),
        ],
    },
    Mended {
        name: "slots end with the first page of a directory",
        drives: 1,
        typed: FILE_AND_DIRECTORY,
        damages: &[
            Damage::Copy(9, 20),
            Damage::Label(20, 3, 80),
            Damage::Label(20, 4, 2),
            Damage::Value(20, 0, 0),
            Damage::Label(9, 3, 512),
            Damage::Value(9, 0, 256),
        ],
        freed: 0,
        shown: WITH_DIRECTORY,
        then: &[
            Wanted::Label(9, 3, 512),
            Wanted::Label(20, 3, 0),
            Wanted::Label(20, 4, 2),
        ],
    },
    Mended {
        name: "the last page is free, and no other good sector",
        drives: 1,
        typed: FILE,
        damages: &[Damage::Free(7), Damage::Headers(8, 48)],
        freed: 0,
        shown: "SysDir>A. length 512\n1 files",
        then: &[
            Wanted::Label(6, 0, 0x7000),
            Wanted::Label(7, 3, 0),
            Wanted::Label(7, 4, 2),
        ],
    },
    Mended {
        name: "a page stands on the second drive",
        drives: 2,
        typed: FILE,
        damages: &[
            Damage::Copy(7, 60),
            Damage::Free(7),
            Damage::Label(60, 0, 0),
            Damage::Label(60, 1, 0),
        ],
        freed: 0,
        shown: WHOLE,
        then: &[
            Wanted::Label(6, 0, 0x0006),
            Wanted::Label(60, 0, ONES),
            Wanted::Label(60, 1, 0x6000),
        ],
    },
    Mended {
        name: "the name of SysDir's leader has no bytes",
        drives: 1,
        typed: FILE,
        damages: &[Damage::Value(1, 6, 0)],
        freed: 0,
        shown: WHOLE,
        then: &[
            Wanted::Value(1, 1, 1000),
            Wanted::Value(1, 6, 0x0753),
            Wanted::Value(1, 7, 0x7973),
            Wanted::Value(1, 8, 0x4469),
            Wanted::Value(1, 9, 0x722E),
        ],
    },
    Mended {
        name: "the name of DiskDescriptor's leader has no bytes",
        drives: 1,
        typed: FILE,
        damages: &[Damage::Value(3, 6, 0)],
        freed: 0,
        shown: WHOLE,
        then: &[
            Wanted::Value(3, 1, 1000),
            Wanted::Value(3, 6, 0x0F44),
            Wanted::Value(3, 7, 0x6973),
            Wanted::Value(3, 8, 0x6B44),
            Wanted::Value(3, 12, 0x746F),
            Wanted::Value(3, 13, 0x722E),
        ],
    },
];

/// The rows of the table.
pub(crate) fn rows() -> &'static [Mended] {
    &MENDED
}

/// A file of 2 bytes, of which the page in sector 6 stands in those from 100 to 1,299 too, on a pack of 60 cylinders.
pub(crate) static COPIES: Mended = Mended {
    name: "copies",
    drives: 1,
    typed: "make A\nappend A 0102",
    damages: &[Damage::Copies(6, 100, 1300)],
    freed: 1200,
    shown: "SysDir>A. length 2\n1 files",
    then: &[],
};
