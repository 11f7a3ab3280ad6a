// What stands on a pack, and what happens to it.
ghost use Rattle.std.specs.Prelude.{◌+◌, ◌*◌};
ghost use Rattle.std.proofs.Common.{rules};
ghost use Rattle.std.specs.Cmp.Rules.{hashing};
ghost use Rattle.std.specs.Hash as fed;

use alto_words::{Fid, List};
use std::hash::{Hash, Hasher};

/// One sector: its three records in their order on the disk.
#[derive(Clone, Copy, Debug, PartialEq, Eq, Drop)]
pub struct Sector {
    /// The pack number and the sector's real address.
    pub header: [u16; 2],
    /// Next, previous, blank, bytes, page number, version, serial high, serial low.
    pub label: [u16; 8],
    /// 512 bytes of the page, the high byte of a word first.
    pub value: [u16; 256],
}

impl Sector {
    /// A sector of zeros.
    pub const ZEROS: Sector = Sector {
        header: [0; 2],
        label: [0; 8],
        value: [0; 256],
    };
}

/// Header and label of a sector.
#[derive(Clone, Copy, Debug, PartialEq, Eq, Drop)]
pub struct Front {
    /// The pack number and the sector's real address.
    pub header: [u16; 2],
    /// Next, previous, blank, bytes, page number, version, serial high, serial low.
    pub label: [u16; 8],
}

impl Front {
    /// Header and label of zeros.
    pub const ZEROS: Front = Front {
        header: [0; 2],
        label: [0; 8],
    };
}

/// What a sector command does with one record.
#[derive(Clone, Copy, Debug, PartialEq, Eq)]
pub enum Act {
    /// Copies the record from the disk to memory.
    Read,
    /// Compares the record word by word. A memory word of 0 matches anything and is replaced by the disk's word.
    Check,
    /// Copies the record from memory to the disk.
    Write,
}

/// What a sector command does with each record. It is legal where a Write is followed by Writes alone: once a
/// record is written, all later records of the command are. Source: Alto Hardware Manual.
#[derive(Clone, Copy, Debug, PartialEq, Eq)]
pub struct Plan {
    /// What is done with the header.
    pub header: Act,
    /// What is done with the label.
    pub label: Act,
    /// What is done with the value.
    pub value: Act,
}

impl Plan {
    /// Reads the whole sector.
    pub const READ: Plan = Plan {
        header: Act::Read,
        label: Act::Read,
        value: Act::Read,
    };

    /// Writes the value, where header and label are those of memory.
    pub const WRITE_VALUE: Plan = Plan {
        header: Act::Check,
        label: Act::Check,
        value: Act::Write,
    };

    /// Writes label and value, where the header is that of memory.
    pub const WRITE_LABEL: Plan = Plan {
        header: Act::Check,
        label: Act::Write,
        value: Act::Write,
    };

    /// Writes the whole sector.
    pub const WRITE_ALL: Plan = Plan {
        header: Act::Write,
        label: Act::Write,
        value: Act::Write,
    };
}

/// A page of a file: page 0 is the leader page, data pages are numbered from 1.
#[derive(Clone, Copy, Debug, PartialEq, Eq, PartialOrd, Ord)]
pub struct Page {
    /// The file's full name.
    pub fid: Fid,
    /// Its number in the file.
    pub number: u16,
}

impl Hash for Page {
    ghost hash_input = { λ page. fed.u64 (((page.fid.high * 65536 + page.fid.low) * 65536 + page.fid.version) * 65536 + page.number) };

    ghost respects_eq = { Prim.search (hashing, rules) };

    /// Its words are fed as one number, side by side. A cache hashes a page at most looks, and four numbers would take longer.
    fn hash<H: Hasher>(&self, state: &mut H) {
        let serial = self.fid.high as u64 * 65_536 + self.fid.low as u64;
        let file = serial * 65_536 + self.fid.version as u64;
        (file * 65_536 + self.number as u64).hash(state);
    }
}

/// Where the address of a page was taken from, for an answer that says that it names another sector than it should.
#[derive(Clone, Copy, Debug, PartialEq, Eq)]
pub enum Place {
    /// The fixed virtual address 1 of SysDir's leader. No word on the disk holds it.
    Root,
    /// The address word of an entry in the directory `dir`: `word` is its index in the directory's words, from 0. It holds the virtual
    /// address of the leader of the entry's file.
    Entry { dir: Fid, word: u32 },
    /// The next link in the label of the sector at the virtual address `at`: the link that was followed. It holds the real address of
    /// the page after this one.
    Next { at: u16 },
    /// The virtual address `at` itself, which was checked earlier in this session.
    Held { at: u16 },
}

/// What happens to a machine.
#[derive(Drop)]
pub enum Event {
    /// A record write, whole, in the sector at the virtual address `at`: part 0 is the header, 1 the label, 2 the value.
    Wrote { at: u16, part: u8, words: List<u16> },
    /// A byte on the display.
    Shown { byte: u8 },
}

/// How many operations took effect on a pack. Both counts stand at 2^64 - 1 once there. No call counts by it yet.
#[derive(Clone, Copy, Debug, PartialEq, Eq)]
pub struct Tally {
    /// The number of record writes of the machine up to which `passed` counts.
    pub limit: u64,
    /// The operations whose committing record is among the machine's first `limit` record writes.
    pub passed: u64,
    /// All operations that took effect.
    pub all: u64,
}
