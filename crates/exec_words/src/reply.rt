// Replies to lines.

use alto_words::{Fid, List, Name};
use disk_records::{Page, Place};

/// Why a line isn't carried out, with the numbers that its text prints.
#[derive(Clone, Copy, Debug, PartialEq, Eq)]
pub enum Refusal {
    /// The line isn't in the grammar.
    BadLine,
    /// A hint failed earlier in this session, and the pack wasn't scavenged since.
    NeedsScavenge,
    /// The service of the line stands at a higher level than the session's: this one, 1 to 8.
    NoService {
        level: u8,
    },
    /// A directory, or a file that must be there, isn't.
    NoSuchName,
    /// What should be a directory isn't one.
    NotADirectory,
    /// What should be a file is a directory.
    IsADirectory,
    /// The file is SysDir or DiskDescriptor, which the line doesn't take.
    SystemFile,
    /// The new name can't be given.
    NameTaken,
    /// The directory has an entry.
    NotEmpty,
    /// The line goes past the file's length, in bytes.
    Beyond {
        length: u32,
    },
    /// The stream isn't open.
    NoStream,
    /// Eight streams are open.
    TooManyStreams,
    /// A stream is open over the file, or any stream is.
    StreamsOpen,
    /// No free block of the zone is large enough: the largest has so many usable words.
    NoRoom {
        largest: u16,
    },
    /// No live block begins at this address, or holds this word.
    NotABlock,
    /// A live block stands where a service would: its first usable word has this address.
    InUse {
        at: u16,
    },
    /// The file has another length than a world, in bytes.
    NotAWorld {
        length: u32,
    },
    /// The file isn't marked as a whole world: word 0 is this mark.
    NotWhole {
        mark: u16,
    },
    /// This word of the file, counted from 0, is the first that no world has.
    Spoilt {
        word: u32,
    },
    /// No serial is left above the last one.
    SerialsSpent {
        last: u32,
    },
    /// The line needs more pages than are free.
    Full {
        needed: u16,
        free: u16,
    },
    /// The hint word `at` at this place names another sector than that of the page that is wanted. `found` is the label of the sector
    /// that it names; None where it names none.
    HintFailed {
        place: Place,
        at: u16,
        wanted: Page,
        found: Option<[u16; 8]>,
    },
}

/// The reply to a typed line.
#[derive(Drop)]
pub enum Reply {
    /// The line is carried out; this text is shown.
    Done { text: List<u8> },
    /// The line isn't carried out.
    Refused { refusal: Refusal },
    /// The session is over; the text is that of a line that is done.
    Quit,
    /// The pack is to be scavenged, and the report shown.
    Scavenge,
    /// The disk failed; nothing is shown.
    DiskFault,
    /// No memory was left; nothing is shown.
    Memory,
}

/// What `stat` tells of a file: lengths in bytes, dates in seconds.
#[derive(Clone, Copy, Debug, PartialEq, Eq)]
pub struct Stat {
    /// The file's full name, of which the serial is printed.
    pub fid: Fid,
    /// Its length; of a directory that of its slots.
    pub length: u32,
    /// When it was created.
    pub created: u32,
    /// When it was last written.
    pub written: u32,
    /// When it was last read.
    pub read: u32,
    /// The name in its leader.
    pub name: Name,
}
