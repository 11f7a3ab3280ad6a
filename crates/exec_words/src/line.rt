// Typed lines.

use alto_words::{List, Name, Wanted};

/// A file's name as it is typed: in the directory of this name, which SysDir holds, or in SysDir itself where none is typed.
#[derive(Clone, Copy, Debug, PartialEq, Eq)]
pub struct Path {
    /// The directory's name in SysDir, a bare name; None where no directory is typed.
    pub dir: Option<Name>,
    /// The file's name there.
    pub wanted: Wanted,
}

/// Which file a line names: the one of this path, or the living file of least full name with this serial.
#[derive(Clone, Copy, Debug, PartialEq, Eq)]
pub enum Target {
    /// By a name.
    ByPath { path: Path },
    /// By a serial, without the directory mark.
    BySerial { serial: u32 },
}

/// A typed line: its verb, and its operands in the order in which they are typed. Files are measured in bytes, memory in words of 16
/// bits.
#[derive(Drop)]
pub enum Line {
    /// `list`: the names in a directory, or in SysDir where none is typed.
    ListNames {
        dir: Option<Name>,
    },
    /// `type`: the bytes of a file.
    TypeOut {
        file: Target,
    },
    /// `stat`: what is known of a file without its bytes.
    Stat {
        file: Target,
    },
    /// `make`: a new file.
    Make {
        path: Path,
    },
    /// `append`: bytes after the last one of a file.
    Append {
        file: Target,
        bytes: List<u8>,
    },
    /// `patch`: bytes in the place of those of a file, from this offset on.
    Patch {
        file: Target,
        offset: u32,
        bytes: List<u8>,
    },
    /// `cut`: only so many bytes of a file stay.
    Cut {
        file: Target,
        length: u32,
    },
    /// `copy`: a new file with the bytes of another.
    Copy {
        file: Target,
        path: Path,
    },
    /// `rename`: a file gets another name.
    Rename {
        old_path: Path,
        new_path: Path,
    },
    /// `delete`: a file goes.
    Delete {
        path: Path,
    },
    /// `mkdir`: a new directory, in SysDir.
    MakeDir {
        name: Name,
    },
    /// `rmdir`: a directory goes.
    RemoveDir {
        name: Name,
    },
    /// `free`: the number of free pages.
    Free,
    /// `settime`: the moment of later dates, in seconds.
    SetTime {
        moment: u32,
    },
    /// `open`: a stream over a file.
    OpenStream {
        file: Target,
    },
    /// `get`: the next bytes of a stream, 1 to 1,024 of them.
    Get {
        stream: u8,
        count: u16,
    },
    /// `putb`: bytes at the position of a stream.
    PutBytes {
        stream: u8,
        bytes: List<u8>,
    },
    /// `seek`: a stream's position, in bytes.
    Seek {
        stream: u8,
        to: u32,
    },
    /// `close`: a stream goes.
    Close {
        stream: u8,
    },
    /// `store`: a word into the memory, at this address.
    Store {
        at: u16,
        word: u16,
    },
    /// `fetch`: the word at this address of the memory.
    Fetch {
        at: u16,
    },
    /// `block`: a block of so many words of the zone, at least 1.
    Block {
        words: u16,
    },
    /// `unblock`: the block whose first usable word has this address goes back to the zone.
    Unblock {
        at: u16,
    },
    /// `junta`: the services above this level, 1 to 8, leave the memory.
    Junta {
        level: u8,
    },
    /// `counterjunta`: all services come back.
    CounterJunta,
    /// `outload`: the world is written to a file.
    OutLoad {
        path: Path,
    },
    /// `inload`: the world of a file takes the place of this one, and is given a message of at most 40 bytes.
    InLoad {
        path: Path,
        message: List<u8>,
    },
    /// `scavenge`: the pack is mended.
    Scavenge,
    /// `quit`: the session ends.
    Quit,
    /// Any text that isn't one of these lines.
    Bad,
}
