// Why a pack wasn't formatted, why DiskDescriptor wasn't written, and why a pack isn't entered.
use disk_records::{Page, Place};

/// Why not every sector of a pack, or of its second drive, is known to be written. The pack has to be formatted again, or the drive
/// prepared again. On a modelled disk a prefix of the record writes was done.
#[derive(Clone, Copy, Debug, PartialEq, Eq, Drop)]
pub enum FormatError {
    /// The device failed, and its count of faults rose.
    DiskFault,
    /// No memory was left for the record writes of a sector.
    Memory,
}

/// Why a call on what is kept of DiskDescriptor isn't done. What is kept is then as before.
#[derive(Clone, Copy, Debug, PartialEq, Eq, Drop)]
pub enum DescError {
    /// The serials are spent: the last one is 2,147,483,646 or more. On a modelled disk nothing was written.
    Spent { last: u32 },
    /// The sector at this virtual address doesn't carry DiskDescriptor's page, and `found` is the label that stands there, None where its
    /// header is wrong. On a modelled disk that the descriptor fits this never comes.
    Held { at: u16, found: Option<[u16; 8]> },
    /// The device failed, and its count of faults rose. On a modelled disk that the descriptor fits a prefix of the record writes was done.
    DiskFault,
    /// No memory was left for a record write. On a modelled disk that the descriptor fits a prefix of the record writes was done.
    Memory,
}

/// Why a pack isn't entered. Nothing was written.
#[derive(Clone, Copy, Debug, PartialEq, Eq, Drop)]
pub enum OpenError {
    /// Sector 1 doesn't carry SysDir's leader, and `found` is the label there, None where its header is wrong. `enter_pack`, which is given
    /// DiskDescriptor, never answers it; a session that begins does.
    NoRoot {
        found: Option<[u16; 8]>,
    },
    /// SysDir has no entry of DiskDescriptor's name, or the first one is of another file. `enter_pack` never answers it.
    NoDescriptor,
    /// The hint at `place` is `at`, and names no usable sector or one that doesn't carry the page `wanted`. `found` is the label there,
    /// None where there is none.
    Misled {
        place: Place,
        at: u16,
        wanted: Page,
        found: Option<[u16; 8]>,
    },
    /// DiskDescriptor has so many bytes, which isn't the length of one for this shape.
    WrongLength {
        length: u32,
    },
    /// Word `word` of DiskDescriptor is `found`, and says another shape. It is the first such word.
    BadDescriptor {
        word: u16,
        found: u16,
    },
    /// The mark is this one, and not the clean one: the pack wasn't closed.
    NotClean {
        mark: u16,
    },
    /// The device failed, and its count of faults rose.
    DiskFault,
    /// No memory was left. `enter_pack` never answers it on a modelled disk; a session, which has memory of its own, may.
    Memory,
}
