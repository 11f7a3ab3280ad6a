// A file of 60,000 bytes on a model 31 pack, for tests of long files.
ghost use Rattle.std.specs.Prelude.{◌<◌};

use alto_words::Fid;
use disk_records::{Place, Sector};
use page_seeking::FileRef;
use std::alloc::{AllocError, Global};

/// The file that is read: an ordinary one with serial 3.
pub(crate) const FID: Fid = Fid {
    high: 0,
    low: 3,
    version: 1,
};

/// The file, named by the address of its leader.
pub(crate) fn file_at(leader_at: u16) -> FileRef {
    FileRef {
        fid: FID,
        leader_at,
        from: Place::Held { at: leader_at },
    }
}

/// The real address of a sector of a model 31 pack.
pub(crate) fn real_of(at: u16) -> u16
    requires { at < 4872 }
{
    at % 12 * 4096 + at / 24 * 8 + at / 12 % 2 * 4
}

/// A sector of a model 31 pack with one file of 60,000 bytes: its leader in sector 100, and pages 1 to 118 right after it. The bytes of a
/// page are its number in each word; the last one has 96 of them.
pub(crate) fn sector_of(at: u16) -> Sector
    requires { at < 4872 }
{
    let header = [1, real_of(at)];
    if at < 100 || at > 218 {
        return Sector {
            header,
            label: [0xFFFF; 8],
            value: [0xFFFF; 256],
        };
    }
    let number = at - 100;
    let next = if number < 118 {
        real_of(at + 1)
    } else {
        0xFFFF
    };
    let previous = if number > 0 { real_of(at - 1) } else { 0xFFFF };
    let bytes = if number < 118 { 512 } else { 96 };
    Sector {
        header,
        label: [next, previous, 0, bytes, number, 1, 0, 3],
        value: [number; 256],
    }
}

/// The sectors of this pack.
pub(crate) fn long_file(alloc: Global) -> Result<Vec<Sector>, AllocError> {
    let mut sectors = Vec::new(alloc);
    for at in 0..4872 {
        sectors.push(sector_of(at))?;
    }
    Ok(sectors)
}
