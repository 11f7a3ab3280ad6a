// What several tests have: a sector, a session, and the lines of an earlier one.
use alto_top::{Status, boot};
use disk_records::{Machine, Sector, Tally};
use std::alloc::Global;
use std::test::Fail;

/// A sector of zeros.
pub const ZEROS: Sector = Sector {
    header: [0; 2],
    label: [0; 8],
    value: [0; 256],
};

/// The lines that make the file with serial 3 and the five bytes `ABCDE` on a formatted pack.
pub const MADE: &[u8] = b"make A\nappend A 4142434445\n";

/// Where the low byte of a pack's mark stands in its file: in word 6 of DiskDescriptor's page, on sector 4. The mark is 1, or 2 where a session
/// has written and isn't ended.
pub const MARK_AT: usize = 4 * 532 + 20 + 13;

/// Passes if this is Done.
pub fn expect_done(status: Status) -> Result<(), Fail> {
    if status == Status::Done {
        Ok(())
    } else {
        Ok(None.ok_or("not done")?)
    }
}

/// A session at moment 1000.
pub fn start<M: Machine>(alloc: Global, machine: &mut M) -> Status {
    let mut tally = Tally {
        limit: 0,
        passed: 0,
        all: 0,
    };
    boot(alloc, 1000, &mut tally, machine)
}
