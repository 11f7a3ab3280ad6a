// A formatted pack of 48 sectors.
use alto_words::Fid;
use directory::FileRef;
use disk_descriptor::format;
use disk_memory::SureMachine;
use disk_records::{Disk, Place};
use hint_cache::{BitTable, HintCache, Hints};
use std::alloc::Global;
use std::test::Fail;
use test_packs::{sectors_of, sure_machine};

/// SysDir, with its fixed address.
pub const ROOT: FileRef = FileRef {
    fid: Fid::SYS_DIR,
    leader_at: 1,
    from: Place::Root,
};

/// A machine over a formatted pack, and empty hints.
pub fn formatted(alloc: Global) -> Result<(SureMachine, Hints), Fail> {
    let mut machine = sure_machine(alloc, sectors_of(alloc, &[])?, b"")?;
    machine.reserve(alloc, 200)?;
    format(&mut machine, 1, 0)?;
    let hints = Hints {
        cache: HintCache::new(alloc)?,
        table: BitTable::from_words(alloc, machine.shape().pages(), &[0; 3])?,
    };
    Ok((machine, hints))
}
