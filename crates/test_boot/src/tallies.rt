// The operations of the script, counted up to each number of record writes.
use crate::script::keys;
use crate::typing::{MOMENT, expect, formatted, shape_of};
use alto_top::{Status, boot};
use disk_memory::SureMachine;
use disk_records::{Sector, Tally};
use std::alloc::Global;
use std::test::Fail;

/// What is counted of a session over the script on this pack.
fn tally_of(alloc: Global, pack: &[Sector], limit: u64) -> Result<Tally, Fail> {
    let mut machine = SureMachine::new(alloc, shape_of(2)?, pack.to_vec(alloc)?, keys(alloc)?)?;
    let mut tally = Tally {
        limit,
        passed: 7,
        all: 7,
    };
    let status = boot(alloc, MOMENT, &mut tally, &mut machine);
    expect(status == Status::Done, "not done")?;
    Ok(tally)
}

#[test]
fn one_more_at_a_record_write(rt: HostRuntime) -> Result<(), Fail> {
    let alloc = rt.alloc();
    let pack = formatted(alloc, shape_of(2)?)?;
    let mut before = 0u64;
    for limit in 0..=150u64 {
        let tally = tally_of(alloc, &pack, limit)?;
        // of each `make`, `mkdir`, `append` and `cut` 2, of `copy` 4, of each `rename` 3, and of `patch`, `delete` and `rmdir` 1
        assert!(rt; tally.limit == limit && tally.all == 25);
        assert!(rt;
            before <= tally.passed && tally.passed <= before.saturating_add(1),
            "{limit}"
        );
        before = tally.passed;
    }
    assert!(rt; before == 25);
    Ok(())
}
