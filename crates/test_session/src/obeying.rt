// The words of a command line, and keys that aren't taken.
use alto_top::{Status, alto};
use disk_records::{Console, Machine};
use std::alloc::Global;
use std::process::Abort;
use std::test::Fail;

/// Does what these words ask for, at moment 1000.
pub fn obey<M: Machine>(alloc: Global, words: &[&str], machine: &mut M) -> Result<Status, Fail>
    requires handed_on { M.handed_on machine.old }
{
    let mut list = Vec::new(alloc);
    for word in words {
        list.push(String::from_str(alloc, word)?)?;
    }
    Ok(alto(alloc, &list, 1000, machine))
}

/// Expects that a machine still has these keys, of which there are at most 32, and no others.
pub fn expect_no_key_taken<A: Abort, M: Console>(
    rt: &A,
    machine: &mut M,
    keys: &[u8],
) -> Result<(), Fail> {
    let mut left = [0; 33];
    machine.flush_display()?;
    let count = machine.read(&mut left)?;
    assert_eq!(rt; left.get(..count), Some(keys));
    Ok(())
}
