// The check of one sector command, and what it brings to memory.
ghost use Rattle.std.specs.Prelude.{◌≡◌, ◌≤◌, ◌==◌, ◌||◌, length};
ghost use Rattle.disk_records.specs.Checks.{mismatch_from, mismatch_in, mismatch, memory_after};

use crate::{Act, Plan, Sector};

/// Whether a word of memory matches the disk's: 0 matches anything.
fn matches(memory: u16, disk: u16) -> bool
    ensures { result ≡ (memory == 0) || (memory == disk) }
{
    memory == 0 || memory == disk
}

/// The place of the first word of memory that doesn't match.
fn find_mismatch(memory: &[u16], disk: &[u16]) -> Option<u16>
    requires same { length memory.now ≡ length disk.now }
    requires small { length memory.now ≤ 256 }
    ensures { result ≡ mismatch_from 0 memory.now disk.now }
{
    memory
        .iter()
        .zip(disk)
        .position(|(word, on_disk)| !matches(*word, *on_disk))
        .map(|place| place as u16)
}

/// A record's first word that doesn't match, as its part and word, where the act is Check.
fn mismatch_in(part: u8, act: Act, memory: &[u16], disk: &[u16]) -> Option<(u8, u16)>
    requires same { length memory.now ≡ length disk.now }
    requires small { length memory.now ≤ 256 }
    ensures { result ≡ mismatch_in part act memory.now disk.now }
{
    match act {
        Act::Read => None,
        Act::Write => None,
        Act::Check => find_mismatch(memory, disk).map(|word| (part, word)),
    }
}

/// The first word of a checked record of `memory` that isn't 0 and differs from the word of `disk`, as its record (0 header,
/// 1 label, 2 value) and its place there. None if and only if the command finds the sector as it should be.
pub fn first_mismatch(plan: Plan, memory: &Sector, disk: &Sector) -> Option<(u8, u16)>
    ensures { result ≡ mismatch plan memory.now disk.now }
{
    if let Some(found) = mismatch_in(0, plan.header, &memory.header, &disk.header) {
        return Some(found);
    }
    if let Some(found) = mismatch_in(1, plan.label, &memory.label, &disk.label) {
        return Some(found);
    }
    mismatch_in(2, plan.value, &memory.value, &disk.value)
}

/// Brings to `memory` the records that the command reads or checks, as they stand on `disk`: a checked word of 0 is replaced.
/// The records that it writes stay as they are.
pub fn update_memory(plan: Plan, memory: &mut Sector, disk: &Sector)
    ensures { memory.new ≡ memory_after plan memory.old disk.now }
{
    if plan.header != Act::Write {
        memory.header = disk.header;
    }
    if plan.label != Act::Write {
        memory.label = disk.label;
    }
    if plan.value != Act::Write {
        memory.value = disk.value;
    }
}
