// A block is given back.
ghost use Rattle.std.specs.Prelude.{◌≡◌, ◌++◌, ◌+◌, ◌<◌, ◌==◌, ◌&&◌, IfNone, IfSome, List, None, OnErr, OnOk, not};
ghost use Rattle.laws_zone.specs.Filling.{IsTop, first_gap, zone_size};
ghost use Rattle.laws_zone.specs.world_model.specs.Zones.{Block, given_back};
ghost use Rattle.laws_zone.specs.world_model.specs.ZoneWords.{IsMemory, zone_in, zone_start};
ghost use Rattle.zones.specs.Giving.{FindsUsed, GivesBack};
ghost use Rattle.zones.specs.Keeping.{KeepsOtherWords};

use crate::NotABlock;
use crate::gaps::put_gap;
use crate::tags::{ZONE_START, block_size, gap_size, gap_start, is_gap};

/// The words from the address `from` up to `end`.
#[derive(Clone, Copy, Debug, PartialEq, Eq, Drop)]
pub(crate) struct Span {
    pub from: usize,
    pub end: usize,
}

/// The end of the free block that begins at the address `at`, which is between two blocks; `at` if no free block begins there.
fn end_of_gap(memory: &[u16], top: usize, at: usize) -> usize
    requires top { IsTop top }
    requires memory { IsMemory top memory.now }
    ensures { (before rest : List Block) → zone_in top memory.now ≡ before ++ rest → at ≡ zone_start + zone_size before → result ≡ at + first_gap rest }
{
    if top <= at {
        return at;
    }
    at + usize::from(gap_size(memory[at]))
}

/// Whether the block at `here` is a used one whose first usable word is at `at`.
fn is_block_at(is_free: bool, at: usize, here: usize) -> bool
    requires { here < 65536 }
    ensures { result ≡ not is_free && (at == here + 1) }
{
    !is_free && at == here + 1
}

/// The words of the used block whose first usable word is at `at`, with those of the free blocks beside it.
fn find_used(memory: &[u16], top: usize, at: usize) -> Option<Span>
    requires top { IsTop top }
    requires memory { IsMemory top memory.now }
    ensures found { IfSome result (FindsUsed top at memory.now) }
    ensures none { IfNone result (given_back zone_start at (zone_in top memory.now) ≡ None) }
{
    // where the free block begins that ends at `here`, or `here`
    let mut from = usize::from(ZONE_START);
    let mut here = usize::from(ZONE_START);
    while here < top {
        let tag = memory[here];
        let end = here + usize::from(block_size(tag));
        let is_free = is_gap(tag);
        if is_block_at(is_free, at, here) {
            return Some(Span {
                from,
                end: end_of_gap(memory, top, end),
            });
        }
        from = gap_start(is_free, here, end);
        here = end;
    }
    None
}

/// Gives back the used block whose first usable word is at the address `at`: all its words become 0 and join the free blocks beside it.
/// `top` is the end of the zone, even and above 1,024; the memory is one that `check_zone` accepts.
///
/// NotABlock: no used block has this first usable word. The memory is as before.
pub fn free_block(memory: &mut [u16], top: u16, at: u16) -> Result<(), NotABlock>
    requires top { IsTop top }
    requires memory { IsMemory top memory.old }
    ensures given { OnOk result (GivesBack top at memory.old memory.new) }
    ensures no_block { OnErr result (given_back zone_start at (zone_in top memory.old) ≡ None) }
    ensures left { OnErr result (memory.new ≡ memory.old) }
    ensures others { OnOk result (KeepsOtherWords at (zone_in top memory.old) (zone_in top memory.new)) }
{
    match find_used(memory, usize::from(top), usize::from(at)) {
        Some(span) => {
            put_gap(memory, span.from, span.end);
            Ok(())
        }
        None => Err(NotABlock),
    }
}
