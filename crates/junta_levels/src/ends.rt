// What stands at the end of a zone.
ghost use Rattle.std.specs.Prelude.{◌≡◌, ◌+◌, ◌<◌, ◌≤◌};
ghost use Rattle.junta_levels.specs.Cuts.{FindsCut, in_block};
ghost use Rattle.zones.specs.laws_zone.specs.Filling.{IsTop, last_gap};
ghost use Rattle.zones.specs.world_model.specs.ZoneWords.{IsMemory, zone_in, zone_start};

use zones::{ZONE_START, block_size, gap_start, is_gap};

/// Start of the free block that ends the zone at `top`; `top` if the last block is used.
pub(crate) fn last_gap_start(memory: &[u16], top: usize) -> usize
    requires top { IsTop top }
    requires memory { IsMemory top memory.now }
    ensures { result + last_gap (zone_in top memory.now) ≡ top }
{
    let mut from = usize::from(ZONE_START);
    let mut here = usize::from(ZONE_START);
    while here < top {
        let tag = memory[here];
        let end = here + usize::from(block_size(tag));
        from = gap_start(is_gap(tag), here, end);
        here = end;
    }
    from
}

/// Answers for the block from `here` to `end`, in which the zone is to be cut: `here` if the block is free and ends the zone at `top`. The
/// error is the first usable word of the used block: this one, or the one after it if this one is free.
fn cut_in_block(is_free: bool, here: usize, end: usize, top: usize) -> Result<usize, u16>
    requires here { here < top }
    requires top { top < 65536 }
    ensures { result ≡ in_block is_free here end top }
{
    if !is_free {
        Err(here as u16 + 1)
    } else if end < top {
        Err(end as u16 + 1)
    } else {
        Ok(here)
    }
}

/// Answers the start of the free block that has the word at `low` and ends the zone. The error is the first usable word of the lowest used
/// block that has the word at `low` or one after it.
pub(crate) fn find_cut(memory: &[u16], top: usize, low: usize) -> Result<usize, u16>
    requires top { IsTop top }
    requires most { top < 65536 }
    requires memory { IsMemory top memory.now }
    requires low { zone_start ≤ low }
    requires less { low < top }
    ensures { FindsCut top low memory.now result }
{
    let mut here = usize::from(ZONE_START);
    while here < top {
        let tag = memory[here];
        let end = here + usize::from(block_size(tag));
        if low < end {
            return cut_in_block(is_gap(tag), here, end, top);
        }
        here = end;
    }
    // never reached: `low` is before `top`, so some block has the word at `low`
    Ok(here)
}
