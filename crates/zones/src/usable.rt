// Words that may be stored to.
ghost use Rattle.std.specs.Prelude.{◌≡◌};
ghost use Rattle.laws_zone.specs.Filling.{IsTop};
ghost use Rattle.laws_zone.specs.world_model.specs.ZoneWords.{IsMemory, is_inside};

use crate::tags::{ZONE_START, block_size, is_usable};

/// Whether the word at the address `at` may be stored to: it is one of the user's, before word 1,024, or a usable one of a used block.
/// `top` is the end of the zone, even and above 1,024; the memory is one that `check_zone` accepts.
pub fn inside(memory: &[u16], top: u16, at: u16) -> bool
    requires top { IsTop top }
    requires memory { IsMemory top memory.now }
    ensures { result ≡ is_inside top memory.now at }
{
    if at < ZONE_START {
        return true;
    }
    let wanted = usize::from(at);
    let top = usize::from(top);
    let mut here = usize::from(ZONE_START);
    while here < top {
        let tag = memory[here];
        let end = here + usize::from(block_size(tag));
        if wanted < end {
            return is_usable(tag, here, wanted);
        }
        here = end;
    }
    false
}
