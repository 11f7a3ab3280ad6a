// All levels come back.
ghost use Rattle.std.specs.Prelude.{◌≡◌, ◌-◌, ◌<◌, ◌≤◌, IfErr, None, OnErr, OnOk, Some, length};
ghost use Rattle.junta_levels.specs.Cuts.{after_cut};
ghost use Rattle.zones.specs.Keeping.{KeepsWords};
ghost use Rattle.zones.specs.laws_zone.specs.Filling.{IsTop};
ghost use Rattle.zones.specs.laws_zone.specs.PlaceLaws.{NowHas};
ghost use Rattle.zones.specs.world_model.specs.Levels.{IsAtLevel, all_levels, level_base, used_by_levels, zone_below_all};
ghost use Rattle.zones.specs.world_model.specs.Zones.{shrunk, used_above};
ghost use Rattle.zones.specs.world_model.specs.ZoneWords.{IsMemory, zone_in, zone_start};

use crate::base::base_of;
use crate::ends::find_cut;
use zones::put_gap;

/// A used block has a word at or after the base of level 8. The memory is as before.
#[derive(Clone, Copy, Debug, PartialEq, Eq, Drop)]
pub struct InUse {
    /// The address of the first usable word of the lowest such block.
    pub at: u16,
}

/// Makes the words from the address `from` up to `low` a free block; if there are none, the tag at `from` becomes 0.
fn cut_words(memory: &mut [u16], from: usize, low: usize)
    requires order { from ≤ low }
    requires within { low < length memory.old }
    requires most { low < 65536 }
    ensures { memory.new ≡ after_cut from low memory.old }
{
    if from < low {
        put_gap(memory, from, low);
    } else {
        memory[from] = 0;
    }
}

/// Shortens the zone so that it ends at `low`.
///
/// InUse: a used block has the word at `low` or one after it. The memory is as before.
fn cut_zone(memory: &mut [u16], top: usize, low: usize) -> Result<(), InUse>
    requires top { IsTop top }
    requires most { top < 65536 }
    requires low { IsTop low }
    requires less { low < top }
    requires memory { IsMemory top memory.old }
    ensures back { OnOk result (NowHas low memory.old memory.new (shrunk (low - zone_start) (zone_in top memory.old))) }
    ensures free { OnOk result (used_above low zone_start (zone_in top memory.old) ≡ None) }
    ensures in_use { IfErr result (λ e. used_above low zone_start (zone_in top memory.old) ≡ Some e.at) }
    ensures left { OnErr result (memory.new ≡ memory.old) }
    ensures others { OnOk result (KeepsWords (zone_in top memory.old) (zone_in low memory.new)) }
{
    match find_cut(memory, top, low) {
        Ok(from) => {
            cut_words(memory, from, low);
            Ok(())
        }
        Err(at) => Err(InUse { at }),
    }
}

/// Brings back all eight levels of a memory that is now at `level`: the zone ends at the base of level 8, and from there on all words are 0.
/// At level 8 nothing changes.
///
/// InUse: a used block has a word at or after that base. The memory is as before.
pub fn counter_junta(memory: &mut [u16], level: u8) -> Result<(), InUse>
    requires at { IsAtLevel level memory.old }
    ensures back { OnOk result (NowHas (level_base all_levels) memory.old memory.new (zone_below_all (zone_in (level_base level) memory.old))) }
    ensures free { OnOk result (used_by_levels (zone_in (level_base level) memory.old) ≡ None) }
    ensures in_use { IfErr result (λ e. used_by_levels (zone_in (level_base level) memory.old) ≡ Some e.at) }
    ensures left { OnErr result (memory.new ≡ memory.old) }
    ensures others { OnOk result (KeepsWords (zone_in (level_base level) memory.old) (zone_in (level_base all_levels) memory.new)) }
{
    let top = usize::from(base_of(level));
    let low = usize::from(base_of(8));
    if low < top {
        cut_zone(memory, top, low)
    } else {
        Ok(())
    }
}
