// Levels go.
ghost use Rattle.std.specs.Prelude.{◌≡◌, ◌-◌, ◌<◌, ◌≤◌};
ghost use Rattle.zones.specs.Keeping.{KeepsWords};
ghost use Rattle.zones.specs.laws_zone.specs.Filling.{IsTop};
ghost use Rattle.zones.specs.laws_zone.specs.PlaceLaws.{NowHas};
ghost use Rattle.zones.specs.world_model.specs.Levels.{IsAtLevel, all_levels, level_base, level_kept, zone_kept};
ghost use Rattle.zones.specs.world_model.specs.Zones.{grown};
ghost use Rattle.zones.specs.world_model.specs.ZoneWords.{IsMemory, zone_in};

use crate::base::base_of;
use crate::ends::last_gap_start;
use zones::put_gap;

/// Extends the zone, which ends at `top`, so that it ends at `more`. The words between become free and join the free block at its end.
fn grow_zone(memory: &mut [u16], top: usize, more: usize)
    requires top { IsTop top }
    requires more { IsTop more }
    requires up { top < more }
    requires memory { IsMemory top memory.old }
    ensures { NowHas more memory.old memory.new (grown (more - top) (zone_in top memory.old)) }
{
    let from = last_gap_start(memory, top);
    put_gap(memory, from, more);
}

/// Removes the levels of service above `to` (1 to 8). Their words become free and join the zone and the free block at its end. Answers the
/// new level, the lower of `level` and `to`. If `to` isn't below `level`, nothing changes.
pub fn junta(memory: &mut [u16], level: u8, to: u8) -> u8
    requires at { IsAtLevel level memory.old }
    requires least { 1 ≤ to }
    requires most { to ≤ all_levels }
    ensures level { result ≡ level_kept level to }
    ensures joins { NowHas (level_base result) memory.old memory.new (zone_kept level to (zone_in (level_base level) memory.old)) }
    ensures others { KeepsWords (zone_in (level_base level) memory.old) (zone_in (level_base result) memory.new) }
{
    if level <= to {
        return level;
    }
    grow_zone(
        memory,
        usize::from(base_of(level)),
        usize::from(base_of(to)),
    );
    to
}
