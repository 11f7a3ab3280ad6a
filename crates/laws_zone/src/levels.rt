//! The blocks of a zone, as levels go and come back.

ghost use Rattle.laws_zone.specs.LevelLaws.{BasesAreWithin, BasesEndZones, BasesFall, CounterJuntaFillsTheZone, JuntaFillsTheZone};

/// A zone may end at the base of each level.
pub fn bases_end_zones()
    ensures { BasesEndZones }
{}

/// The base of a level, whatever its number, is within the memory.
pub fn bases_are_within()
    ensures { BasesAreWithin }
{}

/// The base of a higher level is lower.
pub fn bases_fall()
    ensures { BasesFall }
{}

/// After levels go the blocks fill the zone that their words joined.
pub fn junta_fills_the_zone()
    ensures { JuntaFillsTheZone }
{}

/// After all levels come back, where no used block stood in their words, the blocks fill the zone that ends at their base.
pub fn counter_junta_fills_the_zone()
    ensures { CounterJuntaFillsTheZone }
{}
