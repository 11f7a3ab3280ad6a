// The bases of the levels.
ghost use Rattle.std.specs.Prelude.{◌≡◌, ◌≤◌};
ghost use Rattle.zones.specs.world_model.specs.Levels.{all_levels, level_base};

/// The bases of levels 1 to 8, as addresses.
const BASES: [u16; 8] = [
    64_512, 63_488, 61_440, 57_344, 53_248, 49_152, 45_056, 40_960,
];

/// The address of the first word of a level, 1 to 8. The zone ends before it.
pub fn base_of(level: u8) -> u16
    requires least { 1 ≤ level }
    requires most { level ≤ all_levels }
    ensures { result ≡ level_base level }
{
    BASES[usize::from(level) - 1]
}
