// Words of a world's memory that may be stored to.
ghost use Rattle.session_model.specs.world_model.specs.Levels.{IsAtLevel, level_base};
ghost use Rattle.session_model.specs.world_model.specs.ZoneWords.{is_inside};
ghost use Rattle.std.specs.Prelude.{◌≡◌};

use junta_levels::base_of;
use world_swap::World;
use zones::inside;

/// Whether the word at the address `at` may be stored to: it is one of the user's, or a usable one of a used block.
pub(crate) fn is_storable(world: &World, at: u16) -> bool
    requires { IsAtLevel world.now.level world.now.memory }
    ensures { result ≡ is_inside (level_base world.now.level) world.now.memory at }
{
    inside(world.memory.as_slice(), base_of(world.level), at)
}
