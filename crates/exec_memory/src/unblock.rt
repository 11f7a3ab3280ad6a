// `unblock`: a block goes back to the zone.
ghost use Rattle.exec_memory.specs.Alone.{IsRefusalOrMemory, IsSameButWorld, MayTake, StaysFormed, TakesAlone};
ghost use Rattle.exec_words.specs.declared.line.Line.TheVariants as line;
ghost use Rattle.session_model.specs.world_model.specs.Levels.{IsAtLevel, level_base};
ghost use Rattle.session_model.specs.world_model.specs.Zones.{given_back};
ghost use Rattle.session_model.specs.world_model.specs.ZoneWords.{zone_in, zone_start};
ghost use Rattle.std.specs.Prelude.{IfErr, None, OnErr, OnOk, ◌≡◌};
ghost use Rattle.zones.specs.Giving.{GivesBack};

use exec_session::{Session, Stop, refused};
use exec_words::{Refusal, done_text};
use junta_levels::base_of;
use std::alloc::Global;
use world_swap::World;
use zones::{NotABlock, free_block};

/// Gives back the block of a world's zone whose first usable word is at the address `at`.
///
/// NotABlock: no used block has this first usable word. The world is as before.
fn free_in(world: &mut World, at: u16) -> Result<(), NotABlock>
    requires { IsAtLevel world.old.level world.old.memory }
    ensures given { OnOk result (GivesBack (level_base world.old.level) at world.old.memory world.new.memory) }
    ensures level { world.new.level ≡ world.old.level }
    ensures no_block { OnErr result (given_back zone_start at (zone_in (level_base world.old.level) world.old.memory) ≡ None) }
    ensures left { OnErr result (world.new ≡ world.old) }
{
    let top = base_of(world.level);
    free_block(world.memory.as_vec().as_mut_slice(), top, at)
}

/// The text of `unblock`: the block whose first usable word is at the address `at` is free, and its words are 0.
///
/// NotABlock: no used block has this first usable word. Memory: none was left for the text, and the line may be done.
pub fn return_block(alloc: Global, session: &mut Session, at: u16) -> Result<Vec<u8>, Stop>
    requires may { MayTake session.old (line.Unblock at) }
    ensures turns { TakesAlone session.old session.new (line.Unblock at) result }
    ensures formed { StaysFormed session.old session.new }
    ensures stops { IfErr result IsRefusalOrMemory }
    ensures alone { IsSameButWorld session.old session.new }
{
    match free_in(&mut session.world, at) {
        Ok(()) => Ok(done_text(alloc)?),
        Err(NotABlock) => refused(Refusal::NotABlock),
    }
}
