// `block`: a block of the zone is taken.
ghost use Rattle.exec_memory.specs.Alone.{IsRefusalOrMemory, IsSameButWorld, MayTake, StaysFormed, TakesAlone};
ghost use Rattle.exec_memory.specs.Block.{refusal_of};
ghost use Rattle.exec_words.specs.declared.line.Line.TheVariants as line;
ghost use Rattle.session_model.specs.world_model.specs.Levels.{IsAtLevel, level_base};
ghost use Rattle.std.specs.Prelude.{IfErr, IfOk, OnErr, ◌≡◌, ◌≤◌};
ghost use Rattle.zones.specs.Taking.{IsNoRoom, Takes};

use exec_session::{Session, Stop, refused};
use exec_words::{Refusal, at_text};
use junta_levels::base_of;
use std::alloc::Global;
use world_swap::World;
use zones::{ZoneError, allocate};

/// Takes a block of `n` usable words, 1 to 65,535, from the zone of a world, and answers the address of the first of them.
///
/// NoRoom: no free block has so many words. The world is as before.
fn allocate_in(world: &mut World, n: u16) -> Result<u16, ZoneError>
    requires at { IsAtLevel world.old.level world.old.memory }
    requires some { 1 ≤ n }
    ensures taken { IfOk result (Takes (level_base world.old.level) n world.old.memory world.new.memory) }
    ensures level { world.new.level ≡ world.old.level }
    ensures no_room { IfErr result (IsNoRoom (level_base world.old.level) n world.old.memory) }
    ensures left { OnErr result (world.new ≡ world.old) }
{
    let top = base_of(world.level);
    allocate(world.memory.as_vec().as_mut_slice(), top, n)
}

/// NoRoom, as the refusal of a line.
fn no_room(error: ZoneError) -> Refusal
    ensures { result ≡ refusal_of error }
{
    match error {
        ZoneError::NoRoom { largest } => Refusal::NoRoom { largest },
    }
}

/// The text of `block`: the address of the first usable word of a new block of so many words, 1 to 65,535, which are 0.
///
/// NoRoom: no free block has so many words, with the most usable ones that one has. Memory: none was left for the text, and the line may be
/// done.
pub fn take_block(alloc: Global, session: &mut Session, words: u16) -> Result<Vec<u8>, Stop>
    requires may { MayTake session.old (line.Block words) }
    ensures turns { TakesAlone session.old session.new (line.Block words) result }
    ensures formed { StaysFormed session.old session.new }
    ensures stops { IfErr result IsRefusalOrMemory }
    ensures alone { IsSameButWorld session.old session.new }
{
    match allocate_in(&mut session.world, words) {
        Ok(at) => Ok(at_text(alloc, u32::from(at))?),
        Err(error) => refused(no_room(error)),
    }
}
