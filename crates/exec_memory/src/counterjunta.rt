// `counterjunta`: all levels come back.
ghost use Rattle.exec_memory.specs.Alone.{IsRefusalOrMemory, IsSameButWorld, MayTake, StaysFormed, TakesAlone};
ghost use Rattle.exec_words.specs.declared.line.Line.TheVariants as line;
ghost use Rattle.session_model.specs.world_model.specs.Levels.{IsAtLevel, all_levels, level_base, used_by_levels, zone_below_all};
ghost use Rattle.session_model.specs.world_model.specs.ZoneWords.{zone_in};
ghost use Rattle.std.specs.Prelude.{IfErr, None, OnErr, OnOk, Some, ◌≡◌};
ghost use Rattle.zones.specs.laws_zone.specs.PlaceLaws.{NowHas};

use exec_session::{Session, Stop, refused};
use exec_words::{Refusal, level_text};
use junta_levels::{InUse, counter_junta};
use std::alloc::Global;
use world_swap::{ALL_LEVELS, World};

/// Brings back all levels of a world.
///
/// InUse: a used block has a word at or after the base of level 8. The world is as before.
fn raise(world: &mut World) -> Result<(), InUse>
    requires { IsAtLevel world.old.level world.old.memory }
    ensures level { OnOk result (world.new.level ≡ all_levels) }
    ensures back { OnOk result (NowHas (level_base all_levels) world.old.memory world.new.memory (zone_below_all (zone_in (level_base world.old.level) world.old.memory))) }
    ensures free { OnOk result (used_by_levels (zone_in (level_base world.old.level) world.old.memory) ≡ None) }
    ensures in_use { IfErr result (λ e. used_by_levels (zone_in (level_base world.old.level) world.old.memory) ≡ Some e.at) }
    ensures left { OnErr result (world.new ≡ world.old) }
{
    let level = world.level;
    counter_junta(world.memory.as_vec().as_mut_slice(), level)?;
    world.level = ALL_LEVELS;
    Ok(())
}

/// The text of `counterjunta`: level 8, which the session has now. It is obeyed though a scavenge is needed.
///
/// InUse: a used block stands where a level would, with the address of the first usable word of the lowest. Memory: none was left for the
/// text, and the line may be done.
pub fn restore_levels(alloc: Global, session: &mut Session) -> Result<Vec<u8>, Stop>
    requires may { MayTake session.old line.CounterJunta }
    ensures turns { TakesAlone session.old session.new line.CounterJunta result }
    ensures formed { StaysFormed session.old session.new }
    ensures stops { IfErr result IsRefusalOrMemory }
    ensures alone { IsSameButWorld session.old session.new }
{
    match raise(&mut session.world) {
        Ok(()) => Ok(level_text(alloc, ALL_LEVELS)?),
        Err(InUse { at }) => refused(Refusal::InUse { at }),
    }
}
