// `junta`: levels go.
ghost use Rattle.exec_memory.specs.Alone.{IsRefusalOrMemory, IsSameButWorld, MayTake, StaysFormed, TakesAlone};
ghost use Rattle.exec_session.specs.Meant.{kept};
ghost use Rattle.exec_session.specs.Stops.{refused_if};
ghost use Rattle.exec_words.specs.declared.line.Line.TheVariants as line;
ghost use Rattle.session_model.specs.Keeping.{world_of};
ghost use Rattle.session_model.specs.Refusals.{is_any_open};
ghost use Rattle.session_model.specs.world_model.specs.Levels.{IsAtLevel, all_levels, level_base, level_kept, zone_kept};
ghost use Rattle.session_model.specs.world_model.specs.ZoneWords.{zone_in};
ghost use Rattle.std.specs.Prelude.{IfErr, nat_lt, ◌&&◌, ◌≡◌, ◌≤◌};
ghost use Rattle.zones.specs.laws_zone.specs.PlaceLaws.{NowHas};

use exec_session::{Session, Stop, refuse_open_streams};
use exec_words::{Refusal, level_text};
use junta_levels::junta;
use std::alloc::Global;
use world_swap::World;

/// The level of the service that has streams.
const STREAMS_LEVEL: u8 = 6;

/// StreamsOpen: a stream is open, and the level of streams is above `level`.
fn refuse_streams(session: &Session, level: u8) -> Result<(), Stop>
    ensures { result ≡ refused_if (nat_lt level 6 && is_any_open (world_of (kept session.now))) Refusal.StreamsOpen }
{
    if level < STREAMS_LEVEL {
        return refuse_open_streams(session);
    }
    Ok(())
}

/// Removes the levels above `to`, 1 to 8, of a world.
fn lower_to(world: &mut World, to: u8)
    requires at { IsAtLevel world.old.level world.old.memory }
    requires least { 1 ≤ to }
    requires most { to ≤ all_levels }
    ensures level { world.new.level ≡ level_kept world.old.level to }
    ensures joins { NowHas (level_base world.new.level) world.old.memory world.new.memory (zone_kept world.old.level to (zone_in (level_base world.old.level) world.old.memory)) }
{
    let level = world.level;
    world.level = junta(world.memory.as_vec().as_mut_slice(), level, to);
}

/// The text of `junta`: the level that the session has now, the lower of `level`, 1 to 8, and the one that it had. The words of the levels
/// that go join the zone.
///
/// StreamsOpen: a stream is open, and the level of streams would go. Memory: none was left for the text, and the line may be done.
pub fn remove_levels(alloc: Global, session: &mut Session, level: u8) -> Result<Vec<u8>, Stop>
    requires may { MayTake session.old (line.Junta level) }
    ensures turns { TakesAlone session.old session.new (line.Junta level) result }
    ensures formed { StaysFormed session.old session.new }
    ensures stops { IfErr result IsRefusalOrMemory }
    ensures alone { IsSameButWorld session.old session.new }
{
    refuse_streams(session, level)?;
    lower_to(&mut session.world, level);
    Ok(level_text(alloc, session.world.level)?)
}
