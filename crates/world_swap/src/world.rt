// A world: a memory and a level.
ghost use Rattle.zones.specs.world_model.specs.Levels.{all_levels};
ghost use Rattle.std.specs.Prelude.{IfOk, ◌≡◌};
ghost use Rattle.world_swap.specs.Fresh.{fresh_memory};

use alto_words::{List, Memory};
use junta_levels::base_of;
use std::alloc::Global;
use zones::{ZONE_START, put_gap};

/// The words of a memory.
const WORDS: usize = 65_536;

/// The highest level, at which the services of all levels are in memory.
pub const ALL_LEVELS: u8 = 8;

/// What a session keeps of its memory, and what a state file holds.
#[derive(Drop)]
pub struct World {
    /// The highest level of service that is in memory, 1 to 8.
    pub level: u8,
    /// The 65,536 words of the memory, by address.
    pub memory: List<u16>,
}

impl World {
    /// The world as a session begins: all levels are in memory, the user's words are 0, and the zone is one free block. It takes 131,072
    /// bytes. Memory: there were none.
    pub fn fresh(alloc: Global) -> Result<World, Memory>
        ensures level { IfOk result (λ world. world.level ≡ all_levels) }
        ensures memory { IfOk result (λ world. world.memory ≡ fresh_memory) }
    {
        let mut words = vec![in alloc; 0; WORDS]?;
        put_gap(
            &mut words,
            usize::from(ZONE_START),
            usize::from(base_of(ALL_LEVELS)),
        );
        Ok(World {
            level: ALL_LEVELS,
            memory: List::from_vec(words),
        })
    }
}
