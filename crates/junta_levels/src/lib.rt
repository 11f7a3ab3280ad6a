//! Levels of service that go and come back: Junta and CounterJunta, over the words of a memory.
//!
//! Come here when you write a line or a program that lets levels go, or want to know where the zone of a level ends. At a level the words of
//! the memory from its base on are resident and 0, and the zone ends there:
//!
//!     1 memory and Junta  64,512      5 files        53,248
//!     2 zone              63,488      6 streams      49,152
//!     3 pages             61,440      7 directories  45,056
//!     4 world swap        57,344      8 Scavenger    40,960
//!
//! Below it stand zones, for the words of free blocks, world_model and laws_zone. No call takes memory of its own or touches a disk: `junta`
//! and `counter_junta` go once over the tags at most. To the layers above:
//! 1. `base_of` answers the base of each level.
//! 2. `junta` answers the lower of both levels (`level`); the words of those that go join the zone, and the free block before them
//!    (`joins`).
//! 3. `counter_junta` has the zone end at the base of level 8 (`back`). It answers InUse if and only if a used block has a word there or
//!    after it, with the lowest such block (`free`, `in_use`); the memory is as before then (`left`).
//! 4. What both leave is a memory with the zone of these blocks, and the user's words as they were. Where levels go or come back, each word
//!    of a used block stands as it did (`others`).
#![tactic(auto)]

mod back;
mod base;
mod ends;
mod gone;

pub use back::{InUse, counter_junta};
pub use base::base_of;
pub use gone::junta;

#[cfg(test)]
mod tests;
