//! Blocks in the words of a memory: one is taken, one is given back, and the words that may be stored to.
//!
//! Come here when you write a line or a program that has blocks, or load a memory from elsewhere. The memory is 65,536 words:
//!
//!     0 to 1,023          the user's
//!     1,024 to top - 1    the zone, a row of blocks; `top` is even
//!     from top on         0
//!
//! A block's first word is its tag: the number of its words, which is even and counts the tag, plus 1 where the block is used. The other
//! words of a free block are 0, and no free block follows a free one.
//!
//! Below it stand world_model, whose definitions the contracts cite, and laws_zone. No call takes memory of its own, keeps a list of blocks,
//! or touches a disk: each goes once over the tags, and `check_zone` also reads each word of a free block and each word from `top` on.
//! To the layers above:
//! 1. `check_zone` answers Ok if and only if no word breaks the format, and else the first one that does.
//! 2. `allocate` takes the lowest free block with so many words, and the rest of it stays free (`taken`). It answers NoRoom if and only if
//!    no free block has so many, with the most that one has (`no_room`).
//! 3. `free_block` makes the words of a used block free, and joins them with the free blocks beside them (`given`). It answers NotABlock if
//!    and only if no used block has this first usable word (`no_block`).
//! 4. What both leave is a memory with the zone of these blocks, the user's words as they were, and zeros from `top` on. At Ok each word of
//!    a used block stands as it did, except those of the block that is given back (`others`). At an error the memory is as before (`left`).
//! 5. `inside` says whether a word may be stored to: it is the user's, or a usable one of a used block.
//!
//! What junta_levels shares with them is public, too: what a tag says, and the words of one free block.
//! Not promised: that nobody stores to another word. laws_zone says what a store to a word that is inside leaves.
#![tactic(auto)]

mod check;
mod errors;
mod gaps;
mod giving;
mod tags;
mod taking;
mod usable;

pub use check::check_zone;
pub use errors::{NotABlock, ZoneError};
pub use gaps::put_gap;
pub use giving::free_block;
pub use tags::{ZONE_START, block_size, gap_start, is_gap};
pub use taking::allocate;
pub use usable::inside;

#[cfg(test)]
mod tests;
