//! The world of a session: its memory and its level.
//!
//! Come here when you write a line or a program that has a memory. Below it stand alto_words, zones and junta_levels. It touches no disk.
//! To the layers above:
//! 1. `World::fresh` answers the world as a session begins: all levels, the user's words 0, and a zone of one free block (`level`,
//!    `memory`).
//!
//! Not promised: that a `World` is a memory at its level. Its fields can be written, and who changes its words keeps that.
#![tactic(auto)]

mod world;

pub use world::{ALL_LEVELS, World};
