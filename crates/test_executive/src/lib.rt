//! Tests of sessions of typed lines over formatted packs in memory: worked rows, how many sector commands lines take,
//! and in which order their pages take free sectors.
//!
//! Below it stand executive, and disk_descriptor, which formats the packs. What is expected was worked out by hand from the rules of lines,
//! and never taken from a run. There is nothing to call.
#![tactic(auto)]

#[cfg(test)]
mod commands;
#[cfg(test)]
mod order;
#[cfg(test)]
mod packs;
#[cfg(test)]
mod rows;
#[cfg(test)]
mod talk;
