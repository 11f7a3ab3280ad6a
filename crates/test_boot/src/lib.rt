//! Tests of `alto` over packs in memory: worked rows of typed sessions, each from formatting on; and a script of every verb on files, cut at
//! each event, and with each of its calls failing once.
//!
//! Below it stand alto_top and disk_memory. What is expected was worked out by hand from the rules of lines, and never taken from a run.
//! There is nothing to call.
#![tactic(auto)]

#[cfg(test)]
mod cutting;
#[cfg(test)]
mod entering;
#[cfg(test)]
mod rows;
#[cfg(test)]
mod script;
#[cfg(test)]
mod tallies;
#[cfg(test)]
mod typing;
