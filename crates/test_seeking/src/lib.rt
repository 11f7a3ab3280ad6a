//! Tests of pages that are sought by hints, over packs made by hand in memory.
//!
//! What is expected here was worked out by hand from the layouts, and never taken from a run. There is nothing to call.
#![tactic(auto)]

#[cfg(test)]
mod long_file;
#[cfg(test)]
mod seeking;
#[cfg(test)]
mod wrong_hints;
