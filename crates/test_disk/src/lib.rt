//! Tests of addresses, of words and bytes, of guarded sector commands and of free sectors, over packs made by hand in memory.
//!
//! What is expected here was worked out by hand from the rules of addresses and labels, and never taken from a run.
//! There is nothing to call.
#![tactic(auto)]

#[cfg(test)]
mod addresses;
#[cfg(test)]
mod free_sectors;
#[cfg(test)]
mod guards;
#[cfg(test)]
mod page_words;
