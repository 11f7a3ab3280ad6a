//! Tests of the Scavenger over packs in memory, and over a disk that changes meanwhile.
//!
//! Of the word `scavenge`: worked rows, and a table of damaged packs, each scavenged whole, cut after each record write and scavenged again,
//! and with calls of it failing once. Of mended pages: a table of damaged packs, each looked at after each event, mended twice, and mended
//! again after faults.
//!
//! Below it stand alto_top, whose listing says what a pack shows, scavenger, scav_pages and disk_memory. What is expected was worked out by
//! hand from the rules of reading and of the Scavenger, and never taken from a run. There is nothing to call.
#![tactic(auto)]

#[cfg(test)]
mod calling;
#[cfg(test)]
mod changing;
#[cfg(test)]
mod cutting;
#[cfg(test)]
mod damaged;
#[cfg(test)]
mod damaging;
#[cfg(test)]
mod mended;
#[cfg(test)]
mod mending;
#[cfg(test)]
mod rows;
