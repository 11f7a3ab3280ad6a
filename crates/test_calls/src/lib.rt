//! Tests of calls that write files, over packs made by hand in memory.
//!
//! What is expected here was worked out by hand from the layouts, and never taken from a run. There is nothing to call.
#![tactic(auto)]

#[cfg(test)]
mod bytes_put;
#[cfg(test)]
mod calls_not_done;
#[cfg(test)]
mod growing_files;
#[cfg(test)]
mod new_files;
#[cfg(test)]
mod released_pages;
#[cfg(test)]
mod stamped_leader;
