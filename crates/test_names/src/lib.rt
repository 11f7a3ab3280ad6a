//! Tests of calls on directories, over a formatted pack in memory; and that pack, which the tests of DiskDescriptor take too.
//!
//! What is expected here was worked out by hand from the layouts, and never taken from a run.
#![tactic(auto)]

#[cfg(test)]
mod calls_not_done;
#[cfg(test)]
mod entering;
#[cfg(test)]
mod leaving;
mod pack;
#[cfg(test)]
mod reading;
#[cfg(test)]
mod widening;

pub use pack::{ROOT, formatted};
