//! Tests of packs made by hand in memory: what they show that no listing tells, and what faults leave of a listing. Which listing a pack has
//! is a table of check/listings.py.
//!
//! What is expected here was worked out by hand from the rules of files, directories and names, and never taken from a run.
//! There is nothing to call.
#![tactic(auto)]

#[cfg(test)]
mod expected;
#[cfg(test)]
mod listings;
#[cfg(test)]
mod pages;
#[cfg(test)]
mod reading;
