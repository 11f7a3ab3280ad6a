//! Tests of machines over pack files: their bytes, what a sector command reads and writes in them, and what is kept of them.
//!
//! What is expected here was worked out by hand from the rules of pack files and commands, and never taken from a run.
//! There is nothing to call.
#![tactic(auto)]

#[cfg(test)]
mod bytes;
#[cfg(test)]
mod commands;
#[cfg(test)]
mod kept;
#[cfg(test)]
mod samples;
