//! Tests of machines over real pack files: which calls a sector command makes, and sessions; with an outside that notes what it is asked,
//! and fails, is short or is interrupted where it is set to. What is seen from outside of the built program is in check/edges.py.
//!
//! What is expected here was worked out by hand from the rules of pack files and commands, and never taken from a run.
//! There is nothing to call.
#![tactic(auto)]

#[cfg(test)]
mod outside;
#[cfg(test)]
mod power;
#[cfg(test)]
mod real_files;
#[cfg(test)]
mod samples;
#[cfg(test)]
mod two_drives;
