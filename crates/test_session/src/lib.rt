//! Tests of the words of a command line over packs in memory, of `format` and `prepare`, of sessions that begin, and of what a line answers for
//! a call that wrote.
//!
//! What is expected here was worked out by hand from the rules of commands and labels, and never taken from a run.
//! There is nothing to call.
#![tactic(auto)]

#[cfg(test)]
mod answers;
#[cfg(test)]
mod begins;
#[cfg(test)]
mod formats;
#[cfg(test)]
mod obeying;
#[cfg(test)]
mod preparing;
#[cfg(test)]
mod words;
