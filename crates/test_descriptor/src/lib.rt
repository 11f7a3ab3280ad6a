//! Tests of what DiskDescriptor says: opening a pack by its words, its mark and serials, and the values of its pages, over a formatted pack in
//! memory.
//!
//! What is expected here was worked out by hand from the layouts, and never taken from a run. There is nothing to call.
#![tactic(auto)]

#[cfg(test)]
mod failing;
#[cfg(test)]
mod opening;
#[cfg(test)]
mod values;
