//! Tables of typed lines with what they are read as, of lines as values, and of replies with their texts.
//!
//! Below it stands exec_words. No line is obeyed here. What is expected was worked out by hand from docs/formats.md, and never taken from
//! a run. There is nothing to call.
#![tactic(auto)]

#[cfg(test)]
mod lines;
#[cfg(test)]
mod texts;
#[cfg(test)]
mod typed;
#[cfg(test)]
mod written;
