//! Streams of bytes over files: what is kept of an open one.
//!
//! Come here when you write what a session keeps. Below it stand alto_words and page_seeking. It has no function.
#![tactic(auto)]

mod state;

pub use state::StreamState;
