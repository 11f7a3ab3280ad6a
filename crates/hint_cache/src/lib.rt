//! Hints: where pages were last seen, and which sectors are free.
//!
//! Come here when you follow an address that was noted, note one, or keep the table of busy bits.
//!
//! Below it stand alto_words, disk_records, dir_slots and the library `lru`, which keeps the entries of a cache. Nothing here is
//! read from a disk or written to one. A `HintCache` is seen as the list of its entries, the most recently used first, and a count of
//! refusals; a `BitTable` as a list of bits, one a sector, in which true is busy. To the layers above:
//! 1. A cache has at most 48 entries, and no two for one page (`kept`).
//! 2. `note` puts its entry in front and drops the last of 49 (`ok`); `recall` brings what it answers to the front (`some`), and
//!    answers None if and only if the page isn't listed (`answer`); `forget` takes one entry out (`out`); `highest_below` answers
//!    the highest page of a file below a number that is listed (`some`, `none`), and the order stays.
//! 3. `note` never refuses a listed page (`listed`). A refusal leaves the list as it is and is counted, and nothing else is
//!    (`err`); the count never falls (`grows`).
//! 4. `to_words` gives a cache as 241 words (`words`), which read back as its list (`reads_back`); `from_words` takes any words
//!    (`entries`), and words of ones list no file (`ones_name_no_file`).
//! 5. Any words make a table; `word` gives a table's words, and each of their bits is the table's (`reads_back`).
//! 6. `pass_others` has a walk pass over slots of a directory that need not be met, as dir_slots promises it (`passes`), and changes
//!    nothing that is seen of a cache (`same`). What it keeps is no hint: the words of a page that it goes by are given with each call.
//! Not promised: that a hint is true. Who follows one checks it by the label that stands there.
#![tactic(auto)]

mod cache;
mod hints;
mod laws;
mod table;
mod words;

pub use cache::{Entry, HintCache};
pub use hints::Hints;
pub use laws::ones_name_no_file;
pub use table::BitTable;

#[cfg(test)]
mod tests;
