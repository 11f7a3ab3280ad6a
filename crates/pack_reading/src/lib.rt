//! What any pack shows: its files and names, whatever stands on it.
//!
//! Come here when you want all that a pack shows, as a listing does, whatever stands on it.
//!
//! Below it stand alto_words, disk_records, label_check, label_sweep, leader_page, dir_slots, kept_names with the rule of the one scan,
//! and the definitions of pack_model. `read_pack` sweeps all labels once and follows no link. Then it works in memory: the bytes of each
//! file by page numbers, the slots of each directory, the one scan of all entries, and the names of nameless files. `read_lengths` does
//! the same for a listing, which shows no byte: of a page of an ordinary file it keeps how many bytes count, and it answers the length of
//! each file.
//! 1. At Ok the files and names are those of `show` of the pack, on every machine that is modelled (`read`).
//! 2. A fault of the disk is answered only where its count rose, and at each other answer the count is as it was (`cause`).
//! 3. Nothing is written, in fewer sector commands than sectors (`looks`).
#![tactic(auto)]

mod bytes;
mod counts;
mod error;
mod files;
mod lengths;
mod pack;
mod scan;
mod settle;
mod shown;
mod sweep;
mod swept;

pub use error::ReadingError;
pub use lengths::read_lengths;
pub use pack::read_pack;
pub use shown::{FileLength, Shown, ShownFile, ShownLengths, ShownName};
