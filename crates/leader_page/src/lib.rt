//! Leader pages: what stands in the value of page 0 of a file.
//!
//! Come here when you read or write the leader page of a file: its name, its dates, its hints.
//!
//! Below it stand alto_words, disk_records and the definitions of pack_model. A `Leader` is seen as the record of its fields; `said`
//! is the leader that pack_model speaks of, with the hints apart. To the layers above:
//! 1. `decode` answers a leader if and only if words 6 to 25 spell a stored name, and then the one that the value says for every
//!    full name (`IsDecoded`). It believes no hint and refuses none.
//! 2. `of_file` answers that leader for a file, and where no stored name is spelled the one under its lost name (`leader_of` of
//!    pack_model), so that who reads packs needs no places of words.
//! 3. `encode` gives the value of a leader, word for word (`value`), and that value says this leader with these hints (`says`).
//! 4. `name_words` gives words 6 to 25 of the value of every leader with that name (`name`).
//! The `laws`: what was encoded is decoded as the same leader (`reads_back`), and what was decoded is encoded as the same words
//! where the bytes after the name are 0 (`writes_back`); a title changes the name alone, a stamp the written date alone.
//! Not promised: that a hint is true.
#![tactic(auto)]

mod laws;
mod leader;

pub use laws::{
    length_value, reads_back, stamp_changes_the_written_date, title_changes_the_name,
    value_says_its_leader, writes_back,
};
pub use leader::{Leader, name_words};

#[cfg(test)]
mod tests;
