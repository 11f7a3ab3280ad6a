//! The slots of a directory, between words and values.
//!
//! Come here when you read the words of a directory, or write an entry into them.
//!
//! Below it stand alto_words, disk_records, leader_page and pack_model. A directory's words are its bytes in pairs, read as slots
//! from word 0 on. Of a slot,
//!   word 0: its type times 1,024, and its length in words
//! and where the type is 0, it is a free slot of 1 to 1,023 words, of which the others may be any; where it is 1, the entry of a
//! file under a name of n characters, of 6 + (n + 2)/2 words, rounded down:
//!   words 1, 2: the serial, the high word first
//!   word 3: the version
//!   word 4: 0
//!   word 5: the virtual address of the file's leader: a hint
//!   from word 6 on: a byte with n, the characters, and a byte 0 where these n + 1 bytes are odd in number
//! Contracts see a slot as an item of pack_model, and its address apart. To the layers above:
//! 1. `read_slots` gives exactly the slots of the longest prefix that can be read (`items`, and the law `longest_is_read`).
//! 2. What `write_slots` wrote is read back whole (`back`, and the law `reads_back`).
//! 3. `slot_here` reads one slot from 26 words at most, and so from a page at a time; `first_slot` reads that at the head of words
//!    that are all there, so that slots are read one after another with none kept.
//! 4. A `Walk` meets the slots of a directory whose words are given page by page: after each page exactly those that end in what was
//!    given (`meets`, `walked`), each with its place. Over a page's end it keeps 26 words at most, and it takes no memory. A scan may
//!    let it pass over slots that need not be met (`passes`): free ones, entries of bare names other than one, or of all bare names. These
//!    are judged where they stand, with no slot made, and `JudgedPages` keeps what was judged beside the words that it was judged by.
//! 5. `find_room` answers the first room for an entry, and None if and only if no free slots in a row have so many words.
//! Not promised: that an address is that of the leader. Who follows one checks it by the label that stands there.
#![tactic(auto)]

mod codec;
mod judged;
mod laws;
mod others;
mod read;
mod room;
mod slot;
mod walk;
mod write;

pub use codec::slot_here;
pub use judged::JudgedPages;
pub use laws::{longest_is_read, reads_back};
pub use others::Passing;
pub use read::{first_slot, read_slots};
pub use room::{Room, find_room, largest_run};
pub use slot::{MAX_ENTRY_WORDS, MAX_FREE_WORDS, Slot, entry_words};
pub use walk::{PlacedSlot, Walk};
pub use write::write_slots;

#[cfg(test)]
mod tests;
