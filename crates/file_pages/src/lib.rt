//! Calls on files that write, each of them one operation.
//!
//! Below it stand label_check, hint_cache and leader_page, page_seeking with the names of files, and the laws of calls. Come here to make a
//! file, to title or to stamp one, to put bytes in the place of others or after them, to cut one or to drop one; and for a value write of
//! one page as an operation, on which calls on directories stand (`write_page`). The calls that read, `locate`, `length`, `read_part` and
//! `read_all` of page_seeking, are handed on, so that all eleven calls on files come from here. To the layers above, on every machine:
//! 1. A fault comes only where its count rose, at each other answer the count is as it was, and Beyond comes only from `put` and `cut`
//!    (`cause`). Misled of a new file names an address that was given for it, and of another call a hint of the file, an address that the
//!    call was given, or the sector in which it had found a page of the file itself (`given`). Nothing is shown, and no key is taken
//!    (`alone`).
//! 2. The table of busy bits keeps its length (`sized`), or is as it was (`table`), and the count of notes that were refused never falls
//!    (`refused`): such a note is passed over.
//!
//! And where the machine is modelled, whatever the pack and the answer are:
//! 3. No header is written. Each record write is in a page of the file; of a new file in a free sector; of a growth in a free one or in a
//!    page that ends the file (`frame`). At Ok the sectors that were given as free were so (`were_free`). After a cut or a drop each bit of
//!    the table is as it was, or free as its sector is (`bits`). A title, a stamp and a `put` wrote nothing, unless they answer Ok or
//!    DiskFault (`unwritten`).
//!
//! And where the pack is whole and tidy besides, and the arguments are as the contract's premises say:
//! 4. The call does one operation: at Ok all of its record writes, at every other answer a prefix of them, and the tally counts the
//!    operation if and only if the record that commits it was written (`operates`). A drop is so except for the slot of its entry
//!    (`releases`), and its record writes do what the operation's do (`goes`). Which record writes they are is also said one by one, of
//!    directories too: of a title and a stamp on any pack (`titles`, `stamps`), of a `put`, a cut and a drop on a whole one (`puts`, `cuts`,
//!    `drops`), and of a growth with the words that come after the bytes (`grows`).
//! 5. A new file's pages are in the sectors that were given for them (`placed`), and listed, unless a note was refused (`listed`).
//! 6. `put` refuses bytes that would end after the file, and words after bytes that don't end it, with nothing written (`beyond`, `last`);
//!    a cut is refused only past the file's end (`beyond`).
//! 7. Misled comes only where a hint of the file misled as the call began, of a new file never (`misled`), and of no file where all links
//!    are true (`true_links`). It names the address that the file is named with or a next link of it (`hint`); of a growth that is said by
//!    `misled` alone.
//! 8. With true links a cache that was handy for a file is so on the pack afterwards (`handy`), and where all hints of the file are handy,
//!    few sector commands are taken (`quick`); of a new file and of a growth only if no note was refused. A page that goes takes three
//!    (`runs`). A growth leaves the page that the leader names (`named`), and from there a stamp takes at most one a page (`climbs`).
//!    Whatever the leader names, a growth takes few if the last page is the highest that the cache lists (`near`), as after a growth
//!    (`highest`).
//!
//! Not promised: that the sectors for new pages are free where the machine isn't modelled. Such a call answers Misled.
#![tactic(auto)]

mod claims;
mod cutting;
mod dropping;
mod ends;
mod growing;
mod last_words;
mod leaders;
mod making;
mod new_hints;
mod new_pages;
mod one_value;
mod putting;
mod refs;
mod releasing;
mod tallying;

pub use cutting::cut;
pub use dropping::drop_file;
pub use growing::grow;
pub use leaders::{stamp, title};
pub use making::make;
pub use one_value::write_page;
pub use page_seeking::{FileError, FileRef, length, locate, read_all, read_part};
pub use putting::put;
