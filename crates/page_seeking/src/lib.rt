//! Pages of files that are named: they are sought by hints, and each is checked by its label.
//!
//! Below it stand label_check and hint_cache, and laws over pack_model. Come here to read pages of a file. A file is *named* by a
//! `FileRef`: its full name, the address of its leader page, and where that address was taken from. To the layers above, on every disk:
//! 1. A page that is answered is in the buffer, under the sector's right header (`seen`), and the cache lists it, and the page after it at
//!    the sector that its next link names (`listed`).
//! 2. A fault comes only where its count rose, and at each other answer the count is as it was (`cause`). The table of busy bits stays
//!    (`table`), and the count of notes that were refused never falls (`refused`): such a note is passed over.
//!
//! And where the machine is modelled, with any words in hints:
//! 3. Nothing is written, and `locate` takes no more sector commands than the page's number and 53 (`looks`); one, where the cache has the
//!    page (`soon`), whatever notes were refused before.
//! 4. No call that takes no allocator answers Memory (`want`).
//! 5. A sector that is answered carries the page (`stands`), and Beyond comes only after a page that isn't full (`ends`).
//! 6. Misled comes only where a hint of the file misleads (`misled`), if the file's address stands where it was taken from (`FileIsFrom`):
//!    so on packs that are being opened too. As `locate` answers it, the hint is on the disk then, if SysDir's leader is
//!    at its fixed address (`on_disk`).
//!
//! And where besides the pack carries no page twice, as one that is being opened:
//! 7. `read_all` gives the file's bytes (`read`), and `read_part` those from each offset that isn't past the end (`read_once`); the file
//!    isn't longer than `length` says (`most`), and is shorter only where a page is missing.
//!
//! And where the pack is whole:
//! 8. The bytes (`read`), the length (`length`) and the last page (`last`) are the file's, and Beyond comes by its length (`beyond`).
//! 9. With true links, hints that are handy stay handy (`handy`), and the page to go on from is listed (`next`): a file that is read in
//!    parts takes one sector command a page. A page of a file whose pages lie in a row takes two (`row`).
//! 10. The last page takes two with true links and handy hints, if the leader names it (`quick`). It takes three with a handy cache,
//!    whatever the leader names, if it is the highest page that the cache lists (`near`); so it is once it was located (`highest`).
//!
//! Not promised: that hints are true. True ones never mislead; that is a law of laws_lookup.
#![tactic(auto)]

mod ends;
mod leader;
mod links;
mod look;
mod notes;
mod pages;
mod read;
mod refs;
mod seek;

pub use ends::{LastPage, last_page, length};
pub use pages::locate;
pub use read::{read_all, read_part};
pub use refs::{FileError, FileRef};
