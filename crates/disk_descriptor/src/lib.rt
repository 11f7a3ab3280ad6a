//! DiskDescriptor's words: opening a pack by them, what a session keeps of them and writes, the formatting of a pack, and the preparing of
//! its second drive.
//!
//! Come here when you format, prepare or open a pack, or write DiskDescriptor in a session. Below it stand alto_words, disk_records,
//! label_check, hint_cache, leader_page, dir_slots, page_seeking, the laws of what a file holds (laws_contents), those of hints that
//! mislead (laws_lookup), those of DiskDescriptor's record writes (laws_operation, laws_line, laws_hint), and those of a pack that is
//! formatted or prepared (laws_format). To the layers above, on a machine that is modelled:
//! 1. At Ok of `format` the pack is the one that formatting writes, whatever stood there (`leaves`): sound and clean, all its hints true,
//!    read as the model without files, and free are all sectors after those of the system files.
//! 2. At Ok of `prepare` each sector of the second drive is free, and none of the first has changed (`frees`). Where no sector of the
//!    second drive carries a page, the pack shows at each crash point what it showed before (`shows`).
//! 3. A `Descriptor` fits a pack where what it keeps is so there. `mark_open`, `next_serial` and `close_pack` then make the record writes
//!    of the laws and no others (`opens`, `gives`, `writes`); on a whole and tidy pack it fits at Ok what they leave (`fits`), which
//!    is read as before, except for a new serial, and has true links if the pack had (`reads`).
//! 4. A serial is on the disk before it is given (`gives`, `next`), and is above those of all files that live there (`above`). Spent comes
//!    if and only if none is left, with nothing written (`spent`, `exact`, `refused`). Closing writes the pages from the last to the first,
//!    so that the clean mark comes last (`writes`), and leaves the words of its map with their number of free sectors (`describes`).
//! 5. For every answer the record writes of a call are a prefix of its one list (`writes`, `opens`, `gives`), in a number of sector
//!    commands that is said. Where events are kept ready for the list it is never out of memory; it takes none of its own.
//! 6. So it is with a `Descriptor` that doesn't fit, with the list by what it keeps: each record write is the value of a sector that is
//!    kept and that carried that very page as the call began. Held comes only of one that didn't, with its label, and nothing was written
//!    there or for a page before it; out of memory the first page isn't written (`guarded`).
//! 7. `enter_pack` writes nothing (`looks`) and takes no memory (`want`). On a pack that carries no page twice, whole or not, it refuses in
//!    this order exactly another length, the first word that says another shape, and a mark that isn't clean (`wrong_length`, `bad_word`,
//!    `not_clean`); else its `Descriptor` fits, and the table is the map that stands there (`opened`). Only DiskDescriptor's own hints
//!    mislead it (`misled`), and they are words on the disk (`on_disk`). A whole and tidy pack with true links is opened if its mark is clean
//!    (`true_links`). One that carries a page twice is opened only if a sector that carries page 1 has the clean mark and the right words
//!    (`clean_page`).
//!
//! And on every machine: `format` and `prepare` answer how many sectors are free, or were prepared (`free`, `pages`), `descriptor_page` the
//! words of a page (`value`); what is kept, and the table, are as before after an error (`left`); a fault comes only where its count rose,
//! and at each other answer the count is as it was (`cause`); no key is taken and nothing is shown (`alone`, `looks`).
//! Not said by a clause: that the device is asked to take the mark before anything that comes after it, and all else before the clean mark
//! (`Disk::settle`); what is modelled has taken all. Not promised: what a pack means whose formatting was broken off. It is formatted again.
#![tactic(auto)]

mod closing;
mod descriptor;
mod errors;
mod formatting;
mod fresh;
mod opening;
mod pages;
mod preparing;
mod reading;
mod root;
mod values;
mod words;
mod writing;

pub use closing::write_pages;
pub use descriptor::{Descriptor, MOST_LAST};
pub use errors::{DescError, FormatError, OpenError};
pub use formatting::format;
pub use opening::enter_pack;
pub use preparing::prepare;
pub use root::descriptor_name;
pub use values::descriptor_page;
