//! The pages of a pack, mended: the Scavenger's work on labels, links, ends of files and leaders.
//!
//! Come here to make the pages of any pack whole. Below stand scav_table, whose passes go along all pages in the order of files,
//! label_check, dir_slots and leader_page. It takes no memory: what is kept between two rows is the file in hand, the slot in hand and
//! the sectors of DiskDescriptor's pages. To the layers above, where the machine is modelled and the pack can be scavenged:
//! 1. At each crash point, whatever the answer, what is shown is as before, and so are the available sectors less the needed ones; the
//!    pack can be scavenged; it isn't clean if it had no clean mark before (`kept`, `unclean`).
//! 2. At Ok each good sector is free or in use, and no page is carried twice; sector 1 is SysDir's leader; directories end with their
//!    slots, all files with their last page; DiskDescriptor lives with the length of its format; links are true, and leaders' names can be
//!    read (`mended`). Directories have the slots that they had, and SysDir, if it is made, one free slot of 255 words (`slots_are`, `root`).
//!    Leader pages say what they said, except that a name that couldn't be read is its file's own; those that are made have dates 0
//!    (`leaders`, `fresh`).
//! 3. The answer is the number of sectors that were available and not free (`freed_is`), and as many files will get a name as would have
//!    before (`adopted`).
//! 4. Whatever the answer, each record write changes what stands: no label is written that stands already, and no value either, except in a
//!    free sector or with its sector's label (`changes`).
//!
//! And of any pack:
//! 5. A `FileWalk` that is given the rows in their order says what each is to its file (`met`), and of a file of which no more rows come
//!    whether it lives, how long it is, and whether its last page is missing (`leaves_its_file`, `leaves_the_last_file`,
//!    `left_file_is_known`).
//! 6. Whatever the answer, sector 0 and each sector with a wrong header keep all their records, and every sector its header (`frame`).
//!
//! What the rest of the Scavenger shares with these parts is open to it: a `Stop` says why a part ended early, `next_row` and `next_free`
//! give the next row of a pass and the next free sector, `own_name` and `data_pages` the name and the pages of a file that is made.
//!
//! On every machine a fault is answered only if its count rose, at each other answer the count is as it was (`cause`), and out of memory
//! comes only where a sector command was.
//! Not promised: anything else of a pack that can't be scavenged. On a machine that isn't modelled, a sector that shows another page than a
//! moment ago ends the work early: `mend_pages` answers as if it were done, and `mend_pages_or_stop`, which does the same otherwise, tells it.
#![tactic(auto)]

mod copies;
mod descriptor;
mod directories;
mod directory;
mod ends;
mod errors;
mod files;
mod free;
pub mod laws;
mod links;
mod mend;
mod root;
mod rows;
mod strays;
mod unused;

pub use descriptor::data_pages;
pub use directories::meet_page;
pub use directory::Directory;
pub use errors::Stop;
pub use files::{FileWalk, Met};
pub use free::next_free;
pub use mend::{mend_pages, mend_pages_or_stop};
pub use root::own_name;
pub use rows::next_row;
