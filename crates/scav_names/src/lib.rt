//! The names of a pack, read into memory and mended: the Scavenger's work on the entries of directories.
//!
//! Come here to know which entries of a pack are kept, which ones SysDir lacks, and how many pages it gets for those; and, when the pages
//! of the pack are mended, to give each living file its one entry. Below stand scav_table with scav_pages, whose passes go along all pages,
//! label_check, leader_page, dir_slots, and kept_names with the rule of the one scan. What is kept in memory grows with the names and slots
//! of a pack, and not with its pages. To the layers above, where the machine is modelled, of any pack:
//! 1. `read_names` reads its names into a `Catalogue` (`names`). It fails by a fault or for want of memory alone (`found`, `cause`), and
//!    writes nothing (`silent`). The sectors that it gives are ones that the disk has, on every disk (`sectors`).
//! 2. `part_entries` parts the entries into those that are kept and the others, both system files taken for living (its one clause).
//! 3. `root_rooms` makes SysDir's free slots those that it will have when names are entered (`rooms`), `lacking` gives the entries that it
//!    lacks then, in their order, and `widens` the number of pages that it gets more for them (each in its one clause).
//!
//! And of a pack that can be scavenged and whose pages are mended, `mend_names`:
//! 4. At each crash point, whatever the answer, also between two entries, what is shown is as before, and so are the available sectors less
//!    the needed ones; the pack can be scavenged; it isn't clean if it had no clean mark before (`kept`, `unclean`).
//! 5. At Ok the pages are mended still, every entry is kept, every living file has one, and every address is true (`mended`).
//! 6. The answer is the number of files that got a name, the system files aside (`adopted_is`).
//! 7. Whatever the answer, each record write changes what stands: no label is written that stands already, and no value either, except in a
//!    free sector or with its sector's label (`changes`). On any pack, sector 0 and each sector with a wrong header keep all of their records,
//!    and every other sector its header (`frame`).
//!
//! All others touch no disk. On every machine a fault is answered only if its count rose, and at each other answer the count is as it was
//! (`cause`).
//! Not promised: which memory is taken, and that no list of pages is kept beside names and slots; no clause says it. On a machine that isn't
//! modelled, a sector that shows another page than a moment ago ends the work early, as out of memory.
#![tactic(auto)]

mod addresses;
mod catalogue;
mod enter;
mod entering;
mod freed;
mod lacked;
mod living;
mod mend;
mod parted;
mod placed;
mod read;
mod rooms;
mod root;
mod unkept;
mod widen;
mod widening;
mod words;

pub use catalogue::Catalogue;
pub use freed::root_rooms;
pub use lacked::lacking;
pub use living::Living;
pub use mend::mend_names;
pub use parted::{Parted, part_entries};
pub use placed::PlacedEntry;
pub use read::read_names;
pub use rooms::Rooms;
pub use widening::widens;
