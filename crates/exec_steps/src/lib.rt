//! The steps of a line that writes: sectors that are reserved, the room of new entries, the mark, pages of directories, new files with
//! their entries, bytes after those of a file, its written date; how steps join, and how a line that is done or broke off is a turn.
//!
//! Come here when you write a line that writes. Below it stand exec_session, which finds what its operands mean and refuses, and the calls
//! on files, directories and DiskDescriptor. A line plans its entries and reserves all of its sectors at once, before it writes. Then it
//! opens the mark, and takes its steps. To the layers above, on every machine:
//! 1. A call that plans only looks: of what a session keeps the cache of addresses alone may be another (`looks`). One that reserves
//!    changes the table of busy bits alone (`same`).
//! 2. What a step may change of a session are its hints, its tally, the mark and the last serial (`works`, `descriptor`). No step is
//!    refused (`unrefused`), and a disk fault is answered if and only if one came (`cause`).
//!
//! And where the machine is modelled:
//! 3. The calls that plan or reserve write nothing (`looks`). A call that plans is never out of memory (`want`), and hints that were handy
//!    with true links stay so. On any pack, sector 0 and each sector with a wrong header keep all of their records in a step, and every
//!    header stays (`frame`).
//!
//! And where the pack is sound, or for new entries their directories stand:
//! 4. A new entry comes after the model's widenings (`planned`).
//! 5. A hint that misled as one was planned is one on the disk, of SysDir or its directory (`misled`).
//! 6. Reserved sectors are free, and Full comes if and only if fewer are, with the model's room (`enough`, `full`); a true table has these
//!    sectors busy besides (`table`).
//!
//! And where the pack was sound as the line began, and the step's premises hold:
//! 7. The mark is opened, and the line is midway with no operation done (`starts`).
//! 8. From wherever the line is midway, a step goes on with it for every answer, and the line is midway at Ok with the step's operations
//!    (`steps`): at most one record write a move, counted by the tally; files that were found are found still; a hint that misleads misled
//!    as the line began, and is one of the step's files.
//! 9. A call that is to do one operation or several is a step with them, and a look is one with none. Two steps in a row are a step with the
//!    operations of both, and a step that isn't done ends what was to come (`laws`).
//! 10. A line of the operating system whose operations are all done is answered by its plain reply; one that broke off made a prefix of its
//!     moves, and is answered by a fault, by out of memory or by a hint that misled (`laws`). The files of open streams stay found over it.
//!
//! Not promised: few sector commands of a line that writes as a whole: each step has its own bound.
#![tactic(auto)]

mod dates;
mod growing;
pub mod laws;
mod making;
mod marking;
mod reserving;
mod rooms;
mod widening;

pub use dates::stamp_file;
pub use growing::grow_file;
pub use making::{enter_file, make_entered};
pub use marking::open_mark;
pub use reserving::{require_serial, reserve_pages};
pub use rooms::{NewEntry, plan_entry};
pub use widening::widen_first;
