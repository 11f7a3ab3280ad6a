//! The Scavenger: any pack that it doesn't refuse, whatever stands on it, becomes sound and clean and shows what it showed.
//!
//! Come here to mend a pack: one that wasn't closed, one with hints that mislead, or one that is damaged. Below stand scav_pages and
//! scav_names, which mend its pages and names, scav_table, label_sweep, and disk_descriptor, which writes DiskDescriptor; and laws_session,
//! which the laws alone cite.
//! To the layers above, where the machine is modelled, for every pack whatever:
//! 1. A pack that can't be scavenged is refused with nothing written: its sector 1 has a wrong header, or is in use by another page than
//!    SysDir's leader, or more sectors are needed than are available, in this order; and no other pack is (`answers`, `silent`).
//! 2. At each crash point, whatever the answer, what is shown is as before, and a pack that can be scavenged can be scavenged again; it is
//!    clean with a record write only if it is sound (`safe`).
//! 3. At Ok the pack is sound and clean, all its hints are true, its last serial is the one of the rule, and as many sectors are free as were
//!    available less those that were needed (`done`); the report is that of the pack before (`answers`).
//! 4. Its record writes are those of a scavenge in a session: the first opens the mark as a session does (`opens`); from it on each crash point
//!    keeps what a scavenge keeps with a mark that isn't clean, and the last one, if it came to that, ends it (`writes`). Sector 0 and each
//!    sector with a wrong header keep all of their records, and every other sector its header (`frame`).
//! 5. If a line of a session asks for it, it is the turn over that line: at Ok a whole one once its report is shown, else one that broke off
//!    (`laws`).
//!
//! On every machine a fault is answered only if its count rose, and at each other answer the count is as it was (`cause`).
//! Not promised: that memory is left; how long it takes. On a machine that isn't modelled, a sector that shows another page than a moment ago
//! ends the work early, as out of memory.
#![tactic(auto)]

mod counting;
mod counts;
mod describing;
mod descriptor;
mod errors;
pub mod laws;
mod map;
mod mark;
mod refusing;
mod scavenging;
mod system;

pub use errors::{Report, ScavError};
pub use scavenging::scavenge;
