//! Sectors with their three records, what happens to them, and the machine as the layers above see it.
//!
//! Come here for what a sector, a label and an address are; and when you write a call that is given a machine, for its frame, its faults
//! and what it may have done.
//!
//! Below it stands alto_words. A pack is a shape and a list of sectors. A machine is seen as one record, its
//! *tape*: the sectors that it began with, the events since then (record writes and shown bytes), the keys left, and
//! counts. Where the machine is *modelled* (`told`), its pack is the first one with the record writes of the events done in order.
//! To all layers above, for every machine, by its tape (of one that isn't modelled this speaks of its shape, its record writes and its
//! faults alone):
//! 1. No call takes an event back or changes the shape (`Grown`).
//! 2. A call that is given a disk shows nothing and takes no key; one that is given keys or the display touches no
//!    sector (`DiskAlone`, `KeysAlone`, `ShowAlone`).
//! 3. A device's fault is answered only where its own count rose (`failed`), and at each other answer the count is as it was
//!    (`unfailed`): a fault that came is answered. Here and above a count *rose* too where it stands at 2^64 - 1, its type's end, and stays
//!    there (`Rose`). Of calls above `HasCause` says both of the disk.
//! 4. On a modelled machine a sector command's record writes are a prefix of its plan's for every answer, all of it at
//!    Ok, and none where a checked word differs (`Ran`).
//! 5. Record writes may be held back until `flush`, and nothing can be shown before all are handed on (`handed_on`). `settle` is a barrier
//!    for a machine that loses power. Texts that are shown may be held back until `flush_display` (`displayed`), and keys are read only
//!    once they are displayed, unless a whole line is there (`waits`). Keys come by `read`, or by `read_piece`, which goes past no line's end.
//! 6. `read_front` is the command that reads a sector whole, of which header and label alone are handed on (`RanFront`).
//! And of packs: where record writes go, by what the sectors were before them (`WritesIn`).
#![tactic(auto)]

mod check;
mod label;
mod laws;
mod records;
mod shape;
mod traits;
mod words;

pub use check::{first_mismatch, update_memory};
pub use label::{
    bytes_in, is_free_label, label_of, next_link, page_of, previous_link, right_header,
};
pub use laws::label_reads_back;
pub use records::{Act, Event, Front, Page, Place, Plan, Sector, Tally};
pub use shape::Shape;
pub use traits::{Console, ConsoleError, Disk, DiskError, LINE_END, Machine, Tape};
pub use words::{PAGE_BYTES, bytes_into_words, put_in_words, words_into_bytes};
