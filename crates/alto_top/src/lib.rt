//! The top call: a pack is booted, listed, scavenged or formatted, or its second drive is prepared, by the words of a command line.
//!
//! Come here when you change what the program does for a word. Below it stand session_boot for a session of typed lines, pack_reading for the
//! listing, scavenger for scavenging, disk_descriptor for formatting and preparing, and the definitions of pack_model and session_model, by
//! which all of it is said.
//!
//! To whoever starts it, for every machine that is modelled (`told`):
//! 1. `boot` is a session of session_boot (`does` of `alto`). Whatever stands on the pack, a record is written only after a key was taken, and
//!    a key is taken only of a pack with a clean first page of DiskDescriptor. With all words but `format` and `prepare` sector 0, sectors
//!    with a wrong header and all headers stay (`frame` of `alto`).
//! And of `show`: at Done the shown bytes are the listing of what the pack shows, for every answer a prefix of it, and nothing is
//! written (`shown` of `show_pack`).
//! And of `scavenge`, on any pack whatever: at Done the pack is sound and clean, all its hints are true, it shows what it showed, and the report
//! of what was found and done is shown; at CannotScavenge, which comes only of a pack that is refused, nothing was written and the text says why.
//! At each crash point it shows what it showed, and one that could be scavenged can be; the first record write opens the mark as a session
//! does; sector 0, sectors with a wrong header and all headers stay (`scavenges` of `scavenge_pack`).
//! And of `format`: at Done the pack is the one that formatting writes, whatever stood there, and the number of its free sectors is shown;
//! for every answer a prefix of the record writes and of the text was done (`formats` of `format_pack`).
//! And of `prepare`, on two drives: at Done each sector of the second drive is free, none of the first has changed, and the number of
//! sectors is shown; if no sector of the second drive carried a page, each crash point shows what stood before (`prepares`, `shows` of
//! `prepare_pack`). On one drive it is `usage`.
//! And for every machine: no text is shown while record writes are held back, and unless a fault or out of memory is answered all are handed on
//! at the end, and all that was shown (`ends` of `alto`). Whoever adds a word has the disk hand them on before it shows: by `flush_disk`, or by
//! `settle_disk`, which waits for the device, for a word that opens no mark. And whoever asks for one of the words by itself has the display hand on what was shown (`flush_display`).
//! And for every machine: DiskFault, KeyFault and DisplayFault come only where their own count rose, and where none of them and not Memory is
//! answered no count rose (`ends` of `alto`).
//! And of the words: which of them may write the pack (`writes`, `reads` of `may_write`), so that of the others the pack is opened for reading
//! alone.
//! And for every machine: with words other than `boot`, `show` or `scavenge` alone, or `format` or `prepare` with a number no record write is
//! counted, and no fault except the display's (`touches`); where it is modelled, no sector command is run, nothing is written and no key is
//! taken (`does` of `alto`).
//! Not promised: that memory is left; how long anything takes, except the number of sector commands of `show` and `prepare`.
#![tactic(auto)]

mod faults;
mod flushing;
mod formatting;
mod listing;
mod preparing;
mod row;
mod scavenging;
mod show;
mod top;

pub use formatting::format_pack;
pub use preparing::prepare_pack;
pub use scavenging::scavenge_pack;
pub use session_boot::{Fault, Status, boot, flush_display};
pub use show::show_pack;
pub use top::{alto, may_write};
