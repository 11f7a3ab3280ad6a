//! A session from the opening of a pack to its closing: typed lines are taken and obeyed in order, and each reply is shown.
//!
//! Come here when you change how a pack is opened, how lines are taken, or how a session ends. Below it stand the Executive, which obeys one
//! line, and the laws of sessions, by which the turns of the lines are a history. To the layers above, of each machine that is modelled:
//! 1. On a pack that is sound and clean either a session opens, or one text says which hint misled on the way to a system file, a prefix of it
//!    where the display failed, or the disk failed or no memory was left before either (`booted`).
//! 2. What is shown in a session are the texts of its turns and nothing else; each crash point shows the model after as many operations as
//!    the ruler says, every acknowledged one among them, and can be scavenged; the tally counts the history from the limit that was given.
//! 3. At Done the pack is sound and clean and read as the last model; with true hints no turn failed, and they are true again.
//! 4. On a pack that isn't ready and carries no page twice, as a sound one whose mark isn't clean, one text says why, a prefix of it where the
//!    display failed, and none where the disk failed or no memory was left; nothing is written and no key is taken.
//! 5. On any pack whatever a key is taken only where a sector carries DiskDescriptor's page 1 with the clean mark and the right words
//!    (`entered`), and a record is written only after a key was taken (`unread`). Sector 0 and each sector with a wrong header keep all of
//!    their records, and every header stays (`frame`).
//!
//! And of every machine: no text is shown while record writes are held back, and unless a fault or out of memory is answered all are handed on
//! at the end (`handed_on`); texts may be held back then (`flush_display`). Keys that may have to be waited for are read only once all texts
//! are displayed. A fault comes only where the count of its own device rose (`cause`), and where neither a fault nor out of memory is answered
//! no count rose (`unfailed`);
//! Usage and CannotScavenge, which are statuses of other words, are never answered (`answers`).
//! Not promised: that memory is left; that no command follows a failed one, which a tape doesn't tell.
#![tactic(auto)]

mod booting;
mod console;
mod keys;
mod line;
mod opening;
mod status;
mod text;

pub use booting::boot;
pub use console::{flush_display, show_all};
pub use status::{Fault, Status};
pub use text::{push_spaced, push_with_number};
