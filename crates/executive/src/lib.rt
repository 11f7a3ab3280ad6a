//! Typed lines on an open pack: what each is answered, and what it leaves. The lines that only read, `list`, `type`, `stat` and `free`, stand
//! here.
//!
//! Come here to obey a line in a session. Below it stand the lines that write (exec_writing), those on the memory, the level and the moment
//! (exec_memory), what lines share (exec_session), the calls that read directories, leaders and bytes, and the grammar and the texts of lines
//! (exec_words). A session begins and ends by exec_session's calls. To the layers above, on every machine:
//! 1. The session stays well formed (`formed`), its tally counts up to the limit that it was given (`limit`), a disk fault is answered if
//!    and only if one came (`cause`), and the disk is lent alone (`alone`).
//!
//! And where the machine is modelled:
//! 2. A line that the model refuses, and not a hint, writes nothing (`unwritten`); nor, by `turns`, does a line that only reads. On any pack,
//!    sector 0 and each sector with a wrong header keep all of their records, and every header stays (`frame`).
//! 3. Each line is a turn of the session, from each state for which what the session keeps is right (`turns`): its text, the refusals in
//!    their order, a hint that misled, its record writes as its operations make them, all of them at Done and Quit and a prefix else, what is
//!    counted of them, and for `type` and `append` few sector commands where hints are handy. A line whose verb isn't built yet is a bad line.
//!
//! Not promised: that memory is left for a text, or for the slots of a listing; that a line which writes is taken back if its text finds none.
#![tactic(auto)]

mod free;
mod list;
mod obeying;
mod order;
mod stat;
mod type_out;

pub use exec_session::{OpenError, Session};
pub use exec_words::{Line, Refusal, Reply, read_line, reply_text};
pub use obeying::obey;
