//! Lines that write: those that give names, `make`, `mkdir`, `copy` and `rename`, and those that change an ordinary file, or take one away,
//! `append`, `patch`, `cut`, `delete` and `rmdir`.
//!
//! Come here for what these lines do and answer. Below it stand exec_session, which finds what their operands mean, exec_steps, which plans
//! new entries and has the steps by which they write, and the calls on files and directories. Each call refuses in the order of the replies
//! before it writes, takes all of its sectors at once, opens the mark, does its operations in their order, and answers the text of its
//! line, or why the line isn't done. A copy is a new file with its entry, then its bytes and its date; a rename writes the name in the
//! leader, then the old entry goes, and then the new one comes. A file that an open stream has is neither changed, renamed nor dropped. For
//! other lines that make a file there are the plan of its entry (`plan_named`) and its sectors (`reserve_new`). To the layers above, on
//! every machine:
//! 1. A disk fault is answered if and only if one came (`cause`); the disk is lent alone (`alone`); the session keeps its world, and stays
//!    well formed (`stays`).
//!
//! And where the machine is modelled:
//! 2. A line that is refused writes nothing (`unwritten`). On any pack, sector 0 and each sector with a wrong header keep all of their
//!    records, and every header stays (`frame`).
//! 3. The answer, once its reply is given, is a turn of the session for its line, from each state for which what the session keeps is right
//!    (`turns`): the refusals in their order, the record writes of its operations or a prefix of them, which the tally counts, the text, a
//!    hint that misled, and for `append` few sector commands where hints are handy. Hints that were true stay true.
//!
//! Not promised: few sector commands of a line other than `append`, or that memory is left for the text. A line whose text finds none is
//! done, and answered by Memory.
#![tactic(auto)]

mod add_file;
mod append;
mod copy;
mod cut;
mod delete;
mod dropping;
mod make;
mod measuring;
mod mkdir;
mod new_entry;
mod patch;
mod placing;
mod rename;
mod reserving;
mod rmdir;

pub use append::append_bytes;
pub use copy::copy_file;
pub use cut::cut_file;
pub use delete::delete_file;
pub use make::make_file;
pub use mkdir::make_dir;
pub use new_entry::plan_named;
pub use patch::patch_bytes;
pub use rename::rename_file;
pub use reserving::reserve_new;
pub use rmdir::remove_dir;
