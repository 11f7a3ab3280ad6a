//! What typed lines share: the session, its beginning and its end, why a line isn't done, what the operands of lines mean, the names of new
//! entries, the bytes of files, the slots of streams, and how a line that wrote nothing is a turn.
//!
//! Come here when you write a line, or change what a session keeps. Below it stand the calls on directories, on bytes of files and on
//! DiskDescriptor, whose words a session keeps, its world, the sweep of all labels, and the laws of lines. A line finds its operands and
//! refuses in order by the calls of this crate; one that writes goes on by those of exec_steps, which stands above it. To the layers above,
//! on every machine:
//! 1. What keeps a line from being done is a `Stop`: a refusal, a hint that misled, a disk fault, which is answered if and only if one came
//!    (`cause`), or out of memory. A call that wrote is answered by no refusal (`written`, `entered`).
//! 2. A call that finds only looks: of what a session keeps the cache of addresses alone may be another (`looks`).
//! 3. A session begins with a fresh world and nothing counted (`fresh`). After a scavenge it goes on with its world and its tally, and
//!    without an address (`goes_on`). After a hint failed no stream is open, and a scavenge is needed (`stopped`).
//! 4. A line is refused by itself by the model's first reason for it, if one holds (`refuse_line`), and StreamsOpen comes if and only if a
//!    stream has the file, or any is open (`refuse_streamed`, `refuse_open_streams`). A stream is taken out of its slot, put into a free one,
//!    and the lowest free number found (`OpenStreams`). No line opens one yet (`SessionStreams`).
//!
//! And where the machine is modelled:
//! 5. The calls that find write nothing, are never out of memory (`want`), and hints that were handy with true links stay so (`looks`).
//!    Where they are handy, a path takes few sector commands (`quick`). Nor is anything written as a session begins or goes on (`silent`).
//!    On any pack, sector 0 and each sector with a wrong header keep all of their records at the end, and every header stays (`frame`).
//!
//! And where the pack carries no page twice:
//! 6. A session begins only if no label and no word is against it, and else the first reason is answered, unless a hint misled on the way
//!    (`opens`); on a sound pack what it keeps is right then.
//!
//! And where the pack is sound besides, or for new entries their directories stand:
//! 7. What is found is what the operand means in the model, with an address that stands where it was taken from (`found`), and a refusal
//!    comes if and only if it is the first that holds (`absent`, `refused`, `taken`). A new entry gets the model's name (`given`).
//! 8. A hint that misled is one on the disk, of SysDir or the directory that is named (`misled`).
//! 9. All bytes of a file are read, whether or not its last page is known, in few sector commands where hints are handy (`read`, `quick`).
//! 10. A line that wrote nothing is a turn: by its plain reply, whether or not it leaves another world, by its refusal, or by what stopped it
//!     (`laws`).
//! 11. On a pack that a scavenge has left a session goes on, unless the disk failed or no memory was left (`renews`).
//!
//! Not promised: that the address of a file that was found is that of its leader. Who follows it checks it by the label that stands there.
#![tactic(auto)]

mod answers;
mod begin;
mod contents;
mod end;
pub mod laws;
mod new_names;
mod operands;
mod refusals;
mod serials;
mod session;
mod stop;
mod streams;
mod taking_up;
mod targets;

pub use answers::{answer, stopped};
pub use contents::{bytes_of, length_of};
pub use disk_descriptor::OpenError;
pub use end::quit;
pub use new_names::{name_given, refuse_held_base};
pub use operands::{Found, ROOT, find_dir, find_in, find_path};
pub use page_seeking::FileRef;
pub use refusals::{
    refuse_descriptor, refuse_directory, refuse_open_streams, refuse_streamed, refuse_system,
    require_directory,
};
pub use session::{Session, limit_of};
pub use stop::{Stop, entered, refused, written};
pub use streams::{OpenStreams, SessionStreams};
pub use taking_up::refuse_line;
pub use targets::{find_ordinary, find_target};
