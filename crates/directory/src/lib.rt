//! Directories: names, and the files that they mean.
//!
//! Below it stand dir_slots, with a walk over the slots of a directory, page_seeking, by which its pages are sought, file_pages, by which
//! they are written and come, and laws of look-up and of calls. Come here to find a file by its name, to see which slots a directory has,
//! to enter a file in one or take its entry out, or to widen one. A directory is named by a `FileRef`, as any file. To the layers above, on
//! every machine:
//! 1. A fault comes only where its count rose, at each other answer the count is as it was, and Beyond never comes (`cause`). The table of
//!    busy bits stays (`table`), or at Ok of a widening keeps its length (`sized`), and the count of notes that were refused never falls
//!    (`refused`).
//! 2. Misled names a hint of the directory: the address that it is named with, or a next link of it (`hint`). A call that writes may also name
//!    the sector in which it found a page itself, or the one that a widening was given (`given`); where the machine is modelled, an entering
//!    or a leaving doesn't.
//!
//! And where the machine is modelled, with any words in hints:
//! 3. A call that reads writes nothing (`looks`), takes no more sector commands than n and 54 for each page n of the directory, from its
//!    leader on (`pages`), and is out of memory only if it takes an allocator (`want`). An entering or a leaving
//!    writes no header, and only in sectors that carried a page of the directory as the call began, whatever it answers; a widening only in
//!    one whose page ends the directory and in free ones (`frame`), and at Ok the sector that it was given was free (`was_free`).
//! 4. Hints that were handy with true links are so on the pack afterwards (`handy`): after a widening at Ok, and unless a note was refused.
//!    Where they are handy for the directory, few sector commands are taken at Ok, by a call that reads one for each data page and one more,
//!    unless a note was refused (`quick`); and as few by a look-up of a name that is absent (`quick_absent`).
//!
//! And where besides the directory was found on its pack (`DirIsFound`):
//! 5. What is answered is what the slots of the directory say (`found`), and a name is absent exactly if no slot has it (`absent`). The cache
//!    lists the directory's last page then, or after a widening the page that came, unless a note was refused (`listed`).
//!    An entering writes the values with which the words of the entry come into the first room for it, a prefix of them where it isn't Ok,
//!    whatever file the entry is of (`enters`).
//! 6. Misled comes only where a hint of the directory misleads (`misled`), and from a look-up only with a place on the disk (`on_disk`).
//!
//! And where the pack is whole and tidy besides (`DirStands`), and the arguments are as the contract's premises say:
//! 7. A call that writes does one operation: at Ok all of its record writes, at every other answer a prefix of them, and the tally counts
//!    the operation if and only if the record that commits it was written (`operates`). A name is taken or there is no room for it only if
//!    the slots say so (`taken`, `full`), and after a refusal by the slots nothing was written (`unwritten`), nor after Misled by an entering
//!    or a leaving (`quiet`). A widening makes the record writes of a growth by a free slot's bytes (`widens`). `free_slot` makes the record
//!    write with which a drop ends (`frees`), also on a pack that isn't tidy, and counts nothing. A pack that is tidy except for the entry of
//!    the file that was dropped is tidy then and read as before, links that were true are true, and what is kept of DiskDescriptor fits
//!    (`ends`).
//! 8. Where all links are true besides, Misled never comes (`true_links`), of `free_slot` also on a pack that is tidy except for the entry of
//!    one file (`TidyBut`), as a drop leaves it.
//!
//! Not promised: that the address of a file that was found is that of its leader. Who follows it checks it by the label that stands there.
#![tactic(auto)]

mod answers;
mod entering;
mod entry;
mod entry_words;
mod errors;
mod finding;
mod free_row;
mod leaving;
mod names;
mod place;
mod placing;
mod runs;
mod slots;
mod versions;
mod walk;
mod widening;

pub use entering::enter;
pub use errors::{DirError, ListError};
pub use leaving::{free_slot, leave};
pub use names::lookup;
pub use page_seeking::{FileError, FileRef};
pub use runs::room;
pub use slots::list;
pub use versions::{VersionFound, greatest};
pub use widening::widen;
