//! What a call knew that stays known over another operation of its line; a drop and the leaving of its entry as one step; and the file that
//! a sweep finds by its serial.
//!
//! Come here when you write a line of several operations: a file that was looked up before the first of them is found still before the
//! last, a name that was free is so still, and a drop by two calls, one that releases the file's sectors and one that frees its entry's
//! slot, is one operation of the line.
//!
//! The laws of keeping: files that were found stay found over each operation, except the file that is dropped and one found by the entry that
//! leaves, and over the open mark and a new serial. The laws of lines: so they do over several operations, by what the model says of each,
//! or by the operations alone; and so do the files of open streams over each line of a session.
//!
//! By the model alone, the laws of entries: the entry that a name means, over operations on bytes and leaders and over widenings. The laws of
//! names: a name that no entry has, and the room for one. The laws of lengths: that of a file in which bytes are put, that of a new one, and
//! the last page that a leader names.
//! The laws of parts: the model after a line, and its pages, by its first operations and the others. The law of runs: a run has as many
//! record writes as moves.
//!
//! The laws of a drop by two calls: after the releases the entry stands in its directory as before; and the value that frees its slot, as
//! read then, is the rest of the drop, a break within either being a prefix of it.
//!
//! The laws of hints: none on the disk means a file that is to be made; and one hint, also between the two calls of a drop, misled as the
//! line began where it misleads later.
//!
//! The law of a file by its serial: the least full name with the serial, of the leaders that a sweep meets, is the model's file.
//!
//! A law function is public, has an empty body and one clause, the law; its lemma has the same name, and its statement has it in
//! capitals. To cite a law: `use Rattle.laws_steps.proofs.keeping.Laws.{written_keeps_found}`. Lemma files in proofs/inside/ no other
//! crate can name. Below it: `laws_call`, `laws_midway`, `page_seeking` and `session_model`.
#![tactic(auto)]

pub mod dropping;
pub mod entries;
pub mod hints;
pub mod keeping;
pub mod lengths;
pub mod lines;
pub mod names;
pub mod parts;
pub mod runs;
pub mod serials;
