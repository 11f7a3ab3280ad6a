//! A whole line: every crash point within it can be mended.
//!
//! Come here when you write a typed line of several operations: its record writes, crash points and end, by what it knew at its begin.
//!
//! The laws of lines, on models: after each operation of a line the files have room, as the Scavenger will find them, and after it
//! every file has a name again.
//!
//! FullModels has the models in which a line that gives SysDir no room first, or puts bytes past a file's end, leaves no room.
//!
//! The laws of crashes: every crash point of a line from a sound pack with the free sectors for it is viewed as its model, can be
//! scavenged, and is clean only where it is sound.
//!
//! The laws of parts and ends: a line that breaks off, closing, and the end of a session, from a sound pack; and what a session keeps
//! of DiskDescriptor.
//!
//! Below it stands laws_room, which counts the sectors of one operation.
//!
//! A law function is public, has an empty body and one clause, the law; its lemma has the same name, and its statement has it in capitals.
//! To cite a law: `use Rattle.laws_line.proofs.after.Laws.{directories_are_read}`. Lemma files stand in proofs/inside/, where no other
//! crate can name them.
#![tactic(auto)]

pub mod after;
pub mod crashes;
pub mod ending;
pub mod fits;
pub mod lines;
pub mod parts;
pub mod sound;
pub mod system;
