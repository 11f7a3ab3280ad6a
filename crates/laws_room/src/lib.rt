//! How many sectors are in use, free and needed, and which packs can be scavenged.
//!
//! Come here when you count sectors: whether a line has room before it writes, what is free after it, and whether a pack can be scavenged.
//!
//! The laws of counts: which sectors are available, how many a pack needs, and which record writes keep what a scavenge keeps.
//!
//! The laws of room: which packs the Scavenger takes, by the model that they are read as; the free sectors of whole packs; and how
//! many sectors an operation takes into use.
//!
//! Below it stands laws_operation, and page_alloc for its definitions.
//!
//! A law function is public, has an empty body and one clause, the law; its lemma has the same name, and its statement has it in
//! capitals. To cite a law: `use Rattle.laws_room.proofs.entering.Laws.{free_slots_made_one_keeps}`. Lemma files right in proofs/
//! are cited by other crates too; those in proofs/inside/ no other crate can name.
#![tactic(auto)]

pub mod entering;
pub mod keeping;
pub mod marks;
pub mod numbers;
pub mod rooms;
pub mod shown;
pub mod uses;
