//! Look-up and hints: which entry an operand means and where it stands, what of it stays known, and which hints mislead.
//!
//! Come here when you seek an entry or a page, answer that a hint misled, or hold on to a file that was found while others are written.
//!
//! The laws of look-up: a walk that meets the slots of a directory one at a time finds the entry that an operand means; its slot is one
//! of the directory's, its address word is a hint, and its file and name are the model's.
//!
//! The laws of hints: true ones never mislead; a label that was read and isn't that of the page which is wanted shows that the word
//! which was followed misleads; and one that misleads after some record writes misled before them.
//!
//! Below it stands laws_operation, with those of whole operations.
//!
//! To cite a law: `use Rattle.laws_lookup.proofs.hints.Laws.{true_hints_never_mislead}`.
#![tactic(auto)]

pub mod before;
pub mod dropping;
pub mod entering;
pub mod hints;
pub mod names;
pub mod others;
pub mod own;
pub mod slots;
pub mod sources;
pub mod stays;
