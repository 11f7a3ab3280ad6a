//! What one write of one record changes, and what it doesn't.
//!
//! Come here when you write one sector by one guarded command and ask what it leaves of the pack; and for the slots of a directory.
//!
//! The laws of record writes: which leave a pack as it is read or viewed, and which carry out operations. With them stand those of
//! the slots of a directory.
//!
//! The laws of whole packs: a pack is whole by the sentences, asked of all sectors, if and only if each of its files lies as a whole
//! one does.
//!
//! Below it stands pack_laws, with the laws of sights, files and runs.
//!
//! A law function is public, has an empty body and one clause, the law; its lemma has the same name, and its statement has it in
//! capitals. To cite a law: `use Rattle.laws_record.proofs.chains.Laws.{runs_chain}`. Lemma files right in proofs/ are cited by
//! other crates too; those in proofs/inside/ no other crate can name.
#![tactic(auto)]

pub mod chains;
pub mod directories;
pub mod entries;
pub mod hints;
pub mod quiet;
pub mod sentences;
pub mod slots;
pub mod steps;
pub mod views;
