//! The laws of what packs mean: lemmas over pack_model by topic, in proofs/, and law functions.
//!
//! Come here when you prove something of what a pack is read as, viewed as or carries, and no write is in question; and for the rules by
//! which runs, histories and turns are put one after another.
//!
//! What single record writes leave of a pack stands in laws_record, which is built on this crate, so that a new law of theirs proves
//! no program anew.
//!
//! Below it stand the definitions of pack_model.
//!
//! A law function is public, has an empty body and one clause, the law; its lemma has the same name, and its statement has it in
//! capitals. To cite a law: `use Rattle.pack_laws.proofs.files.Laws.{first_is_bears}`. Lemma files right in proofs/ are cited by
//! other crates too; those in proofs/inside/ no other crate can name.
#![tactic(auto)]

pub mod files;
pub mod guards;
pub mod meanings;
pub mod names;
pub mod puts;
pub mod tallies;
pub mod turns;

pub use puts::value_write_is_the_put;
