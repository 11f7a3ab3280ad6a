//! The laws of zones: the blocks in the words of a memory, as they are taken and given back, and as levels go and come back.
//!
//! Come here when you write a call on the words of a memory, or a line or program that has one. A zone is a row of blocks, and only in a
//! memory words: so each law says what becomes of the blocks, or which words they are.
//!
//! What lines make of the blocks fills the zone still (`blocks`, `levels`). A memory with a zone is its user's words, those of its blocks
//! and zeros, and the other way such words are a memory (`memories`). A loop over tags is a walk over blocks (`walks`). Other blocks in the
//! place of some, and a zone that ends elsewhere, leave the rest of the memory (`places`); so does another word in the place of one that may
//! be stored to (`words`).
//!
//! Below it stands world_model.
//!
//! A law function is public, has an empty body and one clause, the law; its lemma has the same name, and its statement has it in
//! capitals. To cite a law: `use Rattle.laws_zone.proofs.walks.Laws.{walks_go_on}`. Lemma files right in proofs/ are cited by other crates
//! too: `Walking` has the invariant of a loop that knows something of the blocks that it has passed. Those in proofs/inside/ no other crate
//! can name.
#![tactic(auto)]

pub mod blocks;
pub mod levels;
pub mod memories;
pub mod places;
pub mod walks;
pub mod words;
