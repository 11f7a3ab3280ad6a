//! What a file holds, by the values of its pages.
//!
//! Come here when you have read values of a file's pages and answer its bytes, words, length or leader.
//!
//! The laws that lead from sectors that were read to what a pack means: which of a sector's bytes count, where they stand in a file's
//! bytes and words, where a file ends, and what the files of the model are. They hold on any pack unless they say more; on one that
//! carries no page twice whichever sector carries a page is its place.
//!
//! Data pages are counted from 0 here, as in the definitions: data page k has the number k + 1 in its label.
//!
//! Below it stands laws_record, with those of one record write.
//!
//! A law function is public, has an empty body and one clause, the law; its lemma has the same name, and its statement has it in capitals.
//! To cite a law: `use Rattle.laws_contents.proofs.pages.Laws.{labels_count}`. Lemma files stand in proofs/inside/, where no other crate
//! can name them.
#![tactic(auto)]

pub mod bytes;
pub mod ends;
pub mod model;
pub mod pages;
pub mod words;
