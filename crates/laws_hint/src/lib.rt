//! When hints and the map are true, and that closing leaves them so.
//!
//! Come here when a call hands on that hints are true: links and the map over a line, and closing, which writes the map.
//!
//! The laws of all hints together, on whole and tidy packs: closing with the true map leaves all of them true, where the links are
//! and the mark isn't clean, and a line whose operations each leave true links true does so as a whole.
//!
//! The laws of the allocation map: what it is for a map to be true, its words, which of its bits an operation changes, and closing
//! with any map.
//!
//! The laws of a session: the table in memory while sectors are reserved, claimed and released; true hints from opening to closing;
//! and handy hints, which stay handy.
//!
//! Below it stand laws_line and laws_lookup, and hint_cache and page_alloc for their definitions.
//!
//! A law function is public, has an empty body and one clause, the law; its lemma has the same name, and its statement has it in capitals.
//! To cite a law: `use Rattle.laws_hint.proofs.changes.Laws.{claims_and_releases_mark_free_table}`. Lemma files stand in proofs/inside/,
//! where no other crate can name them.
#![tactic(auto)]

pub mod changes;
pub mod closing;
pub mod handy;
pub mod lines;
pub mod meanings;
pub mod tables;
pub mod truth;
pub mod words;
