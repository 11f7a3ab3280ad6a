//! The pages of a pack while they are mended: what the record writes of guarded commands keep, and when a sector that is needed is free.
//!
//! Come here when you write the part of the Scavenger that mends pages: second copies and stray labels that go, ends of directories, last
//! pages, links, and the leader pages of the system files. What a mending keeps, at each crash point, is `Tends`: what a scavenge keeps,
//! what is viewed, and that there is no clean mark where there was none.
//!
//! The laws of joins: mendings one after another, broken off, and what they come to. The laws of runs: all record writes of one guarded
//! command. The laws of numbers: free and available sectors, how many of them a command frees, and which are there for a page that lacks.
//! The laws of counting: which pages count, which sectors are in use by them, and how far the pages of a file go. The laws of parts: which
//! files, places and parts of a mended pack a command leaves, and all parts put together. The laws of slots: those of directories while
//! names are mended. The laws of widening: a directory that gets a page more meanwhile. The law of closing: what the last
//! record writes of a scavenge leave.
//!
//! Below stand laws_room, which says of one record write that it keeps what a scavenge keeps, laws_record, which says that any pack is
//! read or viewed as before after it, and laws_lookup for what it is that slots come in the place of others.
//!
//! A law function is public, has an empty body and one clause, the law; its lemma has the same name, and its statement has it in
//! capitals. To cite a law: `use Rattle.laws_mend.proofs.joins.Laws.{tends_join}`. Lemma files stand in proofs/inside/, where no other
//! crate can name them.
#![tactic(auto)]

pub mod closing;
pub mod counting;
pub mod joins;
pub mod numbers;
pub mod parts;
pub mod runs;
pub mod slots;
pub mod widening;
