//! The names of a pack while they are mended: what the record writes keep, how the slots of directories stand to the files as the
//! Scavenger finds them, and which entries are lacking.
//!
//! Come here when you write the part of the Scavenger that mends names, once its pages are mended (`PagesMended`): entries that aren't kept,
//! entries that SysDir lacks, and addresses. What such a mending keeps, at each crash point, is `KeepsOpen`: what a scavenge keeps, and that
//! there is no clean mark where there was none.
//!
//! The laws of joins: mendings one after another, broken off, and what they come to. The law of parts: a pack whose pages are mended has all
//! parts of one. The laws of models: the files that the Scavenger finds are those that the pack is read as. The laws of entries: those that
//! stand where they stood, and those that come. The laws of writes: what each record write keeps and leaves. The laws of lacking: which
//! entries are, and room for them.
//!
//! Below stand laws_mend, which says which parts a mending of pages leaves, and laws_room, which says of one record write that it keeps what
//! a scavenge keeps and which entries are lacking then.
//!
//! A law function is public, has an empty body and one clause, the law; its lemma has the same name, and its statement has it in
//! capitals. To cite a law: `use Rattle.laws_names.proofs.joins.Laws.{keeps_open_join}`. Lemma files stand in proofs/inside/, where no other
//! crate can name them.
#![tactic(auto)]

pub mod entries;
pub mod joins;
pub mod lacking;
pub mod models;
pub mod parts;
pub mod writes;
