//! The laws of sessions: calls that answer as turns, turns as histories, and what each crash point and the end of a history is.
//!
//! Come here when you write a call on a session, or the loop that takes lines. A call that answers is a whole turn once its text is shown;
//! one that doesn't, or whose text breaks off, is a turn that broke off; a scavenge is a turn, too. Turns one after another are a history,
//! and each crash point of a history can be mended and shows the model after as many operations as the ruler says.
//!
//! A line on files that isn't refused on a sound pack: its files and directories are there, its name is free, its operations are a line as
//! the laws of lines ask for it, and there are the free sectors that they take. The other way, from the tests that a line made, in their
//! order, to what it is refused for.
//!
//! Open streams are over ordinary files of their own, in which their pending bytes begin, and stay so over each line. Over calls one after
//! another what is kept stays right, and true hints stay true until all are true at the end. A world has a memory of its level, and keeps one
//! over each line; what becomes of its blocks is said in laws_zone.
//!
//! Below it stand session_model, laws_zone, laws_lookup and laws_line.
//!
//! A law function is public, has an empty body and one clause, the law; its lemma has the same name, and its statement has it in
//! capitals. To cite a law: `use Rattle.laws_session.proofs.histories.Laws.{crashes_of_a_history}`. Lemma files in proofs/inside/ no other
//! crate can name.
#![tactic(auto)]

pub mod answers;
pub mod begins;
pub mod calls;
pub mod ends;
pub mod histories;
pub mod lines;
pub mod refused;
pub mod scavenges;
pub mod streams;
pub mod unrefused;
pub mod zones;
