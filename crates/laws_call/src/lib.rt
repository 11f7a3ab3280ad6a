//! What a call that does an operation answers, and calls one after another as a line of a session.
//!
//! Come here when you write a call on files or directories that writes, or one that does several of them. `Acts` is what all record writes
//! of one operation do; `Operates` is what a call that is to do it answers, whatever its errors are; `Goes` is what several such calls have
//! done so far, and a line that broke off is said by it, too. `Does` is what one call answers that is to do several operations.
//!
//! Below it stand laws_hint and laws_lookup.
//!
//! A law function is public, has an empty body and one clause, the law; its lemma has the same name, and its statement has it in
//! capitals. To cite a law: `use Rattle.laws_call.proofs.going.Laws.{call_joins}`. Lemma files in proofs/inside/ no other crate can name.
#![tactic(auto)]

pub mod acting;
pub mod counts;
pub mod going;
pub mod several;
pub mod sound;
pub mod writing;
