//! How the answer of a guarded command makes that of a call that is to do an operation, whatever the call's errors are.
//!
//! Come here when you write a call that writes: each of its record writes is of a guarded command of label_check. `Passes` says that the
//! call's answer follows the command's. A call does an operation by parts, one guarded command each; its end is at the prefix that
//! failed, or after the last: `guarded_call_operates` for each of these ends. A loop has `next_part` as its step.
//!
//! Below it stand laws_call and label_check.
//!
//! A law function is public, has an empty body and one clause, the law; its lemma has the same name, and its statement has it in
//! capitals. To cite a law: `use Rattle.laws_guard.proofs.guarded.Laws.{next_part}`. Lemma files in proofs/inside/ no other crate can name.
#![tactic(auto)]

pub mod guarded;
