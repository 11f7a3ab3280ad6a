//! The premises of the laws of operations and of lines are met: no such law speaks of nothing.
//!
//! Come here when you write a record of premises, or doubt one. There is one small pack with an ordinary file of two pages, a directory
//! with an entry, and the mark open, on which each operation can be done and a line of each kind is run. It was made from a formatted
//! pack by the laws themselves, so that each record of premises is met on a pack that another law leaves: they chain. What a caller
//! looks up on these packs, as a sector or a directory's slots, is known by computation; all else follows from the laws. A second pack,
//! with SysDir in two pages, stands by computation alone: for the entry that goes over a page's end, also while names are mended.
//!
//! Below it stand laws_midway, laws_format, laws_call and laws_names, whose premises it meets with those of all laws under them.
//!
//! A law function is public, has an empty body and one clause, the law; its lemma has the same name, and its statement has it in
//! capitals. To cite a law: `use Rattle.laws_met.proofs.premises.Laws.{premises_are_met}`. Lemma files stand in proofs/inside/, where no
//! other crate can name them.
#![tactic(auto)]

pub mod premises;
pub mod sessions;
pub mod writings;
