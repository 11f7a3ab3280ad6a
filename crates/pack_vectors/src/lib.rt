//! Small cases of the definitions in pack_model, by computation, in proofs/: packs, lines, slots and names whose meaning is known
//! from outside. It has no function. Maps don't compute by themselves; `ByLists` of pack_laws has the
//! definitions over them by lists of entries, proved equal. docs/trials.md lists the cases, and which of them falls when a definition is
//! turned.
//!
//! Come here when you write or change a definition of pack_model: show what it says of a small case. Below it stand pack_model and
//! pack_laws.
#![tactic(auto)]
