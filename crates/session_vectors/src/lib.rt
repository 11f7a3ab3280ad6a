//! Small cases of the definitions in world_model and session_model, by computation, in proofs/: lines over models whose replies are
//! known from outside. It has no function. docs/trials.md lists the cases, and which of them falls when a definition is turned.
//!
//! Come here when you write or change a definition of world_model or session_model: show what it says of a small case. Below it stand
//! session_model, pack_laws, laws_format and pack_vectors.
#![tactic(auto)]
