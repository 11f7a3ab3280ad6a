//! Midway in a call: what it knows of sectors, slots, files and hints while it works, before its next step.
//!
//! Come here when a call's loop is proved: what it knows of sectors, slots and hints between two of its guarded commands.
//!
//! The laws of loops: releases, claims and a relabelling leave the sectors that come later, and a pack keeps a sector for each address;
//! what a cut wants is there. The laws of a growth: where a file's pages are then, and how long it is. The laws of a walk over a
//! directory: room and the most free words, slot by slot.
//!
//! The laws of what was found: its file lives, its entry is the first with its name and may go, and two entries stand apart. The laws of
//! hints: one that misleads in the middle of a line misled as it began, and those of a new file are handy. The law of a drop in two calls:
//! all other files are as they were.
//!
//! Below it stand laws_hint and laws_lookup.
//!
//! To cite a law: `use Rattle.laws_midway.proofs.found.Laws.{found_file_lives}`.
#![tactic(auto)]

pub mod cutting;
pub mod dropped;
pub mod found;
pub mod growing;
pub mod lines;
pub mod loops;
pub mod made;
pub mod rooms;
