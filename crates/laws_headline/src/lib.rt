//! The headline as one law of three calls of the program: a session that stops anywhere, a scavenge of what it leaves, the next session.
//!
//! Come here when you want to know what `boot` and `scavenge` promise together, or change a contract of `alto` that it rests on.
//!
//! On modelled machines, of which nobody else writes the pack: a session on a sound and clean pack may be stopped after any of its events,
//! and a scavenge of what stands then may be stopped as often, too. A scavenge is never refused. Once one is done the pack is sound and
//! clean, all its hints are true, and it has the names and bytes of the model after as many operations as the ruler says, at least as many
//! as were acknowledged; files without an entry have one by their leaders' names. The next session enters this pack and begins with them,
//! and no hint misleads in it. The scavenge and the next session are done, unless a device fails or no memory is left.
//! Not promised: that a real file keeps a prefix of the record writes; anything of a pack that isn't sound and clean as the session
//! begins, except what `scavenge` says of any pack.
//!
//! Below it stands alto_top, whose contract of `alto` is all that is known of the calls.
//!
//! A law function is public, has an empty body and one clause, the law; its lemma has the same name, and its statement has it in
//! capitals. To cite it: `use Rattle.laws_headline.proofs.headline.Laws.{stopped_sessions_recover}`. Lemma files in proofs/inside/ no other
//! crate can name.
#![tactic(auto)]

pub mod headline;
