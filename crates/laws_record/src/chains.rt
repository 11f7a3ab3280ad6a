//! The chain laws: runs of record writes, one after another.

ghost use Rattle.laws_record.specs.ChainLaws.{RunsChain, ScavengesJoin};

use pack_laws::turns::Moves;

/// Runs that carry out lists of moves carry out the lists joined; where the second is broken off, the two still make their moves in
/// lockstep.
pub fn runs_chain<X: Moves>()
    ensures { RunsChain X.means }
{}

/// Runs that keep at each crash point what is shown, or all that a scavenge keeps, do so together.
pub fn scavenges_join()
    ensures { ScavengesJoin }
{}
