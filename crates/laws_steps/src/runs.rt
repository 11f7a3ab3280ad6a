//! Record writes and moves, as many of one as of the other.

ghost use Rattle.laws_steps.specs.RunLaws.{ObeysMany};

use pack_laws::turns::Moves;

/// A run has as many record writes as moves.
pub fn obeys_many<X: Moves>()
    ensures { ObeysMany X.means }
{}
