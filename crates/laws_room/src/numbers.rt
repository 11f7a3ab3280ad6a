//! The counting theorem.

ghost use Rattle.laws_room.specs.CountLaws.{CountingTheorem};

/// On any pack the available sectors and the carried pages of living files make up the good ones, and what is needed is at most what is
/// available if and only if the mended files have room.
pub fn counting_theorem()
    ensures { CountingTheorem }
{}
