//! Giving a leader page another written date.

ghost use Rattle.laws_operation.specs.FileWords.{StampWordsFit};
ghost use Rattle.laws_operation.specs.LeaderLaws.{StampCarriesOut};
ghost use Rattle.laws_operation.specs.LinkLaws.{StampKeepsLinks};

/// On a whole pack, if the caller knows `CanWriteLeader`, the value of a stamp is as `MayWriteLeader` asks, which `stamp_carries_out`
/// needs.
pub fn stamp_words_fit()
    ensures { StampWordsFit }
{}

/// On a whole and tidy pack, if `MayWriteLeader` holds, the value of a leader with another written date in it carries out the stamp.
pub fn stamp_carries_out()
    ensures { StampCarriesOut }
{}

/// A stamp on a whole and tidy pack leaves all links true if they were true.
pub fn stamp_keeps_links()
    ensures { StampKeepsLinks }
{}
