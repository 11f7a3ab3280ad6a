//! Giving a leader page another name.

ghost use Rattle.laws_operation.specs.FileWords.{TitleWordsFit};
ghost use Rattle.laws_operation.specs.LeaderLaws.{TitleCarriesOut};
ghost use Rattle.laws_operation.specs.LinkLaws.{TitleKeepsLinks};

/// If the caller knows `CanWriteLeader`, the value of a title is as `MayWriteLeader` asks, which `title_carries_out` needs.
pub fn title_words_fit()
    ensures { TitleWordsFit }
{}

/// On a whole and tidy pack, if `MayWriteLeader` holds, the value of a leader with another name in it carries out the title.
pub fn title_carries_out()
    ensures { TitleCarriesOut }
{}

/// A title on a whole and tidy pack leaves all links true if they were true.
pub fn title_keeps_links()
    ensures { TitleKeepsLinks }
{}
