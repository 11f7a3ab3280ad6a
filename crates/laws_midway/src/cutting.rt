//! What a caller knows before it cuts a file.

ghost use Rattle.laws_midway.specs.CutLaws.{CutIsOfTheseSectors, WholeFileMayBeCut};

/// On a whole pack a living ordinary file may be cut to any length that it reaches: the sectors are there.
pub fn whole_file_may_be_cut()
    ensures { WholeFileMayBeCut }
{}

/// On any pack the sectors of a cut are that of the page which becomes the last and those of all later pages, and no others, as `CanCut`
/// names them.
pub fn cut_is_of_these_sectors()
    ensures { CutIsOfTheseSectors }
{}
