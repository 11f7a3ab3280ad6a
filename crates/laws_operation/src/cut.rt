//! Cutting a file: a new last page, and the release of all later ones.

ghost use Rattle.laws_operation.specs.ByteLaws.{CutCarriesOut};
ghost use Rattle.laws_operation.specs.FileWords.{CutWordsFit};
ghost use Rattle.laws_operation.specs.FreeLaws.{CutFreesItsPages, CutTakesNoSector};
ghost use Rattle.laws_operation.specs.LinkLaws.{CutKeepsLinks};
ghost use Rattle.laws_operation.specs.OnceLaws.{CutCarriesOnce};

/// If the caller knows `CanCut`, the label of a cut is as `MayCut` asks, which `cut_carries_out` needs.
pub fn cut_words_fit()
    ensures { CutWordsFit }
{}

/// On a whole and tidy pack, if `MayCut` holds, another label for the page that becomes the last, and then releases of all later pages,
/// carry out the cut of the file: it takes place at that label.
pub fn cut_carries_out()
    ensures { CutCarriesOut }
{}

/// A cut of a whole and tidy pack leaves all links true if they were true.
pub fn cut_keeps_links()
    ensures { CutKeepsLinks }
{}

/// On a whole pack no two sectors carry one page at every crash point of a cut.
pub fn cut_carries_once()
    ensures { CutCarriesOnce }
{}

/// After a cut each sector of any pack that was free is free still, where the sector that gets another label bore a page before it.
pub fn cut_takes_no_sector()
    ensures { CutTakesNoSector }
{}

/// The sectors of any pack that bear pages of a file in a row are free after a cut that releases them.
pub fn cut_frees_its_pages()
    ensures { CutFreesItsPages }
{}
