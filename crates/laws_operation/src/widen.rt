//! Giving a directory more room.

ghost use Rattle.laws_operation.specs.DirectoryWords.{WidenWordsFit};
ghost use Rattle.laws_operation.specs.NameLaws.{WidenCarriesOut};
ghost use Rattle.laws_operation.specs.NameLinkLaws.{WidenKeepsLinks};
ghost use Rattle.laws_operation.specs.OnceLaws.{WidenCarriesOnce};
ghost use Rattle.laws_operation.specs.PlaceLaws.{WidenPlacesItsPages};

/// On a whole pack, if the caller knows `CanGrow` of a directory, the claims of a widening, and its label and value of the old last page,
/// are as `MayWiden` asks, which `widen_carries_out` needs.
pub fn widen_words_fit()
    ensures { WidenWordsFit }
{}

/// On a whole and tidy pack, if `MayWiden` holds, a growth of a directory by a free slot of 256 words carries out its widening: it takes
/// place at the label of the old last page.
pub fn widen_carries_out()
    ensures { WidenCarriesOut }
{}

/// A widening of a whole and tidy pack, with the words that it writes, leaves all links true if they were true.
pub fn widen_keeps_links()
    ensures { WidenKeepsLinks }
{}

/// On a whole pack no two sectors carry one page at every crash point of a widening.
pub fn widen_carries_once()
    ensures { WidenCarriesOnce }
{}

/// On a whole and tidy pack the page that a widening brings is in the sector that it claims.
pub fn widen_places_its_pages()
    ensures { WidenPlacesItsPages }
{}
