//! Growing a file: new pages, and the counts of old ones.

ghost use Rattle.laws_operation.specs.ByteLaws.{GrowCarriesOut};
ghost use Rattle.laws_operation.specs.FileWords.{GrowWordsFit};
ghost use Rattle.laws_operation.specs.FreeLaws.{ClaimsKeepUnclaimedFree, GrowKeepsUnclaimedFree};
ghost use Rattle.laws_operation.specs.LinkLaws.{GrowKeepsLinks};
ghost use Rattle.laws_operation.specs.OnceLaws.{GrowCarriesOnce};
ghost use Rattle.laws_operation.specs.PlaceLaws.{GrowPlacesItsPages};

/// On a whole pack, if the caller knows `CanGrow`, the claims of a growth, and its label and value of the old last page, are as `MayGrow`
/// asks, which `grow_carries_out` needs.
pub fn grow_words_fit()
    ensures { GrowWordsFit }
{}

/// On a whole and tidy pack, if `MayGrow` holds, new pages, then the old last page's value, its label and its value again carry out the
/// growth of the file by their bytes: it takes place at the label.
pub fn grow_carries_out()
    ensures { GrowCarriesOut }
{}

/// On a whole and tidy pack the growth of a file, with the words that `pack_model` has for it, leaves all links true if they were.
pub fn grow_keeps_links()
    ensures { GrowKeepsLinks }
{}

/// On a whole pack no two sectors carry one page at every crash point of a growth.
pub fn grow_carries_once()
    ensures { GrowCarriesOnce }
{}

/// After a growth or a widening each sector of any pack that was free, except those of its claims, is free still, where the sector that
/// gets another label bore a page before it.
pub fn grow_keeps_unclaimed_free()
    ensures { GrowKeepsUnclaimedFree }
{}

/// After claims, of whatever sectors, each sector of any pack that was free, except those that they claim, is free still.
pub fn claims_keep_unclaimed_free()
    ensures { ClaimsKeepUnclaimedFree }
{}

/// On a whole and tidy pack the pages that a growth brings are in the sectors that it claims, in order.
pub fn grow_places_its_pages()
    ensures { GrowPlacesItsPages }
{}
