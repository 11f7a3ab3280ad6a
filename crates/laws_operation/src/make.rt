//! Making a file that no entry names yet.

ghost use Rattle.laws_operation.specs.EntryLaws.{FreeNameIsApartAfterMake, MakeLeavesNoName};
ghost use Rattle.laws_operation.specs.FileWords.{MakeWordsFit};
ghost use Rattle.laws_operation.specs.FreeLaws.{MakeKeepsUnclaimedFree};
ghost use Rattle.laws_operation.specs.LifeLaws.{MakeCarriesOut};
ghost use Rattle.laws_operation.specs.LinkLaws.{MakeKeepsLinks};
ghost use Rattle.laws_operation.specs.OnceLaws.{MakeCarriesOnce};
ghost use Rattle.laws_operation.specs.PlaceLaws.{MakePlacesItsPages};

/// If the caller knows `CanMake`, the two claims of a make are as `MayMake` asks, which `make_carries_out` needs.
pub fn make_words_fit()
    ensures { MakeWordsFit }
{}

/// On a whole and tidy pack, if `MayMake` holds, the claim of a new file's first page, and then that of its leader, carry out the making of
/// the file: it takes place at the leader's label.
pub fn make_carries_out()
    ensures { MakeCarriesOut }
{}

/// A make on a whole and tidy pack leaves all links true if they were true.
pub fn make_keeps_links()
    ensures { MakeKeepsLinks }
{}

/// On a whole pack no two sectors carry one page at every crash point of a make.
pub fn make_carries_once()
    ensures { MakeCarriesOnce }
{}

/// On any pack, after the make of a file that didn't live, an entry of it clashes with none, under a name that no entry of its
/// directory had before.
pub fn free_name_is_apart_after_make()
    ensures { FreeNameIsApartAfterMake }
{}

/// After a make each sector of any pack that was free, except the two that it claims, is free still.
pub fn make_keeps_unclaimed_free()
    ensures { MakeKeepsUnclaimedFree }
{}

/// On any pack no entry has a file after its make, where the file didn't live before.
pub fn make_leaves_no_name()
    ensures { MakeLeavesNoName }
{}

/// On a whole and tidy pack the leader and page 1 of a file are, after its make, in the sectors that it claims, and the file has no
/// other page.
pub fn make_places_its_pages()
    ensures { MakePlacesItsPages }
{}
