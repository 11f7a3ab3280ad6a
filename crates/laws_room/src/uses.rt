//! How many sectors are in use once an operation is done, and once a scavenge has claimed a page.

ghost use Rattle.laws_room.specs.EachUses.{EachOperationTakesItsPages};
ghost use Rattle.laws_room.specs.UseLaws.{ClaimTakesAnAvailableSector, UseFollowsTheOperation};

/// Between two whole packs of one shape, the second read as the first with an operation done that may be done on it, the sectors in
/// use grow by the pages that the operation adds, and shrink by those that it frees.
pub fn use_follows_the_operation()
    ensures { UseFollowsTheOperation }
{}

/// On a whole and tidy pack each operation may be done if `MayX` of it holds, and its record writes change the sectors in use by the pages
/// that it adds and frees.
pub fn each_operation_takes_its_pages()
    ensures { EachOperationTakesItsPages }
{}

/// On any pack a page within its living file's end, which no sector carries and a scavenge claims on a free sector, takes one available
/// sector, and one that was needed.
pub fn claim_takes_an_available_sector()
    ensures { ClaimTakesAnAvailableSector }
{}
