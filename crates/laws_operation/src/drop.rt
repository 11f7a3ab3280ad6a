//! Dropping a file with its entry; the release of its pages alone; and the slot of its entry alone.

ghost use Rattle.laws_operation.specs.DirectoryWords.{SlotWordsFit};
ghost use Rattle.laws_operation.specs.FreeLaws.{DropFreesItsPages, DropTakesNoSector, ReleaseFreesItsPages, ReleaseTakesNoSector};
ghost use Rattle.laws_operation.specs.LifeLaws.{DropCarriesOut, ReleaseCarriesOut, SlotCarriesOut, SlotOfADropStoodBefore};
ghost use Rattle.laws_operation.specs.LinkLaws.{ReleaseKeepsLinks};
ghost use Rattle.laws_operation.specs.NameLinkLaws.{DropKeepsLinks, SlotKeepsLinks};
ghost use Rattle.laws_operation.specs.OnceLaws.{DropCarriesOnce, ReleaseCarriesOnce};

/// If the caller knows `HasEntry`, the value that makes an entry's slot a free one is such as the last law of a drop asks for.
pub fn slot_words_fit()
    ensures { SlotWordsFit }
{}

/// On a whole and tidy pack, if `MayDrop` holds, the release of a file's leader, and then of its data pages, are its drop except the slot
/// of its entry, from the leader's label on; the pack is tidy except for that entry.
pub fn release_carries_out()
    ensures { ReleaseCarriesOut }
{}

/// On a whole pack that is tidy except for the entry of a file that was dropped, the value in which the entry's slot is a free one changes
/// nothing that is read, and leaves the pack whole and tidy.
pub fn slot_carries_out()
    ensures { SlotCarriesOut }
{}

/// On a whole and tidy pack the releases of a file that has an entry, and then the value that frees the entry's slot, are its whole drop.
pub fn drop_carries_out()
    ensures { DropCarriesOut }
{}

/// A drop without the slot of its entry, on a whole and tidy pack, leaves all links true if they were true.
pub fn release_keeps_links()
    ensures { ReleaseKeepsLinks }
{}

/// The value that makes the slot of a dropped file free, on a whole pack that is tidy except for this file, leaves all links true if they
/// were true.
pub fn slot_keeps_links()
    ensures { SlotKeepsLinks }
{}

/// A whole drop on a whole and tidy pack leaves all links true if they were true.
pub fn drop_keeps_links()
    ensures { DropKeepsLinks }
{}

/// On a whole pack no two sectors carry one page at every crash point of a drop, of whatever sectors.
pub fn drop_carries_once()
    ensures { DropCarriesOnce }
{}

/// On a whole pack no two sectors carry one page at every crash point of a drop without the slot of its entry, of whatever sectors.
pub fn release_carries_once()
    ensures { ReleaseCarriesOnce }
{}

/// After a drop each sector of any pack that was free is free still.
pub fn drop_takes_no_sector()
    ensures { DropTakesNoSector }
{}

/// After the releases of a drop, before the value that frees its entry's slot, each sector of any pack that was free is free still.
pub fn release_takes_no_sector()
    ensures { ReleaseTakesNoSector }
{}

/// The sectors of any pack that bear pages of a file in a row are free once they are released.
pub fn release_frees_its_pages()
    ensures { ReleaseFreesItsPages }
{}

/// The sectors of any pack that bear a file's leader and its first data pages are free after a drop that releases them.
pub fn drop_frees_its_pages()
    ensures { DropFreesItsPages }
{}

/// On a whole and tidy pack what is known of the slot of a file's entry once its sectors are free was so before, and the slot's sector
/// has the words that it had.
pub fn slot_of_a_drop_stood_before()
    ensures { SlotOfADropStoodBefore }
{}
