//! The laws of DiskDescriptor's mark while a pack is scavenged.

ghost use Rattle.laws_room.specs.MarkLaws.{OpenedIsUnmarked, UnmarkedIsUnclean, UnmarkedStays};

/// A pack whose first page of DiskDescriptor, if it has a place, has another mark isn't clean, whatever the page's byte count.
pub fn unmarked_is_unclean()
    ensures { UnmarkedIsUnclean }
{}

/// A value with another mark, written where that page is, makes any pack unmarked.
pub fn opened_is_unmarked()
    ensures { OpenedIsUnmarked }
{}

/// A record write elsewhere, or one after which its sector carries that page with another mark, keeps a pack unmarked.
pub fn unmarked_stays()
    ensures { UnmarkedStays }
{}
