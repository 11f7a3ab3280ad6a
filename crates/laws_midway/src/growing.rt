//! Where the pages of a file are once it has grown, and how long it is.

ghost use Rattle.laws_midway.specs.GrowingLaws.{DirectoryHasGrown, FileHasGrown, GrowLengthens, LastPageHasANumber, WidenLengthens};

/// The last page of each file of a whole pack has a number: it has fewer than 65,535 full pages.
pub fn last_page_has_a_number()
    ensures { LastPageHasANumber }
{}

/// In the model of any pack a growth makes a living ordinary file longer by its bytes.
pub fn grow_lengthens()
    ensures { GrowLengthens }
{}

/// In the model of any pack a widening makes a living directory longer by 512 bytes.
pub fn widen_lengthens()
    ensures { WidenLengthens }
{}

/// On a whole and tidy pack after a growth the file's old pages are where they were, the new ones in the sectors claimed, of which the last
/// ends it, no other after them, and all other files as they were.
pub fn file_has_grown()
    ensures { FileHasGrown }
{}

/// On a whole and tidy pack after a widening the directory's old pages are where they were, the new ones in the sectors claimed, of which
/// the last ends it, no other after them, and all other files as they were.
pub fn directory_has_grown()
    ensures { DirectoryHasGrown }
{}
