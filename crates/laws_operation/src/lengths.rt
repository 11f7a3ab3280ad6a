//! Where files of whole packs end.

ghost use Rattle.laws_operation.specs.LengthLaws.{FullPageIsNotTheLast, LengthByTheLastPage, PagesBeforeTheLastAreFull, PlacedPagesAreThoseUpToTheLast};

/// On a whole pack, where the label of a file's data page with a value of 256 words counts fewer than 512 bytes, the file's length is 512
/// times the number of data pages before it, and this count.
pub fn length_by_the_last_page()
    ensures { LengthByTheLastPage }
{}

/// On a whole pack the label of each data page before a file's last one counts 512 bytes, where its value has 256 words.
pub fn pages_before_the_last_are_full()
    ensures { PagesBeforeTheLastAreFull }
{}

/// On a whole pack a data page whose label counts 512 bytes, and whose value has 256 words, is before its file's last one.
pub fn full_page_is_not_the_last()
    ensures { FullPageIsNotTheLast }
{}

/// On a whole pack the pages of a living file that have a place are those with the numbers up to that of its last one.
pub fn placed_pages_are_those_up_to_the_last()
    ensures { PlacedPagesAreThoseUpToTheLast }
{}
