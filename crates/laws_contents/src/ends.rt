//! Where a file ends: with a page that isn't full, or because a page is missing.

ghost use Rattle.laws_contents.specs.EndLaws.{EachFileHasItsEnd, LastPageEndsTheFile, MissingPageEndsTheFile, WholeFileEndsInAPage};

/// On any pack a data page after full ones has the last bytes of its file, if it isn't full or no sector carries the page after it.
pub fn last_page_ends_the_file()
    ensures { LastPageEndsTheFile }
{}

/// On any pack a file has the bytes of its full data pages alone, if no sector carries the page after them.
pub fn missing_page_ends_the_file()
    ensures { MissingPageEndsTheFile }
{}

/// On any pack the page that the end of a file's bytes is in comes after full ones; it is missing, or counts the bytes that are left.
pub fn each_file_has_its_end()
    ensures { EachFileHasItsEnd }
{}

/// On a whole pack the page that the end of a living file's bytes is in is there, isn't full, and no page comes after it.
pub fn whole_file_ends_in_a_page()
    ensures { WholeFileEndsInAPage }
{}
