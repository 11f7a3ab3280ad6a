//! Lengths of files within a line, and the last page that a leader names.

ghost use Rattle.laws_steps.specs.LengthLaws.{NamedPageStays, NewFileIsEmpty, PutKeepsTheLength};

/// Bytes that are put within a file leave its length.
pub fn put_keeps_the_length()
    ensures { PutKeepsTheLength }
{}

/// A new file that is no directory has no bytes, once it is made and entered.
pub fn new_file_is_empty()
    ensures { NewFileIsEmpty }
{}

/// The last page that a leader names is as near the end as it was where record writes leave all files but another one as they were, as the
/// opening of the mark does.
pub fn named_page_stays()
    ensures { NamedPageStays }
{}
