//! The bytes of a file by the values of its pages.

ghost use Rattle.laws_contents.specs.ByteContents.{BytesStandInTheirPage, EachByteHasItsPage, PageGoesOn, PageIsASlice, PagesInARowAreASlice};

/// On any pack a data page after full ones is the 512 bytes of the file that begin there, or as many as are left.
pub fn page_is_a_slice()
    ensures { PageIsASlice }
{}

/// On any pack the bytes of full pages and then those of the next one are the first bytes of the file.
pub fn page_goes_on()
    ensures { PageGoesOn }
{}

/// On any pack bytes of a file from an offset on, as many as count from there in its page, are those of the page's value.
pub fn bytes_stand_in_their_page()
    ensures { BytesStandInTheirPage }
{}

/// On any pack the page of each byte of a file is there, after full ones, and the byte counts in it.
pub fn each_byte_has_its_page()
    ensures { EachByteHasItsPage }
{}

/// On any pack the counted bytes of pages in a row, after full ones, are a slice of the file.
pub fn pages_in_a_row_are_a_slice()
    ensures { PagesInARowAreASlice }
{}
