//! The words of a file by the values of its pages: those of a directory, and those of DiskDescriptor.

ghost use Rattle.laws_contents.specs.WordContents.{EachWordHasItsPage, FirstPageSaysMarkAndLast, PageWordsAreASlice, PageWordsGoOn, WordStandsInItsPage, WordsStandInTheirPage};

/// On any pack word w of a file is word w % 256 of the value of data page w / 256, counted from 0.
pub fn word_stands_in_its_page()
    ensures { WordStandsInItsPage }
{}

/// On any pack the page of each word of a file is there, after full ones, and the word counts in it.
pub fn each_word_has_its_page()
    ensures { EachWordHasItsPage }
{}

/// On any pack the counted words of a data page after full ones are the 256 words of the file that begin there, or as many as are left.
pub fn page_words_are_a_slice()
    ensures { PageWordsAreASlice }
{}

/// On any pack the words of full pages and then those of the next one are the first words of the file.
pub fn page_words_go_on()
    ensures { PageWordsGoOn }
{}

/// On any pack words of a file from one on, as many as count from there in its page, are those of the page's value.
pub fn words_stand_in_their_page()
    ensures { WordsStandInTheirPage }
{}

/// On any pack the mark and the last serial stand in the first data page of DiskDescriptor, if it counts 14 bytes.
pub fn first_page_says_mark_and_last()
    ensures { FirstPageSaysMarkAndLast }
{}
