//! Where the pages of a file are, and which of a sector's bytes count.

ghost use Rattle.laws_contents.specs.PageLaws.{CarriedOnceIsInPlace, FormedPagesHave256Words, FullBeforeEachOfAWholePack, FullBeforeTheNext, LabelsCount, NoneBeforeTheFirst, OnceIsByLabels, PageNumbersAreWords, PagesAreTheirCountedBytes};

/// On a pack that carries no page twice whichever sector carries a page is its place.
pub fn carried_once_is_in_place()
    ensures { CarriedOnceIsInPlace }
{}

/// A pack carries no page twice if and only if no two sectors have labels that name one.
pub fn once_is_by_labels()
    ensures { OnceIsByLabels }
{}

/// On any pack the number of a page that has a place is below 65,536.
pub fn page_numbers_are_words()
    ensures { PageNumbersAreWords }
{}

/// On any pack each data page of a file is the counted bytes of its place's value, and is missing if it has no place.
pub fn pages_are_their_counted_bytes()
    ensures { PagesAreTheirCountedBytes }
{}

/// On any pack a data page has at most 512 bytes, and of a value of 256 words as many as its label says.
pub fn labels_count()
    ensures { LabelsCount }
{}

/// If the records of all sectors have as many words as a disk's, the value of each sector that carries a page has 256.
pub fn formed_pages_have_256_words()
    ensures { FormedPagesHave256Words }
{}

/// All data pages before the first one are full.
pub fn none_before_the_first()
    ensures { NoneBeforeTheFirst }
{}

/// If all data pages before a full one are full, so are all before the next.
pub fn full_before_the_next()
    ensures { FullBeforeTheNext }
{}

/// On a whole pack all data pages before one that has a place are full.
pub fn full_before_each_of_a_whole_pack()
    ensures { FullBeforeEachOfAWholePack }
{}
