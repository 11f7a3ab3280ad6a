//! Tables as words, and as the words of DiskDescriptor.

ghost use Rattle.laws_hint.specs.MapWords.{AbsentMapIsReadBusyAndDescribedFree, TableGivesTheWordsOfItsBits, TableIsWritten, TableOfEnoughWordsIsTheirMap, TableReadIsDescribed, WholePackDescribesTheTableRead, WordsGiveTheMapBack};

/// The words that a table gives one by one are those of the map with its bits.
pub fn table_gives_the_words_of_its_bits()
    ensures { TableGivesTheWordsOfItsBits }
{}

/// The table of so many sectors that is read from words is the map that they hold, where there are enough words for its bits.
pub fn table_of_enough_words_is_their_map()
    ensures { TableOfEnoughWordsIsTheirMap }
{}

/// The words of a map hold that map, where there are enough of them for its bits.
pub fn words_give_the_map_back()
    ensures { WordsGiveTheMapBack }
{}

/// The table that is read from DiskDescriptor is the map that it says, where it has all words of one.
pub fn table_read_is_described()
    ensures { TableReadIsDescribed }
{}

/// On a whole pack the table that is read from DiskDescriptor is the map that it says.
pub fn whole_pack_describes_the_table_read()
    ensures { WholePackDescribesTheTableRead }
{}

/// Where DiskDescriptor has no word of a map at all, the table that is read from it has every sector as busy, and the map that it says
/// has every one as free.
pub fn absent_map_is_read_busy_and_described_free()
    ensures { AbsentMapIsReadBusyAndDescribedFree }
{}

/// The words that a table gives are those that are written into DiskDescriptor for it, after the first 16.
pub fn table_is_written()
    ensures { TableIsWritten }
{}
