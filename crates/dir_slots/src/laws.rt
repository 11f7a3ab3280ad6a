// What holds of slots and their words: each law is what a function of its name ensures. The functions do nothing.
ghost use Rattle.dir_slots.specs.Laws.{ReadsBack, LongestIsRead};

/// What `write_slots` writes of slots, `read_slots` reads as these slots, with their addresses and to the last word.
pub fn reads_back()
    ensures { ReadsBack }
{}

/// The slots that `read_slots` gives are those of the longest prefix of the words that slots fill to its end. No others are.
pub fn longest_is_read()
    ensures { LongestIsRead }
{}
