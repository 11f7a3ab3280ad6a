//! The slots of directories while names are mended, on any pack.

ghost use Rattle.laws_mend.specs.SlotLaws.{DirWriteKeepsPages, DirWriteReachesItsEnd, EntersReplacesSlots, LooseWordsKeepSlots, MoreWordsReplaceSlots};

/// An entry that comes in the place of a free slot leaves the slots beside it where they stood, with their words.
pub fn enters_replaces_slots()
    ensures { EntersReplacesSlots }
{}

/// New words after those of a directory that ended with its slots, which are one free slot of 256 words, leave its slots where they stood,
/// with their words.
pub fn more_words_replace_slots()
    ensures { MoreWordsReplaceSlots }
{}

/// Other words inside free slots, and other addresses of entries, leave the slots of each directory.
pub fn loose_words_keep_slots()
    ensures { LooseWordsKeepSlots }
{}

/// Words of a directory, after which it ends with its slots, leave a pack whose pages are mended so, each page its place, and the bytes of
/// every other file.
pub fn dir_write_keeps_pages()
    ensures { DirWriteKeepsPages }
{}

/// Words of a directory, after which its slots have as many words, leave it ending with its slots.
pub fn dir_write_reaches_its_end()
    ensures { DirWriteReachesItsEnd }
{}
