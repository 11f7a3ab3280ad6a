//! Entering a name in a directory.

ghost use Rattle.laws_operation.specs.DirectoryWords.{EnterWordsFit, EntryWordsFit};
ghost use Rattle.laws_operation.specs.EntryLaws.{FreeNameIsApartForANamelessFile};
ghost use Rattle.laws_operation.specs.FreeLaws.{EnterLeavesFreeSectors};
ghost use Rattle.laws_operation.specs.NameLaws.{EnterCarriesOut};
ghost use Rattle.laws_operation.specs.NameLinkLaws.{EnterKeepsLinks, JoinKeepsLinks, LooseWordsKeepLinks};
ghost use Rattle.laws_operation.specs.OnceLaws.{EnterCarriesOnce};

/// The words of an entry, and of a free slot for those left over, are read as these two slots, as an entering needs it.
pub fn entry_words_fit()
    ensures { EntryWordsFit }
{}

/// If the caller knows `CanEnter`, the values of an entering in the room that was found are as `MayEnterAt` asks, which `enter_carries_out`
/// needs.
pub fn enter_words_fit()
    ensures { EnterWordsFit }
{}

/// On a whole and tidy pack, if `MayEnterAt` holds, the value that joins the room's free slots, that of the next page if words come there,
/// and the one with the entry's first words are the entering: it takes place at the last.
pub fn enter_carries_out()
    ensures { EnterCarriesOut }
{}

/// The value that makes free slots in a row one, on a whole and tidy pack, leaves all links true if they were true.
pub fn join_keeps_links()
    ensures { JoinKeepsLinks }
{}

/// Other words inside a free slot, on a whole and tidy pack, leave all links true if they were true.
pub fn loose_words_keep_links()
    ensures { LooseWordsKeepLinks }
{}

/// An entering on a whole and tidy pack leaves all links true if they were true, as the entry has the address of its file's leader.
pub fn enter_keeps_links()
    ensures { EnterKeepsLinks }
{}

/// On a whole pack no two sectors carry one page at every crash point of an entering.
pub fn enter_carries_once()
    ensures { EnterCarriesOnce }
{}

/// On any model an entry of a file without one, under a name that no entry of its directory gives another file, clashes with no entry.
pub fn free_name_is_apart_for_a_nameless_file()
    ensures { FreeNameIsApartForANamelessFile }
{}

/// After the values of an entering the same sectors of any pack are free.
pub fn enter_leaves_free_sectors()
    ensures { EnterLeavesFreeSectors }
{}
