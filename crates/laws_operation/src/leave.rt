//! Taking an entry out of a directory.

ghost use Rattle.laws_operation.specs.DirectoryWords.{LeaveWordsFit};
ghost use Rattle.laws_operation.specs.EntryLaws.{FreeNameIsApartAfterLeave, LeaveTakesTheOnlyEntry};
ghost use Rattle.laws_operation.specs.NameLaws.{LeaveCarriesOut};
ghost use Rattle.laws_operation.specs.NameLinkLaws.{LeaveKeepsLinks};

/// If the caller knows `HasEntry`, an entry under the name, in whatever case, and not of a system file, may leave as `MayLeave` asks, which
/// `leave_carries_out` needs.
pub fn leave_words_fit()
    ensures { LeaveWordsFit }
{}

/// On a whole and tidy pack, if `MayLeave` holds, the value in which an entry's slot is a free one carries out the leaving of this entry.
pub fn leave_carries_out()
    ensures { LeaveCarriesOut }
{}

/// The leaving of an entry on a whole and tidy pack leaves all links true if they were true.
pub fn leave_keeps_links()
    ensures { LeaveKeepsLinks }
{}

/// On any pack, after the leaving of an entry of a file, another entry of the file clashes with none, in whichever directory, under a
/// name that no entry there gave another file before.
pub fn free_name_is_apart_after_leave()
    ensures { FreeNameIsApartAfterLeave }
{}

/// On any pack no entry has a file after the leaving of an entry of it.
pub fn leave_takes_the_only_entry()
    ensures { LeaveTakesTheOnlyEntry }
{}
