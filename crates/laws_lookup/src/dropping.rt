//! What a caller knows before it drops a file.

ghost use Rattle.laws_lookup.specs.DropLaws.{BareFileMayBeDropped, DropIsOfTheseSectors, EmptyDirectoryIsBare, OrdinaryFileIsBare};

/// On a tidy pack a file that is no directory has no entries of its own.
pub fn ordinary_file_is_bare()
    ensures { OrdinaryFileIsBare }
{}

/// On a tidy pack a living directory none of whose slots is an entry has none in the model.
pub fn empty_directory_is_bare()
    ensures { EmptyDirectoryIsBare }
{}

/// On a whole pack a living file without entries of its own may be dropped, if it is no system file.
pub fn bare_file_may_be_dropped()
    ensures { BareFileMayBeDropped }
{}

/// The sectors that a drop releases are those of the file's pages, and no others.
pub fn drop_is_of_these_sectors()
    ensures { DropIsOfTheseSectors }
{}
