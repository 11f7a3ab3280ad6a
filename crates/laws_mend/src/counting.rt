//! Which pages count, which sectors are in use by them, and how far the pages of a file go.

ghost use Rattle.laws_mend.specs.CountingLaws.{CountsByItsEnd, CountsByItsFormat, DirectoryReachesItsEnd, FullPagesAreFew, LastingFileHasItsPages, UsedByItsPage};

/// The pages of a living file, except DiskDescriptor, count up to the one that the end of its bytes is in, if no page is carried twice, no
/// label is out of range, and each directory ends with its slots.
pub fn counts_by_its_end()
    ensures { CountsByItsEnd }
{}

/// The pages of DiskDescriptor, if it lives, count up to the last data page of its format.
pub fn counts_by_its_format()
    ensures { CountsByItsFormat }
{}

/// A sector is free, in use or not good if and only if the page that it carries, if any, is within its file's end, if no page is carried
/// twice and no label is out of range.
pub fn used_by_its_page()
    ensures { UsedByItsPage }
{}

/// A directory ends with its slots if their words are all its bytes.
pub fn directory_reaches_its_end()
    ensures { DirectoryReachesItsEnd }
{}

/// If each living file has its last page, DiskDescriptor lives with the length of its format, and each good sector is free or in use, the
/// pages of a living file are those up to the one that its bytes end in.
pub fn lasting_file_has_its_pages()
    ensures { LastingFileHasItsPages }
{}

/// A file has fewer full pages one after another than the pack has sectors.
pub fn full_pages_are_few()
    ensures { FullPagesAreFew }
{}
