//! From a line on files that isn't refused, on a sound pack, to what the laws of lines and of operations ask for.

ghost use Rattle.laws_session.specs.UnrefusedLaws.{AppendMayBegin, CopyMayBegin, CutMayBegin, DeleteMayBegin, FullAsksForItsPages, MakeDirMayBegin, MakeMayBegin, OutLoadMayBegin, PatchMayBegin, RemoveDirMayBegin, RenameMayBegin, UnrefusedLinesHaveTheirPages};

/// If a line isn't refused, a whole pack has as many free sectors as the line's operations add pages.
pub fn unrefused_lines_have_their_pages()
    ensures { UnrefusedLinesHaveTheirPages }
{}

/// A line that is refused for room asks for the pages that its operations would add, and says how many there are.
pub fn full_asks_for_its_pages()
    ensures { FullAsksForItsPages }
{}

/// If an `append` isn't refused on a sound pack, it is of a living ordinary file, and is a line as the laws of lines know them.
pub fn append_may_begin()
    ensures { AppendMayBegin }
{}

/// If a `patch` isn't refused on a sound pack, it is of a living ordinary file, puts its bytes within it, and is a line as the laws of
/// lines know them.
pub fn patch_may_begin()
    ensures { PatchMayBegin }
{}

/// If a `cut` isn't refused on a sound pack, it is of a living ordinary file, keeps no more bytes than there are, and is a line as the laws
/// of lines know them.
pub fn cut_may_begin()
    ensures { CutMayBegin }
{}

/// If a `delete` isn't refused on a sound pack, it is of an ordinary file that may be dropped.
pub fn delete_may_begin()
    ensures { DeleteMayBegin }
{}

/// If an `rmdir` isn't refused on a sound pack, it is of a directory without entries, which may be dropped.
pub fn remove_dir_may_begin()
    ensures { RemoveDirMayBegin }
{}

/// If a `make` isn't refused on a sound pack, the next full name is of no living file, and its directory takes its name.
pub fn make_may_begin()
    ensures { MakeMayBegin }
{}

/// If a `copy` isn't refused on a sound pack, it is of a living ordinary file, and makes one with the next full name, which no living file
/// has, under a name that its directory takes.
pub fn copy_may_begin()
    ensures { CopyMayBegin }
{}

/// If an `mkdir` isn't refused on a sound pack, the next directory's full name is of no living file, and SysDir takes its name.
pub fn make_dir_may_begin()
    ensures { MakeDirMayBegin }
{}

/// If an `outload` of a world with a memory isn't refused on a sound pack, it is a line: over a living ordinary file, without a byte or as
/// long as a world's, or into a new one where the path means none.
pub fn outload_may_begin()
    ensures { OutLoadMayBegin }
{}

/// If a `rename` isn't refused on a sound pack, the file is an ordinary one with the entry that leaves, and the new directory takes its
/// new name.
pub fn rename_may_begin()
    ensures { RenameMayBegin }
{}
