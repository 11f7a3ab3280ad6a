// What a walk along rows, and its slots, say of the file in hand: each law is what the function of its name ensures. The functions do nothing.
ghost use Rattle.scav_pages.specs.DirectoryLaws.{LeftDirectoryIsKnown};
ghost use Rattle.scav_pages.specs.WalkLaws.{LeavesItsFile, LeavesTheLastFile, LeftFileIsKnown};

/// Where the next row is of another file, no more rows of the file in hand come.
pub fn leaves_its_file()
    ensures { LeavesItsFile }
{}

/// Where no row is left, no more rows of the file in hand come.
pub fn leaves_the_last_file()
    ensures { LeavesTheLastFile }
{}

/// Of a file in hand of which no more rows come a walk says whether it lives, and its length; if its bytes go on to the end of their pages,
/// that the next page is missing, and else that its last page is there.
pub fn left_file_is_known()
    ensures { LeftFileIsKnown }
{}

/// Of a file in hand of which no more rows come it is known whether it lives, and of a living directory where its slots end.
pub fn left_directory_is_known()
    ensures { LeftDirectoryIsKnown }
{}
