//! What an operation on one file leaves of all others, and which of its own pages it leaves where they were.

ghost use Rattle.laws_lookup.specs.OtherLaws.{CutKeepsPages, CutLeavesOthers, GrowKeepsPages, GrowLeavesOthers, MakeLeavesOthers, PlaceIsOfItsFile, ReleaseLeavesOthers, ValuesLeaveOthers, WidenKeepsPages, WidenLeavesOthers};

/// The sector that is the place of a page carries no page of another file.
pub fn place_is_of_its_file()
    ensures { PlaceIsOfItsFile }
{}

/// Values in sectors of one file leave all others as they were, if the pack is whole before and afterwards.
pub fn values_leave_others()
    ensures { ValuesLeaveOthers }
{}

/// A growth on a whole and tidy pack leaves all other files as they were.
pub fn grow_leaves_others()
    ensures { GrowLeavesOthers }
{}

/// A widening on a whole and tidy pack leaves all files except its directory as they were.
pub fn widen_leaves_others()
    ensures { WidenLeavesOthers }
{}

/// A cut on a whole and tidy pack leaves all other files as they were.
pub fn cut_leaves_others()
    ensures { CutLeavesOthers }
{}

/// A make on a whole and tidy pack leaves all other files as they were.
pub fn make_leaves_others()
    ensures { MakeLeavesOthers }
{}

/// A drop on a whole and tidy pack, before the value that frees its entry's slot, leaves all other files as they were.
pub fn release_leaves_others()
    ensures { ReleaseLeavesOthers }
{}

/// A growth on a whole and tidy pack leaves each old page of its file in its place.
pub fn grow_keeps_pages()
    ensures { GrowKeepsPages }
{}

/// A widening on a whole and tidy pack leaves each old page of its directory in its place.
pub fn widen_keeps_pages()
    ensures { WidenKeepsPages }
{}

/// A cut of a whole and tidy pack leaves each page up to the one that becomes the last in its place.
pub fn cut_keeps_pages()
    ensures { CutKeepsPages }
{}
