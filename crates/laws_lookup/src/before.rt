//! Hints that mislead after a whole operation misled before it.

ghost use Rattle.laws_lookup.specs.BeforeLaws.{CutMisledBefore, DropMisledBefore, EnterMisledBefore, GrowMisledBefore, LeaveMisledBefore, MakeMisledBefore, ReleaseMisledBefore, WidenMisledBefore};

/// On a pack that is whole before and afterwards, a hint that misleads after a leaving, or after the last value of a drop, misled before
/// it.
pub fn leave_misled_before()
    ensures { LeaveMisledBefore }
{}

/// On a whole and tidy pack a hint that misleads after an entering whose words name the sector of the file's leader misled before it.
pub fn enter_misled_before()
    ensures { EnterMisledBefore }
{}

/// On a whole and tidy pack a hint that misleads after a cut misled before it.
pub fn cut_misled_before()
    ensures { CutMisledBefore }
{}

/// On a whole and tidy pack a hint that misleads after a make misled before it.
pub fn make_misled_before()
    ensures { MakeMisledBefore }
{}

/// On a whole and tidy pack a hint on the disk for another file that misleads after the releases of a drop misled before them.
pub fn release_misled_before()
    ensures { ReleaseMisledBefore }
{}

/// On a whole and tidy pack a hint that misleads after a growth misled before it.
pub fn grow_misled_before()
    ensures { GrowMisledBefore }
{}

/// On a whole and tidy pack a hint that misleads after a widening misled before it.
pub fn widen_misled_before()
    ensures { WidenMisledBefore }
{}

/// On a whole and tidy pack a hint that misleads after a whole drop misled before it.
pub fn drop_misled_before()
    ensures { DropMisledBefore }
{}
