//! Which bits of a map an operation or a sector command changes.

ghost use Rattle.laws_hint.specs.MapChanges.{ClaimsAndReleasesMarkFreeTable, ClaimsMarkTheMap, DescriptorWritesLeaveTheMap, MarkingSetsListedBitsAlone, ReleasesMarkTheMap, ValuesLeaveTheMap};

/// Each bit of a table with some sectors marked is as they are marked, where its sector is among them, and else as it was.
pub fn marking_sets_listed_bits_alone()
    ensures { MarkingSetsListedBitsAlone }
{}

/// On any pack, in the map of the free sectors, a claim by a label that names a page makes its sector's bit busy, a release of a usable
/// sector makes its bit free, and a value changes none.
pub fn claims_and_releases_mark_free_table()
    ensures { ClaimsAndReleasesMarkFreeTable }
{}

/// On a whole and tidy pack the true map after a make, a growth and a widening is the one before with the claimed sectors busy.
pub fn claims_mark_the_map()
    ensures { ClaimsMarkTheMap }
{}

/// On a whole and tidy pack the true map after a cut, and after a drop with or without the value that frees its entry's slot, is the
/// one before with the released sectors free.
pub fn releases_mark_the_map()
    ensures { ReleasesMarkTheMap }
{}

/// On a whole and tidy pack the true map after a put, a title, a stamp, a leaving and an entering is the one before.
pub fn values_leave_the_map()
    ensures { ValuesLeaveTheMap }
{}

/// On a whole and tidy pack the true map after the opening of the mark, a new serial and closing with any map is the one before.
pub fn descriptor_writes_leave_the_map()
    ensures { DescriptorWritesLeaveTheMap }
{}
