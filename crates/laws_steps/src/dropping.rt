//! A drop by two calls: one that releases the file's sectors, and one that frees the slot of its entry.

ghost use Rattle.laws_steps.specs.DroppingLaws.{DropIsJoined, ReleasesLeaveTheEntry};

/// On a whole and tidy pack, after the releases of a file that may be dropped, the pack is whole, its entry stands in its directory with
/// the same slots, and all other files that were found are found.
pub fn releases_leave_the_entry()
    ensures { ReleasesLeaveTheEntry }
{}

/// On a whole and tidy pack the releases of a file that may be dropped, and then the value that frees its entry's slot, are one drop in a
/// line, also where one of the two calls breaks off (`DropJoins`).
pub fn drop_is_joined<T, U, E, F>()
    ensures { DropIsJoined T U E F }
{}
