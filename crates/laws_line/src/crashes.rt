//! Every crash point of an operation, and of a line, can be scavenged, where its models are ready.

ghost use Rattle.laws_line.specs.CrashLaws.{CrashesOfALine, CrashesOfAnOperation, CrashesOfAnUnmarkedLine, CrashesOfEnter, LinesJoin, OpenPackIsUnmarked};
ghost use Rattle.laws_line.specs.EachLaws.{CrashesOfEachOperation};

/// On a whole pack without the clean mark, record writes that carry out an operation and leave SysDir's leader and DiskDescriptor alone can
/// be scavenged, and aren't clean, at every crash point, if both models are ready.
pub fn crashes_of_an_operation()
    ensures { CrashesOfAnOperation }
{}

/// On a whole and tidy pack whose mark is open, an entering, which may join free slots before the value that commits, can be scavenged at
/// every crash point, if its models are ready.
pub fn crashes_of_enter()
    ensures { CrashesOfEnter }
{}

/// On a whole and tidy pack whose mark is open, each operation except an entering can be scavenged at every crash point by its own law, if
/// its models are ready.
pub fn crashes_of_each_operation()
    ensures { CrashesOfEachOperation }
{}

/// On a whole and tidy pack without the clean mark, operations one after another, a new serial right before each make, can be scavenged at
/// every crash point if their models are ready; the pack is read as the last one.
pub fn crashes_of_an_unmarked_line()
    ensures { CrashesOfAnUnmarkedLine }
{}

/// From a sound pack, a line whose models are ready can be scavenged at every crash point, with the opening of the mark before it, and is
/// clean at one only if it is sound there.
pub fn crashes_of_a_line()
    ensures { CrashesOfALine }
{}

/// A line and then another one, on the pack that it leaves, are one line.
pub fn lines_join()
    ensures { LinesJoin }
{}

/// A whole pack whose mark is open is without the clean mark, by the sector that bears it.
pub fn open_pack_is_unmarked()
    ensures { OpenPackIsUnmarked }
{}
