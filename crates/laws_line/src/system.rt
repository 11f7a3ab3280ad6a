//! The record writes of each operation leave SysDir's leader and DiskDescriptor alone, on a whole pack on which it may be done.

ghost use Rattle.laws_line.specs.SystemLaws.{CutLeavesTheSystem, DropLeavesTheSystem, EnterLeavesTheSystem, GrowLeavesTheSystem, LeaderLeavesTheSystem, MakeLeavesTheSystem, PutLeavesTheSystem, ReleaseLeavesTheSystem, SlotLeavesTheSystem, WidenLeavesTheSystem};

/// On a whole pack the value by which bytes are put in the place of others leaves SysDir's leader and DiskDescriptor alone.
pub fn put_leaves_the_system()
    ensures { PutLeavesTheSystem }
{}

/// A growth of a file on a whole pack leaves SysDir's leader and DiskDescriptor alone.
pub fn grow_leaves_the_system()
    ensures { GrowLeavesTheSystem }
{}

/// A cut of a file on a whole pack leaves SysDir's leader and DiskDescriptor alone.
pub fn cut_leaves_the_system()
    ensures { CutLeavesTheSystem }
{}

/// On a whole pack the value by which a leader says another name or date leaves SysDir's leader and DiskDescriptor alone.
pub fn leader_leaves_the_system()
    ensures { LeaderLeavesTheSystem }
{}

/// The making of a file on a whole pack leaves SysDir's leader and DiskDescriptor alone.
pub fn make_leaves_the_system()
    ensures { MakeLeavesTheSystem }
{}

/// On a whole pack the releases of a file that is dropped leave SysDir's leader and DiskDescriptor alone.
pub fn release_leaves_the_system()
    ensures { ReleaseLeavesTheSystem }
{}

/// On a whole pack the value in which an entry's slot becomes a free one leaves SysDir's leader and DiskDescriptor alone.
pub fn slot_leaves_the_system()
    ensures { SlotLeavesTheSystem }
{}

/// A whole drop of a file on a whole pack leaves SysDir's leader and DiskDescriptor alone.
pub fn drop_leaves_the_system()
    ensures { DropLeavesTheSystem }
{}

/// A widening of a directory on a whole pack leaves SysDir's leader and DiskDescriptor alone.
pub fn widen_leaves_the_system()
    ensures { WidenLeavesTheSystem }
{}

/// An entering in a directory on a whole pack leaves SysDir's leader and DiskDescriptor alone.
pub fn enter_leaves_the_system()
    ensures { EnterLeavesTheSystem }
{}
