//! What all record writes of each operation do.

ghost use Rattle.laws_call.specs.ActLaws.{ActsOfEachOperation};

/// On a whole and tidy pack, if the caller knows `CanX` or `MayX`, the record writes that `pack_model` has for the operation make its
/// moves, keep links and DiskDescriptor, and change the true map at the claimed and released sectors alone (`Acts`).
pub fn acts_of_each_operation()
    ensures { ActsOfEachOperation }
{}
