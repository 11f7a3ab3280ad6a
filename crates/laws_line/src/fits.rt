//! What a session keeps of DiskDescriptor fits the disk throughout.

ghost use Rattle.laws_line.specs.FitLaws.{DescriptorFitsOn, FittingDescriptorMayClose};

/// What a session keeps of DiskDescriptor fits the disk after the opening of the mark, with the open mark; after a new serial, with this
/// one; after closing, with the clean mark.
pub fn descriptor_fits_on()
    ensures { DescriptorFitsOn }
{}

/// The sectors that are kept are those by which the pack may be closed.
pub fn fitting_descriptor_may_close()
    ensures { FittingDescriptorMayClose }
{}
