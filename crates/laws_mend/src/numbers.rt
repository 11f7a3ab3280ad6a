//! Free and available sectors while the pages of a pack are mended.

ghost use Rattle.laws_mend.specs.NumberLaws.{CopyReleaseFrees, DirectoryCutFrees, FirstSectorIsFree, FreedAndFree, FreesJoin, LackingDescriptorPageIsFree, LackingPageIsFree, NeededIsFree, RootNeedsTwo, StrayReleaseFrees, TwoNeededAreFree, UnusedReleaseFrees, UsedAvailableIsFree};

/// Sectors that become free one after another, as many being available as before, become free together.
pub fn frees_join()
    ensures { FreesJoin }
{}

/// The available sectors of any pack are the free ones and those that a scavenge frees.
pub fn freed_and_free()
    ensures { FreedAndFree }
{}

/// The available sectors of a pack are the free ones, if no page is carried twice, no label is out of range, each directory ends with its
/// slots, and each good sector is free or in use.
pub fn used_available_is_free()
    ensures { UsedAvailableIsFree }
{}

/// A pack that can be scavenged, each good sector of which is free or in use, has a free sector if it needs one.
pub fn needed_is_free()
    ensures { NeededIsFree }
{}

/// A pack that can be scavenged, each good sector of which is free or in use, has a free sector other than sector 1 if it needs two.
pub fn two_needed_are_free()
    ensures { TwoNeededAreFree }
{}

/// A pack that can be scavenged, with SysDir's leader page in sector 1 and each good sector free or in use, has a free sector other than
/// sector 1 if a living file lacks its last page, except DiskDescriptor.
pub fn lacking_page_is_free()
    ensures { LackingPageIsFree }
{}

/// A pack that can be scavenged, with SysDir's leader page in sector 1 and each good sector free or in use, has a free sector other than 1
/// if DiskDescriptor lacks a page of its format, also while it stands without a leader page.
pub fn lacking_descriptor_page_is_free()
    ensures { LackingDescriptorPageIsFree }
{}

/// Sector 1 of a pack that can be scavenged, each good sector of which is free or in use, is the place of SysDir's leader page, or it is
/// free.
pub fn first_sector_is_free()
    ensures { FirstSectorIsFree }
{}

/// A pack without a leader page of SysDir needs two sectors.
pub fn root_needs_two()
    ensures { RootNeedsTwo }
{}

/// A release of a page that a lower sector carries frees one sector more, and as many are available.
pub fn copy_release_frees()
    ensures { CopyReleaseFrees }
{}

/// A release of a usable sector that carries no page and isn't free frees one sector more, and as many are available.
pub fn stray_release_frees()
    ensures { StrayReleaseFrees }
{}

/// A release of a page that isn't within its file's end, or of a file without a leader page, frees one sector more, and as many are
/// available, if no page is carried twice.
pub fn unused_release_frees()
    ensures { UnusedReleaseFrees }
{}

/// A label by which a directory ends with its slots, and then the value that stands there, leave as many sectors free, and as many
/// available.
pub fn directory_cut_frees()
    ensures { DirectoryCutFrees }
{}
