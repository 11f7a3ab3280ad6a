//! The parts of a pack whose pages are mended: what the record writes of guarded commands leave of them, and how they are put together.

ghost use Rattle.laws_mend.specs.PartLaws.{CopyReleaseLeaves, DescribedIsLasting, DescriptorClaimLeaves, DescriptorCountLeaves, DescriptorLeaderMakesLasting, DirectoryCutLeaves, LastClaimLeaves, LeaderValueLeaves, OtherLinksLeave, PartsAreMended, RootIsMade, RootIsMoved, SoundIsMended, StrayReleaseLeaves, UnusedReleaseLeaves, WholeIsLasting};

/// A release of a page that a lower sector carries leaves the same files with the same bytes, and each page its place.
pub fn copy_release_leaves()
    ensures { CopyReleaseLeaves }
{}

/// A release of a usable sector that carries no page leaves the same files with the same bytes, each page its place, and every other sector
/// as it was; no page comes to be carried twice.
pub fn stray_release_leaves()
    ensures { StrayReleaseLeaves }
{}

/// If each directory ends with its slots, a release of a page that isn't within its file's end leaves every other page its place and each
/// living file its bytes, except DiskDescriptor; sectors free or in use stay so, and the released one is free.
pub fn unused_release_leaves()
    ensures { UnusedReleaseLeaves }
{}

/// A label by which a directory ends with its slots, and then the value that stands there, leave each page its place, and the bytes of every
/// other file; the directory has the same slots and ends with them, if it lives.
pub fn directory_cut_leaves()
    ensures { DirectoryCutLeaves }
{}

/// A claim of a missing last page with 0 bytes, on a free sector other than 1, leaves each other page its place and all files their bytes;
/// the file has its last page, and good sectors stay free or in use if it lives.
pub fn last_claim_leaves()
    ensures { LastClaimLeaves }
{}

/// An equal copy of SysDir's leader page, claimed in sector 1, and the release of the old sector leave SysDir's leader page in sector 1, and
/// each good sector free or in use, if it was.
pub fn root_is_moved()
    ensures { RootIsMoved }
{}

/// If SysDir doesn't live, a claim of its first data page, of 510 bytes whose first word is 255, and then of its leader page in sector 1
/// leave it one free slot of 255 words, and good sectors free or in use as before.
pub fn root_is_made()
    ensures { RootIsMade }
{}

/// A claim of a missing data page of DiskDescriptor, on a free sector other than sector 1, leaves each other page its place, each other file
/// its bytes, and each good sector free, in use, or with a data page of DiskDescriptor.
pub fn descriptor_claim_leaves()
    ensures { DescriptorClaimLeaves }
{}

/// A label with another count of a data page of DiskDescriptor, and then the value that stands there, leave each page its place, each other
/// file its bytes, and each good sector free, in use, or with a data page of DiskDescriptor.
pub fn descriptor_count_leaves()
    ensures { DescriptorCountLeaves }
{}

/// If all data pages of DiskDescriptor are there with the counts of its format, each other living file has its last page, and
/// DiskDescriptor lives, it has the length of its format, and each living file its last page.
pub fn described_is_lasting()
    ensures { DescribedIsLasting }
{}

/// If all data pages of DiskDescriptor are there with the counts of its format, and each other living file has its last page, a claim of
/// its missing leader page, on a free sector other than 1, leaves each living file its last page.
pub fn descriptor_leader_makes_lasting()
    ensures { DescriptorLeaderMakesLasting }
{}

/// A label with other links, and then the value that stands there, leave all that is shown, all parts of a mended pack that were there, and
/// every other sector its links; the sector has true ones if those of the label are.
pub fn other_links_leave()
    ensures { OtherLinksLeave }
{}

/// A value of a leader page leaves the same files with the same bytes, each page its place, all parts of a mended pack that were there, and
/// each sector its label and true links; its name can be read if the value says one.
pub fn leader_value_leaves()
    ensures { LeaderValueLeaves }
{}

/// The pages of a pack are mended if it has all parts (`Lasting`, with those before it), the links of pages are true, and the name of each
/// living file can be read.
pub fn parts_are_mended()
    ensures { PartsAreMended }
{}

/// A whole pack has all parts of a mended one: so the premises of these laws are met.
pub fn whole_is_lasting()
    ensures { WholeIsLasting }
{}

/// The names of a sound pack with true links are mended.
pub fn sound_is_mended()
    ensures { SoundIsMended }
{}
