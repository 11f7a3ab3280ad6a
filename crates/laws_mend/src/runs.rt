//! The record writes of guarded sector commands by which the pages of a pack are mended. What a mending keeps is what a scavenge keeps,
//! what is viewed, and that there is no clean mark where there was none.

ghost use Rattle.laws_mend.specs.RunLaws.{CopyReleaseTends, DescriptorClaimTends, DescriptorCountTends, DescriptorLeaderTends, DirectoryCutTends, LastClaimTends, LostNameTends, OtherLinksTend, RootCopyTends, RootLeaderTends, StrayReleaseTends, SystemNameTends, UnreadClaimTends, UnusedReleaseTends};

/// A release of a page that a lower sector carries keeps at each crash point what a mending keeps.
pub fn copy_release_tends()
    ensures { CopyReleaseTends }
{}

/// A release of a usable sector that carries no page, as one whose label is neither free nor in range, keeps at each crash point what a
/// mending keeps.
pub fn stray_release_tends()
    ensures { StrayReleaseTends }
{}

/// On a pack that carries no page twice a release of a page that isn't within its file's end, or of a file without a leader page, keeps at
/// each crash point what a mending keeps.
pub fn unused_release_tends()
    ensures { UnusedReleaseTends }
{}

/// A label by which a directory ends with its slots, and then the value that stands there, keep at each crash point what a mending keeps.
pub fn directory_cut_tends()
    ensures { DirectoryCutTends }
{}

/// A label with other links, and with the same page and count, and then the value that stands there, keep at each crash point what a
/// mending keeps.
pub fn other_links_tend()
    ensures { OtherLinksTend }
{}

/// A label of a data page of DiskDescriptor with any count, in the sector that carries this page, and then the value that stands there,
/// keep at each crash point what a mending keeps.
pub fn descriptor_count_tends()
    ensures { DescriptorCountTends }
{}

/// A claim, on a free sector other than sector 1, of a page past its file's end or of a file without a leader page, except of
/// DiskDescriptor, keeps at each crash point what a mending keeps.
pub fn unread_claim_tends()
    ensures { UnreadClaimTends }
{}

/// A claim, on a free sector other than sector 1, of a file's missing last page with 0 bytes, except of DiskDescriptor, keeps at each crash
/// point what a mending keeps.
pub fn last_claim_tends()
    ensures { LastClaimTends }
{}

/// A claim, on a free sector other than sector 1, of a data page of DiskDescriptor that no sector carries keeps at each crash point what a
/// mending keeps, if the words that it writes have another mark than the clean one.
pub fn descriptor_claim_tends()
    ensures { DescriptorClaimTends }
{}

/// A claim of DiskDescriptor's leader page, on a free sector other than sector 1, keeps at each crash point what a mending keeps, if sector
/// 1 carries SysDir's leader page.
pub fn descriptor_leader_tends()
    ensures { DescriptorLeaderTends }
{}

/// A claim of SysDir's first leader page in sector 1 keeps at each crash point what a mending keeps, if SysDir's slots are one free slot of
/// 255 words.
pub fn root_leader_tends()
    ensures { RootLeaderTends }
{}

/// A claim of an equal copy of SysDir's leader page in sector 1 keeps at each crash point what a mending keeps.
pub fn root_copy_tends()
    ensures { RootCopyTends }
{}

/// A leader page's value that says the same keeps at each crash point what a mending keeps.
pub fn lost_name_tends()
    ensures { LostNameTends }
{}

/// Any value of a system file's leader page keeps at each crash point what a mending keeps, if sector 1 carries SysDir's leader page.
pub fn system_name_tends()
    ensures { SystemNameTends }
{}
