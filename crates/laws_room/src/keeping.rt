//! Record writes that keep, of any pack, what a scavenge keeps: what is shown, the available sectors less the needed ones, and that the
//! pack is scavengeable, where sector 1 may still become SysDir's leader.

ghost use Rattle.laws_room.specs.KeepLaws.{FreshLeaderOfTheMainDirectoryKeeps, KeepsAside, KeepsWithRoot};
ghost use Rattle.laws_record.specs.QuietLaws.{CopyClaim, CopyRelease, EqualValue, FreeValue, LastClaim, LeaderHints, LowestRelease, OtherLinks, PastCount, SameLeader, StrayRelease, UnreadClaim, UnreadRelease};
ghost use Rattle.laws_record.specs.ViewLaws.{DescriptorLeader, DescriptorPages, SystemLeaderValue};
ghost use Rattle.laws_record.specs.DirLaws.{CutAtSlots, LooseWords, UnusedRelease};

/// Any value of a free sector keeps what a scavenge keeps, if sector 1 may still become SysDir's leader.
pub fn free_value_keeps_aside()
    ensures { FreeValue KeepsAside }
{}

/// A write of the value that stands there already keeps what a scavenge keeps, if sector 1 may still become SysDir's leader.
pub fn equal_value_keeps_aside()
    ensures { EqualValue KeepsAside }
{}

/// A label with other links, and with the same page and count, keeps what a scavenge keeps, if sector 1 may still become SysDir's leader.
pub fn other_links_keeps_aside()
    ensures { OtherLinks KeepsAside }
{}

/// A data page's value with the same counted bytes keeps what a scavenge keeps, if sector 1 may still become SysDir's leader.
pub fn past_count_keeps_aside()
    ensures { PastCount KeepsAside }
{}

/// A leader page's value with the same words before its hints keeps what a scavenge keeps, if sector 1 may still become SysDir's leader.
pub fn leader_hints_keeps_aside()
    ensures { LeaderHints KeepsAside }
{}

/// A leader page's value that says the same keeps what a scavenge keeps, if sector 1 may still become SysDir's leader.
pub fn same_leader_keeps_aside()
    ensures { SameLeader KeepsAside }
{}

/// A label on a free sector for a page past its file's end, or of a file without a leader, keeps what a scavenge keeps, if sector 1 may
/// still become SysDir's leader.
pub fn unread_claim_keeps_aside()
    ensures { UnreadClaim KeepsAside }
{}

/// A free label in the place of a page past its file's end, or of a file without a leader, keeps what a scavenge keeps, if sector 1 may
/// still become SysDir's leader.
pub fn unread_release_keeps_aside()
    ensures { UnreadRelease KeepsAside }
{}

/// A free label in the place of one that is neither free nor in range keeps what a scavenge keeps, if sector 1 may still become SysDir's
/// leader.
pub fn stray_release_keeps_aside()
    ensures { StrayRelease KeepsAside }
{}

/// A free label in the place of a page that a lower sector carries keeps what a scavenge keeps, if sector 1 may still become SysDir's
/// leader.
pub fn copy_release_keeps_aside()
    ensures { CopyRelease KeepsAside }
{}

/// A label on a free sector that makes an equal copy of a page keeps what a scavenge keeps, if sector 1 may still become SysDir's leader.
pub fn copy_claim_keeps_aside()
    ensures { CopyClaim KeepsAside }
{}

/// A free label in the place of the copy that counts keeps what a scavenge keeps, if the next sector that carries the page holds an equal
/// one, and sector 1 may still become SysDir's leader.
pub fn lowest_release_keeps_aside()
    ensures { LowestRelease KeepsAside }
{}

/// A label of 0 bytes on a free sector for the last page of a file, which no sector carries, keeps what a scavenge keeps, if sector 1 may
/// still become SysDir's leader.
pub fn last_claim_keeps_aside()
    ensures { LastClaim KeepsAside }
{}

/// Other words inside a free slot of a directory, and other addresses of entries, keep what a scavenge keeps, if sector 1 may still become
/// SysDir's leader.
pub fn loose_words_keeps_aside()
    ensures { LooseWords KeepsAside }
{}

/// A label by which a directory's last page counts fewer bytes, so that its bytes end with its slots, keeps what a scavenge keeps, if
/// sector 1 may still become SysDir's leader.
pub fn cut_at_slots_keeps_aside()
    ensures { CutAtSlots KeepsAside }
{}

/// A free label in the place of a page that isn't in use keeps what a scavenge keeps, if no other sector carries the page, and sector 1 may
/// still become SysDir's leader.
pub fn unused_release_keeps_aside()
    ensures { UnusedRelease KeepsAside }
{}

/// Any record of a sector that is free or carries a data page of DiskDescriptor, before and after, keeps what a scavenge keeps, if sector 1
/// may still become SysDir's leader.
pub fn descriptor_pages_keeps_aside()
    ensures { DescriptorPages KeepsAside }
{}

/// DiskDescriptor's first leader keeps what a scavenge keeps, if sector 1 may still become SysDir's leader.
pub fn descriptor_leader_keeps_with_root()
    ensures { DescriptorLeader KeepsWithRoot }
{}

/// Any value of a system file's leader, as if its name is written, keeps what a scavenge keeps, if sector 1 may still become SysDir's
/// leader.
pub fn system_leader_value_keeps_with_root()
    ensures { SystemLeaderValue KeepsWithRoot }
{}

/// SysDir's first leader keeps what a scavenge keeps, if its slots are one free slot of 255 words, and sector 1 may still become SysDir's
/// leader.
pub fn fresh_leader_of_the_main_directory_keeps()
    ensures { FreshLeaderOfTheMainDirectoryKeeps KeepsWithRoot }
{}
