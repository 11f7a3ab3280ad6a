//! The laws of record writes after which any pack is viewed as before, though it may be read otherwise: they concern the system files, or
//! pages that aren't in use.

ghost use Rattle.laws_record.specs.DirLaws.{UnusedRelease};
ghost use Rattle.laws_record.specs.ViewLaws.{DescriptorLeader, DescriptorPages, FirstLeaderOfTheMainDirectory, SystemLeaderValue, ViewsSame};

/// After any record of a sector that is free or carries a data page of DiskDescriptor, before and after, a pack is viewed as before.
pub fn descriptor_pages_views_same()
    ensures { DescriptorPages ViewsSame }
{}

/// After DiskDescriptor's first leader a pack is viewed as before.
pub fn descriptor_leader_views_same()
    ensures { DescriptorLeader ViewsSame }
{}

/// After SysDir's first leader a pack is viewed as before, if no entry stands in its slots.
pub fn first_leader_of_the_main_directory()
    ensures { FirstLeaderOfTheMainDirectory }
{}

/// After any value of a system file's leader, as if its name is written, a pack is viewed as before.
pub fn system_leader_value_views_same()
    ensures { SystemLeaderValue ViewsSame }
{}

/// After a free label in the place of a page that isn't in use a pack is viewed as before, if no other sector carries the page.
pub fn unused_release_views_same()
    ensures { UnusedRelease ViewsSame }
{}
