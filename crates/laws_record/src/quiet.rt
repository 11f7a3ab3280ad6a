//! The laws of record writes after which any pack is read as before: what they change is a hint, or isn't read, or is told twice.

ghost use Rattle.laws_record.specs.QuietLaws.{FreeValue, EqualValue, OtherLinks, PastCount, LeaderHints, SameLeader, UnreadClaim, UnreadRelease, StrayRelease, CopyRelease, CopyClaim, LowestRelease, LastClaim, ReadsSame};

/// After any value of a free sector a pack is read as before.
pub fn free_value_reads_same()
    ensures { FreeValue ReadsSame }
{}

/// After a write of the value that stands there already a pack is read as before.
pub fn equal_value_reads_same()
    ensures { EqualValue ReadsSame }
{}

/// After a label with other links, and with the same page and count, a pack is read as before.
pub fn other_links_reads_same()
    ensures { OtherLinks ReadsSame }
{}

/// After a data page's value with the same counted bytes a pack is read as before.
pub fn past_count_reads_same()
    ensures { PastCount ReadsSame }
{}

/// After a leader page's value with the same words before its hints a pack is read as before.
pub fn leader_hints_reads_same()
    ensures { LeaderHints ReadsSame }
{}

/// After a leader page's value that says the same a pack is read as before. It says the same, too, if a name that can't be read is written
/// out as the one that stands for it.
pub fn same_leader_reads_same()
    ensures { SameLeader ReadsSame }
{}

/// After a label on a free sector for a page past its file's end, or of a file without a leader, a pack is read as before.
pub fn unread_claim_reads_same()
    ensures { UnreadClaim ReadsSame }
{}

/// After a free label in the place of a page past its file's end, or of a file without a leader, a pack is read as before.
pub fn unread_release_reads_same()
    ensures { UnreadRelease ReadsSame }
{}

/// After a free label in the place of one that is neither free nor in range a pack is read as before.
pub fn stray_release_reads_same()
    ensures { StrayRelease ReadsSame }
{}

/// After a free label in the place of a page that a lower sector carries a pack is read as before.
pub fn copy_release_reads_same()
    ensures { CopyRelease ReadsSame }
{}

/// After a label on a free sector that makes an equal copy of a page, above or below the sector that counts, a pack is read as before.
pub fn copy_claim_reads_same()
    ensures { CopyClaim ReadsSame }
{}

/// After a free label in the place of the copy that counts a pack is read as before, if the next sector that carries the page holds an
/// equal one.
pub fn lowest_release_reads_same()
    ensures { LowestRelease ReadsSame }
{}

/// After a label of 0 bytes on a free sector for the last page of a file, which no sector carries, a pack is read as before.
pub fn last_claim_reads_same()
    ensures { LastClaim ReadsSame }
{}
