// Tags, the first words of blocks: the size of the block in words, which is even and counts the tag, plus 1 where the block is used.
ghost use Rattle.std.specs.Prelude.{◌≡◌, ◌-◌, ◌&&◌, cond, false, nat_le, nat_lt};
ghost use Rattle.laws_zone.specs.world_model.specs.ZoneWords.{is_gap_tag, tag_size};

/// The address of the first word of the zone.
pub const ZONE_START: u16 = 1024;

/// The size in words of the block with this tag, the tag included.
pub fn block_size(tag: u16) -> u16
    ensures { result ≡ tag_size tag }
{
    tag / 2 * 2
}

/// Whether it is the tag of a free block.
pub fn is_gap(tag: u16) -> bool
    ensures { result ≡ is_gap_tag tag }
{
    tag == block_size(tag)
}

/// Start of the free block that ends at `end`: `here` if the block from `here` to `end` is free, else `end`.
pub fn gap_start(is_free: bool, here: usize, end: usize) -> usize
    ensures { result ≡ cond is_free here end }
{
    if is_free { here } else { end }
}

/// Whether it is the tag of a free block of at least `size` words, the tag included.
pub(crate) fn has_room(tag: u16, size: u32) -> bool
    ensures { result ≡ is_gap_tag tag && nat_le size tag }
{
    is_gap(tag) && size <= u32::from(tag)
}

/// The most usable words that a request could get in the block with this tag: 0 if it is used.
pub(crate) fn gap_words(tag: u16) -> u16
    ensures { result ≡ cond (is_gap_tag tag) (tag - 1) 0 }
{
    if is_gap(tag) {
        tag.saturating_sub(1)
    } else {
        0
    }
}

/// The size in words of the free block with this tag, the tag included: 0 if the block is used.
pub(crate) fn gap_size(tag: u16) -> u16
    ensures { result ≡ cond (is_gap_tag tag) tag 0 }
{
    if is_gap(tag) { tag } else { 0 }
}

/// Whether the word at `wanted`, in the block whose tag is at `here`, is usable: the block is used and the word isn't its tag.
pub(crate) fn is_usable(tag: u16, here: usize, wanted: usize) -> bool
    ensures { result ≡ cond (is_gap_tag tag) false (nat_lt here wanted) }
{
    if is_gap(tag) { false } else { here < wanted }
}
