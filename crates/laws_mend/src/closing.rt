//! DiskDescriptor's words, once the pages and the names of a pack are mended.

ghost use Rattle.laws_mend.specs.ClosingLaws.{DescribedIsSound};

/// A pack whose names are mended is sound and clean, with all hints true, once DiskDescriptor's data pages are written, from the last to
/// the first, with the map of the free sectors and a last serial that no living one is above.
pub fn described_is_sound()
    ensures { DescribedIsSound }
{}
