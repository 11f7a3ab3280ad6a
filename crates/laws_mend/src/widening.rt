//! A directory that gets a page more while names are mended: its pages are mended, but the pack isn't whole yet.

ghost use Rattle.laws_mend.specs.WidenLaws.{GrowthCanWiden, RootWideningTends, WideningInWords, WideningKeepsPages};

/// A widening of a directory, by a free sector, leaves a pack whose pages are mended so, and a tidy one tidy: other pages their places,
/// files their leaders, other files their bytes, and after the slots, which stand, one free slot of 256 words.
pub fn widening_keeps_pages()
    ensures { WideningKeepsPages }
{}

/// What is known of a growth of a directory by the bytes of a free slot is known of a widening: so the premise of these laws is met.
pub fn growth_can_widen()
    ensures { GrowthCanWiden }
{}

/// The words of a widening: of the new page zeros, and of the old last one the first word of the free slot, past those that counted, and
/// zeros after it. Both labels are in range.
pub fn widening_in_words()
    ensures { WideningInWords }
{}

/// A widening of SysDir, where the next entry that is lacking has no room, keeps at each crash point what a mending keeps, if pages are
/// mended; then the same entries are lacking.
pub fn root_widening_tends()
    ensures { RootWideningTends }
{}
