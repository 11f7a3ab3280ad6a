// The laws of the guarded sector commands. In each, every other sector stays as it was, word by word.
ghost use Rattle.pack_laws.specs.GuardLaws.{ValueWritesKeepThePage, RelabelKeepsThePage, ClaimTakesAtTheLabel, ReleaseFreesAtTheLabel};

/// A value write to a sector that carries a page leaves every sector with the page that it carries, and shows other bytes of
/// this page alone; the sector's header and label stay.
pub fn value_writes_keep_the_page()
    ensures { ValueWritesKeepThePage }
{}

/// Another label for the same page, with the value that stands there, leaves the page where it is at each crash point: the sector holds
/// its old header, the new label and its old value.
pub fn relabel_keeps_the_page()
    ensures { RelabelKeepsThePage }
{}

/// A free sector that is taken stays free, and the pack shows what it showed, until its label is written, though it holds the
/// value before; from then on the sector carries the page with the bytes given, and holds this label and this value.
pub fn claim_takes_at_the_label()
    ensures { ClaimTakesAtTheLabel }
{}

/// A sector that is released is free as soon as its label is written; its old value stands until the second write.
pub fn release_frees_at_the_label()
    ensures { ReleaseFreesAtTheLabel }
{}
