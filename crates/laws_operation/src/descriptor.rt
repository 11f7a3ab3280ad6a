//! The record writes of DiskDescriptor: opening the mark, a new serial, and closing.

ghost use Rattle.laws_operation.specs.DescriptorLaws.{CloseCarriesOut, OpenCarriesOut, SerialCarriesOut};
ghost use Rattle.laws_operation.specs.DescriptorLinkLaws.{CloseKeepsLinks, OpenKeepsLinks, SerialKeepsLinks};
ghost use Rattle.laws_operation.specs.OnceLaws.{CloseCarriesOnce, OpenCarriesOnce};

/// On a whole and tidy pack opening the mark leaves what is read, a sound pack sound, and a pack that isn't clean.
pub fn open_carries_out()
    ensures { OpenCarriesOut }
{}

/// On a whole and tidy pack a new serial, not below the last one, changes the last serial alone, and nothing that is viewed; a sound pack
/// stays sound, and the mark what it was.
pub fn serial_carries_out()
    ensures { SerialCarriesOut }
{}

/// On a whole and tidy pack closing leaves what is read at each crash point, and a sound pack sound; the mark is what it was until the last
/// record write, and clean after it.
pub fn close_carries_out()
    ensures { CloseCarriesOut }
{}

/// Opening the mark of a whole and tidy pack leaves all links true if they were true.
pub fn open_keeps_links()
    ensures { OpenKeepsLinks }
{}

/// A new serial on a whole and tidy pack leaves all links true if they were true.
pub fn serial_keeps_links()
    ensures { SerialKeepsLinks }
{}

/// Closing a whole and tidy pack leaves all links true at every crash point if they were true.
pub fn close_keeps_links()
    ensures { CloseKeepsLinks }
{}

/// On a whole pack no two sectors carry one page at every crash point of opening the mark.
pub fn open_carries_once()
    ensures { OpenCarriesOnce }
{}

/// On a whole pack no two sectors carry one page at every crash point of closing.
pub fn close_carries_once()
    ensures { CloseCarriesOnce }
{}
