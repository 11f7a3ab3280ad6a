//! Files that were found, over the operations of a line.

ghost use Rattle.laws_steps.specs.KeepingLaws.{DescriptorKeepsFound, OpeningKeepsFound, SerialKeepsFound, WrittenKeepsFound};

/// On a whole and tidy pack a file that was found stays found over what is `Written` of an operation that isn't its drop and doesn't take
/// out the entry by which it was found, which a file found by a held address doesn't need.
pub fn written_keeps_found()
    ensures { WrittenKeepsFound }
{}

/// On a whole pack a file that was found stays found over a value of a page of DiskDescriptor that leaves the pack whole.
pub fn descriptor_keeps_found()
    ensures { DescriptorKeepsFound }
{}

/// On a whole and tidy pack a file that was found stays found while the mark is opened.
pub fn opening_keeps_found()
    ensures { OpeningKeepsFound }
{}

/// On a whole and tidy pack a file that was found stays found over a new serial.
pub fn serial_keeps_found()
    ensures { SerialKeepsFound }
{}
