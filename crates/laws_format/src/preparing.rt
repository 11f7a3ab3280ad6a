//! Preparing the second drive of a pack.

ghost use Rattle.laws_format.specs.Preparing.{FreeHeader, PreparingFreesTheDrive, PreparingGoesOn, PreparingShowsSame, UnusedValue};
ghost use Rattle.laws_record.specs.QuietLaws.{ReadsSame};
ghost use Rattle.laws_record.specs.ViewLaws.{ViewsSame};

/// After any value of a sector that carries no page, good or bad, a pack is read as before.
pub fn unused_value_reads_same()
    ensures { UnusedValue ReadsSame }
{}

/// After any header of a sector with a free label a pack is viewed as before.
pub fn free_header_views_same()
    ensures { FreeHeader ViewsSame }
{}

/// A pack with two drives, of which no sector of the second carries a page, shows at each crash point of preparing what it showed before.
pub fn preparing_shows_same()
    ensures { PreparingShowsSame }
{}

/// On any pack with two drives preparing leaves each sector of the second drive free, and each of the first as it was.
pub fn preparing_frees_the_drive()
    ensures { PreparingFreesTheDrive }
{}

/// The record writes of preparing some sectors and the next one are those of preparing one more.
pub fn preparing_goes_on()
    ensures { PreparingGoesOn }
{}
