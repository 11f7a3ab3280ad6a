//! True hints from the opening of a pack to its closing.

ghost use Rattle.laws_hint.specs.TruthLaws.{TruthAtClosing, TruthAtOpening, TruthGoesOn};

/// If all hints are true as a pack is opened, they are with the table that is read from DiskDescriptor.
pub fn truth_at_opening()
    ensures { TruthAtOpening }
{}

/// Record writes that keep links and leave the mark open keep hints true, with the table that is true after them.
pub fn truth_goes_on()
    ensures { TruthGoesOn }
{}

/// On a whole and tidy pack where links and the table are true, closing with that table leaves all hints true, whether the mark was open or
/// is clean still.
pub fn truth_at_closing()
    ensures { TruthAtClosing }
{}
