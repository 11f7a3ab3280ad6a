//! The files of a pack whose pages are mended, as the Scavenger finds them when it enters names.

ghost use Rattle.laws_names.specs.ModelLaws.{AllKeptIsTidy, MendedIsRead, MendedLives, MendedSlot, MendedSlots, TidyMendedIsRead};

/// The files that the Scavenger finds on a pack whose pages are mended are those that it is read as: with the same slots and entries, of
/// which the same are lacking, and viewed the same.
pub fn mended_is_read()
    ensures { MendedIsRead }
{}

/// A pack whose pages are mended is tidy if each slot of every living directory is kept.
pub fn all_kept_is_tidy()
    ensures { AllKeptIsTidy }
{}

/// On a tidy pack whose pages are mended each slot of every living directory is kept.
pub fn tidy_mended_is_read()
    ensures { TidyMendedIsRead }
{}

/// On a pack whose pages are mended the slots of a living directory are those that the scan leaves after all living files before it.
pub fn mended_slots()
    ensures { MendedSlots }
{}

/// On a pack whose pages are mended an entry is kept if and only if the scan keeps it after the living files, and the slots, before it.
pub fn mended_slot()
    ensures { MendedSlot }
{}

/// On a pack whose pages are mended both system files live, so that they needn't be taken for living.
pub fn mended_lives()
    ensures { MendedLives }
{}
