//! The laws of hints: what they say counts for nothing.

ghost use Rattle.laws_record.specs.HintLaws.{HintsMeanNothing, ValueWithOtherHints};

/// Packs that differ in hint words alone are read the same, and one is sound or clean if and only if the other is.
pub fn hints_mean_nothing()
    ensures { HintsMeanNothing }
{}

/// A value that differs from the one before in its hints alone, as in the address of an entry or the map of DiskDescriptor, leaves what is
/// read, whether the pack is sound, and whether it is clean.
pub fn value_with_other_hints()
    ensures { ValueWithOtherHints }
{}
