//! The record writes of an operation as `pack_model` has them: that they do all that the operation does (`Acts`), and what stays known over
//! them.

ghost use Rattle.laws_call.specs.WritingLaws.{WrittenActs, WrittenStaysKnown};

/// On a whole and tidy pack all record writes of an operation do what it does (`Acts`).
pub fn written_acts()
    ensures { WrittenActs }
{}

/// On a whole and tidy pack what is `Written` of an operation, unless it is a drop, leaves all other files and the leader of its own file,
/// misleads no hint that didn't mislead, and releases no free sector.
pub fn written_stays_known()
    ensures { WrittenStaysKnown }
{}
