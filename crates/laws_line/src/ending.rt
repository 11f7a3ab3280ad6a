//! Closing a sound pack, and the end of a session: its last operations and then closing.

ghost use Rattle.laws_line.specs.EndLaws.{ClosingOfASoundPack, EndingOnASoundPack};

/// Each crash point of closing a sound pack, with any map, is viewed as the model and can be scavenged; afterwards the pack is sound and
/// clean, and read as before.
pub fn closing_of_a_sound_pack()
    ensures { ClosingOfASoundPack }
{}

/// From a sound pack each crash point of the last operations and of closing is viewed as the model there and can be scavenged; the moves
/// are those of a session's end, and the pack is sound, clean, and read as the last model.
pub fn ending_on_a_sound_pack()
    ensures { EndingOnASoundPack }
{}
