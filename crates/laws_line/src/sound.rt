//! A line of the operating system, from a sound pack with the free sectors for the pages that it adds.

ghost use Rattle.laws_line.specs.SoundLines.{CrashesOfALineOnASoundPack};
ghost use Rattle.laws_line.specs.SoundParts.{BrokenLineOnASoundPack, PartOfALineOnASoundPack};

/// From a sound pack with as many free sectors as a line of the operating system adds pages, each crash point is viewed as its model and
/// can be scavenged, the moves are a session's, and the pack is sound again.
pub fn crashes_of_a_line_on_a_sound_pack()
    ensures { CrashesOfALineOnASoundPack }
{}

/// From a sound pack with the sectors for a line, each crash point of its first operations is as in the whole line, and their moves are a
/// prefix of the line's; also where no operation is done yet and the mark is opened.
pub fn part_of_a_line_on_a_sound_pack()
    ensures { PartOfALineOnASoundPack }
{}

/// If a line on a sound pack breaks off, its record writes make a prefix of its moves, and each crash point can be scavenged.
pub fn broken_line_on_a_sound_pack()
    ensures { BrokenLineOnASoundPack }
{}
