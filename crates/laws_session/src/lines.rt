//! A line, by what its operations do to the pack, as the answer of a call.

ghost use Rattle.laws_session.specs.LineAnswers.{BrokenLinesAnswer, EndsInNeedAnswer, EndsOnASoundPackAnswer, LinesOnASoundPackAnswer, PrefixesAnswer, SilentLinesAnswer};

/// A line without operations, or one that is refused, is answered by its reply, and nothing is written.
pub fn silent_lines_answer()
    ensures { SilentLinesAnswer }
{}

/// A line whose operations are all done on a sound pack is answered by its reply.
pub fn lines_on_a_sound_pack_answer()
    ensures { LinesOnASoundPackAnswer }
{}

/// A prefix of the record writes of a turn may be answered by a fault, by out of memory, or by a hint that misled.
pub fn prefixes_answer()
    ensures { PrefixesAnswer }
{}

/// A line that broke off on a sound pack has made a prefix of a turn's record writes, which a fault, out of memory or a hint may answer.
pub fn broken_lines_answer()
    ensures { BrokenLinesAnswer }
{}

/// A session whose last operations and closing are done on a sound pack is over, and answered by its plain reply.
pub fn ends_on_a_sound_pack_answer()
    ensures { EndsOnASoundPackAnswer }
{}

/// The end of a session that needs a scavenge writes nothing, and is answered by its plain reply.
pub fn ends_in_need_answer()
    ensures { EndsInNeedAnswer }
{}
