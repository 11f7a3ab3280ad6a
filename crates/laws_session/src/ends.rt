//! What a history begins with, keeps and leaves.

ghost use Rattle.laws_session.specs.EndLaws.{FailedTurnsKeep, LinesKeepNeed, NoneFailsWithTrueLinks, SessionsLeaveClosed, SoundPacksBegin, TurnsStand};

/// A sound pack stands for what is read of it, so that a session may begin on it.
pub fn sound_packs_begin()
    ensures { SoundPacksBegin }
{}

/// The state after some turns stands on the pack that they leave.
pub fn turns_stand()
    ensures { TurnsStand }
{}

/// After a hint failed a session that drops its streams and needs a scavenge is right for the pack, whatever it keeps of the descriptor
/// and the table.
pub fn failed_turns_keep()
    ensures { FailedTurnsKeep }
{}

/// No line changes whether a scavenge is needed.
pub fn lines_keep_need()
    ensures { LinesKeepNeed }
{}

/// A session that is over and needs no scavenge leaves a sound and clean pack, read as the model after all of its moves.
pub fn sessions_leave_closed()
    ensures { SessionsLeaveClosed }
{}

/// No turn fails where links and addresses are true as each turn begins, and no scavenge is needed then.
pub fn none_fails_with_true_links()
    ensures { NoneFailsWithTrueLinks }
{}
