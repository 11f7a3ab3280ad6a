// What a line is refused for by itself, before its operands are looked at.
ghost use Rattle.exec_session.specs.Meant.{kept};
ghost use Rattle.exec_session.specs.Stops.{refused_for};
ghost use Rattle.exec_words.specs.Built.{as_built};
ghost use Rattle.pack_model.specs.reading.Files.{first};
ghost use Rattle.session_model.specs.Keeping.{world_of};
ghost use Rattle.session_model.specs.Operands.{level_of};
ghost use Rattle.session_model.specs.Refusals.{by_line, is_obeyed_in_need};
ghost use Rattle.std.specs.Prelude.{◌≡◌};

use crate::session::Session;
use crate::stop::{Stop, refused};
use exec_words::{Line, Refusal, is_built, is_typed};

/// The level of the service that has a line, 1 to 8.
fn level_of(line: &Line) -> u8
    ensures { result ≡ level_of line.now }
{
    match line {
        Line::Store { .. }
        | Line::Fetch { .. }
        | Line::SetTime { .. }
        | Line::Junta { .. }
        | Line::CounterJunta
        | Line::Quit
        | Line::Bad => 1,
        Line::Block { .. } | Line::Unblock { .. } => 2,
        Line::Free => 3,
        Line::OutLoad { .. } | Line::InLoad { .. } => 4,
        Line::ListNames { .. }
        | Line::TypeOut { .. }
        | Line::Stat { .. }
        | Line::Make { .. }
        | Line::Append { .. }
        | Line::Patch { .. }
        | Line::Cut { .. }
        | Line::Copy { .. }
        | Line::Rename { .. }
        | Line::Delete { .. } => 5,
        Line::OpenStream { .. }
        | Line::Get { .. }
        | Line::PutBytes { .. }
        | Line::Seek { .. }
        | Line::Close { .. } => 6,
        Line::MakeDir { .. } | Line::RemoveDir { .. } => 7,
        Line::Scavenge => 8,
    }
}

/// Whether a line is obeyed though a scavenge is needed.
fn is_obeyed_in_need(line: &Line) -> bool
    ensures { result ≡ is_obeyed_in_need line.now }
{
    matches!(line, Line::Scavenge | Line::CounterJunta | Line::Quit)
}

/// Refuses a line that the session doesn't take up, whatever stands on the pack.
///
/// BadLine: no text is read as it, or its verb isn't built yet. NeedsScavenge: a hint failed since the pack was opened or scavenged, and the
/// line is none of those that are obeyed then. NoService: the level of its service is above the session's. In this order.
pub fn refuse_line(session: &Session, line: &Line) -> Result<(), Stop>
    ensures { result ≡ refused_for (first (λ r. r) (by_line (as_built line.now) (world_of (kept session.now)))) }
{
    if !is_built(line) || !is_typed(line) {
        return refused(Refusal::BadLine);
    }
    if session.need && !is_obeyed_in_need(line) {
        return refused(Refusal::NeedsScavenge);
    }
    let level = level_of(line);
    if session.world.level < level {
        return refused(Refusal::NoService { level });
    }
    Ok(())
}
