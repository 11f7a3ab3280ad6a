// Which lines this program obeys.
ghost use Rattle.std.specs.Prelude.{◌≡◌};
ghost use Rattle.exec_words.specs.Built.{is_built, as_built};

use crate::line::Line;

/// Whether this program obeys lines of this verb: those on files and directories, those on the memory, which are `store`, `fetch`, `block`,
/// `unblock`, `junta` and `counterjunta`, and `free`, `settime` and `quit`. Lines on streams and worlds wait, and so does `scavenge`.
pub fn is_built(line: &Line) -> bool
    ensures { result ≡ is_built line.now }
{
    match line {
        Line::ListNames { .. }
        | Line::TypeOut { .. }
        | Line::Stat { .. }
        | Line::Make { .. }
        | Line::Append { .. }
        | Line::Patch { .. }
        | Line::Cut { .. }
        | Line::Copy { .. }
        | Line::Rename { .. }
        | Line::Delete { .. }
        | Line::MakeDir { .. }
        | Line::RemoveDir { .. }
        | Line::Free
        | Line::SetTime { .. }
        | Line::Store { .. }
        | Line::Fetch { .. }
        | Line::Block { .. }
        | Line::Unblock { .. }
        | Line::Junta { .. }
        | Line::CounterJunta
        | Line::Quit => true,
        Line::OpenStream { .. }
        | Line::Get { .. }
        | Line::PutBytes { .. }
        | Line::Seek { .. }
        | Line::Close { .. }
        | Line::OutLoad { .. }
        | Line::InLoad { .. }
        | Line::Scavenge
        | Line::Bad => false,
    }
}

/// The line itself if this program obeys lines of its verb (`is_built`), and `Bad` if their verb isn't built yet: lines on streams and
/// worlds wait, and so does `scavenge`.
pub fn as_built(line: Line) -> Line
    ensures { result ≡ as_built line }
{
    if is_built(&line) { line } else { Line::Bad }
}
