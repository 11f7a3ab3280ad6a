// Lines that are typed in a session, and what is shown.
ghost use Rattle.disk_records.specs.declared.shape.Shape.{Shape};
ghost use Rattle.exec_session.specs.Meant.{kept};
ghost use Rattle.session_model.specs.Keeping.{Formed};
ghost use Rattle.std.specs.Prelude.{IfSome, ◌≡◌};

use crate::packs::MOMENT;
use alto_words::{Memory, read_number};
use disk_memory::MemMachine;
use disk_records::{Disk, Sector, Shape, Tape};
use executive::{Line, Reply, Session, obey, read_line, reply_text};
use std::alloc::Global;
use std::test::Fail;

/// As many sector commands as there may be.
pub(crate) const ANY: u64 = u64::MAX;

/// Passes if this holds.
pub(crate) fn expect(holds: bool, what: &'static str) -> Result<(), Fail> {
    if holds { Ok(()) } else { Err(Fail::new(what)) }
}

/// Puts a word after a text; a word `x*n` stands for n times x. Answers whether it is a word, and memory is left.
fn push_word(word: &str, text: &mut Vec<u8>) -> bool {
    let Some((bytes, count)) = word.split_once('*') else {
        return text.extend_from_slice(word.as_bytes()).is_ok();
    };
    let Some(count) = read_number(count.as_bytes()) else {
        return false;
    };
    for _ in 0..count {
        if text.extend_from_slice(bytes.as_bytes()).is_err() {
            return false;
        }
    }
    true
}

/// The line that is typed with these words. Memory: none was left for it, or one of them isn't a word.
fn line_of(alloc: Global, words: &str) -> Result<Line, Memory> {
    let mut text = Vec::new(alloc);
    for word in words.split(' ') {
        if !push_word(word, &mut text) || text.push(b' ').is_err() {
            return Err(Memory);
        }
    }
    text.pop();
    read_line(alloc, &text)
}

/// A machine over this pack, whose device fails after so many sector commands. None if no memory is left.
fn machine_over(alloc: Global, shape: Shape, pack: &[Sector], most: u64) -> Option<MemMachine>
    ensures form { IfSome result (λ machine. (⟦<MemMachine as Tape>⟧.tape machine).form ≡ shape) }
{
    let Ok(sectors) = pack.to_vec(alloc) else {
        return None;
    };
    let Ok(mut machine) = MemMachine::new(alloc, shape, sectors, Vec::new(alloc)) else {
        return None;
    };
    if machine.fail_at(alloc, most, 0).is_err() {
        return None;
    }
    Some(machine)
}

/// A session on a pack. None if the pack isn't entered.
pub(crate) fn begin(alloc: Global, shape: Shape, pack: &[Sector]) -> Option<Session>
    ensures formed { IfSome result (λ session. Formed shape (kept session)) }
{
    let Some(mut machine) = machine_over(alloc, shape, pack, ANY) else {
        return None;
    };
    match Session::begin(alloc, &mut machine, MOMENT, 7) {
        Ok(session) => Some(session),
        Err(_) => None,
    }
}

/// Whether a line writes nothing to the pack.
fn writes_nothing(line: &Line) -> bool {
    matches!(
        line,
        Line::ListNames { .. }
            | Line::TypeOut { .. }
            | Line::Stat { .. }
            | Line::Free
            | Line::SetTime { .. }
            | Line::Store { .. }
            | Line::Fetch { .. }
            | Line::Block { .. }
            | Line::Unblock { .. }
            | Line::Junta { .. }
            | Line::CounterJunta
    )
}

/// Whether a session is at this level, unless the line may change it.
fn keeps_level(line: &Line, level: u8, session: &Session) -> bool {
    session.level() == level || matches!(line, Line::Junta { .. } | Line::CounterJunta)
}

/// Whether a session has a bit for each sector, and the limit that it began with.
fn has_same_size(shape: Shape, session: &Session) -> bool {
    session.tally().limit == 7 && session.hints.table.pages() == shape.pages()
}

/// Puts the text of a reply after what was shown. A line that writes nothing by its verb, or is refused, wrote nothing.
fn show(
    alloc: Global,
    line: &Line,
    reply: &Reply,
    writes: u64,
    shown: &mut Vec<u8>,
) -> Result<(), Fail> {
    if writes > 0 && (writes_nothing(line) || matches!(reply, Reply::Refused { .. })) {
        return Err(Fail::new("it wrote"));
    }
    let Ok(text) = reply_text(alloc, reply) else {
        return Err(Fail::new("no memory"));
    };
    expect(shown.extend_from_slice(&text).is_ok(), "no memory")
}

/// Types a line in a session on this pack, and puts what is shown after what was shown before. The device fails after so many sector commands.
/// A line that writes nothing by its verb, or is refused, wrote nothing, and a session keeps no more after a line than before.
fn say(
    alloc: Global,
    shape: Shape,
    pack: &mut Vec<Sector>,
    session: &mut Session,
    words: &str,
    most: u64,
    shown: &mut Vec<u8>,
) -> Result<(), Fail>
    requires formed { Formed shape (kept session.old) }
    ensures formed { Formed shape (kept session.new) }
{
    let Ok(line) = line_of(alloc, words) else {
        return Err(Fail::new("no line"));
    };
    let Some(mut machine) = machine_over(alloc, shape, pack, most) else {
        return Err(Fail::new("no machine"));
    };
    let level = session.level();
    let reply = obey(alloc, session, &mut machine, &line);
    let writes = machine.writes();
    *pack = machine.into_sectors();
    if !has_same_size(shape, session) || !keeps_level(&line, level, session) {
        return Err(Fail::new("the session keeps more or less than before"));
    }
    show(alloc, &line, &reply, writes, shown)
}

/// Types these lines in a session on this pack, none of an empty text, each in at most so many sector commands, and puts what is shown after
/// what was shown before.
pub(crate) fn talk(
    alloc: Global,
    shape: Shape,
    pack: &mut Vec<Sector>,
    session: &mut Session,
    lines: &str,
    most: u64,
    shown: &mut Vec<u8>,
) -> Result<(), Fail>
    requires formed { Formed shape (kept session.old) }
    ensures formed { Formed shape (kept session.new) }
{
    if lines.is_empty() {
        return Ok(());
    }
    for line in lines.split('\n') {
        say(alloc, shape, pack, session, line, most, shown)?;
    }
    Ok(())
}

/// Whether a session on this pack ends.
fn end(alloc: Global, shape: Shape, pack: &mut Vec<Sector>, session: &mut Session) -> bool
    requires formed { Formed shape (kept session.old) }
{
    let Some(mut machine) = machine_over(alloc, shape, pack, ANY) else {
        return false;
    };
    let done = matches!(session.end(alloc, &mut machine), Reply::Done { .. });
    *pack = machine.into_sectors();
    done && has_same_size(shape, session)
}

/// Types these lines in a session on this pack, none of an empty text, and ends it.
pub(crate) fn earlier_session(
    alloc: Global,
    shape: Shape,
    pack: &mut Vec<Sector>,
    lines: &str,
) -> Result<(), Fail> {
    let Some(mut session) = begin(alloc, shape, pack) else {
        return Err(Fail::new("no session"));
    };
    let mut shown = Vec::new(alloc);
    talk(alloc, shape, pack, &mut session, lines, ANY, &mut shown)?;
    expect(
        end(alloc, shape, pack, &mut session),
        "the session isn't ended",
    )
}
