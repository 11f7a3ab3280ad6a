// Calls of `alto` on a machine in memory, one after another on one pack.
use alto_top::{Status, alto};
use alto_words::read_number;
use disk_memory::MemMachine;
use disk_records::{Disk, Sector, Shape};
use std::alloc::Global;
use std::test::Fail;

/// The moment of all dates.
const MOMENT: u32 = 1000;

/// The number of a call of a device that no run makes.
pub(crate) const NEVER: u64 = u64::MAX;

/// What a call shows that may show whatever it likes.
pub(crate) const ANYTHING: &str = "?";

/// A call: its words, the typed lines without the last byte 10, which is added, what is shown without the last byte, and how it ends.
#[derive(Drop)]
pub(crate) struct Call {
    pub words: &'static str,
    pub typed: &'static str,
    pub shown: &'static str,
    pub status: Status,
}

/// Passes if this holds; else its message is the name of what was tested.
pub(crate) fn expect(holds: bool, name: &'static str) -> Result<(), Fail> {
    if holds { Ok(()) } else { Err(Fail::new(name)) }
}

/// A text, and how often it stands there: as often as the number after the mark says, or once where there is no mark. None if no number
/// follows it.
fn repeated(text: &str, mark: char) -> Option<(&str, u32)> {
    match text.split_once(mark) {
        Some((piece, count)) => Some((piece, read_number(count.as_bytes())?)),
        None => Some((text, 1)),
    }
}

/// Appends a word, of which `x*n` stands for n times x, and a space. Answers whether it is a word, and memory is left.
fn push_word(word: &str, keys: &mut Vec<u8>) -> bool {
    let Some((piece, count)) = repeated(word, '*') else {
        return false;
    };
    for _ in 0..count {
        if keys.extend_from_slice(piece.as_bytes()).is_err() {
            return false;
        }
    }
    keys.push(b' ').is_ok()
}

/// Appends a line with a last byte 10. Answers whether it has words, and memory is left.
fn push_line(line: &str, keys: &mut Vec<u8>) -> bool {
    for word in line.split(' ') {
        if !push_word(word, keys) {
            return false;
        }
    }
    keys.pop();
    keys.push(b'\n').is_ok()
}

/// Appends lines, of which `x^n` stands for n lines x. Answers whether they are lines, and memory is left.
fn push_lines(lines: &str, keys: &mut Vec<u8>) -> bool {
    for line in lines.split('\n') {
        let Some((line, count)) = repeated(line, '^') else {
            return false;
        };
        for _ in 0..count {
            if !push_line(line, keys) {
                return false;
            }
        }
    }
    true
}

/// Whether this was shown: the lines with a last byte 10, nothing of an empty text, or anything.
fn is_shown(shown: &[u8], lines: &str) -> bool {
    match lines {
        ANYTHING => true,
        "" => shown.is_empty(),
        _ => shown.strip_suffix(b"\n") == Some(lines.as_bytes()),
    }
}

/// A machine over these sectors with the keys of these lines, none of an empty text. Its call with this number fails after so many of its
/// record writes. None if no memory is left, or if these are no lines.
pub(crate) fn machine_over(
    alloc: Global,
    shape: Shape,
    pack: &[Sector],
    typed: &str,
    call: u64,
    after: u8,
) -> Option<MemMachine> {
    let mut keys = Vec::new(alloc);
    if !typed.is_empty() && !push_lines(typed, &mut keys) {
        return None;
    }
    let Ok(sectors) = pack.to_vec(alloc) else {
        return None;
    };
    let Ok(mut machine) = MemMachine::new(alloc, shape, sectors, keys) else {
        return None;
    };
    if machine.fail_at(alloc, call, after).is_err() {
        return None;
    }
    Some(machine)
}

/// Does what these words ask for on a machine. Memory, too, if none was left for the words.
pub(crate) fn run(alloc: Global, words: &str, machine: &mut MemMachine) -> Status {
    let mut list = Vec::new(alloc);
    for word in words.split(' ') {
        let Ok(word) = String::from_str(alloc, word) else {
            return Status::Memory;
        };
        if list.push(word).is_err() {
            return Status::Memory;
        }
    }
    alto(alloc, &list, MOMENT, machine)
}

/// How a call ends, and how many records it writes.
#[derive(Drop)]
pub(crate) struct Said {
    pub status: Status,
    pub writes: u64,
}

/// Makes a call on a machine. None if it shows anything but what it has to: nothing, where it ends otherwise than it has to.
fn say(alloc: Global, machine: &mut MemMachine, call: &Call) -> Option<Said> {
    let status = run(alloc, call.words, machine);
    let wanted = if status == call.status {
        call.shown
    } else {
        ""
    };
    let Ok(bytes) = machine.shown(alloc) else {
        return None;
    };
    if !is_shown(&bytes, wanted) {
        return None;
    }
    Some(Said {
        status,
        writes: machine.writes(),
    })
}

/// Makes a call on this pack, and leaves in it what that leaves. The call of a device with this number fails after so many of its record
/// writes. None as in `say`.
pub(crate) fn make_call(
    alloc: Global,
    shape: Shape,
    pack: &mut Vec<Sector>,
    call: &Call,
    fails: u64,
    after: u8,
) -> Option<Said> {
    let mut machine = machine_over(alloc, shape, pack, call.typed, fails, after)?;
    let said = say(alloc, &mut machine, call);
    *pack = machine.into_sectors();
    said
}

/// Makes a call on this pack, and answers how many records it writes. None if it ends otherwise, or shows anything else.
pub(crate) fn check_call(
    alloc: Global,
    shape: Shape,
    pack: &mut Vec<Sector>,
    call: &Call,
) -> Option<u64> {
    let said = make_call(alloc, shape, pack, call, NEVER, 0)?;
    if said.status != call.status {
        return None;
    }
    Some(said.writes)
}

/// Makes a call on this pack with these words and typed lines, and answers whether it is done and shows these lines.
pub(crate) fn does(
    alloc: Global,
    shape: Shape,
    pack: &mut Vec<Sector>,
    words: &'static str,
    typed: &'static str,
    shown: &'static str,
) -> bool {
    let call = Call {
        words,
        typed,
        shown,
        status: Status::Done,
    };
    check_call(alloc, shape, pack, &call).is_some()
}

/// Whether a pack shows these lines, and stays as it is.
pub(crate) fn shows(
    alloc: Global,
    shape: Shape,
    pack: &mut Vec<Sector>,
    shown: &'static str,
) -> bool {
    let call = Call {
        words: "show",
        typed: "",
        shown,
        status: Status::Done,
    };
    check_call(alloc, shape, pack, &call) == Some(0)
}

/// The pack after so many events of a machine, or after all of them where they are fewer. None if no memory is left.
pub(crate) fn pack_at(alloc: Global, machine: &MemMachine, count: usize) -> Option<Vec<Sector>> {
    match machine.cut(alloc, count.min(machine.event_count())) {
        Ok(left) => Some(left.into_sectors()),
        Err(_) => None,
    }
}
