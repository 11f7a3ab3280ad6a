// The texts of lines that are done.
ghost use Rattle.std.specs.Prelude.{◌≡◌, ◌≤◌, ◌++◌, length, IfOk, OnOk};
ghost use Rattle.std.specs.List.{flat_map};
ghost use Rattle.alto_words.specs.Numbers.{hex_of};
ghost use Rattle.exec_words.specs.Texts.{made_text, length_text, at_text, level_text, stream_text, free_text, word_text, got_text, written_text, not_written_text, hex_lines, type_text, names_text, stat_text, report_text, line_of, done_text};

use crate::push::{numbered, plain, push, push_bytes, push_with_number};
use crate::reply::Stat;
use alto_words::{Fid, Memory, Name, push_hex, push_number, put_hex};
use disk_records::{LINE_END, PAGE_BYTES};
use std::alloc::Global;

/// The bytes of a full page.
const PAGE: u32 = PAGE_BYTES as u32;

/// So many bytes are shown in hex on one line.
const BYTES_A_LINE: usize = 32;

/// The digits of so many bytes.
const DIGITS_A_LINE: usize = 2 * BYTES_A_LINE;

/// Enough bytes for the end of the last line in hex and a line with the number of bytes.
const LAST_LINES: usize = 32;

/// `done`.
pub fn done_text(alloc: Global) -> Result<Vec<u8>, Memory>
    ensures { IfOk result (λ text. text.items ≡ done_text) }
{
    plain(alloc, b"done")
}

/// `made #S`: a new file, by its serial without the directory mark.
pub fn made_text(alloc: Global, file: Fid) -> Result<Vec<u8>, Memory>
    ensures { IfOk result (λ text. text.items ≡ made_text file) }
{
    numbered(alloc, b"made #", file.serial() as u64)
}

/// `length L`: the length that a file has now, in bytes.
pub fn length_text(alloc: Global, length: u32) -> Result<Vec<u8>, Memory>
    ensures { IfOk result (λ text. text.items ≡ length_text length) }
{
    numbered(alloc, b"length ", length as u64)
}

/// `at P`: a position in bytes, or the address of a word.
pub fn at_text(alloc: Global, at: u32) -> Result<Vec<u8>, Memory>
    ensures { IfOk result (λ text. text.items ≡ at_text at) }
{
    numbered(alloc, b"at ", at as u64)
}

/// `level L`: the level that a session has now.
pub fn level_text(alloc: Global, level: u8) -> Result<Vec<u8>, Memory>
    ensures { IfOk result (λ text. text.items ≡ level_text level) }
{
    numbered(alloc, b"level ", level as u64)
}

/// `stream S`: the number of a new stream.
pub fn stream_text(alloc: Global, stream: u8) -> Result<Vec<u8>, Memory>
    ensures { IfOk result (λ text. text.items ≡ stream_text stream) }
{
    numbered(alloc, b"stream ", stream as u64)
}

/// `N pages free`.
pub fn free_text(alloc: Global, pages: u16) -> Result<Vec<u8>, Memory>
    ensures { IfOk result (λ text. text.items ≡ free_text pages) }
{
    let mut out = Vec::new(alloc);
    push_number(alloc, &mut out, pages as u64)?;
    push(&mut out, b" pages free\n")?;
    Ok(out)
}

/// A word of the memory, in decimal.
pub fn word_text(alloc: Global, word: u16) -> Result<Vec<u8>, Memory>
    ensures { IfOk result (λ text. text.items ≡ word_text word) }
{
    numbered(alloc, b"", word as u64)
}

/// The bytes that are taken from a stream, in hex on one line; `-` for none.
pub fn got_text(alloc: Global, bytes: &[u8]) -> Result<Vec<u8>, Memory>
    ensures { IfOk result (λ text. text.items ≡ got_text bytes.now) }
{
    let mut out = Vec::new(alloc);
    push_bytes(alloc, &mut out, bytes)?;
    push(&mut out, b"\n")?;
    Ok(out)
}

/// `written`: the world stands in its file.
pub fn written_text(alloc: Global) -> Result<Vec<u8>, Memory>
    ensures { IfOk result (λ text. text.items ≡ written_text) }
{
    plain(alloc, b"written")
}

/// `not written` and the message in hex: a world that is loaded finds the bytes of its message.
pub fn not_written_text(alloc: Global, message: &[u8]) -> Result<Vec<u8>, Memory>
    ensures { IfOk result (λ text. text.items ≡ not_written_text message.now) }
{
    let mut out = Vec::new(alloc);
    push(&mut out, b"not written ")?;
    push_hex(alloc, &mut out, message)?;
    push(&mut out, b"\n")?;
    Ok(out)
}

/// Appends a whole line of bytes in hex, which is made in an array. Its length is known when the program is built, so it is copied by moves.
fn push_whole_line(out: &mut Vec<u8>, bytes: &[u8; BYTES_A_LINE]) -> Result<(), Memory>
    ensures { OnOk result (out.new.items ≡ out.old.items ++ line_of (hex_of bytes.now)) }
{
    let mut line = [LINE_END; DIGITS_A_LINE + 1];
    put_hex(bytes, &mut line[..DIGITS_A_LINE]);
    out.extend_from_slice(&line)?;
    Ok(())
}

/// Appends bytes in hex, 32 to a line.
fn push_hex_lines(alloc: Global, out: &mut Vec<u8>, bytes: &[u8]) -> Result<(), Memory>
    ensures { OnOk result (out.new.items ≡ out.old.items ++ hex_lines (length bytes.now) bytes.now) }
{
    let (lines, rest) = bytes.as_chunks::<BYTES_A_LINE>();
    for line in lines {
        push_whole_line(out, line)?;
    }
    if rest.is_empty() {
        return Ok(());
    }
    push_hex(alloc, out, rest)?;
    push(out, b"\n")?;
    Ok(())
}

/// The bytes of a file in hex, 32 to a line, and `B bytes`.
pub fn type_text(alloc: Global, bytes: &[u8]) -> Result<Vec<u8>, Memory>
    ensures { IfOk result (λ text. text.items ≡ type_text bytes.now) }
{
    // so that the text doesn't move as it grows
    let room = bytes.len().saturating_mul(2);
    let room = room.saturating_add(bytes.len() / BYTES_A_LINE + LAST_LINES);
    let mut out = Vec::with_capacity(alloc, room)?;
    push_hex_lines(alloc, &mut out, bytes)?;
    push_number(alloc, &mut out, bytes.len() as u64)?;
    push(&mut out, b" bytes\n")?;
    Ok(out)
}

/// Appends names, each on a line.
fn push_names(out: &mut Vec<u8>, names: &[Name]) -> Result<(), Memory>
    ensures { OnOk result (out.new.items ≡ out.old.items ++ flat_map line_of names.now) }
{
    for name in names {
        push(out, name.as_bytes())?;
        push(out, b"\n")?;
    }
    Ok(())
}

/// Names in the order in which they are given, each on a line, and `N entries`. `list` gives them by `Name::folded_cmp`.
pub fn names_text(alloc: Global, names: &[Name]) -> Result<Vec<u8>, Memory>
    ensures { IfOk result (λ text. text.items ≡ names_text names.now) }
{
    let mut out = Vec::new(alloc);
    push_names(&mut out, names)?;
    push_number(alloc, &mut out, names.len() as u64)?;
    push(&mut out, b" entries\n")?;
    Ok(out)
}

/// `#S length L pages P created C written W read R name N`.
pub fn stat_text(alloc: Global, stat: &Stat) -> Result<Vec<u8>, Memory>
    ensures { IfOk result (λ text. text.items ≡ stat_text stat.now) }
{
    let mut out = Vec::new(alloc);
    push_with_number(alloc, &mut out, b"#", stat.fid.serial() as u64)?;
    push_with_number(alloc, &mut out, b" length ", stat.length as u64)?;
    push_with_number(alloc, &mut out, b" pages ", (2 + stat.length / PAGE) as u64)?;
    push_with_number(alloc, &mut out, b" created ", stat.created as u64)?;
    push_with_number(alloc, &mut out, b" written ", stat.written as u64)?;
    push_with_number(alloc, &mut out, b" read ", stat.read as u64)?;
    push(&mut out, b" name ")?;
    push(&mut out, stat.name.as_bytes())?;
    push(&mut out, b"\n")?;
    Ok(out)
}

/// `scavenged: files F, freed X, bad Y, adopted Z`: the living files after a scavenge, the sectors that it freed, the bad sectors, and
/// the files that it gave a name.
pub fn report_text(
    alloc: Global,
    files: u32,
    freed: u32,
    bad: u32,
    adopted: u32,
) -> Result<Vec<u8>, Memory>
    ensures { IfOk result (λ text. text.items ≡ report_text (record { files = files; freed = freed; bad = bad; adopted = adopted })) }
{
    let mut out = Vec::new(alloc);
    push_with_number(alloc, &mut out, b"scavenged: files ", files as u64)?;
    push_with_number(alloc, &mut out, b", freed ", freed as u64)?;
    push_with_number(alloc, &mut out, b", bad ", bad as u64)?;
    push_with_number(alloc, &mut out, b", adopted ", adopted as u64)?;
    push(&mut out, b"\n")?;
    Ok(out)
}
