// Lines as values: which of them some text is read as.
ghost use Rattle.std.specs.Prelude.{◌≡◌, ◌≤◌, length, decimal};
ghost use Rattle.exec_words.specs.Typed.{short_name, wanted_text, path_text, file_text, hex_text, line_words, is_typed_wanted, is_typed_dir, is_typed_path, is_typed_file, is_typed_stream, is_typed};
ghost use Rattle.exec_words.specs.declared.line.Line.TheVariants as line;

use crate::line::{Line, Path, Target};
use crate::operand::LAST_STREAM;
use crate::read::{LONGEST_LINE, MOST_BYTES, MOST_MESSAGE};
use alto_words::{Name, Wanted};
use itoa::Buffer;

/// How many decimal digits a number has.
fn digits(n: u32) -> usize
    ensures is { result ≡ length (decimal n) }
    ensures most { result ≤ 10 }
{
    Buffer::new().format(n).len()
}

/// The length of the shortest text of a bare name: without its final `.`, unless a `.` stands before it.
fn short_length(name: &Name) -> usize
    ensures is { result ≡ length (short_name name.now) }
    ensures most { result ≤ 39 }
{
    let bytes = name.as_bytes();
    let stem = &bytes[..bytes.len() - 1];
    if stem[stem.len() - 1] == b'.' {
        stem.len() + 1
    } else {
        stem.len()
    }
}

/// The length of the shortest text of a name that is wanted.
fn wanted_length(wanted: &Wanted) -> usize
    ensures is { result ≡ length (wanted_text wanted.now) }
    ensures most { result ≤ 50 }
{
    match wanted {
        Wanted::Exact { name } => {
            short_length(&name.base()) + 1 + digits(u32::from(name.version()))
        }
        Wanted::Newest { base } => short_length(base),
    }
}

/// The length of the shortest text of a path.
fn path_length(path: &Path) -> usize
    ensures is { result ≡ length (path_text path.now) }
    ensures most { result ≤ 90 }
{
    match &path.dir {
        Some(dir) => short_length(dir) + 1 + wanted_length(&path.wanted),
        None => wanted_length(&path.wanted),
    }
}

/// The length of the shortest text of a file.
fn file_length(file: &Target) -> usize
    ensures is { result ≡ length (file_text file.now) }
    ensures most { result ≤ 90 }
{
    match file {
        Target::ByPath { path } => path_length(path),
        Target::BySerial { serial } => 1 + digits(*serial),
    }
}

/// The length of bytes in hex, of `-` where there are none.
fn hex_length(bytes: &[u8]) -> usize
    requires few { length bytes.now ≤ 2000 }
    ensures is { result ≡ length (hex_text bytes.now) }
    ensures most { result ≤ 4000 }
{
    if bytes.is_empty() { 1 } else { 2 * bytes.len() }
}

/// The length of the shortest text of a `patch`.
fn patch_length(file: &Target, offset: u32, bytes: &[u8]) -> usize
    requires few { length bytes.now ≤ 2000 }
    ensures { result ≡ length (line_words (line.Patch file.now offset bytes.now)) }
{
    b"patch".len() + 1 + file_length(file) + 1 + digits(offset) + 1 + hex_length(bytes)
}

/// Whether some text is read as this, where a name is wanted.
fn is_typed_wanted(wanted: &Wanted) -> bool
    ensures { result ≡ is_typed_wanted wanted.now }
{
    match wanted {
        Wanted::Exact { .. } => true,
        Wanted::Newest { base } => base.is_bare(),
    }
}

/// Whether some text is read as this directory of a path or a line.
fn is_typed_dir(dir: &Option<Name>) -> bool
    ensures { result ≡ is_typed_dir dir.now }
{
    match dir {
        Some(name) => name.is_bare(),
        None => true,
    }
}

/// Whether some text is read as this path.
fn is_typed_path(path: &Path) -> bool
    ensures { result ≡ is_typed_path path.now }
{
    is_typed_dir(&path.dir) && is_typed_wanted(&path.wanted)
}

/// Whether some text is read as this file.
fn is_typed_file(file: &Target) -> bool
    ensures { result ≡ is_typed_file file.now }
{
    match file {
        Target::ByPath { path } => is_typed_path(path),
        Target::BySerial { .. } => true,
    }
}

/// Whether some text is read as the stream of this number.
fn is_typed_stream(stream: u8) -> bool
    ensures { result ≡ is_typed_stream stream }
{
    u32::from(stream) <= LAST_STREAM
}

/// Whether some text is read as a `patch` of this file.
fn is_typed_patch(file: &Target, offset: u32, bytes: &[u8]) -> bool
    ensures { result ≡ is_typed (line.Patch file.now offset bytes.now) }
{
    if !is_typed_file(file) || bytes.len() > MOST_BYTES {
        return false;
    }
    patch_length(file, offset, bytes) <= LONGEST_LINE
}

/// Whether some text is read as this line: its numbers are within their bounds, its bytes aren't too many, its names are bare where only
/// these are read, and a `patch` isn't too long. No text is read as a bad line: `Bad` stands for those that aren't read.
pub fn is_typed(line: &Line) -> bool
    ensures { result ≡ is_typed line.now }
{
    match line {
        Line::ListNames { dir } => is_typed_dir(dir),
        Line::TypeOut { file }
        | Line::Stat { file }
        | Line::Cut { file, .. }
        | Line::OpenStream { file } => is_typed_file(file),
        Line::Make { path } | Line::Delete { path } | Line::OutLoad { path } => is_typed_path(path),
        Line::Append { file, bytes } => is_typed_file(file) && bytes.as_slice().len() <= MOST_BYTES,
        Line::Patch {
            file,
            offset,
            bytes,
        } => is_typed_patch(file, *offset, bytes.as_slice()),
        Line::Copy { file, path } => is_typed_file(file) && is_typed_path(path),
        Line::Rename { old_path, new_path } => is_typed_path(old_path) && is_typed_path(new_path),
        Line::MakeDir { name } | Line::RemoveDir { name } => name.is_bare(),
        Line::Get { stream, count } => is_typed_stream(*stream) && 1 <= *count && *count <= 1024,
        Line::PutBytes { stream, bytes } => is_typed_stream(*stream)
            && bytes.as_slice().len() <= MOST_BYTES,
        Line::Seek { stream, .. } | Line::Close { stream } => is_typed_stream(*stream),
        Line::Block { words } => 1 <= *words,
        Line::Junta { level } => 1 <= *level && *level <= 8,
        Line::InLoad { path, message } => is_typed_path(path)
            && message.as_slice().len() <= MOST_MESSAGE,
        Line::Free
        | Line::SetTime { .. }
        | Line::Store { .. }
        | Line::Fetch { .. }
        | Line::Unblock { .. }
        | Line::CounterJunta
        | Line::Scavenge
        | Line::Quit => true,
        Line::Bad => false,
    }
}
