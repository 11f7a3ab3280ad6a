// Lines written out: each as its variant and its fields.
use alto_words::{List, Memory, Name, push_hex, push_number};
use exec_words::{Line, Path, Target, Wanted};
use std::alloc::Global;

/// Appends a text.
fn push(out: &mut Vec<u8>, text: &[u8]) -> Result<(), Memory> {
    out.extend_from_slice(text)?;
    Ok(())
}

/// Writes a path: `in` and the directory if one is named, and then which file is meant.
fn write_path(out: &mut Vec<u8>, path: &Path) -> Result<(), Memory> {
    if let Some(dir) = &path.dir {
        push(out, b" in ")?;
        push(out, dir.as_bytes())?;
    }
    match &path.wanted {
        Wanted::Exact { name } => {
            push(out, b" exact ")?;
            push(out, name.as_bytes())
        }
        Wanted::Newest { base } => {
            push(out, b" newest ")?;
            push(out, base.as_bytes())
        }
    }
}

/// Writes a file.
fn write_file(alloc: Global, out: &mut Vec<u8>, file: &Target) -> Result<(), Memory> {
    match file {
        Target::ByPath { path } => write_path(out, path),
        Target::BySerial { serial } => {
            push(out, b" serial ")?;
            push_number(alloc, out, *serial as u64)
        },
    }
}

/// Writes a number after a space.
fn write_number(alloc: Global, out: &mut Vec<u8>, n: u32) -> Result<(), Memory> {
    push(out, b" ")?;
    push_number(alloc, out, n as u64)
}

/// Writes bytes in hex after a space, `-` for none.
fn write_bytes(alloc: Global, out: &mut Vec<u8>, bytes: &List<u8>) -> Result<(), Memory> {
    push(out, b" ")?;
    if bytes.as_slice().is_empty() {
        return push(out, b"-");
    }
    push_hex(alloc, out, bytes.as_slice())
}

/// Writes a name after a space.
fn write_name(out: &mut Vec<u8>, name: &Name) -> Result<(), Memory> {
    push(out, b" ")?;
    push(out, name.as_bytes())
}

/// Writes a line about files: its variant and its fields, each after a space.
fn write_files(alloc: Global, out: &mut Vec<u8>, line: &Line) -> Result<(), Memory> {
    match line {
        Line::ListNames { dir: None } => push(out, b"ListNames"),
        Line::ListNames { dir: Some(name) } => {
            push(out, b"ListNames")?;
            write_name(out, name)
        }
        Line::TypeOut { file } => {
            push(out, b"TypeOut")?;
            write_file(alloc, out, file)
        }
        Line::Stat { file } => {
            push(out, b"Stat")?;
            write_file(alloc, out, file)
        }
        Line::Make { path } => {
            push(out, b"Make")?;
            write_path(out, path)
        }
        Line::Append { file, bytes } => {
            push(out, b"Append")?;
            write_file(alloc, out, file)?;
            write_bytes(alloc, out, bytes)
        }
        Line::Patch {
            file,
            offset,
            bytes,
        } => {
            push(out, b"Patch")?;
            write_file(alloc, out, file)?;
            write_number(alloc, out, *offset)?;
            write_bytes(alloc, out, bytes)
        }
        Line::Cut { file, length } => {
            push(out, b"Cut")?;
            write_file(alloc, out, file)?;
            write_number(alloc, out, *length)
        }
        Line::Copy { file, path } => {
            push(out, b"Copy")?;
            write_file(alloc, out, file)?;
            write_path(out, path)
        }
        Line::Rename { old_path, new_path } => {
            push(out, b"Rename")?;
            write_path(out, old_path)?;
            write_path(out, new_path)
        }
        Line::Delete { path } => {
            push(out, b"Delete")?;
            write_path(out, path)
        }
        _ => write_names(alloc, out, line),
    }
}

/// Writes a line about directories or streams.
fn write_names(alloc: Global, out: &mut Vec<u8>, line: &Line) -> Result<(), Memory> {
    match line {
        Line::MakeDir { name } => {
            push(out, b"MakeDir")?;
            write_name(out, name)
        }
        Line::RemoveDir { name } => {
            push(out, b"RemoveDir")?;
            write_name(out, name)
        }
        Line::Free => push(out, b"Free"),
        Line::SetTime { moment } => {
            push(out, b"SetTime")?;
            write_number(alloc, out, *moment)
        }
        Line::OpenStream { file } => {
            push(out, b"OpenStream")?;
            write_file(alloc, out, file)
        }
        Line::Get { stream, count } => {
            push(out, b"Get")?;
            write_number(alloc, out, *stream as u32)?;
            write_number(alloc, out, *count as u32)
        }
        Line::PutBytes { stream, bytes } => {
            push(out, b"PutBytes")?;
            write_number(alloc, out, *stream as u32)?;
            write_bytes(alloc, out, bytes)
        }
        Line::Seek { stream, to } => {
            push(out, b"Seek")?;
            write_number(alloc, out, *stream as u32)?;
            write_number(alloc, out, *to)
        }
        Line::Close { stream } => {
            push(out, b"Close")?;
            write_number(alloc, out, *stream as u32)
        }
        _ => write_memory(alloc, out, line),
    }
}

/// Writes a line about the memory, or any other.
fn write_memory(alloc: Global, out: &mut Vec<u8>, line: &Line) -> Result<(), Memory> {
    match line {
        Line::Store { at, word } => {
            push(out, b"Store")?;
            write_number(alloc, out, *at as u32)?;
            write_number(alloc, out, *word as u32)
        }
        Line::Fetch { at } => {
            push(out, b"Fetch")?;
            write_number(alloc, out, *at as u32)
        }
        Line::Block { words } => {
            push(out, b"Block")?;
            write_number(alloc, out, *words as u32)
        }
        Line::Unblock { at } => {
            push(out, b"Unblock")?;
            write_number(alloc, out, *at as u32)
        }
        Line::Junta { level } => {
            push(out, b"Junta")?;
            write_number(alloc, out, *level as u32)
        }
        Line::CounterJunta => push(out, b"CounterJunta"),
        Line::OutLoad { path } => {
            push(out, b"OutLoad")?;
            write_path(out, path)
        }
        Line::InLoad { path, message } => {
            push(out, b"InLoad")?;
            write_path(out, path)?;
            write_bytes(alloc, out, message)
        }
        Line::Scavenge => push(out, b"Scavenge"),
        Line::Quit => push(out, b"Quit"),
        Line::Bad => push(out, b"Bad"),
        _ => push(out, b"?"),
    }
}

/// A line as its variant and its fields.
pub fn written(alloc: Global, line: &Line) -> Result<Vec<u8>, Memory> {
    let mut out = Vec::new(alloc);
    write_files(alloc, &mut out, line)?;
    Ok(out)
}
