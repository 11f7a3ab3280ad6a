// The operands of lines.
ghost use Rattle.std.specs.Prelude.{◌≡◌, ◌≤◌};
ghost use Rattle.exec_words.specs.Grammar.{path_in, file_in, number_from, word_in, stream_in, bytes_up_to};
ghost use Rattle.exec_words.specs.Reading.{Reads};

use crate::cut::cut_at;
use crate::line::{Path, Target};
use alto_words::{HexError, List, Name, Wanted, read_hex, read_number};
use std::alloc::Global;

/// What stands between a directory's name and a name in it.
const IN_DIR: u8 = b'>';

/// The greatest number of a stream.
pub(crate) const LAST_STREAM: u32 = 7;

/// Why a text gives no line.
#[derive(Clone, Copy, Debug, PartialEq, Eq)]
pub(crate) enum Unread {
    /// It isn't in the grammar.
    Bad,
    /// No memory was left for the bytes of its hex.
    Memory,
}

/// A path: a name in SysDir, or a directory's name, `>` and a name in that directory.
pub(crate) fn read_path(text: &[u8]) -> Option<Path>
    ensures { result ≡ path_in text.now }
{
    match cut_at(text, IN_DIR) {
        (_, None) => Some(Path {
            dir: None,
            wanted: Wanted::parse(text)?,
        }),
        (dir, Some(name)) => Some(Path {
            dir: Some(Name::parse_bare(dir)?),
            wanted: Wanted::parse(name)?,
        }),
    }
}

/// A file: a path, or `#` and a serial.
pub(crate) fn read_file(text: &[u8]) -> Option<Target>
    ensures { result ≡ file_in text.now }
{
    match text.strip_prefix(b"#".as_slice()) {
        Some(digits) => Some(Target::BySerial {
            serial: read_number(digits)?,
        }),
        None => Some(Target::ByPath {
            path: read_path(text)?,
        }),
    }
}

/// A number from the least to the most.
pub(crate) fn read_within(text: &[u8], least: u32, most: u32) -> Option<u32>
    ensures { result ≡ number_from least most text.now }
{
    let n = read_number(text)?;
    if n < least || n > most {
        return None;
    }
    Some(n)
}

/// A number from the least to the most, which has 16 bits.
pub(crate) fn read_word_from(text: &[u8], least: u32, most: u32) -> Option<u16>
    requires { most ≤ 65535 }
    ensures { result ≡ number_from least most text.now }
{
    Some(read_within(text, least, most)? as u16)
}

/// A word of the memory, or its address.
pub(crate) fn read_word(text: &[u8]) -> Option<u16>
    ensures { result ≡ word_in text.now }
{
    read_word_from(text, 0, 65_535)
}

/// A number from the least to the most, which has 8 bits.
pub(crate) fn read_byte_from(text: &[u8], least: u32, most: u32) -> Option<u8>
    requires { most ≤ 255 }
    ensures { result ≡ number_from least most text.now }
{
    Some(read_within(text, least, most)? as u8)
}

/// The number of a stream.
pub(crate) fn read_stream(text: &[u8]) -> Option<u8>
    ensures { result ≡ stream_in text.now }
{
    read_byte_from(text, 0, LAST_STREAM)
}

/// Bytes in hex, at most so many.
pub(crate) fn read_bytes(alloc: Global, text: &[u8], most: usize) -> Result<List<u8>, Unread>
    ensures { Reads result (bytes_up_to most text.now) }
{
    match read_hex(alloc, text) {
        Ok(bytes) => {
            if bytes.len() > most {
                return Err(Unread::Bad);
            }
            Ok(List::from_vec(bytes))
        }
        Err(HexError::Bad) => Err(Unread::Bad),
        Err(HexError::Memory) => Err(Unread::Memory),
    }
}
