// Texts as lines.
ghost use Rattle.std.specs.Prelude.{◌≡◌, [], ◌∷◌, IfOk};
ghost use Rattle.exec_words.specs.Grammar.{words_in, grammar, read_by, line_in};
ghost use Rattle.exec_words.specs.Reading.{Reads, read_else, alone_rows, number_rows, path_rows, one_rows, two_rows, three_rows, words_rows, bytes_rows};

use crate::cut::cut_at;
use crate::line::Line;
use crate::operand::{
    Unread, read_byte_from, read_bytes, read_file, read_path, read_stream, read_word,
    read_word_from,
};
use alto_words::{Memory, Name, read_number};
use std::alloc::Global;

/// A longer line is a bad line.
pub(crate) const LONGEST_LINE: usize = 4096;

/// Words are parted by single spaces.
const SPACE: u8 = b' ';

/// The most bytes that a line puts into a file.
pub(crate) const MOST_BYTES: usize = 2000;

/// The most bytes of a message to a world.
pub(crate) const MOST_MESSAGE: usize = 40;

/// The line of a verb alone.
fn alone(verb: &[u8]) -> Option<Line>
    ensures { result ≡ read_by alone_rows (verb.now ∷ []) }
{
    if verb == b"list".as_slice() {
        Some(Line::ListNames { dir: None })
    } else if verb == b"free".as_slice() {
        Some(Line::Free)
    } else if verb == b"counterjunta".as_slice() {
        Some(Line::CounterJunta)
    } else if verb == b"scavenge".as_slice() {
        Some(Line::Scavenge)
    } else if verb == b"quit".as_slice() {
        Some(Line::Quit)
    } else {
        None
    }
}

/// The line of a verb and a number.
fn with_number(verb: &[u8], word: &[u8]) -> Option<Line>
    ensures { result ≡ read_by number_rows (verb.now ∷ word.now ∷ []) }
{
    if verb == b"settime".as_slice() {
        Some(Line::SetTime {
            moment: read_number(word)?,
        })
    } else if verb == b"close".as_slice() {
        Some(Line::Close {
            stream: read_stream(word)?,
        })
    } else if verb == b"fetch".as_slice() {
        Some(Line::Fetch {
            at: read_word(word)?,
        })
    } else if verb == b"block".as_slice() {
        Some(Line::Block {
            words: read_word_from(word, 1, 65_535)?,
        })
    } else if verb == b"unblock".as_slice() {
        Some(Line::Unblock {
            at: read_word(word)?,
        })
    } else if verb == b"junta".as_slice() {
        Some(Line::Junta {
            level: read_byte_from(word, 1, 8)?,
        })
    } else {
        None
    }
}

/// The line of a verb and a word that is a path or a number.
fn with_path(verb: &[u8], word: &[u8]) -> Option<Line>
    ensures { result ≡ read_by path_rows (verb.now ∷ word.now ∷ []) }
{
    if verb == b"make".as_slice() {
        Some(Line::Make {
            path: read_path(word)?,
        })
    } else if verb == b"delete".as_slice() {
        Some(Line::Delete {
            path: read_path(word)?,
        })
    } else if verb == b"outload".as_slice() {
        Some(Line::OutLoad {
            path: read_path(word)?,
        })
    } else {
        with_number(verb, word)
    }
}

/// The line of a verb and one word.
fn with_one(verb: &[u8], word: &[u8]) -> Option<Line>
    ensures { result ≡ read_by one_rows (verb.now ∷ word.now ∷ []) }
{
    if verb == b"list".as_slice() {
        Some(Line::ListNames {
            dir: Some(Name::parse_bare(word)?),
        })
    } else if verb == b"mkdir".as_slice() {
        Some(Line::MakeDir {
            name: Name::parse_bare(word)?,
        })
    } else if verb == b"rmdir".as_slice() {
        Some(Line::RemoveDir {
            name: Name::parse_bare(word)?,
        })
    } else if verb == b"type".as_slice() {
        Some(Line::TypeOut {
            file: read_file(word)?,
        })
    } else if verb == b"stat".as_slice() {
        Some(Line::Stat {
            file: read_file(word)?,
        })
    } else if verb == b"open".as_slice() {
        Some(Line::OpenStream {
            file: read_file(word)?,
        })
    } else {
        with_path(verb, word)
    }
}

/// The line of a verb and two words without bytes in hex.
fn with_two(verb: &[u8], first: &[u8], second: &[u8]) -> Option<Line>
    ensures { result ≡ read_by two_rows (verb.now ∷ first.now ∷ second.now ∷ []) }
{
    if verb == b"cut".as_slice() {
        Some(Line::Cut {
            file: read_file(first)?,
            length: read_number(second)?,
        })
    } else if verb == b"copy".as_slice() {
        Some(Line::Copy {
            file: read_file(first)?,
            path: read_path(second)?,
        })
    } else if verb == b"rename".as_slice() {
        Some(Line::Rename {
            old_path: read_path(first)?,
            new_path: read_path(second)?,
        })
    } else if verb == b"get".as_slice() {
        Some(Line::Get {
            stream: read_stream(first)?,
            count: read_word_from(second, 1, 1024)?,
        })
    } else if verb == b"seek".as_slice() {
        Some(Line::Seek {
            stream: read_stream(first)?,
            to: read_number(second)?,
        })
    } else if verb == b"store".as_slice() {
        Some(Line::Store {
            at: read_word(first)?,
            word: read_word(second)?,
        })
    } else {
        None
    }
}

/// The line of a verb, two words and what stands after these, which has to be bytes in hex.
fn with_three(
    alloc: Global,
    verb: &[u8],
    first: &[u8],
    second: &[u8],
    third: &[u8],
) -> Result<Line, Unread>
    ensures { Reads result (read_by three_rows (verb.now ∷ first.now ∷ second.now ∷ third.now ∷ [])) }
{
    if verb != b"patch".as_slice() {
        return Err(Unread::Bad);
    }
    let file = read_file(first).ok_or(Unread::Bad)?;
    let offset = read_number(second).ok_or(Unread::Bad)?;
    let bytes = read_bytes(alloc, third, MOST_BYTES)?;
    Ok(Line::Patch {
        file,
        offset,
        bytes,
    })
}

/// The line of a verb, a word and the words of what stands after these.
fn with_words(alloc: Global, verb: &[u8], first: &[u8], rest: &[u8]) -> Result<Line, Unread>
    ensures { Reads result (read_by words_rows (verb.now ∷ first.now ∷ words_in rest.now)) }
{
    let (second, rest) = cut_at(rest, SPACE);
    match rest {
        None => with_two(verb, first, second).ok_or(Unread::Bad),
        Some(third) => with_three(alloc, verb, first, second, third),
    }
}

/// The line of a verb, a word and what stands after these. Bytes in hex are all of that, and not its first word alone: no space is among
/// them, and none is looked for in so long a text.
fn with_bytes(alloc: Global, verb: &[u8], first: &[u8], rest: &[u8]) -> Result<Line, Unread>
    ensures { Reads result (read_else bytes_rows (verb.now ∷ first.now ∷ rest.now ∷ []) (read_by words_rows (verb.now ∷ first.now ∷ words_in rest.now))) }
{
    if verb == b"append".as_slice() {
        let file = read_file(first).ok_or(Unread::Bad)?;
        let bytes = read_bytes(alloc, rest, MOST_BYTES)?;
        Ok(Line::Append { file, bytes })
    } else if verb == b"putb".as_slice() {
        let stream = read_stream(first).ok_or(Unread::Bad)?;
        let bytes = read_bytes(alloc, rest, MOST_BYTES)?;
        Ok(Line::PutBytes { stream, bytes })
    } else if verb == b"inload".as_slice() {
        let path = read_path(first).ok_or(Unread::Bad)?;
        let message = read_bytes(alloc, rest, MOST_MESSAGE)?;
        Ok(Line::InLoad { path, message })
    } else {
        with_words(alloc, verb, first, rest)
    }
}

/// The line that these words are.
fn read_words(alloc: Global, text: &[u8]) -> Result<Line, Unread>
    ensures { Reads result (read_by grammar (words_in text.now)) }
{
    let (verb, rest) = cut_at(text, SPACE);
    let Some(rest) = rest else {
        return alone(verb).ok_or(Unread::Bad);
    };
    let (first, rest) = cut_at(rest, SPACE);
    match rest {
        None => with_one(verb, first).ok_or(Unread::Bad),
        Some(rest) => with_bytes(alloc, verb, first, rest),
    }
}

/// The line that a text is read as: `Bad` if and only if the text isn't in the grammar; none of more than 4,096 bytes is.
///
/// It takes memory for the bytes of its hex alone, and reads each byte of the text a few times at most. Memory: none was left for these.
pub fn read_line(alloc: Global, text: &[u8]) -> Result<Line, Memory>
    ensures { IfOk result (λ line. line ≡ line_in text.now) }
{
    if text.len() > LONGEST_LINE {
        return Ok(Line::Bad);
    }
    match read_words(alloc, text) {
        Ok(line) => Ok(line),
        Err(Unread::Bad) => Ok(Line::Bad),
        Err(Unread::Memory) => Err(Memory),
    }
}
