// The command line `alto [--cylinders C] [--second PACK2] PACK WORDS`.
ghost use Rattle.std.specs.Prelude.{◌≡◌, ◌+◌, ◌<◌, ◌≤◌, length, map, IfSome, string_bytes};
ghost use Rattle.disk_image.specs.Starts.{is_option, cylinders_in, packs_from, after_option, start_of};

use alto_words::read_number;

/// What the words of a command line say of its pack files.
#[derive(Clone, Copy, Debug, PartialEq, Eq)]
pub struct Start {
    /// The number of cylinders, 2 to 406, of new pack files that are made first.
    pub cylinders: Option<u16>,
    /// The index of the word PACK2, the path of the second drive's pack file. None where there is one drive.
    pub second: Option<usize>,
    /// The index of the word PACK, the path of the first drive's pack file.
    pub pack: usize,
    /// The index of the first word after PACK, or the number of words where there is none.
    pub rest: usize,
}

/// Reads the words of a command line. The options `--cylinders C` and `--second PACK2` stand first, in this order, and each may be left
/// out. C is a decimal number from 2 to 406. None if and only if there is no PACK, or the first word is `--cylinders` and no C in range
/// follows it, or `--second` stands in its place and no PACK2 follows it. No memory is taken.
pub fn start_of(words: &[String]) -> Option<Start>
    ensures start { result ≡ start_of (map string_bytes words.now) }
    ensures within { IfSome result (λ start. (start.pack < length words.now) × (start.rest ≤ length words.now)) }
    ensures second { IfSome result (λ start. IfSome start.second (λ second. second < length words.now)) }
    ensures cylinders { IfSome result (λ start. IfSome start.cylinders (λ cylinders. (2 ≤ cylinders) × (cylinders ≤ 406))) }
{
    match words {
        [option, words @ ..] if is_option(b"--cylinders", option.as_bytes()) => {
            after_option(words)
        }
        _ => packs_from(None, 0, words),
    }
}

/// Reads the words after `--cylinders`: C, and the packs.
fn after_option(words: &[String]) -> Option<Start>
    ensures start { result ≡ after_option (map string_bytes words.now) }
    ensures within { IfSome result (λ start. (start.pack < 1 + length words.now) × (start.rest ≤ 1 + length words.now)) }
    ensures second { IfSome result (λ start. IfSome start.second (λ second. second < 1 + length words.now)) }
    ensures cylinders { IfSome result (λ start. IfSome start.cylinders (λ cylinders. (2 ≤ cylinders) × (cylinders ≤ 406))) }
{
    match words {
        [number, words @ ..] => packs_from(Some(cylinders_in(number.as_bytes())?), 2, words),
        [] => None,
    }
}

/// Reads the words from the one with the number `at` on: `--second PACK2` or not, and PACK.
fn packs_from(cylinders: Option<u16>, at: usize, words: &[String]) -> Option<Start>
    requires { at ≤ 2 }
    ensures start { result ≡ packs_from cylinders at (map string_bytes words.now) }
    ensures cylinders { IfSome result (λ start. start.cylinders ≡ cylinders) }
    ensures within { IfSome result (λ start. (start.pack < at + length words.now) × (start.rest ≤ at + length words.now)) }
    ensures second { IfSome result (λ start. IfSome start.second (λ second. second < at + length words.now)) }
{
    let word = words.first()?;
    if !is_option(b"--second", word.as_bytes()) {
        return Some(Start {
            cylinders,
            second: None,
            pack: at,
            rest: at + 1,
        });
    }
    match words {
        [_, _, _, ..] => Some(Start {
            cylinders,
            second: Some(at + 1),
            pack: at + 2,
            rest: at + 3,
        }),
        _ => None,
    }
}

/// Whether a word is this option.
fn is_option(option: &[u8], word: &[u8]) -> bool
    ensures { result ≡ is_option option.now word.now }
{
    word == option
}

/// The number of cylinders that a word gives. None where it isn't a number from 2 to 406.
fn cylinders_in(word: &[u8]) -> Option<u16>
    ensures { result ≡ cylinders_in word.now }
{
    match read_number(word) {
        Some(cylinders) if 2 <= cylinders && cylinders <= 406 => Some(cylinders as u16),
        _ => None,
    }
}
