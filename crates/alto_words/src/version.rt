// The versions that names state.
ghost use Rattle.std.specs.Prelude.{◌≡◌, ◌≤◌, None, IfSome, IfNone};
ghost use Rattle.alto_words.specs.Names.{after_mark, IsFirstMark, version_text, version_in};

use crate::numbers::read_number;
use crate::text::ShortText;
use itoa::Buffer;

/// What stands before a version that is stated.
const MARK: u8 = b'!';

/// The greatest version.
const MAX_VERSION: u32 = 65_534;

/// Where the first `!` of a text stands. None if and only if there is none.
pub(crate) fn mark_in(text: &[u8]) -> Option<usize>
    ensures some { IfSome result (λ at. IsFirstMark text.now at) }
    ensures none { IfNone result (after_mark text.now ≡ None) }
{
    text.iter().position(|c| *c == MARK)
}

/// The version that these digits state: 1 to 65,534, without leading zeros. None for any other
/// text.
pub(crate) fn version_in(digits: &[u8]) -> Option<u16>
    ensures value { result ≡ version_in digits.now }
    ensures range { IfSome result (λ n. (1 ≤ n) × (n ≤ 65534)) }
{
    let n = read_number(digits)?;
    let mut buffer = Buffer::new();
    if n < 1 || n > MAX_VERSION || digits != buffer.format(n).as_bytes() {
        return None;
    }
    Some(n as u16)
}

/// `!` and a version; nothing for version 1, which names don't state.
pub(crate) fn version_mark(version: u16) -> ShortText
    requires { version ≤ 65534 }
    ensures { result ≡ version_text version }
{
    let mut text = ShortText::new();
    if version != 1 {
        let mut buffer = Buffer::new();
        text.push(&[MARK]);
        text.push(buffer.format(version).as_bytes());
    }
    text
}
