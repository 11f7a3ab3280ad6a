// A short text that takes no memory.
ghost use Rattle.std.specs.Prelude.{◌≡◌, ◌+◌, ◌≤◌, ◌++◌, [], length, false};
ghost use Rattle.std.specs.Fmt.{digits};

use std::marker::Model;

/// The most bytes of a text: the characters of the longest name, its final `.` included.
pub(crate) const MAX_LENGTH: usize = 39;

/// The base of octal digits.
const BASE: u32 = 8;

/// A text of at most 39 bytes, which lie in the value itself. Contracts see the list of its bytes.
#[derive(Clone, Copy, Debug)]
pub(crate) struct ShortText {
    /// How many bytes of the array are the text.
    len: usize,
    /// The text's bytes, then zeros.
    bytes: [u8; MAX_LENGTH],
}

impl Model for ShortText {
    ghost use Rattle.std.specs.Prelude.{ℕ, List, ◌++◌, ◌-◌, length, take, replicate};
    ghost use Rattle.alto_words.specs.Texts.{HoldsText, HoldsText-length, HoldsText-bytes};

    ghost Value = { List ℕ };

    ghost view = { λ t. take t.len t.bytes };

    ghost invariant = { λ t. HoldsText t.len t.bytes };

    ghost inverse = { λ text. record { len = length text; bytes = text ++ replicate (39 - length text) 0 } };

    ghost inverse_ok = { λ t h i. record { len = HoldsText-length h i; bytes = HoldsText-bytes h i } };
}

impl ShortText {
    /// No bytes.
    pub(crate) fn new() -> ShortText
        ensures { result ≡ [] }
    {
        ShortText {
            len: 0,
            bytes: [0; MAX_LENGTH],
        }
    }

    /// The bytes of the text.
    pub(crate) fn as_bytes(&self) -> &[u8]
        ensures { result.now ≡ self.now }
    {
        &self.bytes[..self.len]
    }

    /// Appends bytes, which must have room.
    pub(crate) fn push(&mut self, part: &[u8])
        requires { length self.old + length part.now ≤ 39 }
        ensures { self.new ≡ self.old ++ part.now }
    {
        let end = self.len + part.len();
        self.bytes[self.len..end].copy_from_slice(part);
        self.len = end;
    }

    /// Appends the octal digits of a number, which must have room.
    pub(crate) fn push_octal(&mut self, number: u32)
        requires { length self.old + length (digits 8 false number) ≤ 39 }
        ensures { self.new ≡ self.old ++ digits 8 false number }
    {
        if number >= BASE {
            self.push_octal(number / BASE);
        }
        self.push(&[b'0' + (number % BASE) as u8]);
    }
}
