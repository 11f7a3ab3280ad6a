// Texts that are cut at a byte.
ghost use Rattle.std.specs.Prelude.{◌≡◌, position};
ghost use Rattle.std.specs.Option.{option_map};
ghost use Rattle.exec_words.specs.Grammar.{is_byte, before, after};

/// The place of the first such byte.
fn first_place(text: &[u8], byte: u8) -> Option<usize>
    ensures { result ≡ position (is_byte byte) text.now }
{
    // a long word of a bad line has no such byte, which is seen many bytes at a time
    if !text.contains(&byte) {
        return None;
    }
    text.iter().position(|c| *c == byte)
}

/// What stands before the first such byte, and what stands after it; all of the text and nothing if it has none.
pub(crate) fn cut_at(text: &[u8], byte: u8) -> (&[u8], Option<&[u8]>)
    ensures before { result.0.now ≡ before byte text.now }
    ensures after { option_map (λ rest. rest.now) result.1 ≡ after byte text.now }
{
    match first_place(text, byte) {
        Some(at) => (&text[..at], Some(&text[at + 1..])),
        None => (text, None),
    }
}
