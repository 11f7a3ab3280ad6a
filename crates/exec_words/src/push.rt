// Pieces of texts. On Memory the text has got a prefix of what was to be appended.
ghost use Rattle.std.specs.Prelude.{◌≡◌, ◌++◌, IfOk, OnOk};
ghost use Rattle.exec_words.specs.Texts.{with_number, line_of, bytes_words, spaced};

use alto_words::{Memory, push_hex, push_number};
use std::alloc::Global;

/// Appends a text.
pub(crate) fn push(out: &mut Vec<u8>, text: &[u8]) -> Result<(), Memory>
    ensures { OnOk result (out.new.items ≡ out.old.items ++ text.now) }
{
    out.extend_from_slice(text)?;
    Ok(())
}

/// Appends a text and a number in decimal.
pub(crate) fn push_with_number(
    alloc: Global,
    out: &mut Vec<u8>,
    text: &[u8],
    n: u64,
) -> Result<(), Memory>
    ensures { OnOk result (out.new.items ≡ out.old.items ++ with_number text.now n) }
{
    push(out, text)?;
    push_number(alloc, out, n)
}

/// Appends bytes in hex, `-` for none.
pub(crate) fn push_bytes(alloc: Global, out: &mut Vec<u8>, bytes: &[u8]) -> Result<(), Memory>
    ensures { OnOk result (out.new.items ≡ out.old.items ++ bytes_words bytes.now) }
{
    if bytes.is_empty() {
        return push(out, b"-");
    }
    push_hex(alloc, out, bytes)
}

/// Appends numbers in decimal, each after a space.
pub(crate) fn push_spaced(alloc: Global, out: &mut Vec<u8>, numbers: &[u16]) -> Result<(), Memory>
    ensures { OnOk result (out.new.items ≡ out.old.items ++ spaced numbers.now) }
{
    for n in numbers {
        push_with_number(alloc, out, b" ", *n as u64)?;
    }
    Ok(())
}

/// A line of a text and a number.
pub(crate) fn numbered(alloc: Global, text: &[u8], n: u64) -> Result<Vec<u8>, Memory>
    ensures { IfOk result (λ line. line.items ≡ line_of (with_number text.now n)) }
{
    let mut out = Vec::new(alloc);
    push_with_number(alloc, &mut out, text, n)?;
    push(&mut out, b"\n")?;
    Ok(out)
}

/// A line of a text.
pub(crate) fn plain(alloc: Global, text: &[u8]) -> Result<Vec<u8>, Memory>
    ensures { IfOk result (λ line. line.items ≡ line_of text.now) }
{
    let mut out = Vec::new(alloc);
    push(&mut out, text)?;
    push(&mut out, b"\n")?;
    Ok(out)
}
