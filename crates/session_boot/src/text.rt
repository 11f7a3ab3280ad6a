// Pieces of the texts that are shown.
ghost use Rattle.exec_words.specs.Texts.{spaced, with_number};
ghost use Rattle.std.specs.Prelude.{OnOk, ◌++◌, ◌≡◌};

use alto_words::{Memory, push_number};
use std::alloc::Global;

/// Appends a text and a number in decimal. On Memory the vector has got a prefix of it.
pub fn push_with_number(alloc: Global, out: &mut Vec<u8>, text: &[u8], n: u64) -> Result<(), Memory>
    ensures { OnOk result (out.new.items ≡ out.old.items ++ with_number text.now n) }
{
    out.extend_from_slice(text)?;
    push_number(alloc, out, n)
}

/// Appends numbers in decimal, each after a space. On Memory the vector has got a prefix of it.
pub fn push_spaced(alloc: Global, out: &mut Vec<u8>, numbers: &[u16]) -> Result<(), Memory>
    ensures { OnOk result (out.new.items ≡ out.old.items ++ spaced numbers.now) }
{
    for n in numbers {
        push_with_number(alloc, out, b" ", *n as u64)?;
    }
    Ok(())
}
