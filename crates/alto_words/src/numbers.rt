// Numbers and bytes in text: decimal digits, and hexadecimal digits in pairs.
ghost use Rattle.std.specs.Prelude.{◌≡◌, ◌++◌, ◌+◌, ◌*◌, ◌%◌, ◌<◌, ◌≤◌, length, take, map, true, false, Some, None, IfOk, OnOk, OnErr, decimal};
ghost use Rattle.std.specs.Char.{is_ascii_hexdigit};
ghost use Rattle.std.specs.Fmt.{digit_glyph};
ghost use Rattle.std.specs.List.{list_all};
ghost use Rattle.std.specs.Simd.Lanes.{Each1, chunk};
ghost use Rattle.alto_words.specs.Numbers.{number_in, bytes_in_hex, bytes_if, digit_value, is_digit_value, hex_pairs, hex_of};

use crate::memory::Memory;
use itoa::Buffer;
use std::alloc::Global;
use std::simd::prelude::*;

/// Why `read_hex` gives no bytes.
#[derive(Clone, Copy, Debug, PartialEq, Eq)]
pub enum HexError {
    /// The text is neither `-` nor an even number, above 0, of hexadecimal digits.
    Bad,
    /// No memory was left for the bytes of a text that has them.
    Memory,
}

/// The most decimal digits that `read_number` reads: those of 2^32 - 1.
const MAX_DIGITS: usize = 10;

/// How many hexadecimal digits there are: what has a value from this on is none.
const DIGITS: u8 = 16;

/// How many bytes a vector has.
const LANES: usize = 16;

/// The number that a text of 1 to 10 decimal digits gives, leading zeros included; None for any
/// other text, and for a value of 2^32 or more.
pub fn read_number(text: &[u8]) -> Option<u32>
    ensures { result ≡ number_in text.now }
{
    if text.is_empty() || text.len() > MAX_DIGITS {
        return None;
    }
    let mut value: u64 = 0;
    for digit in text {
        if !digit.is_ascii_digit() {
            return None;
        }
        value = value * 10 + u64::from(*digit - b'0');
    }
    u32::try_from(value).ok()
}

/// The bytes that hexadecimal digits of either case give in pairs, the high digit first; `-` gives
/// no bytes.
///
/// Bad: the text is neither `-` nor an even number, above 0, of digits. Memory: the text is one of
/// these, and no memory was left.
pub fn read_hex(alloc: Global, text: &[u8]) -> Result<Vec<u8>, HexError>
    ensures ok { IfOk result (λ bytes. bytes_in_hex text.now ≡ Some bytes.items) }
    ensures bad { result ≡ Err HexError.Bad → bytes_in_hex text.now ≡ None }
    ensures refused { bytes_in_hex text.now ≡ None → result ≡ Err HexError.Bad }
{
    if text == b"-".as_slice() {
        return Ok(Vec::new(alloc));
    }
    if text.is_empty() || text.len() % 2 != 0 {
        return Err(HexError::Bad);
    }
    read_pairs(alloc, text)
}

/// The bytes that digits in pairs give, of a text that has an even number of characters. They are checked as they are read, so the
/// text is gone over once; only where no memory is left for the bytes it is looked at alone, since Bad comes before Memory.
fn read_pairs(alloc: Global, text: &[u8]) -> Result<Vec<u8>, HexError>
    requires even { length text.now % 2 ≡ 0 }
    ensures ok { IfOk result (λ bytes. hex_pairs text.now ≡ Some bytes.items) }
    ensures bad { result ≡ Err HexError.Bad → hex_pairs text.now ≡ None }
    ensures refused { hex_pairs text.now ≡ None → result ≡ Err HexError.Bad }
{
    let Ok(mut bytes) = vec![in alloc; 0; text.len() / 2] else {
        return Err(error_without_memory(text));
    };
    if put_bytes(text, &mut bytes) {
        Ok(bytes)
    } else {
        Err(HexError::Bad)
    }
}

/// Why a text that has an even number of characters gives no bytes where no memory is left for them.
fn error_without_memory(text: &[u8]) -> HexError
    requires even { length text.now % 2 ≡ 0 }
    ensures bad { result ≡ HexError.Bad → hex_pairs text.now ≡ None }
    ensures refused { hex_pairs text.now ≡ None → result ≡ HexError.Bad }
{
    if has_hex_digits(text) {
        HexError::Memory
    } else {
        HexError::Bad
    }
}

/// Puts the bytes that digits in pairs give in the place of others, and tells whether all of the text is digits; where it isn't, the
/// bytes are of no use. `hex::decode` branches on each digit, and this doesn't: which one comes next no processor can tell, and a guess
/// that is wrong takes it as long as many digits.
fn put_bytes(text: &[u8], bytes: &mut [u8]) -> bool
    requires pairs { length text.now ≡ 2 * length bytes.old }
    ensures length { length bytes.new ≡ length bytes.old }
    ensures bytes { hex_pairs text.now ≡ bytes_if result bytes.new }
{
    let (whole, mut all) = put_byte_blocks(text, bytes);
    for at in whole..bytes.len() {
        let high = digit_value(text[2 * at]);
        let low = digit_value(text[2 * at + 1]);
        bytes[at] = high.wrapping_mul(16).wrapping_add(low);
        all &= (high < DIGITS) & (low < DIGITS);
    }
    all
}

/// Puts the bytes of the digits of whole blocks; gives how many bytes that are, and whether all of their characters are digits. This is
/// judged once, after the last block, by the greatest value that came in each lane.
fn put_byte_blocks(text: &[u8], bytes: &mut [u8]) -> (usize, bool)
    requires pairs { length text.now ≡ 2 * length bytes.old }
    ensures within { result.0 ≤ length bytes.old }
    ensures length { length bytes.new ≡ length bytes.old }
    ensures bytes { hex_pairs (take (2 * result.0) text.now) ≡ bytes_if result.1 (take result.0 bytes.new) }
{
    let mut at = 0;
    let mut greatest = u8x16::splat(0);
    while bytes.len() - at >= LANES {
        greatest = put_byte_block(text, at, greatest, bytes);
        at += LANES;
    }
    (at, are_values_of_digits(greatest))
}

/// Puts the block of bytes from `at` on, after the bytes of the digits before, whose greatest values are given; gives the greatest values
/// with this block's.
#[inline(always)]
fn put_byte_block(text: &[u8], at: usize, greatest: u8x16, bytes: &mut [u8]) -> u8x16
    requires pairs { length text.now ≡ 2 * length bytes.old }
    requires within { at + 16 ≤ length bytes.old }
    requires before { hex_pairs (take (2 * at) text.now) ≡ bytes_if (list_all is_digit_value greatest) (take at bytes.old) }
    ensures lanes { length result ≡ 16 }
    ensures length { length bytes.new ≡ length bytes.old }
    ensures bytes { hex_pairs (take (2 * (at + 16)) text.now) ≡ bytes_if (list_all is_digit_value result) (take (at + 16) bytes.new) }
{
    let front = u8x16::from_slice(&text[2 * at..]);
    let back = u8x16::from_slice(&text[2 * at + LANES..]);
    let (block, values) = bytes_of_digits(front, back);
    block.copy_to_slice(&mut bytes[at..]);
    greatest.simd_max(values)
}

/// The bytes of a block of digits in pairs, which is given as its first half and its second, and the greater value of each pair.
#[inline(always)]
fn bytes_of_digits(front: u8x16, back: u8x16) -> (u8x16, u8x16)
    ensures length { length result.0 ≡ 16 }
    ensures lanes { length result.1 ≡ 16 }
    ensures bytes { hex_pairs (front ++ back) ≡ bytes_if (list_all is_digit_value result.1) result.0 }
{
    let (front, back) = front.deinterleave(back);
    let high = values_of_digits(front);
    let low = values_of_digits(back);
    ((high << 4) | low, high.simd_max(low))
}

/// The values of hexadecimal digits, and 16 or more for other bytes, as `digit_value` gives them.
#[inline(always)]
fn values_of_digits(digits: u8x16) -> u8x16
    ensures { result ≡ map digit_value digits }
{
    let decimal = (digits - u8x16::splat(b'9' + 1)).saturating_sub(u8x16::splat(6))
        + u8x16::splat(16);
    let from_a = (digits & u8x16::splat(0xDF)) - u8x16::splat(b'A');
    let letter = u8x16::splat(10).saturating_add(from_a);
    decimal.simd_min(letter)
}

/// Whether all of these values are of digits.
fn are_values_of_digits(values: u8x16) -> bool
    ensures { result ≡ list_all is_digit_value values }
{
    values.simd_ge(u8x16::splat(DIGITS)).to_bitmask() == 0
}

/// The value of a hexadecimal digit, and 16 or more for another byte.
///
/// Less 58, the digits `0` to `9` are 246 to 255, and no other byte is: less 6 more, but not less than 0, they are 240 to 249, and the
/// others at most 239. So 16 more make the digits' values of the first, and 16 or more of the others. Letters have bit 5 in the lower case
/// alone, and without it those from `A` on get 10 and their distance from it, which isn't let past 255.
fn digit_value(digit: u8) -> u8
    ensures { result ≡ digit_value digit }
{
    let decimal = digit
        .wrapping_sub(b'9' + 1)
        .saturating_sub(6)
        .wrapping_add(16);
    let letter = (digit & 0xDF).wrapping_sub(b'A').saturating_add(10);
    if decimal < letter { decimal } else { letter }
}

/// Whether a text is hexadecimal digits alone. It goes over all of it, since a loop that ends at the first other byte compares one byte at
/// a time.
fn has_hex_digits(text: &[u8]) -> bool
    ensures { result ≡ list_all is_ascii_hexdigit text.now }
{
    let mut all = true;
    for c in text {
        all &= c.is_ascii_hexdigit();
    }
    all
}

/// Appends the decimal digits of a number, without leading zeros. On Memory the vector holds what it
/// held. The room is the vector's own; the allocator is taken as every call with Memory takes it.
pub fn push_number(_alloc: Global, out: &mut Vec<u8>, n: u64) -> Result<(), Memory>
    ensures ok { OnOk result (out.new.items ≡ out.old.items ++ decimal n) }
    ensures err { OnErr result (out.new.items ≡ out.old.items) }
{
    out.extend_from_slice(Buffer::new().format(n).as_bytes())?;
    Ok(())
}

/// Appends two hexadecimal digits a byte, in lower case, the high digit first. On Memory the vector
/// holds what it held.
pub fn push_hex(alloc: Global, out: &mut Vec<u8>, bytes: &[u8]) -> Result<(), Memory>
    ensures ok { OnOk result (out.new.items ≡ out.old.items ++ hex_of bytes.now) }
    ensures err { OnErr result (out.new.items ≡ out.old.items) }
{
    let digits = hex::encode(alloc, bytes)?;
    out.extend_from_slice(digits.as_bytes())?;
    Ok(())
}

/// Puts two hexadecimal digits a byte, in lower case, the high digit first, in the place of as many bytes. `hex::encode_to_slice` looks
/// each of them up in a table, and this makes many at once.
pub fn put_hex(bytes: &[u8], digits: &mut [u8])
    requires { length digits.old ≡ 2 * length bytes.now }
    ensures { digits.new ≡ hex_of bytes.now }
{
    for at in put_blocks(bytes, digits)..bytes.len() {
        digits[2 * at] = digit_of(bytes[at] / 16);
        digits[2 * at + 1] = digit_of(bytes[at] % 16);
    }
}

/// Puts the digits of the whole blocks of a vector's length, and gives how many bytes they have.
fn put_blocks(bytes: &[u8], digits: &mut [u8]) -> usize
    requires { length digits.old ≡ 2 * length bytes.now }
    ensures within { result ≤ length bytes.now }
    ensures length { length digits.new ≡ length digits.old }
    ensures digits { take (2 * result) digits.new ≡ hex_of (take result bytes.now) }
{
    let mut at = 0;
    while bytes.len() - at >= LANES {
        put_block(bytes, at, digits);
        at += LANES;
    }
    at
}

/// Puts the digits of the block of bytes from `at` on.
#[inline(always)]
fn put_block(bytes: &[u8], at: usize, digits: &mut [u8])
    requires within { at + 16 ≤ length bytes.now }
    requires room { length digits.old ≡ 2 * length bytes.now }
    ensures length { length digits.new ≡ length digits.old }
    ensures digits { take (2 * (at + 16)) digits.new ≡ take (2 * at) digits.old ++ hex_of (chunk at 16 bytes.now) }
{
    let (front, back) = digits_of_block(u8x16::from_slice(&bytes[at..]));
    front.copy_to_slice(&mut digits[2 * at..]);
    back.copy_to_slice(&mut digits[2 * at + LANES..]);
}

/// The digits of a block of bytes: those of its first half, and those of its second.
#[inline(always)]
fn digits_of_block(block: u8x16) -> (u8x16, u8x16)
    ensures first { length result.0 ≡ 16 }
    ensures second { length result.1 ≡ 16 }
    ensures digits { result.0 ++ result.1 ≡ hex_of block }
{
    digits_of_values(block >> 4).interleave(digits_of_values(block & u8x16::splat(15)))
}

/// The hexadecimal digits that have these values, in lower case.
#[inline(always)]
fn digits_of_values(values: u8x16) -> u8x16
    requires { Each1 (λ value. value < 16) values }
    ensures { result ≡ map (digit_glyph false) values }
{
    let is_letter = values.simd_gt(u8x16::splat(9));
    let further = is_letter.select(u8x16::splat(b'a' - 10 - b'0'), u8x16::splat(0));
    values + u8x16::splat(b'0') + further
}

/// The hexadecimal digit that has this value, in lower case.
fn digit_of(value: u8) -> u8
    requires { value < 16 }
    ensures { result ≡ digit_glyph false value }
{
    if value < 10 {
        b'0' + value
    } else {
        b'a' + (value - 10)
    }
}
