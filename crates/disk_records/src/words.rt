// The words of a page as bytes, the high byte of a word first.
ghost use Rattle.std.specs.Prelude.{◌≡◌, ℕ, ◌+◌, ◌*◌, ◌<◌, ◌≤◌, ◌++◌, [], ◌∷◌, length};
ghost use Rattle.disk_records.specs.Bytes.{bytes_of, words_of, put_at};
ghost use Rattle.disk_records.specs.Words.{word};

use byteorder::{BigEndian, ByteOrder};

/// The bytes of a page: two for each of its 256 words.
pub const PAGE_BYTES: u16 = 512;

/// Puts the bytes of words, the high byte of each first, in the place of as many bytes.
pub fn words_into_bytes(words: &[u16], bytes: &mut [u8])
    requires { length bytes.old ≡ 2 * length words.now }
    ensures bytes { bytes.new ≡ bytes_of words.now }
    ensures fit { (k : ℕ) → word words.now k < 65536 }
{
    BigEndian::write_u16_into(words, bytes);
}

/// Puts the words of bytes, two a word and the high byte first, in the place of half as many words.
pub fn bytes_into_words(bytes: &[u8], words: &mut [u16])
    requires { length bytes.now ≡ 2 * length words.old }
    ensures words { words.new ≡ words_of bytes.now }
    ensures bytes { bytes_of words.new ≡ bytes.now }
    ensures fit { (k : ℕ) → word words.new k < 65536 }
{
    BigEndian::read_u16_into(bytes, words);
}

/// Puts bytes in the place of others in the value of a page, one after another from this byte of the page on.
fn put_each(value: &mut [u16; 256], offset: usize, bytes: &[u8])
    requires { offset + length bytes.now ≤ 512 }
    ensures { bytes_of value.new ≡ put_at offset bytes.now (bytes_of value.old) }
{
    for (i, byte) in bytes.iter().enumerate() {
        let place = offset + i;
        let word = value[place / 2];
        value[place / 2] = if place % 2 == 0 {
            *byte as u16 * 256 + word % 256
        } else {
            word / 256 * 256 + *byte as u16
        };
    }
}

/// Puts bytes in the place of others in the value of a page, from this byte of the page on: those that are whole words as words.
fn put_bytes(value: &mut [u16; 256], offset: usize, bytes: &[u8])
    requires { offset + length bytes.now ≤ 512 }
    ensures { bytes_of value.new ≡ put_at offset bytes.now (bytes_of value.old) }
{
    if offset % 2 != 0 {
        put_each(value, offset, bytes);
        return;
    }
    let whole = bytes.len() / 2;
    let (pairs, rest) = bytes.split_at(2 * whole);
    let first = offset / 2;
    bytes_into_words(pairs, &mut value[first..first + whole]);
    put_each(value, offset + 2 * whole, rest);
}

/// Puts bytes in the place of others in the value of a page, from this byte of the page on, and then the bytes of these words after
/// them. All other bytes of the page stay.
pub fn put_in_words(value: &mut [u16; 256], offset: usize, bytes: &[u8], past: &[u16])
    requires { offset + length bytes.now + 2 * length past.now ≤ 512 }
    ensures { value.new ≡ words_of (put_at offset (bytes.now ++ bytes_of past.now) (bytes_of value.old)) }
{
    put_bytes(value, offset, bytes);
    let end = offset + bytes.len();
    for (i, word) in past.iter().enumerate() {
        put_bytes(
            value,
            end + 2 * i,
            &[(*word / 256) as u8, (*word % 256) as u8],
        );
    }
}
