// One slot from the words that it begins.
ghost use Rattle.std.specs.Prelude.{◌≡◌, ℕ, ◌+◌, ◌≤◌, ◌==◌, ◌&&◌, min, length, take, List, IfSome};
ghost use Rattle.std.specs.List.{list_all};
ghost use Rattle.std.specs.Option.{option_map};
ghost use Rattle.disk_records.specs.Words.{word};
ghost use Rattle.pack_model.specs.reading.Bytes.{bytes_of};
ghost use Rattle.pack_model.specs.reading.Slots.{item_words, slot_at, slot_fid};
ghost use Rattle.pack_model.specs.reading.SlotWords.{address_at};
ghost use Rattle.dir_slots.specs.Inside.{name_of, entry_of};
ghost use Rattle.dir_slots.specs.Items.{item_of, address_of, IsInRange};
ghost use Rattle.dir_slots.specs.Laws.{HasStoredName};

use crate::slot::{MAX_ENTRY_WORDS, Slot, entry_words};
use alto_words::{Fid, Name};
use disk_records::words_into_bytes;

// The words of an entry, counted from its first.
const TYPE: usize = 0;

const SERIAL_HIGH: usize = 1;

const SERIAL_LOW: usize = 2;

pub(crate) const VERSION: usize = 3;

pub(crate) const ZERO: usize = 4;

const LEADER_AT: usize = 5;

pub(crate) const NAME: usize = 6;

/// Word 0 of an entry less its length: the type 1 times 1,024. That of a free slot is its length alone.
pub(crate) const ENTRY_TYPE: u16 = 1024;

/// The fewest words of an entry: those of one whose name has 2 characters.
pub(crate) const MIN_ENTRY_WORDS: usize = 8;

/// The most bytes of a name with its length: those of the words after word 5.
const MAX_NAME_BYTES: usize = 40;

/// The slot at the head of `left` words, of which `front` has the first 26, or all where they are fewer. None if and only if they
/// begin with no slot that can be read: its length is 0 or goes past them, its type isn't 0 or 1, or it is of type 1 and isn't an
/// entry. It takes no memory. The slot's length is its `words`.
pub fn slot_here(front: &[u16], left: usize) -> Option<Slot>
    requires { length front.now ≡ min 26 left }

    // Whatever the words are that begin so.
    ensures item { (words : List ℕ) → length words ≡ left → front.now ≡ take 26 words → option_map item_of result ≡ slot_at words }
    ensures address { (words : List ℕ) → length words ≡ left → front.now ≡ take 26 words → IfSome result (λ slot. address_of slot ≡ address_at words 0 (item_of slot)) }

    // It can be written again, and stands within these words.
    ensures in_range { IfSome result IsInRange }
    ensures stored { IfSome result HasStoredName }
    ensures least { IfSome result (λ slot. 1 ≤ item_words (item_of slot)) }
    ensures most { IfSome result (λ slot. item_words (item_of slot) ≤ left) }
{
    let first = *front.first()?;
    let length = first % ENTRY_TYPE;
    if length == 0 {
        return None;
    }
    if length as usize > left {
        return None;
    }
    if first == length {
        return Some(Slot::Free { words: length });
    }
    if length as usize > MAX_ENTRY_WORDS {
        return None;
    }
    read_entry(&front[..length as usize])
}

/// The entry that these words are. None where they are none: too few or too many for the name, another type or length in word 0,
/// a word 4 or a byte after the name that isn't 0, a serial or version out of range, or no stored name.
fn read_entry(words: &[u16]) -> Option<Slot>
    requires { length words.now ≤ 26 }
    ensures item { option_map item_of result ≡ entry_of words.now }
    ensures address { IfSome result (λ slot. address_of slot ≡ address_at words.now 0 (item_of slot)) }
    ensures in_range { IfSome result IsInRange }
    ensures stored { IfSome result HasStoredName }
    ensures size { IfSome result (λ slot. item_words (item_of slot) ≡ length words.now) }
{
    if words.len() < MIN_ENTRY_WORDS {
        return None;
    }
    if !is_entry_head(words) {
        return None;
    }
    let fid = fid_of(words);
    if !fid.is_full_name() {
        return None;
    }
    let name = read_name(&words[NAME..])?;
    if entry_words(&name) as usize != words.len() {
        return None;
    }
    Some(Slot::Entry {
        fid,
        leader_at: words[LEADER_AT],
        name,
    })
}

/// The full name in the words of an entry.
pub(crate) fn fid_of(words: &[u16]) -> Fid
    requires { 4 ≤ length words.now }
    ensures { result ≡ slot_fid words.now }
{
    Fid {
        high: words[SERIAL_HIGH],
        low: words[SERIAL_LOW],
        version: words[VERSION],
    }
}

/// Whether word 0 is the type of an entry with the length, and word 4 is 0.
fn is_entry_head(words: &[u16]) -> bool
    requires { 5 ≤ length words.now }
    ensures { result ≡ (word words.now 0 == 1024 + length words.now && word words.now 4 == 0) }
{
    words[TYPE] as usize == ENTRY_TYPE as usize + words.len() && words[ZERO] == 0
}

/// The name in these words, whose first byte is its length. None where that goes past them, the characters form no stored name, or
/// a byte after them isn't 0.
fn read_name(words: &[u16]) -> Option<Name>
    requires { length words.now ≤ 20 }
    ensures { result ≡ name_of (bytes_of words.now) }
{
    let mut bytes = [0; MAX_NAME_BYTES];
    let bytes = &mut bytes[..2 * words.len()];
    words_into_bytes(words, bytes);
    name_of(bytes)
}

/// The name in these bytes, of which the first is its length. None as in `read_name`.
fn name_of(bytes: &[u8]) -> Option<Name>
    ensures { result ≡ name_of bytes.now }
{
    let (length, rest) = bytes.split_first()?;
    let (text, pad) = rest.split_at_checked(*length as usize)?;
    if !is_blank(pad) {
        return None;
    }
    Name::stored(text)
}

/// Whether these bytes are 0.
fn is_blank(bytes: &[u8]) -> bool
    ensures { result ≡ list_all (λ b. b == 0) bytes.now }
{
    bytes.iter().all(|byte| *byte == 0)
}
