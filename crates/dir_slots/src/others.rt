// Slots that a scan need not be handed, judged where they stand, with no `Slot` made.
ghost use Rattle.std.specs.Prelude.{◌≡◌, ℕ, ◌+◌, ◌-◌, ◌<◌, ◌≤◌, ◌/◌, ◌==◌, ◌++◌, true, false, List, ◌∷◌, length, take, IfSome, Option};
ghost use Rattle.std.specs.List.{list_all};
ghost use Rattle.alto_words.specs.Fid.{is_full_name};
ghost use Rattle.alto_words.specs.Names.{fold_case, is_same_name};
ghost use Rattle.disk_records.specs.Words.{word};
ghost use Rattle.pack_model.specs.reading.Slots.{entry_length, slot_bytes, slot_fid, slot_name};
ghost use Rattle.dir_slots.specs.Inside.{IsBareEntry, IsBareSpelled, IsOtherAt, IsOtherEntry, TellsOthers, further, is_pair};
ghost use Rattle.dir_slots.specs.Others.{Passes};
ghost use Rattle.dir_slots.specs.Walks.{Walked, Walking};

use crate::codec::{ENTRY_TYPE, MIN_ENTRY_WORDS, NAME, VERSION, ZERO, fid_of};
use crate::slot::MAX_ENTRY_WORDS;
use alto_words::{Name, is_name_character};

/// What a scan need not be handed.
#[derive(Clone, Copy, Debug)]
pub struct Passing {
    /// Whether free slots are passed over.
    pub free: bool,
    /// The name whose entries are met, in whatever case of its letters. Those of other bare names are passed over; where there is None,
    /// those of all bare names.
    pub name: Option<Name>,
}

/// The first word of the shortest entry.
const FEWEST: u16 = ENTRY_TYPE + MIN_ENTRY_WORDS as u16;

/// That of the longest.
const MOST: u16 = ENTRY_TYPE + MAX_ENTRY_WORDS as u16;

/// The greatest version.
const MAX_VERSION: u32 = 0xFFFE;

/// What ends a name.
const DOT: u16 = 46;

/// What tells most entries from those of a name, in whatever case: the low five bits of three bytes of its entry's last two words. The
/// case changes none of these bits. They are worked out once, and most names of a directory differ in them.
#[derive(Drop)]
pub(crate) struct Ending {
    /// Those of the high byte of the last word, or more than five bits where there is no name.
    pub last: u8,
    /// Those of the high byte of the word before it.
    pub high: u8,
    /// Those of its low byte.
    pub low: u8,
}

/// The ending of a name, if there is one.
pub(crate) fn ending_of(name: &Option<Name>) -> Ending
    ensures { TellsOthers name.now result.last result.high result.low }
{
    match name {
        Some(name) => {
            let bytes = name.as_bytes();
            let last = bytes.len() / 2 * 2;
            Ending {
                last: counted_byte(bytes, last) % 32,
                high: counted_byte(bytes, last - 2) % 32,
                low: counted_byte(bytes, last - 1) % 32,
            }
        }
        None => Ending {
            last: 255,
            high: 0,
            low: 0,
        },
    }
}

/// A byte of a name that has its length before it.
fn counted_byte(name: &[u8], at: usize) -> u8
    requires within { at ≤ length name.now }
    requires fits { length name.now ≤ 255 }
    ensures { result ≡ word (length name.now ∷ name.now) at }
{
    if at == 0 {
        return name.len() as u8;
    }
    name[at - 1]
}

/// How many words the slot has that these words begin with, if all of it is here and it may be passed over. None doesn't rule that out.
pub(crate) fn other_here(words: &[u16], passing: &Passing, ending: &Ending) -> Option<usize>
    requires { TellsOthers passing.now.name ending.now.last ending.now.high ending.now.low }
    ensures other { IfSome result (IsOtherAt passing.now words.now) }
    ensures least { IfSome result (λ n. 1 ≤ n) }
    ensures within { IfSome result (λ n. n ≤ length words.now) }
    ensures entry { IfSome result (λ n. 1024 ≤ word words.now 0 → IsBareEntry (take n words.now)) }
{
    let first = *words.first()?;
    if first < FEWEST || MOST < first {
        return free_here(words, passing.free);
    }
    let length = first as usize - ENTRY_TYPE as usize;
    if length > words.len() {
        return None;
    }
    if !is_other_entry(&words[..length], &passing.name, ending) {
        return None;
    }
    Some(length)
}

/// How many words the free slot has that these words begin with, if they do, all of it is here, and free slots may be passed over.
fn free_here(words: &[u16], free: bool) -> Option<usize>
    requires { 1 ≤ length words.now }
    ensures other { (passing : Passing) → passing.free ≡ free → IfSome result (IsOtherAt passing words.now) }
    ensures least { IfSome result (λ n. 1 ≤ n) }
    ensures within { IfSome result (λ n. n ≤ length words.now) }
    ensures free { IfSome result (λ n. word words.now 0 < 1024) }
{
    let length = words[0] as usize;
    if length == 0 || length >= ENTRY_TYPE as usize || length > words.len() {
        return None;
    }
    if !free {
        return None;
    }
    Some(length)
}

/// Where slots end that `other_here` passes over, from a word of a page on which a slot begins.
pub(crate) fn others_end(page: &[u16], from: usize, passing: &Passing) -> usize
    requires { from ≤ length page.now }
    ensures on { from ≤ result }
    ensures within { result ≤ length page.now }
    ensures passes { (given : List ℕ) (walk : Walking) → walk.held ≡ 0 → walk.ended ≡ false → Walked (given ++ take from page.now) walk → Passes passing.now (given ++ take from page.now) (given ++ take result page.now) (further walk (result - from)) }
{
    let ending = ending_of(&passing.name);
    let mut rest = &page[from..];
    while let Some(length) = other_here(rest, passing, &ending) {
        rest = &rest[length..];
    }
    page.len() - rest.len()
}

/// Whether these words are the entry of a bare name that isn't this one, if there is one. Their first word is that of an entry of so
/// many words. False doesn't rule it out.
fn is_other_entry(words: &[u16], name: &Option<Name>, ending: &Ending) -> bool
    requires least { 8 ≤ length words.now }
    requires most { length words.now ≤ 26 }
    requires first { word words.now 0 ≡ 1024 + length words.now }
    requires ending { TellsOthers name.now ending.now.last ending.now.high ending.now.low }
    ensures { result ≡ true → IsOtherEntry name.now words.now }
{
    if !is_bare_entry(words) {
        return false;
    }
    if ends_otherwise(words, ending) {
        return true;
    }
    match name {
        Some(name) => is_named_otherwise(words, name.as_bytes()),
        None => true,
    }
}

/// Whether these words are the entry of a bare name. Their first word is that of an entry of so many words. False doesn't rule it out.
fn is_bare_entry(words: &[u16]) -> bool
    requires least { 8 ≤ length words.now }
    requires most { length words.now ≤ 26 }
    requires first { word words.now 0 ≡ 1024 + length words.now }
    ensures { result ≡ true → IsBareEntry words.now }
{
    if !has_full_name(words) {
        return false;
    }
    spells_bare_name(&words[NAME..])
}

/// Whether the full name in the words of an entry is one that a file can have, and word 4, after it, is 0. False doesn't rule it out.
fn has_full_name(words: &[u16]) -> bool
    requires { 5 ≤ length words.now }
    ensures full { result ≡ true → is_full_name (slot_fid words.now) ≡ true }
    ensures zero { result ≡ true → word words.now 4 ≡ 0 }
{
    // the version and word 4 as the halves of one number, which is told by fewer comparisons
    let version = words[VERSION] as u32 + words[ZERO] as u32 * 0x1_0000;
    if version < 1 || version > MAX_VERSION {
        return false;
    }
    fid_of(words).serial() != 0
}

/// Whether these words are a byte with a length and a bare name of so many characters, with a byte 0 after it where these are even in
/// number.
fn spells_bare_name(words: &[u16]) -> bool
    requires least { 2 ≤ length words.now }
    requires most { length words.now ≤ 20 }
    ensures { result ≡ true → IsBareSpelled words.now }
{
    let first = words[0];
    let end = words.len() - 1;
    if (first / 512) as usize != end {
        return false;
    }
    let begun = is_name_character((first % 256) as u8);
    if !are_pairs(&words[1..end]) {
        return false;
    }
    let last = words[end];
    if first / 256 % 2 == 0 {
        return begun & (last == DOT * 256);
    }
    if last % 256 != DOT {
        return false;
    }
    begun & is_name_character((last / 256) as u8)
}

/// Whether both bytes of each of these words may stand in a bare name.
fn are_pairs(words: &[u16]) -> bool
    ensures { result ≡ list_all is_pair words.now }
{
    words.iter().all(|word| is_pair(*word))
}

/// Whether both bytes of a word may stand in a bare name.
fn is_pair(word: u16) -> bool
    ensures { result ≡ is_pair word }
{
    is_name_character((word / 256) as u8) & is_name_character((word % 256) as u8)
}

/// Whether an entry has another name than the one with this ending. False doesn't rule it out.
fn ends_otherwise(words: &[u16], ending: &Ending) -> bool
    requires least { 8 ≤ length words.now }
    requires size { length words.now ≡ entry_length (word words.now 6 / 256) }
    ensures { (name : Option (List ℕ)) → TellsOthers name ending.now.last ending.now.high ending.now.low → result ≡ true → IfSome name (λ n. is_same_name (slot_name words.now) n ≡ false) }
{
    let end = words.len() - 1;
    if words[end] / 256 % 32 != ending.last as u16 {
        return true;
    }
    let before = words[end - 1];
    if before % 32 != ending.low as u16 {
        return true;
    }
    before / 256 % 32 != ending.high as u16
}

/// Whether an entry has another name than this one, in whatever case of its letters. False doesn't rule it out. The characters are
/// compared from the last one before the final `.` to the first. Few entries come here, since most others are told by their ending.
fn is_named_otherwise(words: &[u16], name: &[u8]) -> bool
    requires { length words.now ≡ entry_length (word words.now 6 / 256) }
    ensures { result ≡ true → is_same_name (slot_name words.now) name.now ≡ false }
{
    let length = (words[NAME] / 256) as usize;
    if name.len() != length {
        return true;
    }
    let mut at = length;
    while at > 1 {
        at -= 1;
        if !is_same_character(byte_at(words, at), name[at - 1]) {
            return true;
        }
    }
    false
}

/// Whether two characters are equal without regard to the case of ASCII letters.
fn is_same_character(own: u8, other: u8) -> bool
    ensures { result ≡ (fold_case own == fold_case other) }
{
    // the case changes none of the low five bits
    own % 32 == other % 32 && own.to_ascii_lowercase() == other.to_ascii_lowercase()
}

/// A byte of the name of an entry; that at 0 is its length.
fn byte_at(words: &[u16], at: usize) -> u8
    requires { 6 + at / 2 < length words.now }
    ensures { result ≡ word (slot_bytes words.now) at }
{
    let word = words[NAME + at / 2];
    if at % 2 == 0 {
        return (word / 256) as u8;
    }
    (word % 256) as u8
}
