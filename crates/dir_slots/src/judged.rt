// Slots that were judged, kept with the words that they were judged by.
ghost use Rattle.std.specs.Prelude.{◌≡◌, ℕ, List, ◌+◌, ◌-◌, ◌/◌, ◌<◌, ◌≤◌, ◌^◌, ◌++◌, length, take, drop};
ghost use Rattle.pack_model.specs.reading.Slots.{entry_length};
ghost use Rattle.disk_records.specs.Words.{word};
ghost use Rattle.dir_slots.specs.Inside.{IsBareEntry, TellsOthers};
ghost use Rattle.dir_slots.specs.Judged.{AreKeyed, MayPass, TellsByKey, key_of};
ghost use Rattle.dir_slots.specs.Others.{Passes};
ghost use Rattle.dir_slots.specs.Walks.{Walked};

use crate::codec::{ENTRY_TYPE, NAME};
use crate::others::{Ending, Passing, ending_of, other_here};
use crate::slot::MAX_ENTRY_WORDS;
use crate::walk::Walk;
use alto_words::Name;
use std::alloc::Global;
use std::marker::Model;

/// The words of a whole page.
const PAGE_WORDS: usize = 256;

/// How many keys are kept of one: one of each word, and one after the last, which is always 0.
const KEYS: usize = PAGE_WORDS + 1;

/// How many pages are kept.
const PAGES: usize = 8;

/// How many words are compared at once where some have changed.
const PART: usize = 32;

/// The words of a page, and what was judged of the slots that begin at these.
#[derive(Drop)]
struct JudgedPage {
    /// The words.
    words: [u16; PAGE_WORDS],
    /// The key of the entry of a bare name that begins at each of them; 0 where nothing was judged.
    keys: [u16; KEYS],
}

impl Model for JudgedPage {
    ghost Value = { List ℕ };

    ghost view = { λ page. page.words };

    ghost invariant = { λ page. AreKeyed page.words page.keys };
}

impl JudgedPage {
    /// Nothing is judged yet.
    fn new() -> JudgedPage {
        JudgedPage {
            words: [0; PAGE_WORDS],
            keys: [0; KEYS],
        }
    }

    /// Takes the words of a page, or the first of one, and forgets what was judged by words that have changed.
    fn renew(&mut self, page: &[u16])
        requires { length page.now ≤ 256 }
        ensures { take (length page.now) self.new ≡ page.now }
    {
        if &self.words[..page.len()] != page {
            renew_parts(&mut self.words, &mut self.keys, page);
        }
    }

    /// Where slots end that may be passed over, from a word of the page on which a slot begins, as `others_end` in others.rt answers.
    fn others_end(&mut self, page: &[u16], from: usize, passing: &Passing) -> usize
        requires within { from ≤ length page.now }
        requires same { take (length page.now) self.old ≡ page.now }
        ensures on { from ≤ result }
        ensures within { result ≤ length page.now }
        ensures passes { MayPass passing.now page.now from result }
    {
        judged_end(&self.words, &mut self.keys, page, from, passing)
    }
}

/// Puts the words of a page in the place of those that are kept, and clears the keys that were made of others.
fn renew_parts(words: &mut [u16; PAGE_WORDS], keys: &mut [u16; KEYS], page: &[u16])
    requires within { length page.now ≤ 256 }
    requires keyed { AreKeyed words.old keys.old }
    ensures keyed { AreKeyed words.new keys.new }
    ensures words { take (length page.now) words.new ≡ page.now }
{
    let mut at = 0;
    while at < page.len() {
        let end = (at + PART).min(page.len());
        if words[at..end] != page[at..end] {
            renew_part(words, keys, at, &page[at..end]);
        }
        at = end;
    }
}

/// Puts words of a page in the place of those from this one on, and clears the keys of all entries that may reach them.
fn renew_part(words: &mut [u16; PAGE_WORDS], keys: &mut [u16; KEYS], at: usize, part: &[u16])
    requires within { at + length part.now ≤ 256 }
    requires keyed { AreKeyed words.old keys.old }
    ensures keyed { AreKeyed words.new keys.new }
    ensures words { take (at + length part.now) words.new ≡ take at words.old ++ part.now }
{
    let end = at + part.len();
    words[at..end].copy_from_slice(part);
    // an entry that begins earlier ends before them
    keys[at.saturating_sub(MAX_ENTRY_WORDS - 1)..end].fill(0);
}

/// Where slots end that may be passed over, from a word of a page on which a slot begins. What is judged of them is kept.
fn judged_end(
    words: &[u16; PAGE_WORDS],
    keys: &mut [u16; KEYS],
    page: &[u16],
    from: usize,
    passing: &Passing,
) -> usize
    requires within { from ≤ length page.now }
    requires same { take (length page.now) words.now ≡ page.now }
    requires keyed { AreKeyed words.now keys.old }
    ensures keyed { AreKeyed words.now keys.new }
    ensures on { from ≤ result }
    ensures within { result ≤ length page.now }
    ensures passes { MayPass passing.now page.now from result }
{
    let ending = ending_of(&passing.name);
    let wanted = wanted_key(&passing.name, &ending);
    let mut at = keyed_end(words, keys, page, from, wanted);
    while let Some(length) = other_here(&page[at..], passing, &ending) {
        keep_key(words, keys, page, at, length);
        at = keyed_end(words, keys, page, at + length, wanted);
    }
    at
}

/// Keeps the key of the slot that stands at a word of a page, if it is an entry and not a free slot.
fn keep_key(words: &[u16; PAGE_WORDS], keys: &mut [u16; KEYS], page: &[u16], at: usize, size: usize)
    requires begins { at < length page.now }
    requires within { size ≤ length page.now - at }
    requires same { take (length page.now) words.now ≡ page.now }
    requires entry { 1024 ≤ word page.now at → IsBareEntry (take size (drop at page.now)) }
    requires keyed { AreKeyed words.now keys.old }
    ensures { AreKeyed words.now keys.new }
{
    if page[at] >= ENTRY_TYPE {
        keys[at] = key_of(&page[at..at + size]);
    }
}

/// Where entries end whose keys are known and aren't this one, from a word of a page on.
fn keyed_end(
    words: &[u16; PAGE_WORDS],
    keys: &[u16; KEYS],
    page: &[u16],
    from: usize,
    wanted: u16,
) -> usize
    requires within { from ≤ length page.now }
    requires same { take (length page.now) words.now ≡ page.now }
    requires keyed { AreKeyed words.now keys.now }
    ensures on { from ≤ result }
    ensures within { result ≤ length page.now }
    ensures passes { (passing : Passing) → TellsByKey passing.name wanted → MayPass passing page.now from result }
{
    let mut at = from;
    while keys[at] != 0 && keys[at] != wanted {
        let end = at + (words[at] - ENTRY_TYPE) as usize;
        if end > page.len() {
            return at;
        }
        at = end;
    }
    at
}

/// The key of an entry.
fn key_of(words: &[u16]) -> u16
    requires least { 8 ≤ length words.now }
    requires most { length words.now ≤ 26 }
    requires size { length words.now ≡ entry_length (word words.now 6 / 256) }
    ensures { result ≡ key_of words.now }
{
    let last = words[words.len() - 1];
    let before = words[words.len() - 2];
    words[NAME] / 256 * 1024 + (last / 256 + before / 256) % 32 * 32 + before % 32
}

/// The key of the entries of a name that has this ending; where there is none, one that no entry has.
fn wanted_key(name: &Option<Name>, ending: &Ending) -> u16
    requires { TellsOthers name.now ending.now.last ending.now.high ending.now.low }
    ensures { TellsByKey name.now result }
{
    match name {
        Some(name) => {
            let last = ending.last as u16 + ending.high as u16;
            name.as_bytes().len() as u16 * 1024 + last % 32 * 32 + ending.low as u16
        }
        None => 0,
    }
}

/// What was judged of the slots of eight pages of directories, beside the words of these pages. It is no hint: what was judged is used
/// only where the very same words are found again.
#[derive(Drop)]
pub struct JudgedPages {
    /// The pages, each at the rest of its number by 8; none where there is no memory for them.
    pages: Vec<JudgedPage>,
}

impl JudgedPages {
    /// Nothing is judged yet. Where no memory is left for eight pages, fewer are kept.
    pub fn new(alloc: Global) -> JudgedPages {
        let mut pages = match Vec::with_capacity(alloc, PAGES) {
            Ok(pages) => pages,
            Err(_) => Vec::new(alloc),
        };
        for _ in 0..PAGES {
            if pages.push(JudgedPage::new()).is_err() {
                break;
            }
        }
        JudgedPages { pages }
    }

    /// Has a walk pass over slots as `Walk::pass_others` does, of which those that were judged before aren't judged again. It takes no
    /// memory.
    pub fn pass_others(
        &mut self,
        walk: &mut Walk,
        page: &[u16],
        from: &mut usize,
        passing: &Passing,
    )
        requires within { from.old ≤ length page.now }
        requires fits { walk.old.place + walk.old.held + length page.now < 2 ^ 32 + from.old }
        ensures passes { (given : List ℕ) → Walked (given ++ take from.old page.now) walk.old → Passes passing.now (given ++ take from.old page.now) (given ++ take from.new page.now) walk.new }
        ensures on { from.old ≤ from.new }
        ensures within { from.new ≤ length page.now }
        ensures taken { walk.new.place + walk.new.held + from.old ≡ walk.old.place + walk.old.held + from.new }
    {
        if page.len() > PAGE_WORDS {
            walk.pass_others(page, from, passing);
            return;
        }
        walk.pass_hand(page, from, passing);
        // where no word is left, the walk's place is on the next page
        if !walk.is_between_slots() || *from == page.len() {
            return;
        }
        let Some(judged) = self
            .pages
            .get_mut(walk.place() as usize / PAGE_WORDS % PAGES)
        else {
            walk.pass_others(page, from, passing);
            return;
        };
        judged.renew(page);
        let end = judged.others_end(page, *from, passing);
        walk.pass((end - *from) as u32);
        *from = end;
    }
}
