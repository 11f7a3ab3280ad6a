// The slots of a directory one after another, out of pages that are lent.
ghost use Rattle.std.specs.Prelude.{◌≡◌, ℕ, List, [], ◌∷◌, ◌++◌, ◌+◌, ◌≤◌, length, take};

use crate::codec::{ENTRY_TYPE, slot_here};
use crate::others::{Passing, ending_of, other_here, others_end};
use crate::slot::{MAX_ENTRY_WORDS, Slot};
use std::marker::Model;

/// A slot, and the place of its first word among the words of its directory, counted from 0.
#[derive(Clone, Copy, Debug, PartialEq, Eq)]
pub struct PlacedSlot {
    /// The place of its first word.
    pub place: u32,
    /// The slot.
    pub slot: Slot,
}

/// A walk over the slots of a directory, whose words are given page by page, in order. Between two pages it keeps the first 26
/// words at most of the slot in hand. It takes no memory.
#[derive(Drop)]
pub struct Walk {
    /// The place of the slot in hand.
    place: u32,
    /// How many words of it have come.
    held: usize,
    /// The first of these; the words after them mean nothing.
    front: [u16; MAX_ENTRY_WORDS],
    /// Whether a slot was met that can't be read.
    ended: bool,
}

impl Model for Walk {
    ghost use Rattle.std.specs.Prelude.{take, ◌<◌};
    ghost use Rattle.dir_slots.specs.Walks.{Walking};

    ghost Value = { Walking };

    ghost view = { λ walk. record { place = walk.place; held = walk.held; front = take walk.held walk.front; ended = walk.ended } };

    ghost invariant = { λ walk. walk.held < 1023 };
}

impl Walk {
    ghost use Rattle.std.specs.Prelude.{◌≡◌, ℕ, List, [], ◌∷◌, ◌++◌, ◌+◌, ◌<◌, ◌≤◌, ◌^◌, true, false, IsTrue, length, take, IfSome, IfNone};
    ghost use Rattle.std.specs.Option.{MatchOption};
    ghost use Rattle.pack_model.specs.reading.Slots.{item_words, slots, all_words};
    ghost use Rattle.dir_slots.specs.Inside.{further};
    ghost use Rattle.dir_slots.specs.Items.{IsInRange, item_of};
    ghost use Rattle.dir_slots.specs.Laws.{HasStoredName};
    ghost use Rattle.dir_slots.specs.Others.{Passes};
    ghost use Rattle.dir_slots.specs.Walks.{Walking, Walked, Meets, placed_slots};

    /// A walk that stands before the first word of a directory.
    pub fn new() -> Walk
        ensures start { Walked [] result }
        ensures none { placed_slots [] ≡ [] }
        ensures place { result.place ≡ 0 }
        ensures held { result.held ≡ 0 }
    {
        Walk {
            place: 0,
            held: 0,
            front: [0; MAX_ENTRY_WORDS],
            ended: false,
        }
    }

    /// The next slot that ends in this page, of whose words those before `from` were taken already; `from` goes on to the word after it.
    /// None if no slot ends in the rest of the page; then all of it is taken. The words of a page are those of the directory's bytes.
    pub fn next(&mut self, page: &[u16], from: &mut usize) -> Option<PlacedSlot>
        requires within { from.old ≤ length page.now }
        requires fits { self.old.place + self.old.held + length page.now < 2 ^ 32 + from.old }
        ensures meets { (given : List ℕ) → Walked (given ++ take from.old page.now) self.old → Meets (given ++ take from.old page.now) (given ++ take from.new page.now) self.new result }
        ensures place { MatchOption result (self.new.place ≡ self.old.place) (λ met. met.place ≡ self.old.place) }
        ensures some { IfSome result (λ met. from.old < from.new) }
        ensures none { IfNone result (from.new ≡ length page.now) }
        ensures within { from.new ≤ length page.now }
        ensures in_range { IfSome result (λ met. IsInRange met.slot × HasStoredName met.slot) }
        ensures taken { self.new.place + self.new.held + from.old ≤ self.old.place + self.old.held + from.new }
    {
        if let Some(met) = self.take_whole(&page[*from..]) {
            *from += met.slot.words() as usize;
            return Some(met);
        }
        self.next_by_words(page, from)
    }

    /// The next slot that ends in this page, as at `next`, taken word by word.
    fn next_by_words(&mut self, page: &[u16], from: &mut usize) -> Option<PlacedSlot>
        requires within { from.old ≤ length page.now }
        requires fits { self.old.place + self.old.held + length page.now < 2 ^ 32 + from.old }
        ensures meets { (given : List ℕ) → Walked (given ++ take from.old page.now) self.old → Meets (given ++ take from.old page.now) (given ++ take from.new page.now) self.new result }
        ensures place { MatchOption result (self.new.place ≡ self.old.place) (λ met. met.place ≡ self.old.place) }
        ensures some { IfSome result (λ met. from.old < from.new) }
        ensures none { IfNone result (from.new ≡ length page.now) }
        ensures within { from.new ≤ length page.now }
        ensures in_range { IfSome result (λ met. IsInRange met.slot × HasStoredName met.slot) }
        ensures taken { self.new.place + self.new.held + from.old ≤ self.old.place + self.old.held + from.new }
    {
        while *from < page.len() && !self.ended {
            let word = page[*from];
            *from += 1;
            if let Some(met) = self.step(word) {
                return Some(met);
            }
        }
        // words after a slot that can't be read say nothing
        *from = page.len();
        None
    }

    /// The slot that these words begin with, if none is in hand and all of it is here. It is read where it stands, and no word of it is
    /// kept.
    fn take_whole(&mut self, words: &[u16]) -> Option<PlacedSlot>
        requires fits { self.old.place + self.old.held + length words.now < 2 ^ 32 }
        ensures meets { IfSome result (λ met. (given : List ℕ) → Walked given self.old → Meets given (given ++ take (item_words (item_of met.slot)) words.now) self.new result) }
        ensures place { IfSome result (λ met. met.place ≡ self.old.place) }
        ensures least { IfSome result (λ met. 1 ≤ item_words (item_of met.slot)) }
        ensures within { IfSome result (λ met. item_words (item_of met.slot) ≤ length words.now) }
        ensures in_range { IfSome result (λ met. IsInRange met.slot × HasStoredName met.slot) }
        ensures taken { IfSome result (λ met. self.new.place + self.new.held ≡ self.old.place + self.old.held + item_words (item_of met.slot)) }
        ensures none { IfNone result (self.new ≡ self.old) }
    {
        if self.ended || self.held != 0 {
            return None;
        }
        let length = (*words.first()? % ENTRY_TYPE) as usize;
        if length > words.len() {
            return None;
        }
        let slot = slot_here(&words[..length.min(MAX_ENTRY_WORDS)], length)?;
        let place = self.place;
        self.place += length as u32;
        Some(PlacedSlot { place, slot })
    }

    /// Passes over slots that end in the rest of this page and need not be met: free ones, if `passing` has these, and entries of bare
    /// names other than the one that it names, or of all bare names. So no entry of a version is passed over. It may stop earlier: where a
    /// slot is in hand that isn't passed over, it passes over none. `from` is as for `next`, and goes on to the word after them.
    pub fn pass_others(&mut self, page: &[u16], from: &mut usize, passing: &Passing)
        requires within { from.old ≤ length page.now }
        requires fits { self.old.place + self.old.held + length page.now < 2 ^ 32 + from.old }
        ensures passes { (given : List ℕ) → Walked (given ++ take from.old page.now) self.old → Passes passing.now (given ++ take from.old page.now) (given ++ take from.new page.now) self.new }
        ensures on { from.old ≤ from.new }
        ensures within { from.new ≤ length page.now }
        ensures taken { self.new.place + self.new.held + from.old ≡ self.old.place + self.old.held + from.new }
    {
        self.pass_hand(page, from, passing);
        if self.ended || self.held != 0 {
            return;
        }
        let at = others_end(page, *from, passing);
        self.place += (at - *from) as u32;
        *from = at;
    }

    /// Passes over the slot in hand, if one is, it has 26 words at most and ends in the rest of this page, and it need not be met, as at
    /// `pass_others`. It may stay in hand.
    pub(crate) fn pass_hand(&mut self, page: &[u16], from: &mut usize, passing: &Passing)
        requires within { from.old ≤ length page.now }
        requires fits { self.old.place + self.old.held + length page.now < 2 ^ 32 + from.old }
        ensures passes { (given : List ℕ) → Walked (given ++ take from.old page.now) self.old → Passes passing.now (given ++ take from.old page.now) (given ++ take from.new page.now) self.new }
        ensures on { from.old ≤ from.new }
        ensures within { from.new ≤ length page.now }
        ensures taken { self.new.place + self.new.held + from.old ≡ self.old.place + self.old.held + from.new }
    {
        if self.ended || self.held == 0 {
            return;
        }
        let size = (self.front[0] % ENTRY_TYPE) as usize;
        if size > MAX_ENTRY_WORDS || size <= self.held {
            return;
        }
        let rest = size - self.held;
        if rest > page.len() - *from {
            return;
        }
        // if the slot stays in hand, the words after those that were taken mean nothing
        hold_rest(&mut self.front, self.held, &page[*from..*from + rest]);
        let ending = ending_of(&passing.name);
        let Some(_) = other_here(&self.front[..size], passing, &ending) else {
            return;
        };
        self.place += size as u32;
        self.held = 0;
        *from += rest;
    }

    /// Whether no word of a slot is in hand, and slots may follow.
    pub(crate) fn is_between_slots(&self) -> bool
        ensures none { result ≡ true → self.now.held ≡ 0 }
        ensures going { result ≡ true → self.now.ended ≡ false }
    {
        !self.ended && self.held == 0
    }

    /// Goes on by so many words, with none in hand.
    pub(crate) fn pass(&mut self, words: u32)
        requires { self.old.place + words < 2 ^ 32 }
        ensures { self.new ≡ further self.old words }
    {
        self.place += words;
    }

    /// Takes all words of a page, and passes over the slots that end in it.
    pub fn feed(&mut self, page: &[u16])
        requires fits { self.old.place + self.old.held + length page.now < 2 ^ 32 }
        ensures walked { (given : List ℕ) → Walked given self.old → Walked (given ++ page.now) self.new }
        ensures taken { self.new.place + self.new.held ≤ self.old.place + self.old.held + length page.now }
    {
        let mut from = 0;
        while let Some(_) = self.next(page, &mut from) {}
    }

    /// The place of the slot in hand: how many words the slots have that were met.
    pub fn place(&self) -> u32
        ensures place { result ≡ self.now.place }
        ensures words { (given : List ℕ) → Walked given self.now → result ≡ all_words (slots given) }
    {
        self.place
    }

    /// Whether a slot was met that can't be read, so that no words that follow make another slot.
    pub fn has_ended(&self) -> bool
        ensures ended { result ≡ self.now.ended }
        ensures last { (given : List ℕ) → Walked given self.now → IsTrue result → (more : List ℕ) → slots (given ++ more) ≡ slots given }
    {
        self.ended
    }

    /// The slot that this word ends, if it does.
    fn step(&mut self, word: u16) -> Option<PlacedSlot>
        requires going { self.old.ended ≡ false }
        requires fits { self.old.place + self.old.held + 1 < 2 ^ 32 }
        ensures meets { (given : List ℕ) → Walked given self.old → Meets given (given ++ word ∷ []) self.new result }
        ensures place { MatchOption result (self.new.place ≡ self.old.place) (λ met. met.place ≡ self.old.place) }
        ensures in_range { IfSome result (λ met. IsInRange met.slot × HasStoredName met.slot) }
        ensures taken { self.new.place + self.new.held ≤ self.old.place + self.old.held + 1 }
    {
        hold(&mut self.front, self.held, word);
        self.held += 1;
        if self.held < (self.front[0] % ENTRY_TYPE) as usize {
            return None;
        }
        let words = self.held;
        self.held = 0;
        let Some(slot) = slot_here(&self.front[..words.min(MAX_ENTRY_WORDS)], words) else {
            self.ended = true;
            return None;
        };
        let place = self.place;
        self.place += words as u32;
        Some(PlacedSlot { place, slot })
    }
}

/// Keeps a word of a slot, of which so many have come, if it is among the first 26.
fn hold(front: &mut [u16; MAX_ENTRY_WORDS], held: usize, word: u16)
    ensures { (hand : List ℕ) → held ≡ length hand → take held front.old ≡ take 26 hand → take (held + 1) front.new ≡ take 26 (hand ++ word ∷ []) }
{
    if held < MAX_ENTRY_WORDS {
        front[held] = word;
    }
}

/// Keeps the last words of a slot after the first, of which so many have come.
fn hold_rest(front: &mut [u16; MAX_ENTRY_WORDS], held: usize, rest: &[u16])
    requires { held + length rest.now ≤ 26 }
    ensures all { take (held + length rest.now) front.new ≡ take held front.old ++ rest.now }
    ensures first { take held front.new ≡ take held front.old }
{
    front[held..held + rest.len()].copy_from_slice(rest);
}
