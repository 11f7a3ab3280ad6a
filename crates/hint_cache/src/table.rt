// Which sectors are free.
ghost use Rattle.std.specs.Prelude.{◌≡◌, ◌≤◌, not, position, true, length, take, IfOk};
ghost use Rattle.std.specs.List.{list_all};
ghost use Rattle.hint_cache.specs.Bits.{bit_in, bits_in};

use alto_words::Memory;
use std::alloc::{AllocError, Global};
use std::marker::Model;

/// The bits of a word.
const WORD_BITS: u16 = 16;

/// The bits that are passed over at once while no sector of theirs is free.
const CHUNK: usize = 64;

/// Which sectors of a pack are busy, a bit for each. Contracts see the list of its bits, in which true is busy.
#[derive(Drop)]
pub struct BitTable {
    bits: Vec<bool>,
}

impl Model for BitTable {
    ghost use Rattle.std.specs.Prelude.{Bool, List, length, ◌<◌};

    ghost Value = { List Bool };

    ghost view = { λ table. table.bits.items };

    ghost invariant = { λ table. length table.bits.items < 65536 };
}

impl BitTable {
    ghost use Rattle.std.specs.Prelude.{◌≡◌, ℕ, ◌+◌, ◌*◌, ◌<◌, ◌≤◌, IfOk, IfSome, IfNone, true, false, length, replicate, get_or, slice_set};
    ghost use Rattle.hint_cache.specs.Bits.{busy_at, is_one, bits_in, digit_at, word_of};

    /// A table of so many sectors, all busy. Memory: none was left for its bits.
    pub fn new(alloc: Global, pages: u16) -> Result<BitTable, Memory>
        ensures bits { IfOk result (λ table. table ≡ replicate pages true) }
        ensures sized { IfOk result (λ table. length table ≡ pages) }
    {
        let bits = vec![in alloc; true; pages as usize]?;
        Ok(BitTable { bits })
    }

    /// The table of so many sectors that these words hold: the most significant bit of the first word is sector 0, and 1 is
    /// busy. Any words are taken: sectors whose word is missing are busy, and bits past the last sector are passed over.
    /// Memory: none was left for its bits.
    pub fn from_words(alloc: Global, pages: u16, words: &[u16]) -> Result<BitTable, Memory>
        ensures bits { IfOk result (λ table. table ≡ bits_in pages words.now) }
        ensures sized { IfOk result (λ table. length table ≡ pages) }
    {
        let bits = bits_in(alloc, pages, words)?;
        Ok(BitTable { bits })
    }

    /// Another table with the same bits. Memory: none was left for them.
    pub fn copied(&self, alloc: Global) -> Result<BitTable, Memory>
        ensures { IfOk result (λ table. table ≡ self.now) }
    {
        let bits = self.bits.to_vec(alloc)?;
        Ok(BitTable { bits })
    }

    /// The number of sectors.
    pub fn pages(&self) -> u16
        ensures { result ≡ length self.now }
    {
        self.bits.len() as u16
    }

    /// The word at this index, with 0 for each bit past the last sector; 0 past the last word.
    pub fn word(&self, index: u16) -> u16
        ensures value { result ≡ word_of self.now index }
        ensures reads_back { (i : ℕ) → i < 16 → is_one result i ≡ get_or self.now (index * 16 + i) false }
    {
        let first = index as usize * WORD_BITS as usize;
        let mut word = 0;
        for i in 0..WORD_BITS {
            word = word * 2 + self.digit(first + i as usize);
        }
        word
    }

    /// 1 where the sector is busy, 0 where it is free or there is no such sector.
    fn digit(&self, at: usize) -> u16
        ensures { result ≡ digit_at self.now at }
    {
        u16::from(self.bits.get(at).copied().unwrap_or(false))
    }

    /// Marks the sector at this address as busy or free.
    pub fn set(&mut self, at: u16, busy: bool)
        requires { at < length self.old }
        ensures { self.new ≡ slice_set self.old at busy }
    {
        self.bits[at as usize] = busy;
    }

    /// Whether the sector at this address is marked as busy.
    pub fn is_busy(&self, at: u16) -> bool
        requires { at < length self.now }
        ensures { result ≡ busy_at self.now at }
    {
        self.bits[usize::from(at)]
    }

    /// The first sector marked as free from this address on, which is at most the number of sectors. None if and only if there is none.
    pub fn next_free(&self, from: u16) -> Option<u16>
        requires { from ≤ length self.now }
        ensures free { IfSome result (λ at. (from ≤ at) × (at < length self.now) × (busy_at self.now at ≡ false)) }
        ensures first { IfSome result (λ at. (k : ℕ) → from ≤ k → k < at → busy_at self.now k ≡ true) }
        ensures none { IfNone result ((k : ℕ) → from ≤ k → k < length self.now → busy_at self.now k ≡ true) }
    {
        let passed = first_free(&self.bits[usize::from(from)..])?;
        Some(from + passed as u16)
    }
}

/// How many busy sectors come before the first free one. None if and only if all are busy.
fn first_free(bits: &[bool]) -> Option<usize>
    ensures { result ≡ position not bits.now }
{
    let passed = busy_ahead(bits);
    let more = first_in_turn(&bits[passed..])?;
    Some(passed + more)
}

/// What `first_free` answers, found bit by bit.
fn first_in_turn(bits: &[bool]) -> Option<usize>
    ensures { result ≡ position not bits.now }
{
    bits.iter().position(|busy| !busy)
}

/// How many bits at the front are passed over in whole chunks, in which all sectors are busy. A search bit by bit branches on each of
/// them, and this once a chunk.
fn busy_ahead(bits: &[bool]) -> usize
    ensures within { result ≤ length bits.now }
    ensures busy { list_all (λ busy. busy) (take result bits.now) ≡ true }
{
    let mut at = 0;
    while bits.len() - at >= CHUNK && are_busy(&bits[at..at + CHUNK]) {
        at += CHUNK;
    }
    at
}

/// Whether all of these bits are busy. It goes over all of them, since a loop that ends at the first free one compares one at a time.
fn are_busy(bits: &[bool]) -> bool
    ensures { result ≡ list_all (λ busy. busy) bits.now }
{
    let mut all = true;
    for busy in bits {
        all &= *busy;
    }
    all
}

/// Whether these words have the sector at this address as busy. A missing word has ones.
fn bit_in(words: &[u16], at: u16) -> bool
    ensures { result ≡ bit_in words.now at }
{
    let word = words
        .get((at / WORD_BITS) as usize)
        .copied()
        .unwrap_or(u16::MAX);
    (word >> (WORD_BITS - 1 - at % WORD_BITS)) % 2 == 1
}

/// The bits of so many sectors.
fn bits_in(alloc: Global, pages: u16, words: &[u16]) -> Result<Vec<bool>, AllocError>
    ensures { IfOk result (λ bits. bits.items ≡ bits_in pages words.now) }
{
    (0..pages).map(|at| bit_in(words, at)).collect(alloc)
}
