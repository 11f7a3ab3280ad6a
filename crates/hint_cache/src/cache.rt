// Where pages were last seen.
ghost use Rattle.std.specs.Prelude.{◌≡◌, fold, None};
ghost use Rattle.hint_cache.specs.Caches.{entries_of};
ghost use Rattle.hint_cache.specs.Highest.{highest_after};

use alto_words::{Fid, Memory};
use dir_slots::{JudgedPages, Passing, Walk};
use disk_records::Page;
use lru::LruCache;
use std::alloc::Global;
use std::marker::Model;
use std::num::NonZeroUsize;

/// The most entries of a cache.
pub(crate) const MAX_ENTRIES: usize = 48;

/// A page, and the virtual address of the sector where it was last seen: a hint.
#[derive(Clone, Copy, Debug, PartialEq, Eq, Drop)]
pub struct Entry {
    /// The page that was seen.
    pub page: Page,
    /// The virtual address of the sector that it was seen at.
    pub at: u16,
}

/// Addresses of at most 48 pages, the most recently used first, and no two for one page; and what was judged of slots of
/// directories, beside the words of their pages. Contracts see the list of the entries and the count of refusals.
#[derive(Drop)]
pub struct HintCache {
    pub(crate) pages: LruCache<Page, u16>,
    refused: u64,
    judged: JudgedPages,
}

impl Model for HintCache {
    ghost use Rattle.std.specs.Prelude.{◌≡◌};
    ghost use Rattle.hint_cache.specs.Caches.{Cached, IsCacheList, entries_of};

    ghost Value = { Cached };

    ghost view = { λ cache. record { entries = entries_of cache.pages.entries; refused = cache.refused } };

    ghost invariant = { λ cache. IsCacheList (entries_of cache.pages.entries) × (cache.pages.cap ≡ 48) };
}

impl HintCache {
    ghost use Rattle.std.specs.Prelude.{◌≡◌, ℕ, List, ◌+◌, ◌^◌, ◌-◌, ◌<◌, ◌≤◌, ◌++◌, length, take, min, [], IfOk, IsOk, OnOk, OnErr, Some, IsSome, IfSome, IfNone};
    ghost use Rattle.dir_slots.specs.Others.{Passes};
    ghost use Rattle.dir_slots.specs.Walks.{Walked};
    ghost use Rattle.hint_cache.specs.Caches.{Cached, IsCacheList, address_in, without, noted, NoneListed, IsHighestBelow};

    /// A cache without entries. Memory: none was left for its map.
    pub fn new(alloc: Global) -> Result<HintCache, Memory>
        ensures { IfOk result (λ cache. cache ≡ record { entries = []; refused = 0 }) }
    {
        let capacity = NonZeroUsize::new(MAX_ENTRIES).unwrap();
        Ok(HintCache {
            pages: LruCache::new(alloc, capacity)?,
            refused: 0,
            judged: JudgedPages::new(alloc),
        })
    }

    /// The address that is listed for a page, whose entry comes to the front. None if and only if the page isn't listed.
    pub fn recall(&mut self, page: Page) -> Option<u16>
        ensures answer { result ≡ address_in self.old.entries page }
        ensures some { IfSome result (λ at. self.new ≡ record self.old { entries = noted page at self.old.entries }) }
        ensures none { IfNone result (self.new ≡ self.old) }
        ensures kept { IsCacheList self.new.entries }
        ensures grows { self.old.refused ≤ self.new.refused }
    {
        if let Some(at) = self.newest(page) {
            return Some(at);
        }
        self.pages.get(&page).copied()
    }

    /// Puts this entry at the front, in place of another for its page; the last of 49 entries is dropped. On Memory the list
    /// is as before and `refused` has risen; on a listed page that never comes.
    pub fn note(&mut self, page: Page, at: u16) -> Result<(), Memory>
        ensures ok { OnOk result (self.new ≡ record self.old { entries = noted page at self.old.entries }) }
        ensures listed { IsSome (address_in self.old.entries page) → IsOk result }
        ensures err { OnErr result (self.new ≡ record self.old { refused = min (self.old.refused + 1) (2 ^ 64 - 1) }) }
        ensures kept { IsCacheList self.new.entries }
        ensures grows { self.old.refused ≤ self.new.refused }
    {
        if self.newest(page) == Some(at) {
            return Ok(());
        }
        match self.pages.put(page, at) {
            Ok(_) => Ok(()),
            Err(_) => {
                self.refused = self.refused.saturating_add(1);
                Err(Memory)
            }
        }
    }

    /// The address that is listed for this page where its entry is in front already, so that to use it or to note it again
    /// changes nothing; None where it isn't in front. No page is hashed for this.
    fn newest(&self, page: Page) -> Option<u16>
        ensures listed { IfSome result (λ at. address_in self.now.entries page ≡ Some at) }
        ensures in_front { IfSome result (λ at. noted page at self.now.entries ≡ self.now.entries) }
    {
        match self.pages.peek_mru() {
            Some((newest, at)) if *newest == page => Some(*at),
            _ => None,
        }
    }

    /// Takes the entry of a page out of the list, if there is one.
    pub fn forget(&mut self, page: Page)
        ensures out { self.new ≡ record self.old { entries = without page self.old.entries } }
        ensures kept { IsCacheList self.new.entries }
        ensures grows { self.old.refused ≤ self.new.refused }
    {
        self.pages.pop(&page);
    }

    /// How many calls of `note` on this cache answered Memory. It stands at 2^64 - 1 once there.
    pub fn refused(&self) -> u64
        ensures count { result ≡ self.now.refused }
        ensures kept { IsCacheList self.now.entries }
    {
        self.refused
    }

    /// The entry of the highest page of this file below this number that is listed; the order stays. None if and only if no
    /// page of the file below the number is listed.
    pub fn highest_below(&self, fid: Fid, number: u16) -> Option<Entry>
        ensures some { IfSome result (IsHighestBelow self.now.entries fid number) }
        ensures none { IfNone result (NoneListed self.now.entries fid 0 number) }
        ensures kept { IsCacheList self.now.entries }
    {
        highest_of(&self.pages, fid, number)
    }

    /// Has a walk over a directory's slots pass over those that need not be met, as `dir_slots::Walk::pass_others` does. What is
    /// judged of slots is kept with the words of their pages, which is no hint, and used where the very same words are met again.
    pub fn pass_others(
        &mut self,
        walk: &mut Walk,
        page: &[u16],
        from: &mut usize,
        passing: &Passing,
    )
        requires within { from.old ≤ length page.now }
        requires fits { walk.old.place + walk.old.held + length page.now < 2 ^ 32 + from.old }
        ensures passes { (given : List ℕ) → Walked (given ++ take from.old page.now) walk.old → Passes passing.now (given ++ take from.old page.now) (given ++ take from.new page.now) walk.new }
        ensures on { from.old ≤ from.new }
        ensures within { from.new ≤ length page.now }
        ensures taken { walk.new.place + walk.new.held + from.old ≡ walk.old.place + walk.old.held + from.new }
        ensures same { self.new ≡ self.old }
        ensures kept { IsCacheList self.new.entries }
        ensures grows { self.old.refused ≤ self.new.refused }
    {
        self.judged.pass_others(walk, page, from, passing);
    }
}

/// The entry of the highest page of a file below a number.
fn highest_of(pages: &LruCache<Page, u16>, fid: Fid, number: u16) -> Option<Entry>
    ensures { result ≡ fold (highest_after fid number) None (entries_of pages.now.entries) }
{
    pages
        .iter()
        .map(|(page, at)| Entry {
            page: *page,
            at: *at,
        })
        .fold(None, |best, entry| highest_after(best, entry, fid, number))
}

/// The entry with the highest page of a file below a number, after one entry more.
fn highest_after(best: Option<Entry>, entry: Entry, fid: Fid, number: u16) -> Option<Entry>
    ensures { result ≡ highest_after fid number best entry }
{
    let is_below = entry.page.fid == fid && entry.page.number < number;
    match best {
        _ if !is_below => best,
        Some(best) if best.page.number >= entry.page.number => Some(best),
        _ => Some(entry),
    }
}
