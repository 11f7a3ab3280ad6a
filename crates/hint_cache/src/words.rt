// A cache as words, and from any words: a count, and then serial high, serial low, version, page number and address of each entry.
ghost use Rattle.std.specs.Prelude.{◌≡◌, ◌<◌, ◌++◌, ◌∷◌, ◌+◌, ◌*◌, [], IfOk, take, drop};
ghost use Rattle.hint_cache.specs.Caches.{IsCacheList};
ghost use Rattle.hint_cache.specs.Words.{entry_words, entry_in, cache_words, cache_in};

use crate::cache::MAX_ENTRIES;
use crate::{Entry, HintCache};
use alto_words::{Fid, Memory};
use disk_records::Page;
use std::alloc::Global;

/// The words of an entry.
const ENTRY_WORDS: usize = 5;

/// The words of a cache.
const CACHE_WORDS: usize = 241;

impl HintCache {
    ghost use Rattle.std.specs.Prelude.{◌≡◌, IfOk};
    ghost use Rattle.hint_cache.specs.Caches.{IsCacheList};
    ghost use Rattle.hint_cache.specs.Words.{cache_words, cache_in};

    /// The words of the cache, as they stand in a saved world: a count, and then five words for each entry, the most recently
    /// used first. Zeros follow the last entry.
    pub fn to_words(&self) -> [u16; 241]
        ensures words { result ≡ cache_words self.now.entries }
        ensures reads_back { cache_in result ≡ self.now.entries }
        ensures kept { IsCacheList self.now.entries }
    {
        let mut words = [0; CACHE_WORDS];
        words[0] = self.pages.len() as u16;
        for (index, (page, at)) in self.pages.iter().enumerate() {
            put_entry(
                &mut words,
                index,
                Entry {
                    page: *page,
                    at: *at,
                },
            );
        }
        words
    }

    /// The cache that these words hold, without refusals. Any words are taken: a count above 48 counts as 48, of entries for
    /// one page the first counts, and words past the last entry are passed over. Memory: none was left for the entries.
    pub fn from_words(alloc: Global, words: &[u16; 241]) -> Result<HintCache, Memory>
        ensures entries { IfOk result (λ cache. cache ≡ record { entries = cache_in words.now; refused = 0 }) }
        ensures kept { IfOk result (λ cache. IsCacheList cache.entries) }
    {
        let mut cache = HintCache::new(alloc)?;
        let mut index = usize::from(words[0]).min(MAX_ENTRIES);
        // the first entry is noted last, so that it is in front and other entries for its page are gone
        while index > 0 {
            index -= 1;
            let entry = entry_in(words, index);
            cache.note(entry.page, entry.at)?;
        }
        Ok(cache)
    }
}

/// Puts the words of an entry in the place of the entry with this index.
fn put_entry(words: &mut [u16; 241], index: usize, entry: Entry)
    requires { index < 48 }
    ensures { words.new ≡ take (5 * index + 1) words.old ++ entry_words entry ++ drop (5 * index + 6) words.old }
{
    let first = ENTRY_WORDS * index + 1;
    words[first] = entry.page.fid.high;
    words[first + 1] = entry.page.fid.low;
    words[first + 2] = entry.page.fid.version;
    words[first + 3] = entry.page.number;
    words[first + 4] = entry.at;
}

/// The entry with this index.
fn entry_in(words: &[u16; 241], index: usize) -> Entry
    requires { index < 48 }
    ensures { result ≡ entry_in words.now index }
{
    let first = ENTRY_WORDS * index + 1;
    Entry {
        page: Page {
            fid: Fid {
                high: words[first],
                low: words[first + 1],
                version: words[first + 2],
            },
            number: words[first + 3],
        },
        at: words[first + 4],
    }
}
