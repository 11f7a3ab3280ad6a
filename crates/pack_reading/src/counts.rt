// The numbers of bytes that count of the data pages of files whose bytes aren't kept, always those of the lowest sector that carries
// the page.
ghost use Rattle.std.specs.Prelude.{◌≡◌, ◌==◌, ◌&&◌, ℕ, suc, cond, length, List, Option, Some, None, OnOk};
ghost use Rattle.std.specs.Option.{option_or};
ghost use Rattle.alto_words.specs.declared.fid.Fid.{Fid};
ghost use Rattle.alto_words.specs.Fid.{is_fid};
ghost use Rattle.pack_model.specs.reading.Files.{joined, most_pages};
ghost use Rattle.pack_reading.specs.Lengths.{count_kept, CountsPages};

use alto_words::{Fid, Memory};
use disk_records::{PAGE_BYTES, Page};
use std::alloc::Global;
use std::collections::BTreeMap;

/// How many bytes of data pages count.
#[derive(Drop)]
pub(crate) struct Counts {
    pub(crate) kept: BTreeMap<Page, u16>,
}

impl Counts {
    /// An empty map of pages; it takes no memory.
    pub(crate) fn new(alloc: Global) -> Counts
        ensures { (f : Fid) (n : ℕ) → count_kept result f n ≡ None }
    {
        Counts {
            kept: BTreeMap::new(alloc),
        }
    }

    /// Keeps how many bytes of a data page count, unless that is kept.
    pub(crate) fn keep(&mut self, page: Page, bytes: u16) -> Result<(), Memory>
        ensures { OnOk result ((f : Fid) (n : ℕ) → count_kept self.new f n ≡ option_or (count_kept self.old f n) (cond (is_fid f page.fid && suc n == page.number) (Some bytes) None)) }
    {
        if self.kept.contains_key(&page) {
            return Ok(());
        }
        self.kept.insert(page, bytes)?;
        Ok(())
    }

    /// The length of a file in bytes: those of its pages up to and with the first that isn't full, or up to the first that is missing.
    pub(crate) fn length(&self, fid: Fid) -> u64
        ensures { (pages : ℕ → Option (List ℕ)) → CountsPages self.now fid pages → result ≡ length (joined most_pages pages) }
    {
        let mut length = 0;
        for number in 0..u16::MAX {
            let page = Page {
                fid,
                number: number + 1,
            };
            let Some(bytes) = self.kept.get(&page) else {
                return length;
            };
            length += *bytes as u64;
            if *bytes < PAGE_BYTES {
                return length;
            }
        }
        length
    }
}
