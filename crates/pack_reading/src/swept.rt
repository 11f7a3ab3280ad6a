// What a sweep of all sectors keeps: of each file its leader, and of each data page its bytes, always those of the lowest sector
// that carries the page.
ghost use Rattle.std.specs.Prelude.{◌≡◌, ◌+◌, ◌<◌, ◌≤◌, ℕ, suc, ◌==◌, ◌&&◌, false, cond, take, Some, None, OnOk, IfOk, is_some};
ghost use Rattle.std.specs.Option.{option_or};
ghost use Rattle.alto_words.specs.declared.fid.Fid.{Fid};
ghost use Rattle.alto_words.specs.Fid.{is_fid};
ghost use Rattle.pack_model.specs.reading.Bytes.{bytes_of};
ghost use Rattle.pack_model.specs.reading.Leaders.{leader_of};
ghost use Rattle.pack_reading.specs.Kept.{plain_leader, leader_kept, lives_kept, page_kept};

use alto_words::{Fid, List, Memory};
use disk_records::{PAGE_BYTES, Page, words_into_bytes};
use leader_page::Leader;
use std::alloc::Global;
use std::collections::BTreeMap;

/// The leaders of files.
#[derive(Drop)]
pub(crate) struct Leaders {
    pub(crate) kept: BTreeMap<Fid, Leader>,
}

/// The counted bytes of data pages.
#[derive(Drop)]
pub(crate) struct Pages {
    pub(crate) kept: BTreeMap<Page, List<u8>>,
}

/// What the sectors so far have shown.
#[derive(Drop)]
pub(crate) struct Swept {
    pub(crate) leaders: Leaders,
    pub(crate) pages: Pages,
}

impl Leaders {
    /// An empty map of leaders; it takes no memory.
    pub(crate) fn new(alloc: Global) -> Leaders
        ensures { (f : Fid) → leader_kept result f ≡ None }
    {
        Leaders {
            kept: BTreeMap::new(alloc),
        }
    }

    /// Keeps the leader of a file, unless one is kept.
    pub(crate) fn keep(&mut self, fid: Fid, leader: Leader) -> Result<(), Memory>
        ensures { OnOk result ((f : Fid) → leader_kept self.new f ≡ option_or (leader_kept self.old f) (cond (is_fid f fid) (Some leader) None)) }
    {
        if self.kept.contains_key(&fid) {
            return Ok(());
        }
        self.kept.insert(fid, leader)?;
        Ok(())
    }

    /// Whether a file's leader is kept.
    pub(crate) fn has(&self, fid: Fid) -> bool
        ensures { result ≡ lives_kept self.now fid }
    {
        self.kept.contains_key(&fid)
    }
}

impl Pages {
    /// An empty map of pages; it takes no memory.
    pub(crate) fn new(alloc: Global) -> Pages
        ensures { (f : Fid) (n : ℕ) → page_kept result f n ≡ None }
    {
        Pages {
            kept: BTreeMap::new(alloc),
        }
    }

    /// Keeps the bytes of a data page, unless some are kept.
    pub(crate) fn keep(&mut self, page: Page, bytes: List<u8>) -> Result<(), Memory>
        ensures { OnOk result ((f : Fid) (n : ℕ) → page_kept self.new f n ≡ option_or (page_kept self.old f n) (cond (is_fid f page.fid && suc n == page.number) (Some bytes) None)) }
    {
        if self.kept.contains_key(&page) {
            return Ok(());
        }
        self.kept.insert(page, bytes)?;
        Ok(())
    }
}

/// The first `count` bytes of the value of a sector.
pub(crate) fn counted_bytes(
    alloc: Global,
    value: &[u16; 256],
    count: u16,
) -> Result<List<u8>, Memory>
    requires { count ≤ 512 }
    ensures { IfOk result (λ bytes. bytes ≡ take count (bytes_of value.now)) }
{
    let mut bytes = [0; PAGE_BYTES as usize];
    words_into_bytes(value, &mut bytes);
    Ok(List::from_vec(Vec::from_slice(alloc, &bytes[..count as usize])?))
}

/// What the leader page of a file says, its hints left out.
pub(crate) fn leader_in(fid: Fid, value: &[u16; 256]) -> Leader
    ensures { result ≡ plain_leader (leader_of fid value.now) }
{
    Leader {
        hints: [0; 10],
        ..Leader::of_file(fid, value)
    }
}
