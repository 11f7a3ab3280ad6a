// Bytes that are held back on their way to a file: those of record writes that touch each other, over some pages of memory of the file.
//
// Linux writes the bytes of one call in rising order, and looks for a signal that kills the process only between two pages of memory of
// the file. So after a kill within the call its bytes before some multiple of 4,096 stand, and none of the others. They have to be those
// that were put first: what is held from a multiple on has to be put after all that is held before it, or together with it. So bytes join
// those that are held only where they begin in the page of memory of the last byte that is held, or in a later one. They stand after each
// multiple up to this page, and are the latest; after each further one nothing but they is held. Within a page the order is free: its
// bytes stand all or none. All others are refused, and the caller hands on what is held before it puts them.
//
// So a kill within a call leaves a prefix of the writes that were put, and of the one that crosses the multiple its front. A sector that
// crosses one and is put again isn't held with what it was before: its front would stand as it was put last, and its rest as it was before
// both.
//
// One sector in eight crosses a multiple. It is held as others are, since it can be the only one that a kill within the call parts there.
// To hold it once more with what it was before would let a claim's label stand without the value that was written before it; that it isn't
// costs a call more for each such sector that is claimed. A page is 4,096 bytes, the least that Linux has: where it has larger ones each
// multiple of theirs is one of 4,096 too.
ghost use Rattle.std.specs.Prelude.{◌<◌, ◌≤◌, vec_len};

use crate::codec::{SECTOR_BYTES, write_sector};
use disk_records::Sector;
use std::alloc::Global;

/// The bytes of a page of memory: of the smallest that Linux has on x86-64.
const PAGE_OF_MEMORY: usize = 4096;

/// How many pages, one after the other, there is memory for.
const PAGES_HELD: usize = 4;

/// Bytes that are held back of some pages of a file that follow each other, all bytes side by side.
#[derive(Drop)]
pub(crate) struct Held {
    // the bytes of these pages, of which those from `from` up to `end` are held; none where there is no memory for them
    buffer: Vec<u8>,
    // how many pages of the file are ahead of them; the first byte that is held stands in the first of them
    number: u64,
    from: usize,
    end: usize,
    ghost in_file: { number ≤ 4503599627370495 },
    ghost in_first_page: { from < 4096 },
    ghost ordered: { from ≤ end },
    ghost within: { end ≤ vec_len buffer },
    ghost some_pages: { vec_len buffer ≤ 16384 },
}

impl Held {
    ghost use Rattle.std.specs.Prelude.{◌≡◌, ◌<◌, IsTrue, IsFalse};
    ghost use Rattle.disk_image.specs.Holding.{first_place, HoldsAll, HoldsNone, IsLater, IsRefused, Joins, Puts, StandsApart};
    ghost use Rattle.disk_image.specs.Images.{sector_bytes};

    /// Holds nothing, and has memory for some pages. Where that is refused it never holds any.
    pub(crate) fn new(alloc: Global) -> Held
        ensures { HoldsNone result }
    {
        let buffer = match vec![in alloc; 0; PAGES_HELD * PAGE_OF_MEMORY] {
            Ok(buffer) => buffer,
            Err(_) => Vec::new(alloc),
        };
        Held {
            buffer,
            number: 0,
            from: 0,
            end: 0,
        }
    }

    /// Whether nothing is held.
    pub(crate) fn is_empty(&self) -> bool
        ensures none { IsTrue result → HoldsNone self.now }
        ensures empty { IsTrue result → self.now.from ≡ self.now.end }
        ensures some { IsFalse result → self.now.from < self.now.end }
    {
        self.from == self.end
    }

    /// The bytes that are held, which stand side by side in the file.
    pub(crate) fn bytes(&self) -> &[u8]
        ensures { HoldsAll (first_place self.now) result.now self.now }
    {
        &self.buffer[self.from..self.end]
    }

    /// The place in the file of the first byte that is held.
    pub(crate) fn place(&self) -> u64
        ensures { result ≡ first_place self.now }
    {
        self.number * PAGE_OF_MEMORY as u64 + self.from as u64
    }

    /// Whether bytes for the places of the buffer from one up to another join those that are held: they touch them or lie over them, and
    /// begin in the page of the last byte that is held or in a later one.
    fn joins(&self, from: usize, end: usize) -> bool
        requires { self.now.from < self.now.end }
        ensures joins { IsTrue result → Joins from end self.now }
        ensures apart { IsFalse result → StandsApart from end self.now }
    {
        let last = (self.end - 1) / PAGE_OF_MEMORY;
        from <= self.end && self.from <= end && from / PAGE_OF_MEMORY >= last
    }

    /// Holds the bytes of a sector for their places of the file, the first of them at this one, beside those that are held or over them.
    /// False, and then nothing changes: they aren't all in the pages that there is memory for, from that of the first byte that is held on,
    /// or from their own where none is held; or some byte between them and those that are held would be missing; or they begin in a page
    /// before that of the last byte that is held.
    pub(crate) fn put(&mut self, at: u64, sector: &Sector) -> bool
        ensures taken { IsTrue result → Puts at (sector_bytes sector.now) self.old self.new }
        ensures later { IsTrue result → IsLater at self.old }
        ensures why { IsFalse result → IsRefused at 532 self.old }
        ensures refused { IsFalse result → self.new ≡ self.old }
    {
        let is_first = self.is_empty();
        let number = if is_first {
            at / PAGE_OF_MEMORY as u64
        } else {
            self.number
        };
        let Some(ahead) = at.checked_sub(number * PAGE_OF_MEMORY as u64) else {
            return false;
        };
        if SECTOR_BYTES > self.buffer.len() || ahead > (self.buffer.len() - SECTOR_BYTES) as u64 {
            return false;
        }
        let from = ahead as usize;
        let end = from + SECTOR_BYTES;
        if is_first {
            self.from = from;
            self.end = end;
        } else if self.joins(from, end) {
            self.from = self.from.min(from);
            self.end = self.end.max(end);
        } else {
            return false;
        }
        self.number = number;
        write_sector(sector, &mut self.buffer[from..end]);
        true
    }

    /// Holds nothing any more.
    pub(crate) fn clear(&mut self)
        ensures { HoldsNone self.new }
    {
        self.end = self.from;
    }
}
