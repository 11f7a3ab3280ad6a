// SysDir while entries come into it.

use crate::rooms::Rooms;
use crate::words::{PAGE_WORDS, page_with};
use alto_words::{Fid, List};
use disk_records::{Page, Shape};
use scav_pages::Stop;

/// A page of a directory, and the sector that carries it.
#[derive(Clone, Copy)]
pub(crate) struct PageSector {
    /// The page.
    pub(crate) page: Page,
    /// The sector, a virtual address.
    pub(crate) at: u16,
}

/// SysDir's free slots and the sectors of its data pages, in memory as on the pack, and the sector from which on the next free one is
/// sought.
#[derive(Drop)]
pub(crate) struct Root {
    pub(crate) rooms: Rooms,
    pub(crate) pages: List<u16>,
    pub(crate) from: u16,
}

impl Root {
    ghost use Rattle.std.specs.Prelude.{◌≡◌, ◌≢◌, ◌<◌, ◌≤◌, ◌/◌, IfOk, IfErr, IsErrOf, None, Some, get_or, length};
    ghost use Rattle.disk_records.specs.Addresses.{pages_of};
    ghost use Rattle.alto_words.specs.Fid.{sys_dir};
    ghost use Rattle.scav_names.specs.Words.{page_with};

    /// The page of SysDir with this word, and its sector.
    ///
    /// Astray: it isn't known, or no sector of a pack of this shape.
    pub(crate) fn page_at(&self, shape: Shape, place: u32) -> Result<PageSector, Stop>
        ensures page { IfOk result (λ found. page_with sys_dir place ≡ Some found.page) }
        ensures at { IfOk result (λ found. found.at ≡ get_or self.now.pages (place / 256) 0) }
        ensures first { IfOk result (λ found. 1 ≤ found.at) }
        ensures within { IfOk result (λ found. found.at < pages_of shape) }
        ensures found { page_with sys_dir place ≢ None → place / 256 < length self.now.pages → 1 ≤ get_or self.now.pages (place / 256) 0 → get_or self.now.pages (place / 256) 0 < pages_of shape → IsErrOf result Stop.Astray → ⊥ }
        ensures astray { IfErr result (λ stop. stop ≡ Stop.Astray) }
    {
        let Some(page) = page_with(Fid::SYS_DIR, place) else {
            return Err(Stop::Astray);
        };
        let index = (place / PAGE_WORDS) as usize;
        let Some(at) = self.pages.as_slice().get(index) else {
            return Err(Stop::Astray);
        };
        if *at < 1 || *at >= shape.pages() {
            return Err(Stop::Astray);
        }
        Ok(PageSector { page, at: *at })
    }
}
