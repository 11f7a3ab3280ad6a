// What is noted of a page that was seen.
ghost use Rattle.std.specs.Prelude.{◌≡◌, ◌≤◌, ℕ, Some, IfSome};
ghost use Rattle.page_seeking.specs.Seeking.{GoesOn, Links, Lists};
ghost use Rattle.page_seeking.specs.Inside.{AreNoted, IsRecent, KeepsLower, Notes};

use disk_records::{PAGE_BYTES, Page, Shape};
use hint_cache::HintCache;
use label_check::PageInfo;

/// The sector that the next link of a page names, if another page comes after it and the link names a usable sector.
fn next_address(shape: Shape, page: Page, info: PageInfo) -> Option<u16>
    ensures some { IfSome result (λ i. GoesOn page info.bytes × Links shape info.next i) }
    ensures all { (i : ℕ) → GoesOn page info.bytes → Links shape info.next i → result ≡ Some i }
{
    if page.number == u16::MAX {
        return None;
    }
    if page.number != 0 && info.bytes != PAGE_BYTES {
        return None;
    }
    let next = shape.virtual_of(info.next)?;
    if next == 0 { None } else { Some(next) }
}

/// Notes the address of a page that was seen, and that of the page after it by its link. A refused `note` is passed over.
pub(crate) fn note_seen(cache: &mut HintCache, shape: Shape, page: Page, at: u16, info: PageInfo)
    ensures lists { Lists shape page at info cache.old cache.new }
    ensures noted { AreNoted shape page at info cache.old.entries cache.new.entries }
    ensures recent { IsRecent page at cache.old cache.new }
    ensures keeps { KeepsLower page cache.old cache.new }
    ensures refused { cache.old.refused ≤ cache.new.refused }
{
    note_one(cache, page, at);
    if let Some(next) = next_address(shape, page, info) {
        let after = Page {
            fid: page.fid,
            number: page.number + 1,
        };
        note_one(cache, after, next);
    }
}

/// Notes an address. A refused `note` is passed over.
fn note_one(cache: &mut HintCache, page: Page, at: u16)
    ensures noted { Notes page at cache.old cache.new }
{
    // the count of refusals is a number of 64 bits
    let _refused = cache.refused();
    let _ = cache.note(page, at);
}
