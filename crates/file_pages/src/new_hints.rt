// What a call notes of pages that came.
ghost use Rattle.std.specs.Prelude.{◌≡◌, ◌+◌, ◌<◌, ◌≤◌, All, [], length, true};
ghost use Rattle.laws_hint.specs.MapChanges.{marked};
ghost use Rattle.file_pages.specs.Growing.{ListsFresh, NotesOne, NotesPages, NotesTwo};

use crate::refs::page_of_file;
use alto_words::Fid;
use disk_records::Page;
use hint_cache::{BitTable, HintCache};

/// Marks these sectors as busy.
pub(crate) fn mark_busy(table: &mut BitTable, fresh: &[u16])
    requires within { All (λ at. at < length table.old) fresh.now }
    ensures marked { table.new ≡ marked true fresh.now table.old }
    ensures sized { length table.new ≡ length table.old }
{
    let mut rest = fresh;
    while let Some((at, later)) = rest.split_first() {
        table.set(*at, true);
        rest = later;
    }
}

/// Notes an address. A refused `note` is passed over.
pub(crate) fn note_one(cache: &mut HintCache, page: Page, at: u16)
    ensures { NotesOne page at cache.old cache.new }
{
    // the count of refusals is a number of 64 bits
    let _refused = cache.refused();
    let _ = cache.note(page, at);
}

/// Notes both pages of a new file, page 1 and then the leader. A refused `note` is passed over.
pub(crate) fn note_two(cache: &mut HintCache, fid: Fid, leader_at: u16, page_at: u16)
    ensures notes { NotesTwo fid leader_at page_at cache.old cache.new }
    ensures refused { cache.old.refused ≤ cache.new.refused }
{
    note_one(cache, page_of_file(fid, 1), page_at);
    note_one(cache, page_of_file(fid, 0), leader_at);
}

/// Notes pages of a file that came after page `last`, in these sectors. A refused `note` is passed over.
pub(crate) fn note_pages(cache: &mut HintCache, fid: Fid, last: u16, fresh: &[u16])
    requires few { last + length fresh.now ≤ 65535 }
    ensures notes { NotesPages fid last fresh.now cache.old cache.new }
    ensures listed { ListsFresh fid last fresh.now cache.old cache.new }
    ensures none { fresh.now ≡ [] → cache.new ≡ cache.old }
    ensures refused { cache.old.refused ≤ cache.new.refused }
{
    let mut before = last;
    let mut rest = fresh;
    while let Some((at, later)) = rest.split_first() {
        before += 1;
        note_one(cache, page_of_file(fid, before), *at);
        rest = later;
    }
}
