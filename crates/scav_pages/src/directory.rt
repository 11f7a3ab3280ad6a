// The directory in hand, as far as its pages were read.
ghost use Rattle.std.specs.Prelude.{◌+◌, ◌*◌, ◌≤◌};

use crate::files::FileWalk;
use dir_slots::Walk;
use scav_table::Row;

/// The words of a full page.
const PAGE_WORDS: u32 = 256;

/// The file in hand of a pass along rows, and if it is a directory its slots as far as its pages were read.
#[derive(Drop)]
pub struct Directory {
    /// The rows of the file, as far as they were met.
    pub walk: FileWalk,
    /// The slots of its words, as far as these were read; none of a file that is no living directory.
    pub slots: Walk,
    /// The sector of the page that the next slot begins in; 0 if no page was read.
    pub(crate) at: u16,
    ghost few: { slots.place + slots.held ≤ 256 * walk.pages },
}

impl Directory {
    ghost use Rattle.std.specs.Prelude.{◌≡◌, ◌+◌, ◌/◌, ◌&&◌, not, None, Option};
    ghost use Rattle.alto_words.specs.Fid.{is_directory};
    ghost use Rattle.disk_records.specs.Packs.{AreFormed, Pack};
    ghost use Rattle.scav_table.specs.declared.row.Row.{Row};
    ghost use Rattle.scav_pages.specs.Begins.{MayBegin};
    ghost use Rattle.scav_pages.specs.Directories.{IsReadTo};
    ghost use Rattle.scav_pages.specs.Walks.{file_in_hand};

    /// No file yet: the pass is before its first row, or after the last row of a file.
    pub fn new() -> Directory
        ensures none { file_in_hand result.walk ≡ None }
        ensures start { (p : Pack) (last : Option Row) → AreFormed p → MayBegin p last → IsReadTo p last result }
    {
        Directory {
            walk: FileWalk::new(),
            slots: Walk::new(),
            at: 0,
        }
    }

    /// Whether the next page of the file in hand holds words of slots that count.
    pub(crate) fn wants(&self, row: &Row) -> bool
        ensures { result ≡ (self.now.walk.lives && is_directory row.now.page.fid && not self.now.slots.ended) }
    {
        self.walk.lives() && row.page.fid.is_directory() && !self.slots.has_ended()
    }

    /// The number of the page that the next slot begins in, or would.
    pub(crate) fn page(&self) -> u32
        ensures { result ≡ self.now.slots.place / 256 + 1 }
    {
        self.slots.place() / PAGE_WORDS + 1
    }
}
