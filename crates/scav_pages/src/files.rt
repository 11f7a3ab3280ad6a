// Rows in their order, one file after another: which of them count, and how far the bytes of each file go.
ghost use Rattle.std.specs.Prelude.{◌≡◌, ◌<◌, ◌≤◌, ◌*◌};

use alto_words::Fid;
use disk_records::PAGE_BYTES;
use scav_table::Row;

/// What a row is to its file.
#[derive(Clone, Copy, Debug, PartialEq, Eq)]
pub enum Met {
    /// A lower sector carries the same page.
    Copy,
    /// The leader page.
    Leader,
    /// The data page that the bytes of the file go on with.
    Next,
    /// A data page past the end of the bytes, and past the page that this end is in.
    Past,
}

/// The file in hand of a walk along rows, in their order: which of its pages were met.
#[derive(Clone, Copy, Debug, PartialEq, Eq)]
pub struct FileWalk {
    // the row before, second copies left out
    last: Option<Row>,
    lives: bool,
    pages: u16,
    goes_on: bool,
    length: u32,
    ghost within: { length ≤ 65535 * pages },
    ghost low: { pages < 65536 },
}

impl FileWalk {
    ghost use Rattle.std.specs.Prelude.{◌≡◌, ◌+◌, ◌<◌, ◌↔◌, ℕ, IsTrue, Some, None, Option};
    ghost use Rattle.disk_records.specs.Packs.{AreFormed, Pack};
    ghost use Rattle.scav_table.specs.declared.row.Row.{Row};
    ghost use Rattle.scav_table.specs.Laws.{IsFirstAbove};
    ghost use Rattle.scav_pages.specs.Begins.{Begun, MayBegin};
    ghost use Rattle.scav_pages.specs.Walks.{AreWords, Walked, GoesOn, IsFresh, IsMet, IsOtherFile, bytes_met, file_in_hand, page_in_hand, pages_met, sector_in_hand};

    /// A walk before the first row of a file, with no file in hand.
    pub fn new() -> FileWalk
        ensures fresh { IsFresh result }
        ensures start { (p : Pack) (last : Option Row) → AreFormed p → MayBegin p last → Walked p last result }
    {
        FileWalk {
            last: None,
            lives: false,
            pages: 0,
            goes_on: true,
            length: 0,
        }
    }

    /// The file in hand. None before the first row.
    pub fn fid(&self) -> Option<Fid>
        ensures { result ≡ file_in_hand self.now }
    {
        match &self.last {
            Some(row) => Some(row.page.fid),
            None => None,
        }
    }

    /// The sector of the last row that was no second copy; 0 before the first row.
    pub fn at(&self) -> u16
        ensures { result ≡ sector_in_hand self.now }
    {
        match &self.last {
            Some(row) => row.at,
            None => 0,
        }
    }

    /// Whether the file in hand has a leader page.
    pub fn lives(&self) -> bool
        ensures { result ≡ self.now.lives }
    {
        self.lives
    }

    /// The data pages of which the bytes of the file in hand are, as far as they were met.
    pub fn pages(&self) -> u16
        ensures { result ≡ self.now.pages }
    {
        self.pages
    }

    /// Whether all of these pages have 512 bytes, so that the page after them, if no more rows of the file come, is its missing last page.
    pub fn goes_on(&self) -> bool
        ensures { result ≡ self.now.goes_on }
    {
        self.goes_on
    }

    /// The bytes of these pages.
    pub fn length(&self) -> u32
        ensures { result ≡ self.now.length }
    {
        self.length
    }

    /// Whether this row is of another file than the one in hand.
    pub fn leaves(&self, row: &Row) -> bool
        ensures { IsTrue result ↔ IsOtherFile self.now row.now }
    {
        self.fid().is_some_and(|fid| fid != row.page.fid)
    }

    /// Takes the next row, and answers what it is to its file.
    pub fn meet(&mut self, row: &Row) -> Met
        ensures walked { (p : Pack) (last : Option Row) → Walked p last self.old → IsFirstAbove p last row.now → Walked p (Some row.now) self.new }
        ensures met { (p : Pack) (last : Option Row) → Walked p last self.old → IsFirstAbove p last row.now → IsMet p row.now result }
        ensures goes { (p : Pack) (last : Option Row) → Walked p last self.old → IsFirstAbove p last row.now → result ≡ Met.Next → GoesOn row.now self.new }
        ensures hand { file_in_hand self.new ≡ Some row.now.page.fid }
        ensures pages { (IsOtherFile self.old row.now → ⊥) → self.new.pages ≡ self.old.pages + pages_met result }
        ensures bytes { (IsOtherFile self.old row.now → ⊥) → self.new.length ≡ self.old.length + bytes_met result row.now }
        ensures at { (end : ℕ) → sector_in_hand self.old < end → row.now.at < end → sector_in_hand self.new < end }
    {
        if self.repeats(*row) {
            return Met::Copy;
        }
        if self.leaves(row) {
            *self = FileWalk::new();
        }
        self.take(row)
    }

    /// Whether this row has the page of the last row that was no second copy. The row's numbers are words.
    fn repeats(&self, row: Row) -> bool
        ensures copy { IsTrue result ↔ (page_in_hand self.now ≡ Some row.page) }
        ensures words { AreWords row }
    {
        self.last.is_some_and(|last| last.page == row.page)
    }

    /// Takes a row whose page no lower sector carries, of the file in hand or of a new one.
    fn take(&mut self, row: &Row) -> Met
        ensures walked { (p : Pack) (last : Option Row) → Begun p last row.now self.old → Walked p (Some row.now) self.new }
        ensures met { (p : Pack) (last : Option Row) → Begun p last row.now self.old → IsMet p row.now result }
        ensures goes { (p : Pack) (last : Option Row) → Begun p last row.now self.old → result ≡ Met.Next → GoesOn row.now self.new }
        ensures hand { self.new.last ≡ Some row.now }
        ensures pages { self.new.pages ≡ self.old.pages + pages_met result }
        ensures bytes { self.new.length ≡ self.old.length + bytes_met result row.now }
    {
        self.last = Some(*row);
        if row.page.number == 0 {
            self.lives = true;
            return Met::Leader;
        }
        if !self.goes_on || row.page.number as u32 != self.pages as u32 + 1 {
            return Met::Past;
        }
        self.pages += 1;
        self.length += row.bytes as u32;
        self.goes_on = row.bytes == PAGE_BYTES;
        Met::Next
    }
}
