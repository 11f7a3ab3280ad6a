// A sector that carries a page.
ghost use Rattle.std.specs.Prelude.{◌≡◌};
ghost use Rattle.scav_table.specs.Rows.{rank, is_below};

use alto_words::Fid;
use disk_records::Page;

/// A sector that carries a page: its header is right, and its label is in range.
#[derive(Clone, Copy, Debug, PartialEq, Eq)]
pub struct Row {
    /// The page that its label names.
    pub page: Page,
    /// Its virtual address.
    pub at: u16,
    /// The bytes of the page that count by its label, 0 to 512.
    pub bytes: u16,
}

/// What stands after the rows of a window that isn't full. No sector carries this page, and it is above all that can be carried.
pub(crate) const NO_ROW: Row = Row {
    page: Page {
        fid: Fid {
            high: 0xFFFF,
            low: 0xFFFF,
            version: 0xFFFF,
        },
        number: 0xFFFF,
    },
    at: 0,
    bytes: 0,
};

/// One more than the greatest word.
const WORDS: u128 = 0x1_0000;

impl Row {
    /// The row's place in the order of full names, page numbers and addresses: these five words as one number. The bytes don't count.
    fn rank(&self) -> u128
        ensures { result ≡ rank self.now }
    {
        let high = self.page.fid.high as u128;
        let low = self.page.fid.low as u128;
        let version = self.page.fid.version as u128;
        let number = self.page.number as u128;
        let file = (high * WORDS + low) * WORDS + version;
        (file * WORDS + number) * WORDS + self.at as u128
    }

    /// Whether this row comes before the other: by full name, page number and address.
    pub fn is_below(&self, other: &Row) -> bool
        ensures { result ≡ is_below self.now other.now }
    {
        self.rank() < other.rank()
    }
}
