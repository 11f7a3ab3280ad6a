// The values of DiskDescriptor's data pages with a table in memory.
ghost use Rattle.std.specs.List.{range_with_len};
ghost use Rattle.std.specs.Prelude.{◌≡◌, ◌+◌, ◌-◌, ◌*◌, ◌<◌, ◌≤◌, length, map, not, ℕ};
ghost use Rattle.disk_records.specs.Addresses.{pages_of, table_words};
ghost use Rattle.hint_cache.specs.Bits.{word_of};
ghost use Rattle.pack_model.specs.reading.Bytes.{put_at};
ghost use Rattle.pack_model.specs.sessions.Descriptor.{data_pages, descriptor_value};
ghost use Rattle.pack_model.specs.states.InUse.{how_many, one_if};

use crate::pages::heading;
use crate::words::put;
use disk_records::Shape;
use hint_cache::BitTable;

/// The words of the allocation map in the first data page, after the 16 words before it.
const FIRST_MAP_WORDS: u16 = 240;

/// The words of a page.
const PAGE_WORDS: u16 = 256;

/// One more where another sector is free.
fn counted(free: u16, busy: bool) -> u16
    requires { free < 65535 }
    ensures { result ≡ free + one_if (not busy) }
{
    if busy { free } else { free + 1 }
}

/// The number of sectors that a table has as free.
fn free_sectors(table: &BitTable) -> u16
    ensures { result ≡ how_many not table.now }
{
    let mut free = 0;
    for at in 0..table.pages() {
        free = counted(free, table.is_busy(at));
    }
    free
}

/// Puts so many words of a table's map, from the word `first` of it on, in the place of others in the value of a page, from a word on.
fn put_map(value: &mut [u16; 256], at: u16, table: &BitTable, first: u16, many: u16)
    requires fits { at + many ≤ 256 }
    requires low { first + many < 65536 }
    ensures { value.new ≡ put_at at (map (word_of table.now) (range_with_len first many)) value.old }
{
    for i in 0..many {
        put(value, usize::from(at + i), &[table.word(first + i)]);
    }
}

/// The value of the first data page.
fn first_page(shape: Shape, last: u32, mark: u16, table: &BitTable) -> [u16; 256]
    ensures { result ≡ descriptor_value shape last mark table.now 0 }
{
    let map_words = shape.pages().div_ceil(16);
    let mut value = [0; 256];
    put(
        &mut value,
        0,
        &heading(shape, last, mark, free_sectors(table)),
    );
    put_map(&mut value, 16, table, 0, map_words.min(FIRST_MAP_WORDS));
    value
}

/// The value of data page n, counted from 0, which isn't the first: words of the map alone. It is the same for every last serial and mark.
fn later_page(shape: Shape, table: &BitTable, n: u16) -> [u16; 256]
    requires later { 1 ≤ n }
    requires within { n < data_pages shape }
    ensures { (last mark : ℕ) → result ≡ descriptor_value shape last mark table.now n }
{
    let map_words = shape.pages().div_ceil(16);
    let first = PAGE_WORDS * n - 16;
    let mut value = [0; 256];
    put_map(
        &mut value,
        0,
        table,
        first,
        (map_words - first).min(PAGE_WORDS),
    );
    value
}

/// The value of a data page of DiskDescriptor, numbered from 1, of a pack of this shape with this last serial, this mark and this
/// allocation map. The number of free sectors is the table's, and the words past the file's end are 0.
pub fn descriptor_page(
    shape: Shape,
    last: u32,
    mark: u16,
    table: &BitTable,
    page: u16,
) -> [u16; 256]
    requires sized { length table.now ≡ pages_of shape }
    requires first { 1 ≤ page }
    requires last { page ≤ data_pages shape }
    ensures value { result ≡ descriptor_value shape last mark table.now (page - 1) }
{
    if page == 1 {
        first_page(shape, last, mark, table)
    } else {
        later_page(shape, table, page - 1)
    }
}
