// The data pages of DiskDescriptor, and the sectors that its words speak of:
//   0, 1: drives, cylinders
//   2, 3: heads, sectors to a track
//   4, 5: the last serial, the high word first
//   6: the mark
//   7: the number of free sectors
//   8: the number of map words
//   9 to 15: zeros
//   from 16 on: the allocation map, the most significant bit of its first word for sector 0
ghost use Rattle.std.specs.Prelude.{◌≡◌, ◌+◌, ◌-◌, ◌*◌, ◌^◌, ◌<◌, ◌≤◌, ◌++◌, ◌∷◌, [], min, replicate};
ghost use Rattle.disk_records.specs.Addresses.{cylinders_of, descriptor_length, disks_of, pages_of, table_words};
ghost use Rattle.pack_model.specs.operations.PageWords.{halves};
ghost use Rattle.pack_model.specs.sessions.Descriptor.{data_pages, descriptor_value};
ghost use Rattle.pack_model.specs.sessions.Format.{format_table, free_after_format};
ghost use Rattle.pack_model.specs.states.Sound.{mark_clean};

use crate::words::put;
use disk_records::{PAGE_BYTES, Shape};

/// The words before the allocation map.
const HEADING: usize = 16;

/// The mark of a pack that was closed.
const CLEAN: u16 = 1;

/// The serial of DiskDescriptor, the last one of a formatted pack.
const LAST: u32 = 2;

/// The number of DiskDescriptor's data pages, 1 to 5: those that its bytes need, and one with fewer than 512 at the end.
pub(crate) fn data_pages(shape: Shape) -> u16
    ensures pages { result ≡ data_pages shape }
    ensures least { 1 ≤ result }
    ensures most { result ≤ 5 }
{
    1 + (shape.descriptor_length() / u32::from(PAGE_BYTES)) as u16
}

/// The bytes of data page n, counted from 0.
pub(crate) fn page_bytes(shape: Shape, n: u16) -> u16
    requires { n < data_pages shape }
    ensures { result ≡ min 512 (descriptor_length shape - 512 * n) }
{
    let left = shape.descriptor_length() - u32::from(PAGE_BYTES) * u32::from(n);
    left.min(u32::from(PAGE_BYTES)) as u16
}

/// The words before the allocation map, of a pack of this shape with this last serial, this mark and so many free sectors.
pub(crate) fn heading(shape: Shape, last: u32, mark: u16, free: u16) -> [u16; 16]
    ensures { result ≡ (disks_of shape ∷ cylinders_of shape ∷ 2 ∷ 12 ∷ []) ++ halves last ++ (mark ∷ free ∷ table_words shape ∷ replicate 7 0) }
{
    let high = (last / 65536) as u16;
    let low = (last % 65536) as u16;
    let map_words = shape.pages().div_ceil(16);
    [
        shape.disks(),
        shape.cylinders(),
        2,
        12,
        high,
        low,
        mark,
        free,
        map_words,
        0,
        0,
        0,
        0,
        0,
        0,
        0,
    ]
}

/// The value of data page n of a formatted pack, counted from 0. Busy in its map are the sectors that are used, which all have their bits
/// in the first word of it; `free` are the others.
pub(crate) fn fresh_value(shape: Shape, free: u16, n: u16) -> [u16; 256]
    requires { free ≡ free_after_format shape }
    ensures { result ≡ descriptor_value shape 2 mark_clean (format_table shape) n }
{
    if n == 0 {
        first_value(shape, free)
    } else {
        [0; 256]
    }
}

/// The value of the first data page of a formatted pack.
fn first_value(shape: Shape, free: u16) -> [u16; 256]
    requires { free ≡ free_after_format shape }
    ensures { result ≡ descriptor_value shape 2 mark_clean (format_table shape) 0 }
{
    let mut value = [0; 256];
    put(&mut value, 0, &heading(shape, LAST, CLEAN, free));
    value[HEADING] = first_map_word(shape.pages() - free);
    value
}

/// The first word of an allocation map that has so many sectors busy, 9 at most, and no others.
fn first_map_word(busy: u16) -> u16
    requires { busy ≤ 9 }
    ensures { result ≡ 65536 - 2 ^ (16 - busy) }
{
    u16::MAX - (u16::MAX >> busy)
}
