// What headers and labels say. The words of a label:
//   0: the real address of the next page, a hint; 0xFFFF at the end of a file
//   1: the real address of the previous page, a hint; 0xFFFF at a leader page
//   2: blank
//   3: the bytes of the page that count, 0 to 512
//   4: the number of the page
//   5: the version
//   6 and 7: the serial with the directory mark, the high word first
ghost use Rattle.std.specs.Prelude.{◌≡◌, ◌≤◌};
ghost use Rattle.disk_records.specs.Addresses.{is_right_header};
ghost use Rattle.disk_records.specs.Labels.{tag, is_free, page_of, label_of};
ghost use Rattle.disk_records.specs.Words.{word};

use crate::{PAGE_BYTES, Page, Shape};
use alto_words::Fid;

const NEXT: usize = 0;

const PREVIOUS: usize = 1;

const BYTES: usize = 3;

const PAGE_NUMBER: usize = 4;

const VERSION: usize = 5;

const SERIAL_HIGH: usize = 6;

const SERIAL_LOW: usize = 7;

/// Whether `at` is below the number of sectors and word 1 of the header is the real address of the sector there. The pack
/// number isn't compared.
pub fn right_header(shape: Shape, at: u16, header: &[u16; 2]) -> bool
    ensures { result ≡ is_right_header shape at header.now }
{
    at < shape.pages() && header[1] == shape.real_of(at)
}

/// Whether a label has ones in the version and in both serial words.
pub fn is_free_label(label: &[u16; 8]) -> bool
    ensures { result ≡ is_free (tag label.now) }
{
    label[VERSION] == 0xFFFF && label[SERIAL_HIGH] == 0xFFFF && label[SERIAL_LOW] == 0xFFFF
}

/// The page that a label names. None if and only if the label isn't in range: more than 512 bytes, version 0 or 0xFFFF,
/// or serial 0.
pub fn page_of(label: &[u16; 8]) -> Option<Page>
    ensures { result ≡ page_of label.now }
{
    let fid = Fid {
        high: label[SERIAL_HIGH],
        low: label[SERIAL_LOW],
        version: label[VERSION],
    };
    if label[BYTES] <= PAGE_BYTES && fid.is_full_name() {
        Some(Page {
            fid,
            number: label[PAGE_NUMBER],
        })
    } else {
        None
    }
}

/// The bytes of the page that count; 0 to 512 in a label that names a page.
pub fn bytes_in(label: &[u16; 8]) -> u16
    ensures { result ≡ word label.now 3 }
{
    label[BYTES]
}

/// The real address of the next page, a hint; 0xFFFF at the end of a file.
pub fn next_link(label: &[u16; 8]) -> u16
    ensures { result ≡ word label.now 0 }
{
    label[NEXT]
}

/// The real address of the previous page, a hint; 0xFFFF at a leader page.
pub fn previous_link(label: &[u16; 8]) -> u16
    ensures { result ≡ word label.now 1 }
{
    label[PREVIOUS]
}

/// The label of a page with this number of bytes and these links, which are real addresses or 0xFFFF. The blank word is 0.
pub fn label_of(page: Page, bytes: u16, next: u16, previous: u16) -> [u16; 8]
    requires { bytes ≤ 512 }
    ensures { result ≡ label_of page bytes next previous }
{
    let Page { fid, number } = page;
    [
        next,
        previous,
        0,
        bytes,
        number,
        fid.version,
        fid.high,
        fid.low,
    ]
}
