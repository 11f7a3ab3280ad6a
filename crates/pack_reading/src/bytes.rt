// The bytes of files, and the words of directories.
ghost use Rattle.std.specs.Prelude.{◌≡◌, IfOk};
ghost use Rattle.pack_model.specs.reading.Bytes.{words_of};
ghost use Rattle.pack_reading.specs.Kept.{bytes_kept, KeepsOthers};

use crate::swept::Pages;
use alto_words::{Fid, List, Memory};
use disk_records::{PAGE_BYTES, Page, bytes_into_words};
use std::alloc::Global;

/// The bytes of pages in order, up to and with the first that isn't full, or up to the first that is missing. Each page is taken
/// out as it is joined, so that its bytes aren't held twice.
fn join_pages(alloc: Global, pages: &mut Pages, fid: Fid) -> Result<Vec<u8>, Memory>
    ensures bytes { IfOk result (λ bytes. bytes.items ≡ bytes_kept pages.old fid) }
    ensures others { KeepsOthers fid pages.old pages.new }
{
    let mut bytes = Vec::new(alloc);
    for number in 0..u16::MAX {
        let page = Page {
            fid,
            number: number + 1,
        };
        let Some(held) = pages.kept.remove(&page) else {
            return Ok(bytes);
        };
        bytes.extend_from_slice(held.as_slice())?;
        if held.as_slice().len() < PAGE_BYTES as usize {
            return Ok(bytes);
        }
    }
    Ok(bytes)
}

/// The bytes of a file, with no room after them. Its pages are let go.
pub(crate) fn file_bytes(alloc: Global, pages: &mut Pages, fid: Fid) -> Result<List<u8>, Memory>
    ensures bytes { IfOk result (λ bytes. bytes ≡ bytes_kept pages.old fid) }
    ensures others { KeepsOthers fid pages.old pages.new }
{
    let mut bytes = join_pages(alloc, pages, fid)?;
    bytes.shrink_to_fit();
    Ok(List::from_vec(bytes))
}

/// The words of these bytes; a last odd byte is left out.
pub(crate) fn words_of(alloc: Global, bytes: &[u8]) -> Result<List<u16>, Memory>
    ensures { IfOk result (λ words. words ≡ words_of bytes.now) }
{
    let count = bytes.len() / 2;
    let mut words = vec![in alloc; 0; count]?;
    bytes_into_words(&bytes[..2 * count], &mut words);
    Ok(List::from_vec(words))
}
