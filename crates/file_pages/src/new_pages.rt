// The labels and values of a new file's two pages.
ghost use Rattle.std.specs.Prelude.{◌≡◌, ◌<◌, true};
ghost use Rattle.alto_words.specs.Fid.{is_full_name};
ghost use Rattle.disk_records.specs.Addresses.{pages_of};
ghost use Rattle.pack_model.specs.operations.PageWords.{first_page_label, first_page_value, leader_label, new_bytes, new_leader_value};

use crate::refs::page_of_file;
use alto_words::{Fid, Name};
use disk_records::{Shape, label_of};
use leader_page::Leader;

/// The link at either end of a file.
pub(crate) const NO_LINK: u16 = 0xFFFF;

/// The words of the free slot that a new directory is.
const FREE_WORDS: u16 = 255;

/// The bytes that count in page 1 of a new file.
fn new_bytes(fid: Fid) -> u16
    ensures { result ≡ new_bytes fid }
{
    if fid.is_directory() { 510 } else { 0 }
}

/// The label of a new file's page 1.
pub(crate) fn first_label(shape: Shape, fid: Fid, leader_at: u16) -> [u16; 8]
    requires place { leader_at < pages_of shape }
    requires full_name { is_full_name fid ≡ true }
    ensures label { result ≡ first_page_label shape fid leader_at }
{
    label_of(
        page_of_file(fid, 1),
        new_bytes(fid),
        NO_LINK,
        shape.real_of(leader_at),
    )
}

/// The value of a new file's page 1.
pub(crate) fn first_value(fid: Fid) -> [u16; 256]
    ensures { result ≡ first_page_value fid }
{
    let mut value = [0; 256];
    if fid.is_directory() {
        value[0] = FREE_WORDS;
    }
    value
}

/// The label of a new file's leader.
pub(crate) fn new_leader_label(shape: Shape, fid: Fid, page_at: u16) -> [u16; 8]
    requires place { page_at < pages_of shape }
    requires full_name { is_full_name fid ≡ true }
    ensures label { result ≡ leader_label shape fid page_at }
{
    label_of(page_of_file(fid, 0), 512, shape.real_of(page_at), NO_LINK)
}

/// The value of a new file's leader.
pub(crate) fn new_value(fid: Fid, name: &Name, moment: u32, page_at: u16) -> [u16; 256]
    ensures { result ≡ new_leader_value fid name.now moment page_at }
{
    let leader = Leader {
        created: moment,
        written: moment,
        read: moment,
        name: *name,
        rest: [0; 220],
        hints: [0, 0, 0, 0, 0, 0, 0, page_at, 1, new_bytes(fid)],
    };
    leader.encode()
}
