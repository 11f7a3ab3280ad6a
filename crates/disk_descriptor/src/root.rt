// SysDir of a formatted pack: the entries of both system files, and a free slot of the other words.
ghost use Rattle.std.specs.Prelude.{◌≡◌, ◌+◌, ◌/◌, ◌≤◌, length};
ghost use Rattle.pack_model.specs.operations.PageWords.{filled};
ghost use Rattle.pack_model.specs.reading.Bytes.{put_at};
ghost use Rattle.pack_model.specs.reading.Namings.{descriptor_name, sys_dir_name};
ghost use Rattle.pack_model.specs.reading.SlotWords.{entry_words, short_name_words};
ghost use Rattle.pack_model.specs.reading.Slots.{entry_length};
ghost use Rattle.pack_model.specs.sessions.Format.{format_slots};

use crate::words::put;
use alto_words::{Fid, Name};
use dir_slots::entry_words;
use leader_page::name_words;

/// The sector of SysDir's leader.
pub(crate) const ROOT: u16 = 1;

/// The sector of DiskDescriptor's leader.
pub(crate) const LEADER: u16 = 3;

/// Word 0 of an entry less its length.
const ENTRY_TYPE: u16 = 1024;

/// The words of an entry before its name.
const ENTRY_HEAD: usize = 6;

/// The word of DiskDescriptor's entry, after SysDir's.
const SECOND_ENTRY: usize = 10;

/// The word of the free slot, and how many words it has.
const SPACE: usize = 24;

const SPACE_WORDS: u16 = 231;

/// The name of SysDir.
pub(crate) fn root_name() -> Name
    ensures { result ≡ sys_dir_name }
{
    match Name::stored(b"SysDir.") {
        Some(name) => name,
        None => unreachable!(),
    }
}

/// The name of DiskDescriptor in SysDir, as it is stored.
pub fn descriptor_name() -> Name
    ensures { result ≡ descriptor_name }
{
    match Name::stored(b"DiskDescriptor.") {
        Some(name) => name,
        None => unreachable!(),
    }
}

/// The value of SysDir's page.
pub(crate) fn root_value() -> [u16; 256]
    ensures { result ≡ filled 256 format_slots }
{
    let mut value = [0; 256];
    put_entry(&mut value, 0, Fid::SYS_DIR, ROOT, &root_name());
    put_entry(
        &mut value,
        SECOND_ENTRY,
        Fid::DISK_DESCRIPTOR,
        LEADER,
        &descriptor_name(),
    );
    value[SPACE] = SPACE_WORDS;
    value
}

/// Puts the words of an entry in the place of others, from this one on.
fn put_entry(value: &mut [u16; 256], at: usize, fid: Fid, leader_at: u16, name: &Name)
    requires { at + entry_length (length name.now) ≤ 256 }
    ensures { value.new ≡ put_at at (entry_words fid leader_at name.now) value.old }
{
    let first = ENTRY_TYPE + entry_words(name);
    let head = [first, fid.high, fid.low, fid.version, 0, leader_at];
    put(value, at, &head);
    put_name(value, at + ENTRY_HEAD, name);
}

/// Puts the words of an entry's name in the place of others, from this one on.
fn put_name(value: &mut [u16; 256], at: usize, name: &Name)
    requires { at + (length name.now + 2) / 2 ≤ 256 }
    ensures { value.new ≡ put_at at (short_name_words name.now) value.old }
{
    let words = name_words(name);
    let count = (name.as_bytes().len() + 2) / 2;
    put(value, at, &words[..count]);
}
