// The file of a drive: its sectors in the order of their virtual addresses, with no heading. Of the 532 bytes of a sector,
//   bytes 0 to 3: the header, 2 words
//   bytes 4 to 19: the label, 8 words
//   bytes 20 to 531: the value, 256 words
// and of a word the high byte comes first.
ghost use Rattle.std.specs.Prelude.{◌≡◌, ℕ, ◌+◌, ◌*◌, ◌<◌, ◌≤◌, length, take, drop, All, IfSome, IfNone, IfOk, IfErr, OnOk, vec_len, vec_capacity};
ghost use Rattle.disk_records.specs.Words.{word};
ghost use Rattle.disk_records.specs.Addresses.{disks_of, cylinders_of, pages_of};
ghost use Rattle.disk_image.specs.Images.{sector_bytes, pack_bytes, IsImage, IsWhole, IsPackLength, IsImageErrorAt};

use crate::error::ImageError;
use alto_words::Memory;
use disk_records::{PAGE_BYTES, Sector, Shape, bytes_into_words, words_into_bytes};
use std::alloc::Global;

/// The bytes of one header.
pub(crate) const HEADER_BYTES: usize = 4;

/// The bytes of one label.
pub(crate) const LABEL_BYTES: usize = 16;

/// The bytes of one value.
pub(crate) const VALUE_BYTES: usize = PAGE_BYTES as usize;

/// The bytes of one sector.
pub(crate) const SECTOR_BYTES: usize = 532;

/// The bytes of one cylinder: 24 sectors.
pub(crate) const CYLINDER_BYTES: u64 = 12_768;

/// The shape of a pack of one or two drives whose files have this many bytes each. None if and only if that isn't the length of 2 to
/// 406 cylinders.
pub(crate) fn shape_of_length(disks: u16, bytes: u64) -> Option<Shape>
    requires some_disk { 1 ≤ disks }
    requires two_disks { disks ≤ 2 }
    ensures some { IfSome result (λ shape. bytes ≡ cylinders_of shape * 12768) }
    ensures disks { IfSome result (λ shape. disks_of shape ≡ disks) }
    ensures none { IfNone result (IsPackLength bytes → ⊥) }
{
    if bytes % CYLINDER_BYTES != 0 {
        return None;
    }
    let cylinders = u16::try_from(bytes / CYLINDER_BYTES).ok()?;
    Shape::new(disks, cylinders)
}

/// The sector of these 532 bytes.
pub(crate) fn read_sector(bytes: &[u8]) -> Sector
    requires { length bytes.now ≡ 532 }
    ensures bytes { sector_bytes result ≡ bytes.now }
    ensures whole { IsWhole result }
{
    let (header, rest) = bytes.split_at(HEADER_BYTES);
    let (label, value) = rest.split_at(LABEL_BYTES);
    let mut sector = Sector::ZEROS;
    bytes_into_words(header, &mut sector.header);
    bytes_into_words(label, &mut sector.label);
    bytes_into_words(value, &mut sector.value);
    sector
}

/// Writes a sector as its 532 bytes.
pub(crate) fn write_sector(sector: &Sector, bytes: &mut [u8])
    requires { length bytes.old ≡ 532 }
    ensures bytes { bytes.new ≡ sector_bytes sector.now }
    ensures whole { IsWhole sector.now }
{
    let (header, rest) = bytes.split_at_mut(HEADER_BYTES);
    let (label, value) = rest.split_at_mut(LABEL_BYTES);
    words_into_bytes(&sector.header, header);
    words_into_bytes(&sector.label, label);
    words_into_bytes(&sector.value, value);
}

/// Reads the sectors of `count` times 532 bytes into a list that has room for them, after those that are there. No memory is taken.
pub(crate) fn read_sectors(bytes: &[u8], count: usize, sectors: &mut Vec<Sector>)
    requires length { length bytes.now ≡ count * 532 }
    requires capacity { vec_len sectors.old + count ≤ vec_capacity sectors.old }
    ensures count { vec_len sectors.new ≡ vec_len sectors.old + count }
    ensures kept { take (vec_len sectors.old) sectors.new.items ≡ sectors.old.items }
    ensures whole { All IsWhole (drop (vec_len sectors.old) sectors.new.items) }
    ensures bytes { bytes.now ≡ pack_bytes (drop (vec_len sectors.old) sectors.new.items) }
    ensures same_capacity { vec_capacity sectors.new ≡ vec_capacity sectors.old }
{
    for at in 0..count {
        let from = at * SECTOR_BYTES;
        sectors.push_reserved(read_sector(&bytes[from..from + SECTOR_BYTES]));
    }
}

/// The pack of a file: its shape, of one drive, and its sectors in the order of their virtual addresses.
///
/// BadLength comes if and only if the length isn't that of 2 to 406 cylinders of 12,768 bytes, and carries it. Unlike never comes.
/// Memory: none was left for the sectors, which are one allocation.
pub fn decode_pack(alloc: Global, bytes: &[u8]) -> Result<(Shape, Vec<Sector>), ImageError>
    ensures ok { IfOk result (λ pack. IsImage pack.0 pack.1.items bytes.now) }
    ensures capacity { IfOk result (λ pack. vec_capacity pack.1 ≡ pages_of pack.0) }
    ensures err { IfErr result (IsImageErrorAt (length bytes.now)) }
{
    let Some(shape) = shape_of_length(1, bytes.len() as u64) else {
        return Err(ImageError::BadLength {
            bytes: bytes.len() as u64,
        });
    };
    let count = shape.pages() as usize;
    let Ok(mut sectors) = Vec::with_capacity(alloc, count) else {
        return Err(ImageError::Memory);
    };
    read_sectors(bytes, count, &mut sectors);
    Ok((shape, sectors))
}

/// The file of a pack of one drive: the bytes of each sector in order, in one allocation. There are as many sectors as the shape has.
///
/// Memory: none was left for the bytes.
pub fn encode_pack(alloc: Global, shape: Shape, sectors: &[Sector]) -> Result<Vec<u8>, Memory>
    requires one { disks_of shape ≡ 1 }
    requires count { length sectors.now ≡ pages_of shape }
    ensures { IfOk result (λ bytes. IsImage shape sectors.now bytes.items) }
{
    encode_drive(alloc, sectors)
}

/// The file of a drive with these sectors, at most those of 406 cylinders: their bytes in order, in one allocation.
pub(crate) fn encode_drive(alloc: Global, sectors: &[Sector]) -> Result<Vec<u8>, Memory>
    requires { length sectors.now ≤ 9744 }
    ensures whole { OnOk result (All IsWhole sectors.now) }
    ensures bytes { IfOk result (λ bytes. bytes.items ≡ pack_bytes sectors.now) }
{
    let mut bytes = Vec::with_capacity(alloc, sectors.len() * SECTOR_BYTES)?;
    let mut one = [0; SECTOR_BYTES];
    for sector in sectors {
        write_sector(sector, &mut one);
        let Ok(()) = bytes.extend_from_slice(&one) else {
            unreachable!();
        };
    }
    Ok(bytes)
}
