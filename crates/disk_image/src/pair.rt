// The files of a pack of two drives: the sectors of the first one's file, and then those of the second one's.
ghost use Rattle.std.specs.Prelude.{◌≡◌, ◌*◌, length, IfOk, IfErr, IsErrOf, vec_capacity};
ghost use Rattle.disk_records.specs.Addresses.{disks_of, cylinders_of, pages_of};
ghost use Rattle.disk_image.specs.Images.{AreImages, IsErrorOfTwo};

use crate::codec::{encode_drive, read_sectors, shape_of_length};
use crate::drives::drive_sectors;
use crate::error::ImageError;
use alto_words::Memory;
use disk_records::{Sector, Shape};
use std::alloc::Global;

/// The shape of a pack of two drives whose files have these many bytes. The error is BadLength or Unlike, as at `decode_two`.
pub(crate) fn shape_of_lengths(first: u64, second: u64) -> Result<Shape, ImageError>
    ensures disks { IfOk result (λ shape. disks_of shape ≡ 2) }
    ensures first { IfOk result (λ shape. first ≡ cylinders_of shape * 12768) }
    ensures second { IfOk result (λ shape. second ≡ cylinders_of shape * 12768) }
    ensures err { IfErr result (IsErrorOfTwo first second) }
    ensures no_want { IsErrOf result ImageError.Memory → ⊥ }
{
    let Some(shape) = shape_of_length(2, first) else {
        return Err(ImageError::BadLength { bytes: first });
    };
    if shape_of_length(2, second).is_none() {
        return Err(ImageError::BadLength { bytes: second });
    }
    if first != second {
        return Err(ImageError::Unlike { first, second });
    }
    Ok(shape)
}

/// The pack of two files, one for each drive: its shape, and its sectors in the order of their virtual addresses.
///
/// BadLength comes if and only if the length of a file isn't that of 2 to 406 cylinders of 12,768 bytes, and carries that of the first
/// such file. Unlike comes if and only if both lengths are such and differ, and carries both. Memory: none was left for the sectors, which
/// are one allocation.
pub fn decode_two(
    alloc: Global,
    first: &[u8],
    second: &[u8],
) -> Result<(Shape, Vec<Sector>), ImageError>
    ensures ok { IfOk result (λ pack. AreImages pack.0 pack.1.items first.now second.now) }
    ensures capacity { IfOk result (λ pack. vec_capacity pack.1 ≡ pages_of pack.0) }
    ensures err { IfErr result (IsErrorOfTwo (length first.now) (length second.now)) }
{
    let shape = shape_of_lengths(first.len() as u64, second.len() as u64)?;
    let Ok(mut sectors) = Vec::with_capacity(alloc, shape.pages() as usize) else {
        return Err(ImageError::Memory);
    };
    read_sectors(first, drive_sectors(shape) as usize, &mut sectors);
    read_sectors(second, drive_sectors(shape) as usize, &mut sectors);
    Ok((shape, sectors))
}

/// The two files of a pack of two drives, that of the first drive first. Each is one allocation. There are as many sectors as the shape
/// has.
///
/// Memory: none was left for the bytes of one of them.
pub fn encode_two(
    alloc: Global,
    shape: Shape,
    sectors: &[Sector],
) -> Result<(Vec<u8>, Vec<u8>), Memory>
    requires two { disks_of shape ≡ 2 }
    requires count { length sectors.now ≡ pages_of shape }
    ensures { IfOk result (λ files. AreImages shape sectors.now files.0.items files.1.items) }
{
    let (front, back) = sectors.split_at(drive_sectors(shape) as usize);
    let first = encode_drive(alloc, front)?;
    let second = encode_drive(alloc, back)?;
    Ok((first, second))
}
