// The sectors of a pack of two cylinders, and pages placed on them.
ghost use Rattle.std.specs.Prelude.{◌≡◌, IfOk};
ghost use Rattle.test_packs.specs.Samples.{blank_sectors, placed_all, placed_on, value_of};

use crate::machines::small_shape;
use disk_records::Sector;
use std::alloc::{AllocError, Global};

/// What is put on the sector at a virtual address: its label, and the first words of its value. The others are 0.
#[derive(Clone, Copy)]
pub struct Placed {
    pub at: u16,
    pub label: [u16; 8],
    pub front: [u16; 3],
}

/// The leader page, on sector 5, of the file with serial 3 and the five bytes `ABCDE`. It has no name.
pub const LEADER: Placed = Placed {
    at: 5,
    label: [0x6000, 0xFFFF, 0, 512, 0, 1, 0, 3],
    front: [0, 0, 0],
};

/// The data page of the same file, on sector 6.
pub const DATA: Placed = Placed {
    at: 6,
    label: [0xFFFF, 0x5000, 0, 5, 1, 1, 0, 3],
    front: [0x4142, 0x4344, 0x4500],
};

/// A value that begins with these words. The others are 0.
pub fn value_of(front: [u16; 3]) -> [u16; 256]
    ensures { result ≡ value_of front }
{
    let mut value = [0; 256];
    value[..3].copy_from_slice(&front);
    value
}

/// Gives one sector its label and its value. Nothing happens where there is no sector at its address.
pub fn set_page(sectors: &mut [Sector], page: &Placed)
    ensures { sectors.new ≡ placed_on page.now sectors.old }
{
    let at = page.at as usize;
    if at < sectors.len() {
        sectors[at] = Sector {
            header: sectors[at].header,
            label: page.label,
            value: value_of(page.front),
        };
    }
}

#[tactic(auto, unfolding(disk_records::specs::Addresses::real_of))]
/// The 48 sectors of two cylinders, all free: right headers with the pack number 1, and ones in labels and values.
fn free_sectors(alloc: Global) -> Result<Vec<Sector>, AllocError>
    ensures { IfOk result (λ sectors. sectors.items ≡ blank_sectors 48) }
{
    let shape = small_shape();
    let mut sectors = Vec::new(alloc);
    for at in 0..shape.pages() {
        sectors.push(Sector {
            header: [1, shape.real_of(at)],
            label: [0xFFFF; 8],
            value: [0xFFFF; 256],
        })?;
    }
    Ok(sectors)
}

/// The 48 sectors of two cylinders, in order of their virtual addresses: these pages, placed in turn, and free sectors with ones
/// in their values. Memory: none was left for them.
pub fn sectors_of(alloc: Global, placed: &[Placed]) -> Result<Vec<Sector>, AllocError>
    ensures { IfOk result (λ sectors. sectors.items ≡ placed_all placed.now (blank_sectors 48)) }
{
    let mut sectors = free_sectors(alloc)?;
    for page in placed {
        set_page(&mut sectors, page);
    }
    Ok(sectors)
}
