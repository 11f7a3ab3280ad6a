// On which drive a sector of a pack stands, and so in which file.
ghost use Rattle.std.specs.Prelude.{◌≡◌, ◌<◌};
ghost use Rattle.disk_records.specs.Addresses.{pages_of};
ghost use Rattle.disk_image.specs.Images.{first_drive};
ghost use Rattle.disk_image.specs.Drives.{IsOnDrive};

use crate::spot::{CYLINDER_SECTORS, Spot};
use disk_records::Shape;

/// The number of sectors of each drive: all of the pack's, or half of them where it has two drives.
pub(crate) fn drive_sectors(shape: Shape) -> u16
    ensures { result ≡ first_drive shape }
{
    shape.cylinders() * CYLINDER_SECTORS
}

/// The drive on which a sector stands, and where.
#[derive(Clone, Copy)]
pub(crate) enum OnDrive {
    First(Spot),
    Second(Spot),
}

/// Where the sector at this virtual address stands: those of the second drive begin at the start of its file.
pub(crate) fn drive_of(shape: Shape, at: u16) -> OnDrive
    requires { at < pages_of shape }
    ensures { IsOnDrive shape at result }
{
    let sectors = drive_sectors(shape);
    if at < sectors {
        OnDrive::First(Spot { at, ahead: at })
    } else {
        OnDrive::Second(Spot {
            at,
            ahead: at - sectors,
        })
    }
}
