// The shape of a pack.
ghost use Rattle.std.specs.Prelude.{◌≡◌, ◌≤◌, ◌*◌};

/// The shape of a pack on one or two Diablo drives of one size, with 2 to 406 cylinders each: 2 heads and 12 sectors to a track. A
/// model 31 drive has 203 cylinders, a model 44 drive 406.
#[derive(Clone, Copy, Debug, PartialEq, Eq, Drop)]
pub struct Shape {
    disks: u16,
    cylinders: u16,
    pub ghost some_disk: { 1 ≤ disks },
    pub ghost two_disks: { disks ≤ 2 },
    pub ghost least: { 2 ≤ cylinders },
    pub ghost most: { cylinders ≤ 406 },
    pub ghost least_pages: { 48 ≤ disks * cylinders * 24 },
    pub ghost most_pages: { disks * cylinders * 24 ≤ 19488 },
}

impl Shape {
    ghost use Rattle.std.specs.Prelude.{ℕ, ◌≢◌, ◌<◌, ◌/◌, ◌%◌, ◌↔◌, Some, IsSome, IfNone, IfSome};
    ghost use Rattle.disk_records.specs.Addresses.{disks_of, cylinders_of, pages_of, real_of, descriptor_length};

    /// A shape of one or two disks with 2 to 406 cylinders each. None if and only if the numbers aren't these.
    pub fn new(disks: u16, cylinders: u16) -> Option<Shape>
        ensures some { IfSome result (λ shape. (disks_of shape ≡ disks) × (cylinders_of shape ≡ cylinders)) }
        ensures valid { IsSome result ↔ ((1 ≤ disks) × (disks ≤ 2) × (2 ≤ cylinders) × (cylinders ≤ 406)) }
    {
        if 1 <= disks && disks <= 2 && 2 <= cylinders && cylinders <= 406 {
            Some(Shape { disks, cylinders })
        } else {
            None
        }
    }

    /// The number of disks: 1 or 2.
    pub fn disks(&self) -> u16
        ensures { result ≡ disks_of self.now }
    {
        self.disks
    }

    /// The number of cylinders of each disk, 2 to 406.
    pub fn cylinders(&self) -> u16
        ensures { result ≡ cylinders_of self.now }
    {
        self.cylinders
    }

    /// The number of sectors, 48 to 19,488.
    pub fn pages(&self) -> u16
        ensures { result ≡ pages_of self.now }
    {
        self.disks * self.cylinders * 24
    }

    /// The real address of the sector at this virtual address, restore bit 0.
    pub fn real_of(&self, at: u16) -> u16
        requires { at < pages_of self.now }
        ensures { result ≡ real_of self.now at }
    {
        let (disk, cylinder) = self.arm_of(at / 24);
        at % 12 * 4096 + cylinder * 8 + at / 12 % 2 * 4 + disk * 2
    }

    /// The disk of a cylinder, and its number there, by its number among those of all disks. There are two disks at most, so nothing is
    /// divided: a processor takes as long to divide by a number that it learns as it runs as for twenty additions.
    fn arm_of(&self, cylinder: u16) -> (u16, u16)
        requires { cylinder < disks_of self.now * cylinders_of self.now }
        ensures disk { result.0 ≡ cylinder / cylinders_of self.now }
        ensures own { result.1 ≡ cylinder % cylinders_of self.now }
    {
        if cylinder < self.cylinders {
            (0, cylinder)
        } else {
            (1, cylinder - self.cylinders)
        }
    }

    /// The virtual address of the sector with this real address. None if and only if no sector has it with restore bit 0.
    pub fn virtual_of(&self, real: u16) -> Option<u16>
        ensures some { IfSome result (λ at. (at < pages_of self.now) × (real_of self.now at ≡ real)) }
        ensures back { (at : ℕ) → at < pages_of self.now → real_of self.now at ≡ real → result ≡ Some at }
        ensures none { IfNone result ((at : ℕ) → at < pages_of self.now → real_of self.now at ≢ real) }
    {
        let sector = real / 4096;
        let cylinder = real / 8 % 512;
        let head = real / 4 % 2;
        let disk = real / 2 % 2;
        if sector < 12 && cylinder < self.cylinders && disk < self.disks && real % 2 == 0 {
            Some((disk * self.cylinders + cylinder) * 24 + head * 12 + sector)
        } else {
            None
        }
    }

    /// The number of bytes of DiskDescriptor: 32 and two for each word of its allocation map, which has one bit a sector.
    pub fn descriptor_length(&self) -> u32
        ensures { result ≡ descriptor_length self.now }
    {
        32 + 2 * (self.pages() as u32).div_ceil(16)
    }
}
