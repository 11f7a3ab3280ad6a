// Full names of files.
ghost use Rattle.std.specs.Prelude.{◌≡◌, ◌<◌, ◌≤◌, ◌^◌};
ghost use Rattle.alto_words.specs.Fid.{is_directory, serial_of, is_full_name, ordinary_fid, directory_fid};

/// The greatest version: ones say that a sector is free.
const MAX_VERSION: u16 = 0xFFFE;

/// The full name of a file: a serial number of 31 bits in two words, with the directory mark as the
/// top bit of the high word, and a version. Full names are ordered by (high, low, version).
/// Source: the full names of the SOSP 1979 paper; the words are those of the Alto's labels.
#[derive(Clone, Copy, Debug, PartialEq, Eq, PartialOrd, Ord, Hash)]
pub struct Fid {
    /// The directory mark (0x8000) and the upper 15 bits of the serial.
    pub high: u16,
    /// The lower 16 bits of the serial.
    pub low: u16,
    /// 1 to 0xFFFE for a file that can live.
    pub version: u16,
}

impl Fid {
    /// The full name of SysDir, the directory of all other directories: serial 1 with the directory
    /// mark, version 1.
    pub const SYS_DIR: Fid = Fid {
        high: 0x8000,
        low: 1,
        version: 1,
    };

    /// The full name of DiskDescriptor, the file with the allocation map: serial 2, version 1.
    pub const DISK_DESCRIPTOR: Fid = Fid {
        high: 0,
        low: 2,
        version: 1,
    };

    /// Whether the directory mark is set.
    pub fn is_directory(&self) -> bool
        ensures { result ≡ is_directory self.now }
    {
        self.high >= 0x8000
    }

    /// The serial without the directory mark, 0 to 2^31 - 1.
    pub fn serial(&self) -> u32
        ensures { result ≡ serial_of self.now }
    {
        self.high as u32 % 0x8000 * 0x1_0000 + self.low as u32
    }

    /// Whether a file can have this full name: the serial is at least 1, the version 1 to 0xFFFE.
    pub fn is_full_name(&self) -> bool
        ensures { result ≡ is_full_name self.now }
    {
        1 <= self.version && self.version <= MAX_VERSION && self.serial() != 0
    }

    /// The ordinary file of this serial, version 1.
    pub fn ordinary(serial: u32) -> Fid
        requires least { 1 ≤ serial }
        requires most { serial < 2 ^ 31 }
        ensures { result ≡ ordinary_fid serial }
    {
        Fid {
            high: (serial / 0x1_0000) as u16,
            low: (serial % 0x1_0000) as u16,
            version: 1,
        }
    }

    /// The directory of this serial, version 1.
    pub fn directory(serial: u32) -> Fid
        requires least { 1 ≤ serial }
        requires most { serial < 2 ^ 31 }
        ensures { result ≡ directory_fid serial }
    {
        Fid {
            high: (serial / 0x1_0000 + 0x8000) as u16,
            low: (serial % 0x1_0000) as u16,
            version: 1,
        }
    }
}
