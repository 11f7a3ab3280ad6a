// What a scavenge answers.
ghost use Rattle.std.specs.Prelude.{◌≡◌};
ghost use Rattle.scavenger.specs.Answers.{error_of_stop, error_of_sweep};

use scav_pages::Stop;
use scav_table::SweepError;

/// What a scavenge has done, in numbers.
#[derive(Clone, Copy, Debug, PartialEq, Eq)]
pub struct Report {
    /// The living files at its end, SysDir and DiskDescriptor among them.
    pub files: u32,
    /// The sectors that were neither in use nor free, and are free or taken into use now.
    pub freed: u32,
    /// The sectors from 1 on with a wrong header, which are left alone.
    pub bad: u32,
    /// The files that had no entry and were entered in SysDir, the two system files aside.
    pub adopted: u32,
}

/// Why a pack isn't scavenged, or not to its end.
#[derive(Clone, Copy, Debug, PartialEq, Eq, Drop)]
pub enum ScavError {
    /// Sector 1 has a wrong header, this one. Nothing was written.
    RootBad { header: [u16; 2] },
    /// Sector 1 is in use by another page than SysDir's leader, and this is its label. Nothing was written.
    RootTaken { found: [u16; 8] },
    /// So many sectors are needed, and only so many are available. Nothing was written.
    PackFull { needed: u32, free: u32 },
    /// The disk failed, and its count of faults rose. A prefix of the work is done, and the pack can be scavenged again.
    DiskFault,
    /// No memory was left, or a sector shows another page than a moment ago, on a machine that isn't modelled. A prefix of the work is done,
    /// and the pack can be scavenged again.
    Memory,
}

impl From<Stop> for ScavError {
    ghost from_gives = { λ stop error. error ≡ error_of_stop stop };

    fn from(stop: Stop) -> Self {
        match stop {
            Stop::DiskFault => ScavError::DiskFault,
            Stop::Memory => ScavError::Memory,
            // on a machine that isn't modelled: nothing more is written
            Stop::Astray => ScavError::Memory,
        }
    }
}

impl From<SweepError> for ScavError {
    ghost from_gives = { λ error refusal. refusal ≡ error_of_sweep error };

    fn from(error: SweepError) -> Self {
        match error {
            SweepError::DiskFault => ScavError::DiskFault,
            SweepError::Memory => ScavError::Memory,
        }
    }
}
