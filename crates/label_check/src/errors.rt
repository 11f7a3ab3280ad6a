// What guarded commands answer.
ghost use Rattle.std.specs.Prelude.{◌≡◌};
ghost use Rattle.label_check.specs.declared.errors.GuardError.{GuardError};
ghost use Rattle.label_check.specs.declared.errors.LookError.{LookError};
ghost use Rattle.label_check.specs.Steps.{error_of_look};

/// What a label says beside the page that it names: words 3, 0 and 1.
#[derive(Clone, Copy, Debug, PartialEq, Eq)]
pub struct PageInfo {
    /// The bytes of the page that count, 0 to 512.
    pub bytes: u16,
    /// The real address of the next page, a hint; 0xFFFF at the end of a file.
    pub next: u16,
    /// The real address of the previous page, a hint; 0xFFFF at a leader page.
    pub previous: u16,
}

/// Why a guarded command wasn't done.
#[derive(Clone, Copy, Debug, PartialEq, Eq, Drop)]
pub enum GuardError {
    /// The sector doesn't carry the page, or, for `claim`, isn't free. On a modelled disk nothing was written, and `found` is the
    /// label that stands there, None where its header is wrong. On a disk that isn't modelled this answer may also come of the
    /// second sector command of `claim`, `write_value`, `relabel` or `release`, as where the sector changed since the first:
    /// `found` is then None whatever the header says, and `claim` has written its value.
    Wrong { found: Option<[u16; 8]> },
    /// The device failed, and its count of faults rose. A prefix of the record writes was done.
    DiskFault,
    /// No memory was left for the record writes of a sector whose guard held. A prefix of them was done.
    Memory,
}

/// Why a sector wasn't read.
#[derive(Clone, Copy, Debug, PartialEq, Eq, Drop)]
pub enum LookError {
    /// The device failed, and its count of faults rose.
    DiskFault,
    /// No memory was left.
    Memory,
}

impl From<LookError> for GuardError {
    ghost from_gives = { λ error refusal. refusal ≡ error_of_look error };

    fn from(error: LookError) -> Self {
        match error {
            LookError::DiskFault => GuardError::DiskFault,
            LookError::Memory => GuardError::Memory,
        }
    }
}
