// Why some bytes give no pack, and why no pack file was reached.
ghost use Rattle.std.specs.Prelude.{◌≡◌};
ghost use Rattle.disk_image.specs.Machines.{reached};

use thiserror::Error;

/// Why some bytes give no pack.
#[derive(Clone, Copy, Debug, PartialEq, Eq)]
pub enum ImageError {
    /// A file has this many bytes, which are not those of 2 to 406 cylinders of 12,768 bytes.
    BadLength { bytes: u64 },
    /// The files of two drives have these many bytes, each a drive's length, and not the same.
    Unlike { first: u64, second: u64 },
    /// The length is a pack's, and no memory was left for the sectors.
    Memory,
}

/// Why no machine was made over a pack file, or two. Its text is what a program tells of it.
#[derive(Clone, Copy, Debug, PartialEq, Eq, Error)]
pub enum ReachError {
    /// A file can't be opened for reading and writing, or a new one can't be made or is there already, or both are one file, or
    /// `/dev/null` can't be opened, or no lock can be taken of a file.
    #[error("no pack")]
    NoFile,
    /// Another process has a file: one that may write it, or any where this one may.
    #[error("pack in use")]
    InUse,
    /// A file has this many bytes, which are not those of 2 to 406 cylinders of 12,768 bytes.
    #[error("bad length {bytes}")]
    BadLength { bytes: u64 },
    /// The files of two drives have these many bytes, each a drive's length, and not the same.
    #[error("unlike packs {first} {second}")]
    Unlike { first: u64, second: u64 },
    /// No memory was left for the buffer of the keys.
    #[error("no memory")]
    Memory,
}

impl From<ImageError> for ReachError {
    ghost from_gives = { λ error reach. reach ≡ reached error };

    fn from(error: ImageError) -> Self {
        match error {
            ImageError::BadLength { bytes } => ReachError::BadLength { bytes },
            ImageError::Unlike { first, second } => ReachError::Unlike { first, second },
            ImageError::Memory => ReachError::Memory,
        }
    }
}
