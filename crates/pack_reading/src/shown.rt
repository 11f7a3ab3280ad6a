// What a pack shows.
use alto_words::{Fid, List, Name};
use leader_page::Leader;

/// A file as it is shown.
#[derive(Drop)]
pub struct ShownFile {
    /// Its full name.
    pub fid: Fid,
    /// What its leader page says. The hints are zeros.
    pub leader: Leader,
    /// Its bytes. None for a directory.
    pub bytes: Option<List<u8>>,
}

/// A name of a file.
#[derive(Clone, Copy, Debug, PartialEq, Eq)]
pub struct ShownName {
    /// The directory in which it stands.
    pub directory: Fid,
    /// The name, as it is stored.
    pub name: Name,
    /// The file that it names.
    pub fid: Fid,
}

/// What a pack shows. The system files and their entries aren't in it, and each file that is shown has one name.
#[derive(Drop)]
pub struct Shown {
    /// Rising by full name.
    pub files: List<ShownFile>,
    /// Rising by directory, and then by name without regard to case.
    pub names: List<ShownName>,
}

/// The length of a file that is shown.
#[derive(Clone, Copy, Debug, PartialEq, Eq)]
pub struct FileLength {
    /// The file's full name.
    pub fid: Fid,
    /// Its length in bytes. None for a directory.
    pub length: Option<u64>,
}

/// What a pack shows, with the length of each file in the place of its leader and bytes.
#[derive(Drop)]
pub struct ShownLengths {
    /// Rising by full name.
    pub files: List<FileLength>,
    /// Rising by directory, and then by name without regard to case.
    pub names: List<ShownName>,
}
