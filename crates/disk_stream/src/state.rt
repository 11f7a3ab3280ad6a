// What is kept of an open stream over a file.

use alto_words::List;
use page_seeking::FileRef;

/// What is kept of an open stream. The bytes that were put and aren't written yet end at its position.
#[derive(Drop)]
pub struct StreamState {
    /// Its file, with the address by which it was found.
    pub file: FileRef,
    /// The position: a byte of the file with its pending bytes, at most 33,553,920.
    pub position: u32,
    /// The byte of the file where those that are pending begin. Where none are, it means nothing.
    pub base: u32,
    /// The bytes that were put and aren't written yet.
    pub pending: List<u8>,
    /// Whether any were put since it was opened.
    pub put: bool,
}
