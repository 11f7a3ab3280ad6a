// Want of memory, as an error of its own.

use std::alloc::{AllocError, AllocFailed};

/// No memory was left. It is the error of calls that can fail for memory alone, and says nothing of
/// their input.
#[derive(Clone, Copy, Debug, PartialEq, Eq)]
pub struct Memory;

impl From<AllocError> for Memory {
    fn from(_refused: AllocError) -> Memory {
        Memory
    }
}

/// A refused growth lets go what was to be stored.
impl<T: Drop> From<AllocFailed<T>> for Memory {
    fn from(_refused: AllocFailed<T>) -> Memory {
        Memory
    }
}
