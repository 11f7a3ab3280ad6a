// Why no machine was made.

/// Why no machine was made of some sectors.
#[derive(Clone, Copy, Debug, PartialEq, Eq)]
pub enum NewError {
    /// The shape has `wanted` sectors, and `got` were given.
    WrongCount { wanted: u16, got: u64 },
    /// No memory was left for the copy of the sectors.
    Memory,
}
