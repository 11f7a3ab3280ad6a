// What is answered where a block isn't taken or given back.

/// Why no block was taken. The memory is as before.
#[derive(Clone, Copy, Debug, PartialEq, Eq, Drop)]
pub enum ZoneError {
    /// No free block has so many words.
    NoRoom {
        /// The most usable words that a request could get, at most 64,509; 0 if no block is free.
        largest: u16,
    },
}

/// No used block has this first usable word. The memory is as before.
#[derive(Clone, Copy, Debug, PartialEq, Eq, Drop)]
pub struct NotABlock;
