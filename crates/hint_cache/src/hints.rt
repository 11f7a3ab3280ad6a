// Both hints of one pack.
use crate::{BitTable, HintCache};

/// The hints of one pack. Who follows one has to check it first by the label that stands there.
#[derive(Drop)]
pub struct Hints {
    /// Where pages were last seen.
    pub cache: HintCache,
    /// Which sectors are busy.
    pub table: BitTable,
}
