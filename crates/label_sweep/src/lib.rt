//! What sectors show by their headers and labels, one sector or all of them.
//!
//! Come here to read labels, where it isn't known which page a sector carries. Below stand label_check and the definitions of
//! pack_model, whose words a `Sight` has. To the layers above, on every machine:
//! 1. What `see` answers counts 512 bytes at most, and numbers data pages from 1 (`counted`).
//! 2. `sweep` hands each sector from 1 on to a visitor, once and in rising order, with what it shows (`swept`).
//! 3. A fault comes only where its count rose, and at each other answer the count is as it was (`cause`).
//!
//! And where the machine is modelled:
//! 4. What `see` answers, with the value that it read, is what the sector shows (`sight`), and so is all that `sweep` hands on.
//! 5. Nothing is written. `see` takes one sector command, `sweep` one a sector, whatever the answer (`looks`).
//! 6. Neither is out of memory, unless the visitor is (`want`).
//!
//! Not promised: which of two copies of a page counts. The visitor sees the lower sector first.
#![tactic(auto)]

mod sector;
mod sectors;
mod sight;

pub use sector::see;
pub use sectors::{Visit, sweep};
pub use sight::Sight;
