//! The rows of a pack, one window of them at a time.
//!
//! Come here to go along all sectors that carry pages in the order of files and pages, in memory that doesn't grow with the pack. A
//! `Row` stands for such a sector. A `Table` holds at most 1,024 rows, a window; its bound is the last row that it gave. Below stand
//! label_check and the words of pack_model. To the layers above, on every machine:
//! 1. The rows of a table are at most 1,024, and rise by file, page number and address (`most`, `rising`).
//! 2. Only `sweep` takes memory. After an error a table has no rows, and the bound that it had (`empty`).
//! 3. A pass rises from row to row, so it ends (`rises`). A fault comes only where its count rose; at each other answer the count is as it
//!    was (`cause`).
//!
//! And where the machine is modelled:
//! 4. `sweep` and `rewind` give the first 1,024 rows of the pack as it is in the call, `advance` the first 1,024 above the bound, with the
//!    number of sectors that have a wrong header (`window`, `bad`).
//! 5. `Pass::next` gives the first row above the row in hand, of the pack as it is then (`next`), whatever was written meanwhile at
//!    or below the row in hand (`pass_goes_on`).
//! 6. Nothing is written, and each call takes at most one sector command a sector (`looks`). Only `sweep` is out of memory (`want`).
//!
//! Not promised: that a sector still carries its row's page when it is used. Guarded commands check it again.
#![tactic(auto)]

mod errors;
mod fill;
mod insert;
pub mod laws;
mod pass;
mod row;
mod table;

pub use errors::SweepError;
pub use pass::Pass;
pub use row::Row;
pub use table::{Table, sweep};
