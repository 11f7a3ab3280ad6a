//! Packs of two cylinders made by hand in memory, for the tests of the crates above.
//!
//! Below it stand disk_records and disk_memory. A pack is made of its pages: each has its sector, its label and
//! the first words of its value. All other sectors are free, after right headers.
#![tactic(auto)]

mod machines;
mod sectors;

pub use machines::{failing_machine, small_shape, sure_machine};
pub use sectors::{DATA, LEADER, Placed, sectors_of, set_page, value_of};
