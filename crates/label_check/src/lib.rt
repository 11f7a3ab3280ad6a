//! One sector command, guarded by the label that stands there.
//!
//! Come here when you read or write one sector, or make one free. Below it stand alto_words and disk_records.
//!
//! A sector *carries* a page where its header is right and its label is in range and names that page. To the layers above, for
//! every answer on a machine that is modelled:
//! 1. What was written is a prefix of the one list in the contract (`some`), all of it at Ok (`ok`).
//! 2. No sector is written that didn't carry the page named, or, for `claim`, wasn't free (`guarded`).
//! 3. Wrong comes only where that guard fails, and Ok only where it holds. At Wrong nothing was written, and `found` is the label that
//!    stands there, None where its header is wrong (`wrong`).
//! 4. Where events are kept ready for the list, or its guard fails, no call answers Memory, and none takes an allocator. At Memory the
//!    last sector command wrote nothing (`want`).
//! 5. `look` and `read_page` write nothing, in one sector command (`looks`).
//!
//! On every machine `look` and `read_page` answer what the buffer says (`right`, `page`, `whole`, `tells`, `other`). A fault comes only
//! where its count rose, and at each other answer the count is as it was (`cause`).
//! Not promised: that no other sector carries the page. pack_model says which of two counts.
#![tactic(auto)]

mod errors;
mod read;
mod take;
mod write;

pub use errors::{GuardError, LookError, PageInfo};
pub use read::{look, read_page};
pub use take::claim;
pub use write::{relabel, release, write_value};
