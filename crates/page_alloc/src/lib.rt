//! Free sectors: how they are found, taken and counted.
//!
//! Come here when a call takes free sectors, or answers how many there are.
//!
//! Below it stand label_check and hint_cache. A sector is *free* where its header is right and its label says so. A table of
//! busy bits is *true* where it is busy exactly at the sectors that aren't free; a table is a hint, and nothing but the choice
//! of sectors and the number of sector commands rests on its being true. To the layers above, on every disk:
//! 1. What `reserve` answers is as many addresses as were asked for, distinct and in rising order, of sectors that can carry a
//!    page, and busy in the table from then on (`reserved`).
//! 2. Full has the number that was asked for and a smaller one (`full`). A fault comes only where its count rose, and at each other
//!    answer the count is as it was (`cause`).
//!
//! And where the machine is modelled:
//! 3. Each sector that is taken is free (`free`). With a true table they are the lowest (`lowest`), found in as many sector
//!    commands at most (`soon`).
//! 4. Full comes if and only if fewer sectors are free than were asked for, with their number (`few`, `full`).
//! 5. Any other bit of the table stays, or becomes what its sector's label says, whatever the answer (`others`, `refused`).
//! 6. `reserve` and `count_free` write nothing, in fewer sector commands than sectors, whatever the answer (`looks`). With any table,
//!    where enough of the sectors that it has as free are free, there are at most as many as it offers sectors (`offered`).
//!
//! Not promised: that a taken sector stays free. `claim` checks it again.
#![tactic(auto)]

mod bits;
mod count;
mod errors;
mod offers;
mod sweep;
mod take;

pub use count::count_free;
pub use errors::AllocError;
pub use take::reserve;
