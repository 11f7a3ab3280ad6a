//! Lines on the memory and the level, `store`, `fetch`, `block`, `unblock`, `junta` and `counterjunta`; and `settime`. No disk is lent for
//! them.
//!
//! Come here for what these lines do and answer. Below it stand exec_session, which has what a session keeps, and the calls on blocks (zones)
//! and on levels (junta_levels). Each call refuses before it changes anything, and changes the session's memory, level or moment if the line
//! does. It answers the text of its line, or why the line isn't done. To the layers above, on every machine:
//! 1. The session stays well formed (`formed`), and of what it keeps the world alone may be another, or the moment (`alone`).
//! 2. A line that isn't done is refused, or no memory was left for its text (`stops`). Then `settime` leaves the moment as it was (`left`).
//!
//! And where the machine is modelled:
//! 3. The answer, once its reply is given, is a turn of the session for its line, from each state for which what the session keeps is right
//!    (`turns`): the refusals in their order, the text, and the memory, the level or the moment after it. Nothing is written.
//!
//! Not promised: that memory is left for a text. A line whose text finds none is answered by Memory, and what it changed stays.
#![tactic(auto)]

mod block;
mod counterjunta;
mod fetch;
mod junta;
mod moment;
mod store;
mod unblock;
mod words;

pub use block::take_block;
pub use counterjunta::restore_levels;
pub use fetch::fetch_word;
pub use junta::remove_levels;
pub use moment::set_time;
pub use store::store_word;
pub use unblock::return_block;
