//! Machines in memory, for programs without a drive and for tests.
//!
//! Below it stand alto_words and disk_records. Both machines are modelled: each is seen as its tape, a record of the sectors
//! that it began with, the events since then, the keys left and the counts. `SureMachine` never fails: its counts of
//! faults are the constant 0, so no fault is ever answered over it (`no_fault_of_sure_machine`). `MemMachine` holds one,
//! and its calls fail if and only if they are set to; only a sector command that is to fail may answer Memory instead,
//! where there is none for the record writes that it makes first. Either can be cut: the cut machine has the sectors as
//! they stood after a prefix of the events; and either tells which record write comes after the first k (`next_write`).
#![tactic(auto)]

mod block;
mod command;
mod error;
mod events;
mod laws;
mod mem;
mod sure;

pub use error::NewError;
pub use laws::no_fault_of_sure_machine;
pub use mem::MemMachine;
pub use sure::SureMachine;

#[cfg(test)]
mod tests;
