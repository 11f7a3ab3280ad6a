//! The small values that every layer speaks of: full names of files, names with versions, lists, numbers in
//! text.
//!
//! Come here for a full name, a name with its version, an operand's name, a character of a name, or a
//! number or bytes in text.
//!
//! Nothing stands below it. A `Fid` is seen as the record of its fields, a `List` as the list of its items,
//! a `Name` as the list of its bytes, a `Wanted` as itself. The `laws` hold of names and of numbers in text.
#![tactic(auto)]

mod characters;
mod fid;
pub mod laws;
mod list;
mod memory;
mod name;
mod numbers;
mod text;
mod version;
mod wanted;

pub use characters::is_name_character;
pub use fid::Fid;
pub use list::List;
pub use memory::Memory;
pub use name::Name;
pub use numbers::{HexError, push_hex, push_number, put_hex, read_hex, read_number};
pub use wanted::Wanted;

#[cfg(test)]
mod tests;
