//! Pack files, the machine over one or two of them, and the words that a program is started with.
//!
//! Come here for pack files and their layout, the calls that are made of them, and the words of the command line.
//!
//! Below it stand alto_words and disk_records. A drive's file is its sectors in the order of their virtual addresses, as bytes; a pack
//! has a file for each of its one or two drives. To the layers above:
//! 1. A pack has one file, and a file is one pack's: what `encode_pack` writes `decode_pack` reads back, and the other way round; and so
//!    of the two files of two drives, by `encode_two` and `decode_two` (`laws`).
//! 2. `decode_pack` refuses a file for its length if and only if that isn't the length of 2 to 406 cylinders (`IsImageErrorAt`), and
//!    `decode_two` two files for the first such length, or for two lengths that differ (`IsErrorOfTwo`).
//! 3. `start_of` takes exactly the command lines `[--cylinders C] [--second PACK2] PACK WORDS` with C from 2 to 406 (`start`).
//! 4. A pack file belongs to one process that may write it, or to some that read it alone, as long as their machines are there (`reach`,
//!    `reach_to_read`, `create`): whoever comes too late is told InUse, and whoever takes no lock isn't hindered. That a machine over files
//!    that are there has their locks is a clause (`locked`); what a lock does is the outside's, and tested.
//! 5. `FileMachine` meets what disk_records asks of every machine: a fault is answered only where the count of its own device rose, at
//!    each other answer that count is as it was, and a mismatch comes only for a record that was to be checked.
//!
//! `FileMachine` is the edge to the outside. What a real file, terminal or pipe does is trusted and not proved, so it isn't modelled:
//! no clause speaks of what it reads or shows. Proved are which drive's file a command goes to and where in it (`drive_of`), that the
//! other drive's file isn't touched by a command that reads, and holds nothing back after one that writes (`obey`), and of each step of a
//! command ahead of its write, by itself, where it goes in the file, which bytes it asks for and keeps (`seek_to_cylinder`,
//! `read_cylinder`, `seek_to`, `read_front`), over any file whose position and bytes are known. Of the bytes that are held back on their way
//! to a file it is proved which they are for each place of it (`Puts`, `HoldsAll`), which may join them so that one call writes all in order
//! (`IsLater`), that the write of a sector puts exactly its bytes where the file stands (`write_back`: `TakesSector`), and that none are held
//! after a flush that answers Ok. Of the sectors that are kept in memory it is proved what a command reads of them, and that they are what
//! memory holds after each command, also after one that writes (`ObeysKept`) and after the call that reads one of them (`LooksKept`). Of the
//! texts that are held back on their way to the display it is proved which bytes they are after each that is shown (`TakesText`), and that
//! none are held after a call that fails or a flush of the display that answers Ok; of `settle`, that after an Ok no file was written since the device
//! was last asked for it (`IsSettled`); and of keys, that none are waited for while texts are held back, unless a line is known to be there
//! whole (`waits`). That a command takes these steps in this order, and when what is held back is handed on, is tested.
#![tactic(auto)]

mod codec;
mod command;
mod drives;
mod error;
mod held;
mod kept;
pub mod laws;
mod locks;
mod machine;
mod pair;
mod placed;
mod reach;
mod records;
mod spot;
mod start;
mod table;
mod texts;

pub use codec::{decode_pack, encode_pack};
pub use error::{ImageError, ReachError};
pub use locks::Lockable;
pub use machine::FileMachine;
pub use pair::{decode_two, encode_two};
pub use start::{Start, start_of};
