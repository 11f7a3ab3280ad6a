//! Typed lines: what each text asks for, and the texts of replies.
//!
//! Come here when you add a verb, an operand, a refusal or a text to the typed lines.
//!
//! Below it stand alto_words, disk_records and pack_model's definitions. No call here is given a disk, keys or the display. To the layers
//! above:
//! 1. `read_line` answers exactly the line that a text is by the grammar, and `Bad` if and only if it is none. The grammar is one table, a
//!    verb with its operands in each row (`Grammar`).
//! 2. Each line that can be typed is read from some text, and no other line from any (`laws`). `is_typed` tells which can be.
//! 3. `reply_text` answers exactly the text of a reply, and the calls beside it those of lines that are done (`Texts`).
//! 4. `is_built` tells which lines this program obeys: those on files and directories, those on the memory, `free`, `settime` and `quit`.
//!    `as_built` makes every other a bad line.
//! Not promised: that memory is left for the bytes of a line, or for a text; how long anything takes.
#![tactic(auto)]

mod built;
mod cut;
pub mod laws;
mod line;
mod operand;
mod push;
mod read;
mod refusal;
mod reply;
mod texts;
mod typed;

pub use alto_words::Wanted;
pub use built::{as_built, is_built};
pub use disk_records::Place;
pub use line::{Line, Path, Target};
pub use read::read_line;
pub use refusal::reply_text;
pub use reply::{Refusal, Reply, Stat};
pub use texts::{
    at_text, done_text, free_text, got_text, length_text, level_text, made_text, names_text,
    not_written_text, report_text, stat_text, stream_text, type_text, word_text, written_text,
};
pub use typed::is_typed;
