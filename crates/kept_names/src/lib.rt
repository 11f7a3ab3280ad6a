//! Which names of files are kept, and which names nameless files get.
//!
//! Come here when you go through the entries of directories by the rule of the one scan, as the reading of a pack does. Below it stand
//! alto_words and the definitions of pack_model. It has no disk. To the layers above:
//! 1. `Names` are entries that are kept of files that are shown, each of another file. They stand for the homes of these files, as the
//!    definitions have them (`StandsFor`).
//! 2. `consider` keeps an entry if its file lives and has none yet, and its name is free in its directory; directories stand in SysDir
//!    alone, and the names of the system files there are theirs (`names`). It answers whether it kept the entry (`kept`).
//! 3. `adopt` gives a file that has no name its leader's name in SysDir, or the first suffix of it that isn't taken (`names`), and answers
//!    the name that it gave (`given`). `Passed` has the suffixes that are known to be taken, so that they aren't asked for again
//!    (`passed`).
//!
//! Not promised: anything on the entries of the two system files, which no list of names shows. They are never kept here, and who
//! writes them keeps them apart.
#![tactic(auto)]

mod adopting;
mod choosing;
mod groups;
mod names;
mod passed;
mod standing;
mod system;

pub use adopting::adopt;
pub use names::{Entry, Names, QualifiedName};
pub use passed::Passed;
pub use standing::consider;
pub use system::{is_system, is_system_name, is_text};
