//! What a pack means: definitions alone.
//!
//! Come here when you write a contract that speaks of files, names, operations, sessions or the states of a pack, or doubt what one says.
//!
//! Below it stand alto_words and disk_records. It has no function: its definitions are what the contracts of all layers
//! above cite, and what a reader of the project must believe. docs/model.md tells them in plain words.
//! They read upwards: a sector shows a *sight*, which has no link and no other hint in it (`Sights`); of several sectors that carry
//! one page the lowest counts, and so a file has a leader and bytes (`Files`, `Stored`); a directory's words are slots (`Slots`), of
//! which one scan keeps entries (`Namings`), and of which an operand means one by its name and version (`Versions`); that is the
//! *model* of a pack (`Model`), and what it shows (`View`, `Settling`, `Listing`). Operations change a model (`Rooms`, `Step`); they are
//! lists of record writes (`Operations`, `Committing`, over `PageWords` and `Commands`). Typed bytes are lines (`Lines`); record writes
//! make moves of a model (`Moves`), a session is a list of turns (`Turns`), and each crash point of it stands for a model (`Meanings`);
//! operations are counted (`Tallies`). A pack can be whole, tidy, sound and clean (`Whole`, `Sentences`, `Sound`); its hints can be true,
//! handy or misleading (`Links`, `Tables`, `Truth`, `Handy`, `HintWords`, `Misled`). The Scavenger needs sectors and keeps what is shown
//! (`InUse`, `Mended`, `Needed`, `Scavenging`, `Reports`). `Descriptor` and `Format` are the words of DiskDescriptor and of a new pack.
#![tactic(auto)]
