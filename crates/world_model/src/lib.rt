//! The memory of the machine, its zone and levels, and a world as a file: definitions alone.
//!
//! Come here when you write a contract of the memory: of a zone, a level or a world.
//!
//! Below it stands disk_records, for words and bytes. It has no function. The calls on zones and on levels cite these definitions, and
//! session_model cites them, and those of worlds, for what a session keeps beside its files.
//! They read upwards: a *block* is free or used; a zone is a row of blocks (`Zones`); which words a row of blocks is, and which row
//! some words are, is one relation, as is which words may be stored to (`ZoneWords`); the levels say where the zone ends in the memory, and
//! what they take and give back (`Levels`); a world is a level and a memory, and a state file has its words, or bytes have something against
//! them that are none (`StateFiles`). docs/model.md tells them in plain words.
//! Not said: how long anything takes, and whether memory is left for a copy of the words.
#![tactic(auto)]
