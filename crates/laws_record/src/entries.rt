//! The laws of an entry that comes into a directory, on any pack.

ghost use Rattle.laws_record.specs.EnterLaws.{EntryIsTheStep, NextNameThatSettlingGives};

/// On any pack the write of an entry's first words is the entering, if its file lives, it fits, neither file nor name is entered in the
/// model yet, and the room is the one that is found.
pub fn entry_is_the_step()
    ensures { EntryIsTheStep }
{}

/// The entry that gives the first nameless file the name that settling gives it leaves what is shown.
pub fn next_name_that_settling_gives()
    ensures { NextNameThatSettlingGives }
{}
