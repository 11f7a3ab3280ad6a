//! The name that a new entry gets; and what stays known of a directory's slots, and of names that are free in it, over the operations
//! of a line.

ghost use Rattle.laws_lookup.specs.NewNameLaws.{NewNameIsAbsent, NewNameIsAbsentInTheModel, SlotsHaveStoredNames};
ghost use Rattle.laws_lookup.specs.NameStayLaws.{OpenNameStaysOpen, SlotsStay};

/// On any model an operation that changes no slot of a directory leaves its slots.
pub fn slots_stay()
    ensures { SlotsStay }
{}

/// On any model a name that is open to a file in a directory is open to it after each operation that doesn't enter the name there.
pub fn open_name_stays_open()
    ensures { OpenNameStaysOpen }
{}

/// The entries in any words have stored names.
pub fn slots_have_stored_names()
    ensures { SlotsHaveStoredNames }
{}

/// Among slots with stored names no entry has the name that a new one gets, and it is a stored name.
pub fn new_name_is_absent()
    ensures { NewNameIsAbsent }
{}

/// In a living directory of a tidy pack no entry has the name that a new one gets.
pub fn new_name_is_absent_in_the_model()
    ensures { NewNameIsAbsentInTheModel }
{}
