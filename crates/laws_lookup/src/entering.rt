//! What a caller knows before it enters a name.

ghost use Rattle.laws_lookup.specs.EnteringLaws.{ApartEntryFits, ApartEntryMayBeEntered};

/// On a whole pack an entry that clashes with none fits, of a file that is no system file, and of a directory in SysDir alone.
pub fn apart_entry_fits()
    ensures { ApartEntryFits }
{}

/// On a whole pack an entry that clashes with none may be entered, if its file lives.
pub fn apart_entry_may_be_entered()
    ensures { ApartEntryMayBeEntered }
{}
