// What holds of rows and passes: each law is what the function of its name ensures. The functions do nothing.
ghost use Rattle.scav_table.specs.Laws.{FirstIsLeast, RowsAreSectors, RowsRise, RowsAfterNext, WindowsJoin, WindowsAreRows, RowsAboveStay, PassGoesOn, PassGoesOnOver};

/// The row that a pass gives next is the first above the row in hand, of those of all sectors.
pub fn first_is_least()
    ensures { FirstIsLeast }
{}

/// The rows of a pack are those of its sectors from 1 on that carry a page.
pub fn rows_are_sectors()
    ensures { RowsAreSectors }
{}

/// The rows of a pack rise, so they are distinct.
pub fn rows_rise()
    ensures { RowsRise }
{}

/// The rows above the next one are those after it.
pub fn rows_after_next()
    ensures { RowsAfterNext }
{}

/// A window and what comes after it are all rows above the bound.
pub fn windows_join()
    ensures { WindowsJoin }
{}

/// Windows one after another from the first, up to an empty one, are all rows of a pack in their order.
pub fn windows_are_rows()
    ensures { WindowsAreRows }
{}

/// A record write at or below a bound leaves the rows above it.
pub fn rows_above_stay()
    ensures { RowsAboveStay }
{}

/// A pass goes on as before over a pack that is written at or below the row in hand, so each row above it comes once.
pub fn pass_goes_on()
    ensures { PassGoesOn }
{}

/// A pass goes on as before over a pack that is alike except in a sector at or below the row in hand, whatever was written there.
pub fn pass_goes_on_over()
    ensures { PassGoesOnOver }
{}
