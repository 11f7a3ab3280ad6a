//! The tally over the calls of a line.

ghost use Rattle.laws_call.specs.CountLaws.{CallIsCounted, CallIsCountedOn, CountOfACall, QuietCallIsCounted, ReleasesAreCounted};

/// The tally after a call is that of the line's moves so far, and of as many of the operation as the call made record writes.
pub fn call_is_counted<T, E>()
    ensures { CallIsCounted T E }
{}

/// A machine whose count is that of its events counts the record writes of each call.
pub fn count_of_a_call()
    ensures { CountOfACall }
{}

/// Count and tally are those of the line's moves so far after a call that does an operation, if they were before it.
pub fn call_is_counted_on<T, E>()
    ensures { CallIsCountedOn T E }
{}

/// Count and tally are those of the line's moves so far after the releases of a drop, if they were before it.
pub fn releases_are_counted<T, E>()
    ensures { ReleasesAreCounted T E }
{}

/// Count and tally are those of the line's moves so far after a call that makes quiet moves alone, if they were before it.
pub fn quiet_call_is_counted()
    ensures { QuietCallIsCounted }
{}
