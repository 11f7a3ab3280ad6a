//! Calls by their guarded commands.

ghost use Rattle.laws_guard.specs.GuardedCalls.{GuardedCallOperates, GuardedCallReleases, GuardedWrites, LookBeforeOperates, NextPart};

/// A guarded command writes a prefix of its record writes, at Ok all of them, and is out of memory only if fewer events were kept ready.
pub fn guarded_writes<T>()
    ensures { GuardedWrites T }
{}

/// A guarded command for the next part of a list of record writes: for every answer there is a prefix of the list, and at Ok all of the
/// part.
pub fn next_part()
    ensures { NextPart }
{}

/// A call that ends with a guarded command for a part of an operation's record writes, with those before it done, is one that is to do it.
pub fn guarded_call_operates<T, E>()
    ensures { GuardedCallOperates T E }
{}

/// The answer of a guarded command for a part of the releases of a drop makes that of the call.
pub fn guarded_call_releases<T, E>()
    ensures { GuardedCallReleases T E }
{}

/// A call that looks first, and is then to do an operation, is to do it from its beginning.
pub fn look_before_operates<T, E>()
    ensures { LookBeforeOperates T E }
{}
