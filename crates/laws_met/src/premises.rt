//! One pack that meets the premises of operations, and lines of each kind that are run.

ghost use Rattle.laws_met.specs.Lookups.{LookupsAreMet};
ghost use Rattle.laws_met.specs.Premises.{LinesOfEachKindRun, PremisesAreMet, PremisesAreMetInLines, SessionCloses};

/// On a small sound pack with true links and an open mark, with a file of two pages and a directory with an entry, the premises of each
/// operation on a file or a directory that is there are met.
pub fn premises_are_met()
    ensures { PremisesAreMet }
{}

/// In a line the premises of a make are met after its new serial, and those of an entering after the make and after an entry that went.
pub fn premises_are_met_in_lines()
    ensures { PremisesAreMetInLines }
{}

/// On the same pack an entry is the one that its name means, no entry has another name, and bytes may be put within a file: all that is known so
/// still after other operations.
pub fn lookups_are_met()
    ensures { LookupsAreMet }
{}

/// Lines of each kind run: that make a file in SysDir, a directory, and a file in it; that change files; by which one goes; that rename
/// one, into another directory and within its own.
pub fn lines_of_each_kind_run()
    ensures { LinesOfEachKindRun }
{}

/// The session of these lines closes, and leaves the pack clean and sound with all hints true.
pub fn session_closes()
    ensures { SessionCloses }
{}
