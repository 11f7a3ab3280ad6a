//! The premises of a session are met on the pack that formatting writes, of any shape.

ghost use Rattle.laws_met.specs.First.{FormattedPackTakesALine};

/// On the pack that formatting writes hints are true with the map of its free sectors, a line may widen SysDir, and a session may end.
pub fn formatted_pack_takes_a_line()
    ensures { FormattedPackTakesALine }
{}
