//! The table in memory over a line: sectors are reserved, claimed and released.

ghost use Rattle.laws_hint.specs.TableLaws.{OperationsUseTheTable, ReservedInAnyOrder, ReservingKeepsTheTable, TableWithoutReserved};

/// A true table with the sectors that are reserved busy has them reserved; if none was it is true still.
pub fn reserving_keeps_the_table()
    ensures { ReservingKeepsTheTable }
{}

/// The order in which sectors are reserved is no matter.
pub fn reserved_in_any_order()
    ensures { ReservedInAnyOrder }
{}

/// After an operation that claims some of the reserved sectors and releases others that weren't free, the table with the claimed ones busy
/// and the released ones free has the rest reserved.
pub fn operations_use_the_table()
    ensures { OperationsUseTheTable }
{}

/// A table is the true one if and only if no sector is reserved in it.
pub fn table_without_reserved()
    ensures { TableWithoutReserved }
{}
