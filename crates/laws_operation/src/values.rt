//! Any values of sectors, with their labels as they were.

ghost use Rattle.laws_operation.specs.FreeLaws.{ValuesLeaveFreeSectors};
ghost use Rattle.laws_operation.specs.OnceLaws.{ValuesCarryOnce};
ghost use Rattle.laws_operation.specs.WordLaws.{LabelWithAnotherCount};

/// A label with another count and another next link names the page that it named, and counts so many bytes.
pub fn label_with_another_count()
    ensures { LabelWithAnotherCount }
{}

/// On a whole pack no two sectors carry one page at every crash point of any values.
pub fn values_carry_once()
    ensures { ValuesCarryOnce }
{}

/// After values, wherever they are written, the same sectors of any pack are free.
pub fn values_leave_free_sectors()
    ensures { ValuesLeaveFreeSectors }
{}
