// A row among the least ones so far.
ghost use Rattle.std.specs.Prelude.{◌≡◌, length, take};
ghost use Rattle.std.specs.List.Sorted.{IsNonDecreasingBy};
ghost use Rattle.scav_table.specs.Rows.{rank, placed};

use crate::Row;

/// Puts a row in its place. The greatest goes, be it this one.
pub(crate) fn insert(window: &mut [Row], row: Row)
    requires { IsNonDecreasingBy rank window.old }
    ensures { window.new ≡ take (length window.old) (placed row window.old) }
{
    let place = window.partition_point(|other| other.is_below(&row));
    if place < window.len() {
        window[place..].rotate_right(1);
        window[place] = row;
    }
}
