// What no contract shows: the fields of a table, taken apart, over a pack with more rows than a window.
ghost use Rattle.std.specs.Prelude.{◌<◌};

use super::{Table, sweep};
use crate::Row;
use alto_words::Fid;
use disk_memory::SureMachine;
use disk_records::{Page, Sector, Shape};
use std::alloc::{AllocError, Global};
use std::test::Fail;

/// The sectors of a model 31 drive that carry pages, from sector 1 on.
const ROWS: u16 = 1295;

/// The pages of each of the five files on it: the leader and 258 more.
const PAGES: u16 = 259;

/// The row of this number, from 0 on. They lie on the drive in falling order.
fn row(number: u16) -> Row
    requires { number < 1295 }
{
    Row {
        page: Page {
            fid: Fid {
                high: 0,
                low: 3 + number / PAGES,
                version: 1,
            },
            number: number % PAGES,
        },
        at: ROWS - number,
        bytes: 512,
    }
}

/// The label of the sector at this address: that of a row, or a free one.
fn label(at: u16) -> [u16; 8] {
    if at < 1 || at > ROWS {
        return [0xFFFF; 8];
    }
    let Page { fid, number } = row(ROWS - at).page;
    [0xFFFF, 0xFFFF, 0, 512, number, 1, 0, fid.low]
}

/// The sectors of the drive.
fn sectors(alloc: Global, shape: Shape) -> Result<Vec<Sector>, AllocError> {
    let mut sectors = Vec::new(alloc);
    for at in 0..shape.pages() {
        sectors.push(Sector {
            header: [1, shape.real_of(at)],
            label: label(at),
            value: [0; 256],
        })?;
    }
    Ok(sectors)
}

/// Takes a table apart by all its fields: the numbers of items and of bad sectors; the first item, the last one and the bound.
fn parts(table: &Table) -> ([usize; 2], [Option<Row>; 3]) {
    let Table { window, bound, bad } = table;
    let items = window.as_slice();
    (
        [items.len(), usize::from(*bad)],
        [items.first().copied(), items.last().copied(), *bound],
    )
}

#[test]
fn a_table_holds_a_window_alone(rt: HostRuntime) -> Result<(), Fail> {
    let alloc = rt.alloc();
    let shape = Shape::new(1, 203).ok_or("no model 31")?;
    let mut machine = SureMachine::new(alloc, shape, sectors(alloc, shape)?, Vec::new(alloc))?;
    let mut table = sweep(alloc, &mut machine)?;
    assert_eq!(rt;
        parts(&table),
        ([1024, 0], [Some(row(0)), Some(row(1023)), Some(row(1023))])
    );
    assert_eq!(rt; table.advance(&mut machine)?, true);
    assert_eq!(rt; table.rows().len(), 271);
    let (items, [first, _, bound]) = parts(&table);
    assert_eq!(rt; items, [1024, 0]);
    assert_eq!(rt; [first, bound], [Some(row(1024)), Some(row(1294))]);
    assert_eq!(rt; table.advance(&mut machine)?, false);
    assert_eq!(rt; table.rows().len(), 0);
    Ok(())
}
