// Pages that aren't in use.
ghost use Rattle.std.specs.Prelude.{◌≡◌, ◌<◌, ◌≤◌, Some, Option, IsTrue, IfOk, IfSome};
ghost use Rattle.disk_records.specs.Addresses.{pages_of};
ghost use Rattle.disk_records.specs.Causes.{HasCause};
ghost use Rattle.disk_records.specs.Frames.{WritesUsable};
ghost use Rattle.disk_records.specs.Packs.{Pack};
ghost use Rattle.disk_records.specs.Tapes.{DiskAlone, pack};
ghost use Rattle.pack_model.specs.states.InUse.{counts};
ghost use Rattle.pack_model.specs.reading.Sights.{sights};
ghost use Rattle.pack_model.specs.sessions.Descriptor.{data_pages};
ghost use Rattle.scav_table.specs.declared.row.Row.{Row};
ghost use Rattle.scav_table.specs.Laws.{IsFirstAbove};
ghost use Rattle.scav_pages.specs.Does.{Does};
ghost use Rattle.laws_mend.specs.Parts.{Ended};
ghost use Rattle.scav_pages.specs.Parts.{UnusedReleased};
ghost use Rattle.scav_pages.specs.Stops.{cause_of_stop};
ghost use Rattle.scav_pages.specs.Walks.{Walked};

use crate::descriptor::data_pages;
use crate::errors::Stop;
use crate::files::{FileWalk, Met};
use crate::rows::next_row;
use alto_words::Fid;
use disk_records::{Disk, Page};
use label_check::release;
use scav_table::{Pass, Row, Table};

/// The leader page of SysDir.
pub(crate) const ROOT: Page = Page {
    fid: Fid::SYS_DIR,
    number: 0,
};

/// What is found while pages that aren't in use are released.
#[derive(Clone, Copy, Drop)]
pub(crate) struct Unused {
    /// How many they were.
    pub(crate) freed: u32,
    /// The sector of SysDir's leader page.
    pub(crate) root: Option<u16>,
}

/// Releases each page that isn't in use, of a pack on which no page is carried twice and each directory ends with its slots.
pub(crate) fn release_unused<D: Disk>(disk: &mut D, table: &mut Table) -> Result<Unused, Stop>
    ensures does { IsTrue D.told → Ended (pack (D.tape disk.old)) → Does UnusedReleased (D.tape disk.old) (D.tape disk.new) result }
    ensures place { IfOk result (λ unused. IfSome unused.root (λ at. (1 ≤ at) × (at < pages_of (D.tape disk.old).form))) }
    ensures cause { HasCause cause_of_stop (D.tape disk.old) (D.tape disk.new) result }
    ensures frame { WritesUsable D.told (D.tape disk.old) (D.tape disk.new) }
    ensures alone { DiskAlone (D.tape disk.old) (D.tape disk.new) }
{
    let mut pass = Pass::begin(disk, table)?;
    let most = data_pages(disk.shape());
    let mut walk = FileWalk::new();
    let mut unused = Unused {
        freed: 0,
        root: None,
    };
    while let Some(row) = next_row(disk, table, &mut pass)? {
        if !is_used(&mut walk, &row, most) {
            release(disk, row.at, row.page)?;
            unused.freed = unused.freed.saturating_add(1);
        } else if row.page == ROOT {
            unused.root = Some(row.at);
        }
    }
    Ok(unused)
}

/// Takes the next row, and answers whether its page is in use. DiskDescriptor has this many data pages.
fn is_used(walk: &mut FileWalk, row: &Row, most: u16) -> bool
    ensures walked { (p : Pack) (last : Option Row) → Walked p last walk.old → IsFirstAbove p last row.now → Walked p (Some row.now) walk.new }
    ensures used { (p : Pack) (last : Option Row) → Ended p → most ≡ data_pages p.shape → Walked p last walk.old → IsFirstAbove p last row.now → result ≡ counts p.shape (sights p) row.now.page.fid row.now.page.number }
{
    let met = walk.meet(row);
    let is_within = if row.page.fid == Fid::DISK_DESCRIPTOR {
        row.page.number <= most
    } else {
        met != Met::Past
    };
    walk.lives() && is_within
}
