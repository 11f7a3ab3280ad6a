// The pages of DiskDescriptor as a pack is closed.
ghost use Rattle.std.specs.Prelude.{◌≡◌, ◌*◌, ◌≤◌, IsTrue, length, reverse};
ghost use Rattle.disk_records.specs.Addresses.{pages_of};
ghost use Rattle.disk_records.specs.Causes.{HasCause};
ghost use Rattle.disk_records.specs.Causes.Cause.{never};
ghost use Rattle.disk_records.specs.Tapes.{DiskAlone};
ghost use Rattle.pack_model.specs.operations.Commands.{values_writes};
ghost use Rattle.pack_model.specs.sessions.Descriptor.{closed_values, data_pages};
ghost use Rattle.disk_descriptor.specs.Answers.{cause_of};
ghost use Rattle.disk_descriptor.specs.Fields.{AreSectors};
ghost use Rattle.disk_descriptor.specs.Writing.{WritesOwn};

use crate::DescError;
use crate::values::descriptor_page;
use crate::writing::write_closing;
use disk_records::Disk;
use hint_cache::BitTable;

/// The mark of a pack that was closed.
pub(crate) const CLEAN: u16 = 1;

/// Writes DiskDescriptor's data pages, which these sectors are to carry, with the clean mark: from the last to the first, so that the mark
/// comes last. Two sector commands and one record write a page. The device has taken all that was written before when the mark is written,
/// and the mark at Ok.
///
/// Held: a sector doesn't carry its page; nothing was written there or for a page before it. DiskFault: the disk failed. Memory: no memory
/// was left for a record write. After each of them the pages after it are written. Spent never comes.
pub fn write_pages<D: Disk>(
    disk: &mut D,
    last: u32,
    pages: &[u16],
    table: &BitTable,
) -> Result<(), DescError>
    requires sized { length table.now ≡ pages_of (D.tape disk.old).form }
    requires many { length pages.now ≤ data_pages (D.tape disk.old).form }
    requires sectors { AreSectors (D.tape disk.old).form pages.now }
    ensures guarded { IsTrue D.told → WritesOwn pages.now (values_writes (reverse (closed_values (D.tape disk.old).form last table.now 0 pages.now))) (2 * length pages.now) (D.tape disk.old) (D.tape disk.new) result }
    ensures cause { HasCause (cause_of never) (D.tape disk.old) (D.tape disk.new) result }
    ensures alone { DiskAlone (D.tape disk.old) (D.tape disk.new) }
{
    let shape = disk.shape();
    let mut left = pages.len();
    while left > 0 {
        left -= 1;
        let number = left as u16 + 1;
        let value = descriptor_page(shape, last, CLEAN, table, number);
        write_closing(disk, pages[left], number, &value)?;
    }
    Ok(())
}
