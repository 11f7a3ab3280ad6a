// Values of DiskDescriptor's pages, written where its descriptor says that they are.
ghost use Rattle.std.specs.Prelude.{◌≡◌, ◌+◌, ◌<◌, ◌≤◌, ◌∷◌, IsOk, IsTrue, [], length};
ghost use Rattle.disk_records.specs.Addresses.{pages_of};
ghost use Rattle.disk_records.specs.Causes.{HasCause};
ghost use Rattle.disk_records.specs.Causes.Cause.{never};
ghost use Rattle.disk_records.specs.Commands.{value_writes};
ghost use Rattle.disk_records.specs.Packs.{sector_at};
ghost use Rattle.disk_records.specs.Tapes.{DiskAlone, pack};
ghost use Rattle.pack_model.specs.reading.Bytes.{put_at};
ghost use Rattle.disk_descriptor.specs.Answers.{cause_of, error_at};
ghost use Rattle.disk_descriptor.specs.Writing.{GuardsPage, Writes, WritesOwn, data_page};

use crate::DescError;
use crate::words::put;
use alto_words::Fid;
use disk_records::{Disk, Page, Sector};
use label_check::{GuardError, read_page, write_value};

/// DiskDescriptor's page with this number.
fn page_of_descriptor(number: u16) -> Page
    ensures { result ≡ data_page number }
{
    Page {
        fid: Fid::DISK_DESCRIPTOR,
        number,
    }
}

/// The answer of a call whose guarded command on the sector at this address has this one.
fn error_at(at: u16, error: GuardError) -> DescError
    ensures { result ≡ error_at at error }
{
    match error {
        GuardError::Wrong { found } => DescError::Held { at, found },
        GuardError::DiskFault => DescError::DiskFault,
        GuardError::Memory => DescError::Memory,
    }
}

/// Writes the value of DiskDescriptor's page with this number, which the sector at the virtual address `at` is to carry. Two sector
/// commands, one record write.
pub(crate) fn write_page<D: Disk>(
    disk: &mut D,
    at: u16,
    number: u16,
    value: &[u16; 256],
) -> Result<(), DescError>
    requires first { 1 ≤ at }
    requires place { at < pages_of (D.tape disk.old).form }
    ensures writes { IsTrue D.told → Writes DescError.Memory (value_writes at value.now) 2 (D.tape disk.old) (D.tape disk.new) result }
    ensures guarded { IsTrue D.told → GuardsPage at number (D.tape disk.old) (D.tape disk.new) result }
    ensures cause { HasCause (cause_of never) (D.tape disk.old) (D.tape disk.new) result }
    ensures alone { DiskAlone (D.tape disk.old) (D.tape disk.new) }
{
    match write_value(disk, at, page_of_descriptor(number), value) {
        Ok(()) => Ok(()),
        Err(error) => Err(error_at(at, error)),
    }
}

/// Has the device take all that was written before anything that comes. DiskFault: it failed.
pub(crate) fn settle<D: Disk>(disk: &mut D) -> Result<(), DescError>
    ensures told { IsTrue D.told → IsOk result × (D.tape disk.new ≡ D.tape disk.old) }
    ensures cause { HasCause (cause_of never) (D.tape disk.old) (D.tape disk.new) result }
    ensures alone { DiskAlone (D.tape disk.old) (D.tape disk.new) }
{
    match disk.settle() {
        Ok(()) => Ok(()),
        Err(_) => Err(DescError::DiskFault),
    }
}

/// Puts words in the place of others in DiskDescriptor's first data page, which the sector at the virtual address `at` is to carry. Three
/// sector commands, one record write.
pub(crate) fn change_words<D: Disk>(
    disk: &mut D,
    at: u16,
    word: usize,
    words: &[u16],
) -> Result<(), DescError>
    requires first { 1 ≤ at }
    requires place { at < pages_of (D.tape disk.old).form }
    requires within { word + length words.now ≤ 256 }
    ensures guarded { IsTrue D.told → WritesOwn (at ∷ []) (value_writes at (put_at word words.now (sector_at (pack (D.tape disk.old)) at).value)) 3 (D.tape disk.old) (D.tape disk.new) result }
    ensures cause { HasCause (cause_of never) (D.tape disk.old) (D.tape disk.new) result }
    ensures alone { DiskAlone (D.tape disk.old) (D.tape disk.new) }
{
    let mut buf = Sector::ZEROS;
    match read_page(disk, at, page_of_descriptor(1), &mut buf) {
        Ok(_) => {
            put(&mut buf.value, word, words);
            write_page(disk, at, 1, &buf.value)
        }
        Err(error) => Err(error_at(at, error)),
    }
}

/// As `change_words`, and at Ok the device has taken it before anything that comes.
pub(crate) fn change_and_settle<D: Disk>(
    disk: &mut D,
    at: u16,
    word: usize,
    words: &[u16],
) -> Result<(), DescError>
    requires first { 1 ≤ at }
    requires place { at < pages_of (D.tape disk.old).form }
    requires within { word + length words.now ≤ 256 }
    ensures guarded { IsTrue D.told → WritesOwn (at ∷ []) (value_writes at (put_at word words.now (sector_at (pack (D.tape disk.old)) at).value)) 3 (D.tape disk.old) (D.tape disk.new) result }
    ensures cause { HasCause (cause_of never) (D.tape disk.old) (D.tape disk.new) result }
    ensures alone { DiskAlone (D.tape disk.old) (D.tape disk.new) }
{
    change_words(disk, at, word, words)?;
    settle(disk)
}

/// As `write_page`, as a pack is closed: when the page that has the mark is written, the device has taken all that was written before, and at
/// Ok the mark, before anything that comes.
pub(crate) fn write_closing<D: Disk>(
    disk: &mut D,
    at: u16,
    number: u16,
    value: &[u16; 256],
) -> Result<(), DescError>
    requires first { 1 ≤ at }
    requires place { at < pages_of (D.tape disk.old).form }
    ensures writes { IsTrue D.told → Writes DescError.Memory (value_writes at value.now) 2 (D.tape disk.old) (D.tape disk.new) result }
    ensures guarded { IsTrue D.told → GuardsPage at number (D.tape disk.old) (D.tape disk.new) result }
    ensures cause { HasCause (cause_of never) (D.tape disk.old) (D.tape disk.new) result }
    ensures alone { DiskAlone (D.tape disk.old) (D.tape disk.new) }
{
    if number > 1 {
        return write_page(disk, at, number, value);
    }
    settle(disk)?;
    write_page(disk, at, number, value)?;
    settle(disk)
}
