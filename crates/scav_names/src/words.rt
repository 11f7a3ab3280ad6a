// Single words of directories, written in one pass along all rows.
ghost use Rattle.std.specs.Prelude.{◌≡◌, ◌+◌, ◌/◌, ◌%◌, ◌<◌, ◌≤◌, length, take, drop, not, nat_eq, IsTrue, IfOk, OnOk, Some};
ghost use Rattle.std.specs.Cmp.Lexicographic.{pointwise};
ghost use Rattle.disk_records.specs.Addresses.{pages_of};
ghost use Rattle.disk_records.specs.Causes.{HasCause};
ghost use Rattle.disk_records.specs.Frames.{WritesUsable};
ghost use Rattle.disk_records.specs.Packs.{carried};
ghost use Rattle.disk_records.specs.Tapes.{DiskAlone, pack};
ghost use Rattle.pack_model.specs.reading.Bytes.{put_at};
ghost use Rattle.scav_pages.specs.Stops.{cause_of_stop};
ghost use Rattle.scav_pages.specs.Links.{WritesPage};
ghost use Rattle.scav_pages.specs.Walks.{IsSeated};
ghost use Rattle.scav_names.specs.Words.{AreWordsOf, IsInWords, WritesInPage, WritesPageWords, WritesWords, changed_writes, page_writes, page_with};

use alto_words::Fid;
use disk_records::{Disk, Page, Sector};
use label_check::{read_page, write_value};
use scav_pages::{Stop, next_row};
use scav_table::{Pass, Row, Table};

/// The words of a page.
pub(crate) const PAGE_WORDS: u32 = 256;

/// A word of a directory, and what it is to be.
#[derive(Clone, Copy)]
pub(crate) struct DirWord {
    /// The directory.
    pub(crate) dir: Fid,
    /// The word's place in it, counted from 0.
    pub(crate) place: u32,
    /// What stands there afterwards.
    pub(crate) word: u16,
}

/// The page of a directory with this word. None if no page has a number for it, which comes of no word that was read.
pub(crate) fn page_with(dir: Fid, place: u32) -> Option<Page>
    ensures page { result ≡ page_with dir place }
    ensures words { IsInWords dir }
{
    match u16::try_from(place / PAGE_WORDS + 1) {
        Ok(number) => Some(Page { fid: dir, number }),
        Err(_) => None,
    }
}

/// Puts words in the place of others in the value of a page, from this word of it on: one value write, and none if they stand there.
pub(crate) fn put_words<D: Disk>(
    disk: &mut D,
    at: u16,
    page: Page,
    from: u32,
    words: &[u16],
) -> Result<(), Stop>
    requires first { 1 ≤ at }
    requires place { at < pages_of (D.tape disk.old).form }
    requires fits { from + length words.now ≤ 256 }
    ensures writes { IsTrue D.told → carried (pack (D.tape disk.old)) at ≡ Some page → WritesPageWords (page_writes (pack (D.tape disk.old)) at from words.now) (D.tape disk.old) (D.tape disk.new) result }
    ensures cause { HasCause cause_of_stop (D.tape disk.old) (D.tape disk.new) result }
    ensures frame { WritesUsable D.told (D.tape disk.old) (D.tape disk.new) }
    ensures alone { DiskAlone (D.tape disk.old) (D.tape disk.new) }
{
    let mut buf = Sector::ZEROS;
    read_page(disk, at, page, &mut buf)?;
    if put_in_value(&mut buf.value, from as usize, words) {
        write_value(disk, at, page, &buf.value)?;
    }
    Ok(())
}

/// Puts words in the place of others in the value of a page, from this word of it on. Answers whether others stood there.
fn put_in_value(value: &mut [u16; 256], from: usize, words: &[u16]) -> bool
    requires fits { from + length words.now ≤ 256 }
    ensures changed { result ≡ not (pointwise nat_eq (take (length words.now) (drop from value.old)) words.now) }
    ensures value { value.new ≡ put_at from words.now value.old }
{
    let old = &mut value[from..from + words.len()];
    let same = *old == *words;
    old.copy_from_slice(words);
    !same
}

/// Writes a page's value, given the one that stands there: one value write, and none if they are equal.
pub(crate) fn put_value<D: Disk>(
    disk: &mut D,
    at: u16,
    page: Page,
    old: &[u16; 256],
    new: &[u16; 256],
) -> Result<(), Stop>
    requires first { 1 ≤ at }
    requires place { at < pages_of (D.tape disk.old).form }
    ensures writes { IsTrue D.told → carried (pack (D.tape disk.old)) at ≡ Some page → WritesPageWords (changed_writes at old.now new.now) (D.tape disk.old) (D.tape disk.new) result }
    ensures cause { HasCause cause_of_stop (D.tape disk.old) (D.tape disk.new) result }
    ensures frame { WritesUsable D.told (D.tape disk.old) (D.tape disk.new) }
    ensures alone { DiskAlone (D.tape disk.old) (D.tape disk.new) }
{
    if *old != *new {
        write_value(disk, at, page, new)?;
    }
    Ok(())
}

/// Writes those of these words from the one numbered `done` on that stand in the page of a row. Answers how many are done then.
fn write_in_page<D: Disk>(
    disk: &mut D,
    row: &Row,
    words: &[DirWord],
    done: usize,
) -> Result<usize, Stop>
    requires first { 1 ≤ row.now.at }
    requires place { row.now.at < pages_of (D.tape disk.old).form }
    requires within { done ≤ length words.now }
    ensures writes { IsTrue D.told → IsSeated (pack (D.tape disk.old)) row.now → WritesInPage words.now done row.now (D.tape disk.old) (D.tape disk.new) result }
    ensures wrote { IsTrue D.told → carried (pack (D.tape disk.old)) row.now.at ≡ Some row.now.page → OnOk result (WritesPage row.now.at row.now.page (pack (D.tape disk.old)) (pack (D.tape disk.new))) }
    ensures within { IfOk result (λ more. (done ≤ more) × (more ≤ length words.now)) }
    ensures cause { HasCause cause_of_stop (D.tape disk.old) (D.tape disk.new) result }
    ensures frame { WritesUsable D.told (D.tape disk.old) (D.tape disk.new) }
    ensures alone { DiskAlone (D.tape disk.old) (D.tape disk.new) }
{
    let mut more = done;
    while more < words.len() && page_with(words[more].dir, words[more].place) == Some(row.page) {
        let word = words[more];
        put_words(
            disk,
            row.at,
            row.page,
            word.place % PAGE_WORDS,
            &[word.word],
        )?;
        more += 1;
    }
    Ok(more)
}

/// Writes these words of directories, which rise by directory and place, in one pass along all rows: one value write each, none for a word
/// that stands there, and no pass for no words.
pub(crate) fn write_words<D: Disk>(
    disk: &mut D,
    table: &mut Table,
    words: &[DirWord],
) -> Result<(), Stop>
    ensures writes { IsTrue D.told → AreWordsOf (pack (D.tape disk.old)) words.now → WritesWords words.now (D.tape disk.old) (D.tape disk.new) result }
    ensures cause { HasCause cause_of_stop (D.tape disk.old) (D.tape disk.new) result }
    ensures frame { WritesUsable D.told (D.tape disk.old) (D.tape disk.new) }
    ensures alone { DiskAlone (D.tape disk.old) (D.tape disk.new) }
{
    if words.is_empty() {
        return Ok(());
    }
    let mut pass = Pass::begin(disk, table)?;
    let mut done = 0;
    while let Some(row) = next_row(disk, table, &mut pass)? {
        done = write_in_page(disk, &row, words, done)?;
    }
    Ok(())
}
