// One pass along all rows that reads leader pages and slots.
ghost use Rattle.std.specs.Prelude.{◌≡◌, ◌+◌, ◌*◌, ◌≤◌, [], ◌∷◌, ◌++◌, IsTrue, IfOk, OnOk, IsErrOf};
ghost use Rattle.disk_records.specs.Addresses.{pages_of};
ghost use Rattle.disk_records.specs.Causes.{HasCause};
ghost use Rattle.disk_records.specs.Tapes.{DiskAlone, added, pack};
ghost use Rattle.scav_pages.specs.Stops.{cause_of_stop};
ghost use Rattle.scav_names.specs.Catalogues.{AreSectors, HoldsNames};

use crate::catalogue::Catalogue;
use crate::living::read_living;
use alto_words::Fid;
use dir_slots::Walk;
use disk_records::{Disk, Sector};
use label_check::read_page;
use scav_pages::{FileWalk, Met, Stop, next_row};
use scav_table::{Pass, Row, Table};
use std::alloc::Global;

/// The file in hand, its slots if it is a directory, and what was read so far.
#[derive(Drop)]
pub(crate) struct Reading {
    pub(crate) walk: FileWalk,
    pub(crate) slots: Walk,
    pub(crate) catalogue: Catalogue,
    ghost few: { slots.place + slots.held ≤ 256 * walk.pages },
}

impl Reading {
    ghost use Rattle.std.specs.Prelude.{◌≡◌, ◌+◌, ◌*◌, ◌<◌, ◌≤◌, ◌&&◌, [], not, Option, Some, None, IsTrue, IsErrOf, OnOk};
    ghost use Rattle.alto_words.specs.Fid.{is_directory};
    ghost use Rattle.disk_records.specs.Addresses.{pages_of};
    ghost use Rattle.disk_records.specs.Causes.{HasCause};
    ghost use Rattle.disk_records.specs.Packs.{AreFormed, Pack, carried};
    ghost use Rattle.disk_records.specs.Tapes.{DiskAlone, Looks, added, pack};
    ghost use Rattle.scav_table.specs.declared.row.Row.{Row as RowOf};
    ghost use Rattle.scav_table.specs.Laws.{IsFirstAbove};
    ghost use Rattle.scav_pages.specs.Stops.{cause_of_stop};
    ghost use Rattle.scav_pages.specs.Walks.{AreWords, IsOtherFile};
    ghost use Rattle.scav_names.specs.Catalogues.{AreSectors, HoldsNames};
    ghost use Rattle.scav_names.specs.Readings.{HasReadTo, KeepsSector, ReadsLeader, ReadsPage};

    /// Nothing yet; it takes no memory.
    fn new(alloc: Global) -> Reading
        ensures start { (p : Pack) → AreFormed p → HasReadTo p None result }
        ensures none { result.catalogue.root_pages ≡ [] }
    {
        Reading {
            walk: FileWalk::new(),
            slots: Walk::new(),
            catalogue: Catalogue::new(alloc),
        }
    }

    /// Leaves the file in hand, if the next row is of another one.
    fn turn(&mut self, row: &Row)
        ensures read { (p : Pack) (last : Option RowOf) → HasReadTo p last self.old → AreWords row.now → IsFirstAbove p last row.now → HasReadTo p last self.new }
        ensures same { IsOtherFile self.new.walk row.now → ⊥ }
        ensures keeps { self.new.catalogue ≡ self.old.catalogue }
    {
        if self.walk.leaves(row) {
            self.walk = FileWalk::new();
            self.slots = Walk::new();
        }
    }

    /// Takes the next row, which is of the file in hand or the first of another: a leader page is read, and a page of a living directory that
    /// may hold words of slots.
    fn meet<D: Disk>(&mut self, disk: &mut D, row: &Row) -> Result<(), Stop>
        requires first { 1 ≤ row.now.at }
        requires place { row.now.at < pages_of (D.tape disk.old).form }
        requires same { IsOtherFile self.old.walk row.now → ⊥ }
        ensures read { IsTrue D.told → (last : Option RowOf) → HasReadTo (pack (D.tape disk.old)) last self.old → AreWords row.now → IsFirstAbove (pack (D.tape disk.old)) last row.now → OnOk result (HasReadTo (pack (D.tape disk.old)) (Some row.now) self.new) }
        ensures sectors { AreSectors (D.tape disk.old).form self.old.catalogue.root_pages → OnOk result (AreSectors (D.tape disk.old).form self.new.catalogue.root_pages) }
        ensures found { IsTrue D.told → carried (pack (D.tape disk.old)) row.now.at ≡ Some row.now.page → IsErrOf result Stop.Astray → ⊥ }
        ensures cause { HasCause cause_of_stop (D.tape disk.old) (D.tape disk.new) result }
        ensures looks { Looks D.told 1 (D.tape disk.old) (D.tape disk.new) }
    {
        match self.walk.meet(row) {
            Met::Leader => self.take_file(disk, row),
            Met::Next if self.wants(row) => self.take_page(disk, row),
            Met::Next => Ok(()),
            Met::Copy | Met::Past => Ok(()),
        }
    }

    /// Whether this page, with which the bytes of the file in hand go on, holds words of slots.
    fn wants(&self, row: &Row) -> bool
        ensures { result ≡ (self.now.walk.lives && is_directory row.now.page.fid && not self.now.slots.ended) }
    {
        self.walk.lives() && row.page.fid.is_directory() && !self.slots.has_ended()
    }

    /// Takes the leader page of a file.
    fn take_file<D: Disk>(&mut self, disk: &mut D, row: &Row) -> Result<(), Stop>
        requires first { 1 ≤ row.now.at }
        requires place { row.now.at < pages_of (D.tape disk.old).form }
        ensures file { IsTrue D.told → OnOk result (ReadsLeader (pack (D.tape disk.old)) row.now self.old self.new) }
        ensures sectors { self.new.catalogue.root_pages ≡ self.old.catalogue.root_pages }
        ensures found { IsTrue D.told → carried (pack (D.tape disk.old)) row.now.at ≡ Some row.now.page → IsErrOf result Stop.Astray → ⊥ }
        ensures cause { HasCause cause_of_stop (D.tape disk.old) (D.tape disk.new) result }
        ensures looks { Looks D.told 1 (D.tape disk.old) (D.tape disk.new) }
    {
        let file = read_living(disk, row)?;
        push(self.catalogue.living.as_vec(), file)?;
        Ok(())
    }

    /// Takes a page of a directory: the slots that end in its words.
    fn take_page<D: Disk>(&mut self, disk: &mut D, row: &Row) -> Result<(), Stop>
        requires few { self.old.slots.place + self.old.slots.held + 256 ≤ 256 * self.old.walk.pages }
        requires first { 1 ≤ row.now.at }
        requires place { row.now.at < pages_of (D.tape disk.old).form }
        ensures slots { IsTrue D.told → OnOk result (ReadsPage (pack (D.tape disk.old)) row.now self.old self.new) }
        ensures sectors { OnOk result (KeepsSector row.now self.old.catalogue self.new.catalogue) }
        ensures found { IsTrue D.told → carried (pack (D.tape disk.old)) row.now.at ≡ Some row.now.page → IsErrOf result Stop.Astray → ⊥ }
        ensures cause { HasCause cause_of_stop (D.tape disk.old) (D.tape disk.new) result }
        ensures looks { Looks D.told 1 (D.tape disk.old) (D.tape disk.new) }
    {
        let mut buf = Sector::ZEROS;
        let info = read_page(disk, row.at, row.page, &mut buf)?;
        let words = &buf.value[..usize::from(info.bytes / 2)];
        let mut from = 0;
        while let Some(met) = self.slots.next(words, &mut from) {
            self.catalogue.take(row.page.fid, &met)?;
        }
        if row.page.fid == Fid::SYS_DIR {
            push(self.catalogue.root_pages.as_vec(), row.at)?;
        }
        Ok(())
    }

    /// Reads all rows of a pack, of which none was read yet, in one pass along them.
    fn read_rows<D: Disk>(&mut self, disk: &mut D, table: &mut Table) -> Result<(), Stop>
        ensures names { IsTrue D.told → HasReadTo (pack (D.tape disk.old)) None self.old → OnOk result (HoldsNames (pack (D.tape disk.old)) self.new.catalogue) }
        ensures found { IsTrue D.told → IsErrOf result Stop.Astray → ⊥ }
        ensures sectors { AreSectors (D.tape disk.old).form self.old.catalogue.root_pages → OnOk result (AreSectors (D.tape disk.old).form self.new.catalogue.root_pages) }
        ensures cause { HasCause cause_of_stop (D.tape disk.old) (D.tape disk.new) result }
        ensures alone { DiskAlone (D.tape disk.old) (D.tape disk.new) }
        ensures silent { IsTrue D.told → added (D.tape disk.old) (D.tape disk.new) ≡ [] }
    {
        let mut pass = Pass::begin(disk, table)?;
        while let Some(row) = next_row(disk, table, &mut pass)? {
            self.turn(&row);
            self.meet(disk, &row)?;
        }
        Ok(())
    }
}

/// Appends an item.
fn push<T: Drop>(items: &mut Vec<T>, item: T) -> Result<(), alto_words::Memory>
    ensures { OnOk result (items.new.items ≡ items.old.items ++ item ∷ []) }
{
    items.push(item)?;
    Ok(())
}

/// Reads the names of a pack, whatever stands on it and at whatever window the table is: all leader pages, and the slots of all living
/// directories, in one pass along its rows. Nothing is written.
///
/// DiskFault: the disk failed. Memory: none was left for what is read. Astray: a sector shows another page than a moment ago, which no
/// machine does that is modelled.
pub fn read_names<D: Disk>(
    alloc: Global,
    disk: &mut D,
    table: &mut Table,
) -> Result<Catalogue, Stop>
    ensures names { IsTrue D.told → IfOk result (HoldsNames (pack (D.tape disk.old))) }
    ensures found { IsTrue D.told → IsErrOf result Stop.Astray → ⊥ }
    ensures sectors { IfOk result (λ names. AreSectors (D.tape disk.old).form names.root_pages) }
    ensures cause { HasCause cause_of_stop (D.tape disk.old) (D.tape disk.new) result }
    ensures alone { DiskAlone (D.tape disk.old) (D.tape disk.new) }
    ensures silent { IsTrue D.told → added (D.tape disk.old) (D.tape disk.new) ≡ [] }
{
    let mut reading = Reading::new(alloc);
    reading.read_rows(disk, table)?;
    let Reading { catalogue, .. } = reading;
    Ok(catalogue)
}
