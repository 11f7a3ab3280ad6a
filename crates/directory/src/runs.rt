// Room in a directory.
ghost use Rattle.std.specs.Prelude.{◌≡◌, ◌*◌, ◌≤◌, IsTrue, IsErrOf, IfOk, OnOk, []};
ghost use Rattle.dir_slots.specs.Walks.{slot_met};
ghost use Rattle.disk_records.specs.Causes.{HasCause, never};
ghost use Rattle.disk_records.specs.Tapes.{Looks, pack};
ghost use Rattle.pack_model.specs.hints.Links.{LinksTrue, dir_words};
ghost use Rattle.pack_model.specs.operations.Rooms.{largest_run};
ghost use Rattle.pack_model.specs.reading.Slots.{slots};
ghost use Rattle.page_seeking.specs.Refs.{IsOwnHint, MisledBy};
ghost use Rattle.page_seeking.specs.Seeking.{KeepsHandy, Quick};
ghost use Rattle.directory.specs.Asked.{DirIsFound, DirStands};
ghost use Rattle.directory.specs.Errors.{IfMisled, cause_of, out_of_memory};
ghost use Rattle.directory.specs.Found.{IsQuick, IsReadByPages, ListsLastPage};

use crate::walk::{Visit, visit_slots};
use crate::{DirError, FileRef};
use alto_words::Memory;
use dir_slots::{Passing, PlacedSlot, Slot};
use disk_records::{Disk, Sector};
use hint_cache::Hints;

/// The free words in the row that ends with the slots met so far, and the most in any row of them.
#[derive(Drop)]
pub(crate) struct Runs {
    pub row: u32,
    pub largest: u32,
}

impl Runs {
    ghost use Rattle.directory.specs.Inside.{MeetsRow};

    /// Counts this slot too.
    pub(crate) fn count(&mut self, met: &PlacedSlot)
        ensures { MeetsRow self.old (slot_met met.now) self.new }
    {
        self.row = match met.slot {
            Slot::Free { words } => self.row.saturating_add(words as u32),
            Slot::Entry { .. } => 0,
        };
        self.largest = self.largest.max(self.row);
    }
}

impl Visit for Runs {
    ghost use Rattle.std.specs.Prelude.{false};
    ghost use Rattle.directory.specs.Inside.{MeetsRow};

    ghost step = { MeetsRow };

    ghost takes_memory = { false };

    fn passes(&self) -> Option<Passing> {
        if self.row != 0 {
            return None;
        }
        Some(Passing {
            free: false,
            name: None,
        })
    }

    fn visit(&mut self, met: PlacedSlot) -> Result<(), Memory> {
        self.count(&met);
        Ok(())
    }
}

/// The greatest number of free words in a row of a directory. Pages are sought as by `locate`. Nothing is written.
///
/// File: Misled where the address that the directory is named with, or a next link of it, misleads; DiskFault where the device failed;
/// Memory where no memory was left, which no machine that is modelled answers here. No other error comes. What `buf` holds then is open.
pub fn room<D: Disk>(
    disk: &mut D,
    hints: &mut Hints,
    dir: &FileRef,
    buf: &mut Sector,
) -> Result<u32, DirError>
    ensures found { IsTrue D.told → DirIsFound (pack (D.tape disk.old)) dir.now → IfOk result (λ words. words ≡ largest_run (slots (dir_words (pack (D.tape disk.old)) dir.now.fid))) }
    ensures misled { IsTrue D.told → DirIsFound (pack (D.tape disk.old)) dir.now → IfMisled result (MisledBy (pack (D.tape disk.old)) [] dir.now.fid) }
    ensures hint { IfMisled result (IsOwnHint dir.now) }
    ensures true_links { IsTrue D.told → DirStands (pack (D.tape disk.old)) dir.now → LinksTrue (pack (D.tape disk.old)) → IfMisled result (λ place at wanted found. ⊥) }
    ensures cause { HasCause (cause_of never never never) (D.tape disk.old) (D.tape disk.new) result }
    ensures want { IsTrue D.told → IsErrOf result out_of_memory → ⊥ }
    ensures looks { Looks D.told (65588 * 65535) (D.tape disk.old) (D.tape disk.new) }
    ensures pages { IsTrue D.told → IsReadByPages (pack (D.tape disk.old)) dir.now.fid (D.tape disk.old) (D.tape disk.new) }
    ensures quick { IsTrue D.told → Quick (pack (D.tape disk.old)) dir.now.fid hints.old.cache → OnOk result (IsQuick (pack (D.tape disk.old)) dir.now.fid hints.old.cache hints.new.cache (D.tape disk.old) (D.tape disk.new)) }
    ensures table { hints.new.table ≡ hints.old.table }
    ensures listed { IsTrue D.told → DirIsFound (pack (D.tape disk.old)) dir.now → OnOk result (ListsLastPage D.told (pack (D.tape disk.old)) dir.now.fid hints.old.cache hints.new.cache) }
    ensures refused { hints.old.cache.refused ≤ hints.new.cache.refused }
    ensures handy { IsTrue D.told → KeepsHandy (pack (D.tape disk.old)) hints.old.cache hints.new.cache }
{
    let mut runs = Runs { row: 0, largest: 0 };
    visit_slots(disk, hints, dir, &mut runs, buf)?;
    Ok(runs.largest)
}
