// All slots of a directory.
ghost use Rattle.std.specs.Prelude.{◌≡◌, ◌*◌, ◌≤◌, IsTrue, IfOk, OnOk, []};
ghost use Rattle.disk_records.specs.Causes.{HasCause};
ghost use Rattle.disk_records.specs.Tapes.{Looks, pack};
ghost use Rattle.pack_model.specs.hints.Links.{LinksTrue};
ghost use Rattle.page_seeking.specs.Refs.{IsOwnHint, MisledBy};
ghost use Rattle.page_seeking.specs.Seeking.{KeepsHandy, Quick};
ghost use Rattle.directory.specs.Asked.{DirIsFound, DirStands};
ghost use Rattle.directory.specs.Errors.{IfListMisled, cause_of_list};
ghost use Rattle.directory.specs.Found.{AreSlots, IsQuick, IsReadByPages, ListsLastPage};

use crate::walk::{Visit, visit_slots};
use crate::{FileRef, ListError};
use alto_words::Memory;
use dir_slots::{Passing, PlacedSlot, Slot};
use disk_records::{Disk, Sector};
use hint_cache::Hints;
use std::alloc::Global;

/// The slots met so far.
#[derive(Drop)]
struct Slots {
    slots: Vec<Slot>,
}

impl Visit for Slots {
    ghost use Rattle.std.specs.Prelude.{true};
    ghost use Rattle.directory.specs.Inside.{MeetsSlot};

    ghost step = { MeetsSlot };

    ghost takes_memory = { true };

    fn passes(&self) -> Option<Passing> {
        None
    }

    fn visit(&mut self, met: PlacedSlot) -> Result<(), Memory> {
        self.slots.push(met.slot)?;
        Ok(())
    }
}

/// The slots of a directory in their order, each entry with the address that stands in it: a hint. Pages are sought as by `locate`. Nothing
/// is written.
///
/// File: Misled where the address that the directory is named with, or a next link of it, misleads; DiskFault where the device failed.
/// Memory: no memory was left for the slots.
pub fn list<D: Disk>(
    alloc: Global,
    disk: &mut D,
    hints: &mut Hints,
    dir: &FileRef,
) -> Result<Vec<Slot>, ListError>
    ensures found { IsTrue D.told → DirIsFound (pack (D.tape disk.old)) dir.now → IfOk result (λ found. AreSlots (pack (D.tape disk.old)) dir.now.fid found.items) }
    ensures misled { IsTrue D.told → DirIsFound (pack (D.tape disk.old)) dir.now → IfListMisled result (MisledBy (pack (D.tape disk.old)) [] dir.now.fid) }
    ensures hint { IfListMisled result (IsOwnHint dir.now) }
    ensures true_links { IsTrue D.told → DirStands (pack (D.tape disk.old)) dir.now → LinksTrue (pack (D.tape disk.old)) → IfListMisled result (λ place at wanted found. ⊥) }
    ensures cause { HasCause cause_of_list (D.tape disk.old) (D.tape disk.new) result }
    ensures looks { Looks D.told (65588 * 65535) (D.tape disk.old) (D.tape disk.new) }
    ensures pages { IsTrue D.told → IsReadByPages (pack (D.tape disk.old)) dir.now.fid (D.tape disk.old) (D.tape disk.new) }
    ensures quick { IsTrue D.told → Quick (pack (D.tape disk.old)) dir.now.fid hints.old.cache → OnOk result (IsQuick (pack (D.tape disk.old)) dir.now.fid hints.old.cache hints.new.cache (D.tape disk.old) (D.tape disk.new)) }
    ensures table { hints.new.table ≡ hints.old.table }
    ensures listed { IsTrue D.told → DirIsFound (pack (D.tape disk.old)) dir.now → OnOk result (ListsLastPage D.told (pack (D.tape disk.old)) dir.now.fid hints.old.cache hints.new.cache) }
    ensures refused { hints.old.cache.refused ≤ hints.new.cache.refused }
    ensures handy { IsTrue D.told → KeepsHandy (pack (D.tape disk.old)) hints.old.cache hints.new.cache }
{
    let mut buf = Sector::ZEROS;
    let mut found = Slots {
        slots: Vec::new(alloc),
    };
    visit_slots(disk, hints, dir, &mut found, &mut buf)?;
    Ok(found.slots)
}
