// The entry that an operand means, among slots that are met one at a time.
ghost use Rattle.std.specs.Prelude.{◌≡◌, ◌*◌, ◌<◌, ◌≤◌, IsTrue, IsErrOf, IfOk, OnOk, []};
ghost use Rattle.std.specs.Option.{option_map};
ghost use Rattle.disk_records.specs.Causes.{HasCause};
ghost use Rattle.disk_records.specs.Tapes.{Looks, pack};
ghost use Rattle.dir_slots.specs.Walks.{slot_met};
ghost use Rattle.pack_model.specs.hints.Links.{LinksTrue, dir_slots};
ghost use Rattle.pack_model.specs.hints.Misled.{IsOnDisk};
ghost use Rattle.pack_model.specs.reading.Lookup.{entry_at, is_meant, meant_by, version_met};
ghost use Rattle.page_seeking.specs.Causes.{cause_of_length};
ghost use Rattle.page_seeking.specs.Refs.{FileIsRooted, IfMisled, IsOwnHint, MisledBy};
ghost use Rattle.page_seeking.specs.Seeking.{KeepsHandy, Quick};
ghost use Rattle.directory.specs.Asked.{DirIsFound, DirStands};
ghost use Rattle.directory.specs.Bounds.{most_words};
ghost use Rattle.directory.specs.Found.{IsQuick, IsReadByPages, ListsLastPage};
ghost use Rattle.directory.specs.Inside.{found_at};

use crate::entry::EntryFound;
use crate::walk::{Visit, visit_slots};
use alto_words::{Memory, Name, Wanted};
use dir_slots::{Passing, PlacedSlot, Slot};
use disk_records::{Disk, Sector};
use hint_cache::Hints;
use page_seeking::{FileError, FileRef};

/// The entry that is meant, of the slots met so far.
#[derive(Drop)]
pub(crate) struct Finding {
    pub wanted: Wanted,
    pub best: Option<EntryFound>,
}

/// The version of an entry that was found; 0 where none was.
pub(crate) fn version_met(best: &Option<EntryFound>) -> u16
    ensures { result ≡ version_met (option_map found_at best.now) }
{
    match best {
        Some(entry) => entry.name.version(),
        None => 0,
    }
}

/// Whether an entry of this name is meant rather than the one met before it: the first of an exact name, one of a greater version of a
/// base.
fn is_meant(wanted: &Wanted, best: &Option<EntryFound>, own: &Name) -> bool
    ensures { result ≡ is_meant wanted.now (option_map found_at best.now) own.now }
{
    match wanted {
        Wanted::Exact { name } => best.is_none() && own.same(name),
        Wanted::Newest { base } => own.base().same(base) && version_met(best) < own.version(),
    }
}

/// The entry that is meant, once this slot is met too.
fn best_with(wanted: &Wanted, best: Option<EntryFound>, met: &PlacedSlot) -> Option<EntryFound>
    requires low { met.now.place < most_words }
    ensures { option_map found_at result ≡ meant_by wanted.now (option_map found_at best) (slot_met met.now) }
{
    match met.slot {
        Slot::Free { .. } => best,
        Slot::Entry {
            fid,
            leader_at,
            name,
        } => if is_meant(wanted, &best, &name) {
            Some(EntryFound {
                fid,
                name,
                place: met.place,
                leader_at,
            })
        } else {
            best
        },
    }
}

impl Visit for Finding {
    ghost use Rattle.std.specs.Prelude.{false};
    ghost use Rattle.directory.specs.Inside.{MeetsMeant};

    ghost step = { MeetsMeant };

    ghost takes_memory = { false };

    fn passes(&self) -> Option<Passing> {
        let name = match self.wanted {
            Wanted::Exact { name } => name,
            Wanted::Newest { base } => base,
        };
        Some(Passing {
            free: true,
            name: Some(name),
        })
    }

    fn visit(&mut self, met: PlacedSlot) -> Result<(), Memory> {
        self.best = best_with(&self.wanted, self.best, &met);
        Ok(())
    }
}

/// The entry of a directory that is meant, if there is one.
pub(crate) fn find_entry<D: Disk>(
    disk: &mut D,
    hints: &mut Hints,
    dir: &FileRef,
    wanted: &Wanted,
    buf: &mut Sector,
) -> Result<Option<EntryFound>, FileError>
    ensures found { IsTrue D.told → DirIsFound (pack (D.tape disk.old)) dir.now → IfOk result (λ best. option_map found_at best ≡ entry_at wanted.now (dir_slots (pack (D.tape disk.old)) dir.now.fid)) }
    ensures misled { IsTrue D.told → DirIsFound (pack (D.tape disk.old)) dir.now → IfMisled result (MisledBy (pack (D.tape disk.old)) [] dir.now.fid) }
    ensures on_disk { IsTrue D.told → FileIsRooted (pack (D.tape disk.old)) dir.now → IfMisled result (λ place at wanted found. IsOnDisk place) }
    ensures hint { IfMisled result (IsOwnHint dir.now) }
    ensures true_links { IsTrue D.told → DirStands (pack (D.tape disk.old)) dir.now → LinksTrue (pack (D.tape disk.old)) → IfMisled result (λ place at wanted found. ⊥) }
    ensures cause { HasCause cause_of_length (D.tape disk.old) (D.tape disk.new) result }
    ensures want { IsTrue D.told → IsErrOf result FileError.Memory → ⊥ }
    ensures looks { Looks D.told (65588 * 65535) (D.tape disk.old) (D.tape disk.new) }
    ensures pages { IsTrue D.told → IsReadByPages (pack (D.tape disk.old)) dir.now.fid (D.tape disk.old) (D.tape disk.new) }
    ensures quick { IsTrue D.told → Quick (pack (D.tape disk.old)) dir.now.fid hints.old.cache → OnOk result (IsQuick (pack (D.tape disk.old)) dir.now.fid hints.old.cache hints.new.cache (D.tape disk.old) (D.tape disk.new)) }
    ensures table { hints.new.table ≡ hints.old.table }
    ensures listed { IsTrue D.told → DirIsFound (pack (D.tape disk.old)) dir.now → OnOk result (ListsLastPage D.told (pack (D.tape disk.old)) dir.now.fid hints.old.cache hints.new.cache) }
    ensures refused { hints.old.cache.refused ≤ hints.new.cache.refused }
    ensures handy { IsTrue D.told → KeepsHandy (pack (D.tape disk.old)) hints.old.cache hints.new.cache }
{
    let mut finding = Finding {
        wanted: *wanted,
        best: None,
    };
    match visit_slots(disk, hints, dir, &mut finding, buf) {
        Ok(()) => Ok(finding.best),
        Err(error) => Err(error),
    }
}
