// The place of a new entry, among slots that are met one at a time.
ghost use Rattle.std.specs.Prelude.{◌≡◌, ◌+◌, ◌*◌, ◌≤◌, [], IfOk, IsErrOf, IsTrue, OnOk};
ghost use Rattle.dir_slots.specs.Items.{IsInRange, item_of};
ghost use Rattle.dir_slots.specs.Walks.{slot_met};
ghost use Rattle.disk_records.specs.Causes.{HasCause, never, other};
ghost use Rattle.disk_records.specs.Tapes.{Looks, pack};
ghost use Rattle.pack_model.specs.reading.Slots.{item_words};
ghost use Rattle.page_seeking.specs.Refs.{IsOwnHint, MisledBy};
ghost use Rattle.page_seeking.specs.Seeking.{KeepsHandy, Quick};
ghost use Rattle.directory.specs.Asked.{DirIsFound};
ghost use Rattle.directory.specs.Bounds.{most_words};
ghost use Rattle.directory.specs.Errors.{IfMisled, IfNoSlot, cause_of, out_of_memory};
ghost use Rattle.directory.specs.Found.{IsQuick};
ghost use Rattle.directory.specs.FoundRooms.{SeeksIn};
ghost use Rattle.directory.specs.Places.{HasNoRoom, IsPlaceFor, IsTaken};

use crate::finding::Finding;
use crate::free_row::FreeRow;
use crate::place::RoomFound;
use crate::runs::Runs;
use crate::walk::{Visit, visit_slots};
use crate::{DirError, FileRef};
use alto_words::{Memory, Name, Wanted};
use dir_slots::{Passing, PlacedSlot, Slot, entry_words};
use disk_records::{Disk, Sector};
use hint_cache::Hints;

/// The room for an entry, of the slots met so far, or the free slots at their end.
#[derive(Drop)]
struct Seeking {
    row: FreeRow,
    room: Option<RoomFound>,
}

/// The room for an entry, the entry of the same name, and the most free words in a row, of the slots met so far.
#[derive(Drop)]
struct Placing {
    same: Finding,
    runs: Runs,
    seeking: Seeking,
}

/// The room for the entry, if it ends with this slot; where none was found before.
fn room_with(row: &mut FreeRow, met: &PlacedSlot) -> Option<RoomFound>
    requires within { met.now.place + item_words (item_of met.now.slot) ≤ most_words }
    requires in_range { IsInRange met.now.slot }
    ensures { SeeksIn row.old (slot_met met.now) row.new result }
{
    match met.slot {
        Slot::Free { words } => match row.take_in(words) {
            Some(room) => Some(RoomFound {
                place: (met.place + words as u32).saturating_sub(room.total as u32),
                words: room,
            }),
            None => None,
        },
        Slot::Entry { .. } => {
            row.clear();
            None
        }
    }
}

impl Seeking {
    ghost use Rattle.std.specs.Prelude.{true};
    ghost use Rattle.pack_model.specs.reading.SlotWords.{SlotAt};
    ghost use Rattle.directory.specs.Inside.{IsEntry};
    ghost use Rattle.directory.specs.Seeking.{MeetsRoom};

    /// Looks for the room, once this slot is met too.
    fn seek(&mut self, met: &PlacedSlot)
        requires within { met.now.place + item_words (item_of met.now.slot) ≤ most_words }
        requires in_range { IsInRange met.now.slot }
        ensures { MeetsRoom self.old (slot_met met.now) self.new }
    {
        if self.room.is_none() {
            self.room = room_with(&mut self.row, met);
        }
    }

    /// Whether it would stay as it is at an entry: the room is found, or no free slot is at the end of those met so far.
    fn stays_at_entries(&self) -> bool
        ensures { result ≡ true → (s : SlotAt) → IsEntry s.item → MeetsRoom self.now s self.now }
    {
        self.room.is_some() || self.row.is_empty()
    }
}

impl Visit for Placing {
    ghost use Rattle.std.specs.Prelude.{false};
    ghost use Rattle.directory.specs.Seeking.{MeetsAll};

    ghost step = { MeetsAll };

    ghost takes_memory = { false };

    fn passes(&self) -> Option<Passing> {
        if self.runs.row != 0 || !self.seeking.stays_at_entries() {
            return None;
        }
        let passing = self.same.passes()?;
        Some(Passing {
            free: false,
            name: passing.name,
        })
    }

    fn visit(&mut self, met: PlacedSlot) -> Result<(), Memory> {
        self.seeking.seek(&met);
        self.runs.count(&met);
        self.same.visit(met)
    }
}

/// The place of a new entry of this name: the room that is the first one for it. Pages are sought as by `locate`, and nothing is written.
///
/// NameTaken: an entry has the name, in whatever case of its letters. NoSlot: no free slots in a row have room for the entry, and no entry has
/// the name.
pub(crate) fn find_place<D: Disk>(
    disk: &mut D,
    hints: &mut Hints,
    dir: &FileRef,
    name: &Name,
    buf: &mut Sector,
) -> Result<RoomFound, DirError>
    ensures found { IsTrue D.told → DirIsFound (pack (D.tape disk.old)) dir.now → IfOk result (IsPlaceFor (pack (D.tape disk.old)) dir.now.fid name.now) }
    ensures taken { IsTrue D.told → DirIsFound (pack (D.tape disk.old)) dir.now → IsErrOf result DirError.NameTaken → IsTaken (pack (D.tape disk.old)) dir.now.fid name.now }
    ensures full { IsTrue D.told → DirIsFound (pack (D.tape disk.old)) dir.now → IfNoSlot result (HasNoRoom (pack (D.tape disk.old)) dir.now.fid name.now) }
    ensures misled { IsTrue D.told → DirIsFound (pack (D.tape disk.old)) dir.now → IfMisled result (MisledBy (pack (D.tape disk.old)) [] dir.now.fid) }
    ensures hint { IfMisled result (IsOwnHint dir.now) }
    ensures cause { HasCause (cause_of never other other) (D.tape disk.old) (D.tape disk.new) result }
    ensures want { IsTrue D.told → IsErrOf result out_of_memory → ⊥ }
    ensures looks { Looks D.told (65588 * 65535) (D.tape disk.old) (D.tape disk.new) }
    ensures quick { IsTrue D.told → Quick (pack (D.tape disk.old)) dir.now.fid hints.old.cache → OnOk result (IsQuick (pack (D.tape disk.old)) dir.now.fid hints.old.cache hints.new.cache (D.tape disk.old) (D.tape disk.new)) }
    ensures table { hints.new.table ≡ hints.old.table }
    ensures refused { hints.old.cache.refused ≤ hints.new.cache.refused }
    ensures handy { IsTrue D.told → KeepsHandy (pack (D.tape disk.old)) hints.old.cache hints.new.cache }
{
    let mut placing = Placing {
        same: Finding {
            wanted: Wanted::Exact { name: *name },
            best: None,
        },
        runs: Runs { row: 0, largest: 0 },
        seeking: Seeking {
            row: FreeRow::new(entry_words(name)),
            room: None,
        },
    };
    visit_slots(disk, hints, dir, &mut placing, buf)?;
    if placing.same.best.is_some() {
        return Err(DirError::NameTaken);
    }
    match placing.seeking.room {
        Some(room) => Ok(room),
        None => Err(DirError::NoSlot {
            largest: placing.runs.largest,
        }),
    }
}
