// Free slots in a row, and the room in them.
ghost use Rattle.std.specs.Prelude.{◌≡◌, ◌<◌, ◌≤◌, ◌++◌, [], ◌∷◌, IfNone, IfSome, None};
ghost use Rattle.dir_slots.specs.Inside.{AreFree};
ghost use Rattle.pack_model.specs.operations.Rooms.{find_room as room_in};
ghost use Rattle.pack_model.specs.reading.Slots.{all_words};
ghost use Rattle.pack_model.specs.reading.Slots.Item.{space};
ghost use Rattle.directory.specs.FreeRows.{row_of};

use dir_slots::{MAX_ENTRY_WORDS, Slot, find_room};
use std::marker::Model;

/// How many words a room has.
#[derive(Clone, Copy, Debug, PartialEq, Eq)]
pub(crate) struct RoomWords {
    /// Those of its first slot.
    pub first: u16,
    /// Those of all its slots together, 1 to 1,023.
    pub total: u16,
}

/// Free slots in a row that have fewer words than an entry needs.
#[derive(Drop)]
pub(crate) struct FreeRow {
    needed: u16,
    count: usize,
    slots: [Slot; MAX_ENTRY_WORDS],
}

impl Model for FreeRow {
    ghost use Rattle.std.specs.Prelude.{take};
    ghost use Rattle.dir_slots.specs.Items.{items_of};
    ghost use Rattle.directory.specs.FreeRows.{IsShortRow, RowOf, row_of};

    ghost Value = { RowOf };

    ghost view = { λ row. row_of row.needed (items_of (take row.count row.slots)) };

    ghost invariant = { λ row. IsShortRow row.needed row.count (take row.count row.slots) };
}

impl FreeRow {
    ghost use Rattle.std.specs.Prelude.{true};
    ghost use Rattle.directory.specs.FoundRooms.{IsRoomIn};

    /// No slots, where an entry needs so many words.
    pub(crate) fn new(needed: u16) -> Self
        requires least { 1 ≤ needed }
        requires most { needed ≤ 26 }
        ensures { result ≡ row_of needed [] }
    {
        FreeRow {
            needed,
            count: 0,
            slots: [Slot::Free { words: 0 }; MAX_ENTRY_WORDS],
        }
    }

    /// Whether it has no slots.
    pub(crate) fn is_empty(&self) -> bool
        ensures empty { result ≡ true → self.now.items ≡ [] }
        ensures needed { 1 ≤ self.now.needed }
    {
        self.count == 0
    }

    /// Lets the slots go, as an entry follows them.
    pub(crate) fn clear(&mut self)
        ensures row { self.new ≡ row_of self.old.needed [] }
        ensures free { AreFree self.old.items }
        ensures few { all_words self.old.items < self.old.needed }
    {
        self.count = 0;
    }

    /// The room for the entry, if the row has it together with the free slot that follows, of so many words. Otherwise that slot is one of the
    /// row from then on.
    pub(crate) fn take_in(&mut self, words: u16) -> Option<RoomWords>
        requires least { 1 ≤ words }
        requires most { words ≤ 1023 }
        ensures room { IfSome result (IsRoomIn self.old.needed (self.old.items ++ space words ∷ [])) }
        ensures some { IfSome result (λ words. 1 ≤ words.total) }
        ensures none { IfNone result (room_in self.old.needed (self.old.items ++ space words ∷ []) ≡ None) }
        ensures row { IfNone result (self.new.items ≡ self.old.items ++ space words ∷ []) }
        ensures needed { self.new.needed ≡ self.old.needed }
        ensures free { AreFree self.old.items }
        ensures few { all_words self.old.items < self.old.needed }
    {
        self.slots[self.count] = Slot::Free { words };
        let row = &self.slots[..self.count + 1];
        match find_room(row, self.needed) {
            Some(room) => {
                let first = row[room.first as usize].words();
                self.count = 0;
                Some(RoomWords {
                    first,
                    total: room.total,
                })
            }
            None => {
                self.count += 1;
                None
            }
        }
    }
}
