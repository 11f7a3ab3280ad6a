// Room for an entry among the slots of a directory.
ghost use Rattle.std.specs.Prelude.{◌≡◌, ℕ, ◌+◌, ◌<◌, ◌≤◌, ◌^◌, List, ◌∷◌, ◌++◌, length, All, Some, IfSome, IfNone};
ghost use Rattle.std.specs.Option.{option_map};
ghost use Rattle.pack_model.specs.reading.Slots.{Item, item_words, all_words};
ghost use Rattle.pack_model.specs.reading.Slots.Item.{space};
ghost use Rattle.dir_slots.specs.Inside.{AreFree, row_after};
ghost use Rattle.pack_model.specs.operations.Rooms.{find_room as room_in, room_from, largest_run as most_words};
ghost use Rattle.dir_slots.specs.Items.{item_of, items_of, HasFreeLength, room_of};

use crate::slot::{MAX_FREE_WORDS, Slot};

/// Free slots in a row.
#[derive(Clone, Copy, Debug, PartialEq, Eq)]
pub struct Room {
    /// The slot that they begin with, counted from 0.
    pub first: u32,
    /// The first word of that slot in the directory, counted from 0.
    pub place: u32,
    /// The words of them all together, 1 to 1,023.
    pub total: u16,
}

/// The room for an entry of `n` words, 1 to 26: the first free slot from which adjacent free slots reach `n` words with a total of
/// at most 1,023, and the fewest slots from there that do. None if and only if no free slots in a row have `n` words. Each free slot
/// must have 1 to 1,023 words, and all slots together fewer than 2^32.
pub fn find_room(slots: &[Slot], n: u16) -> Option<Room>
    requires least { 1 ≤ n }
    requires most { n ≤ 26 }
    requires free { All HasFreeLength slots.now }
    requires all { all_words (items_of slots.now) < 2 ^ 32 }
    ensures room { option_map room_of result ≡ room_in n (items_of slots.now) }
    ensures some { IfSome result (λ room. n ≤ most_words (items_of slots.now)) }
    ensures none { IfNone result (most_words (items_of slots.now) < n) }
{
    let mut row = Room {
        first: 0,
        place: 0,
        total: 0,
    };
    for (at, slot) in slots.iter().enumerate() {
        row = row_with(&row, at as u32, slot);
        if row.total >= n {
            return Some(shortened(row, &slots[row.first as usize..at]));
        }
    }
    None
}

/// The free slots in a row that end with this slot, the one numbered `at`, where `row` has those that end before it. There are none
/// where it is an entry; the row then begins after it.
fn row_with(row: &Room, at: u32, slot: &Slot) -> Room
    requires slots { at + 1 < 2 ^ 32 }
    requires place { row.now.place + row.now.total + item_words (item_of slot.now) < 2 ^ 32 }
    requires few { row.now.total ≤ 26 }
    requires free { HasFreeLength slot.now }
    ensures { result ≡ row_after row.now at (item_of slot.now) }
{
    match slot {
        Slot::Free { words } => Room {
            first: row.first,
            place: row.place,
            total: row.total + words,
        },
        Slot::Entry { .. } => Room {
            first: at + 1,
            place: row.place + row.total as u32 + slot.words() as u32,
            total: 0,
        },
    }
}

/// The room without its first slots, as long as it has more words than one free slot may have. `row` has its slots but the last.
fn shortened(mut room: Room, row: &[Slot]) -> Room
    requires free { AreFree (items_of row.now) }
    requires few { all_words (items_of row.now) < 26 }
    requires least { all_words (items_of row.now) ≤ room.total }
    requires most { room.total ≤ all_words (items_of row.now) + 1023 }
    requires slots { room.first + length row.now < 2 ^ 32 }
    requires place { room.place + all_words (items_of row.now) < 2 ^ 32 }
    // It is the first room for any entry that the row is too short for, whatever follows the last slot.
    ensures { (n last : ℕ) (rest : List Item) → n ≤ 26 → all_words (items_of row.now) < n → n ≤ room.total → all_words (items_of row.now) + last ≡ room.total → room_from n room.first room.place (items_of row.now ++ space last ∷ rest) ≡ Some (room_of result) }
{
    for slot in row {
        if room.total <= MAX_FREE_WORDS {
            return room;
        }
        room.first += 1;
        room.place += slot.words() as u32;
        room.total -= slot.words();
    }
    room
}

/// The most words of free slots in a row; 0 where there is no free slot. All slots must have fewer than 2^32 words together.
pub fn largest_run(slots: &[Slot]) -> u32
    requires { all_words (items_of slots.now) < 2 ^ 32 }
    ensures { result ≡ most_words (items_of slots.now) }
{
    let mut largest = 0;
    let mut run = 0;
    for slot in slots {
        run = match slot {
            Slot::Free { words } => run + *words as u32,
            Slot::Entry { .. } => 0,
        };
        largest = run.max(largest);
    }
    largest
}
