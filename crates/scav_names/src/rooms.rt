// Room for entries among SysDir's free slots.
ghost use Rattle.std.specs.Prelude.{◌≡◌, ◌≤◌, List, IfSome};
ghost use Rattle.pack_model.specs.operations.Rooms.{run};
ghost use Rattle.pack_model.specs.reading.Slots.{Item};
ghost use Rattle.scav_names.specs.Rooms.{AreAt, run_total};

use alto_words::Memory;
use dir_slots::{MAX_ENTRY_WORDS, MAX_FREE_WORDS, Slot};
use std::alloc::Global;
use std::collections::BTreeMap;

/// The words of a page.
const PAGE_WORDS: u16 = 256;

/// The lengths that an entry may have are below this one.
const LENGTHS: usize = MAX_ENTRY_WORDS + 1;

/// The free slots in which an entry comes to stand: the fewest adjacent ones that have room for it.
#[derive(Clone, Copy, Debug, PartialEq, Eq)]
pub(crate) struct EntryRoom {
    /// The place of its first word in the directory.
    pub(crate) place: u32,
    /// The words of the first of these slots.
    pub(crate) first_words: u16,
    /// The words of all of them, 1,023 at most.
    pub(crate) total: u16,
}

/// The free slots of a directory by the places of their first words, for the search for room: a map of them, the words of all slots, and for each
/// length of an entry a place before which no room for it begins.
#[derive(Drop)]
pub struct Rooms {
    free: BTreeMap<u32, u16>,
    end: u32,
    from: [u32; LENGTHS],
}

impl Rooms {
    ghost use Rattle.std.specs.Prelude.{◌≡◌, ℕ, ◌+◌, ◌^◌, ◌<◌, ◌≤◌, List, [], ◌∷◌, ◌++◌, All, IfSome, OnOk, Some};
    ghost use Rattle.alto_words.specs.declared.fid.Fid.{Fid as FullName};
    ghost use Rattle.dir_slots.specs.Items.{HasFreeLength, item_of};
    ghost use Rattle.pack_model.specs.operations.Rooms.{items_entered, left_over};
    ghost use Rattle.pack_model.specs.reading.Slots.{Item, all_words, item_words};
    ghost use Rattle.pack_model.specs.reading.Slots.Item.{entry};
    ghost use Rattle.pack_model.specs.scavenger.Mended.{with_page};
    ghost use Rattle.scav_names.specs.Rooms.{HasRooms, HasSlots, IsFirstRoom, IsRoom, IsRow, IsSize, free_slots, freed_at, words_at};

    /// Those of a directory without slots; it takes no memory.
    pub(crate) fn new(alloc: Global) -> Rooms
        ensures { HasSlots result [] }
    {
        Rooms {
            free: BTreeMap::new(alloc),
            end: 0,
            from: [0; LENGTHS],
        }
    }

    /// The words of all slots.
    pub(crate) fn end(&self) -> u32
        ensures { (is : List Item) → HasRooms self.now is → result ≡ all_words is }
    {
        self.end
    }

    /// Takes a slot more after all others.
    ///
    /// Memory: none was left for it.
    pub(crate) fn push(&mut self, slot: &Slot) -> Result<(), Memory>
        requires size { HasFreeLength slot.now }
        ensures rooms { (is : List Item) → HasRooms self.old is → all_words is + item_words (item_of slot.now) < 2 ^ 32 → OnOk result (HasRooms self.new (is ++ item_of slot.now ∷ [])) }
        ensures slots { (is : List Item) → HasSlots self.old is → all_words is + item_words (item_of slot.now) < 2 ^ 32 → OnOk result (HasSlots self.new (is ++ item_of slot.now ∷ [])) }
    {
        if let Slot::Free { words } = slot {
            self.free.insert(self.end, *words)?;
        }
        self.end = self.end.saturating_add(u32::from(slot.words()));
        Ok(())
    }

    /// Makes the slot at this place, one of so many words, a free one, as long as no entry was placed.
    ///
    /// Memory: none was left for it.
    pub(crate) fn free(&mut self, place: u32, words: u16) -> Result<(), Memory>
        ensures { (is : List Item) → HasSlots self.old is → words_at place is ≡ Some words → words ≤ 1023 → OnOk result (HasSlots self.new (freed_at place words is)) }
    {
        self.free.insert(place, words)?;
        Ok(())
    }

    /// The first room for an entry of so many words, 8 to 26: the first free slot from which adjacent ones reach so many words with 1,023
    /// at most together, and the fewest of them that do. None if and only if no free slots in a row have so many words.
    pub(crate) fn find(&self, words: u16) -> Option<EntryRoom>
        requires least { 1 ≤ words }
        requires most { words ≤ 26 }
        ensures room { (is : List Item) → HasRooms self.now is → IsRoom words is result }
        ensures fits { IfSome result (λ room. words ≤ room.total) }
    {
        let from = self.from[usize::from(words)];
        for (place, first_words) in self.free.range(from..) {
            if let Some(total) = total_at(&self.free, *place, words) {
                return Some(EntryRoom {
                    place: *place,
                    first_words: *first_words,
                    total,
                });
            }
        }
        None
    }

    /// Fills a room that was found for an entry of so many words: the entry stands at its place, and the words left over are a free slot.
    ///
    /// Memory: none was left for that.
    pub(crate) fn fill(&mut self, room: &EntryRoom, words: u16) -> Result<(), Memory>
        requires least { 1 ≤ words }
        requires most { words ≤ 26 }
        requires fits { words ≤ room.now.total }
        ensures { (is : List Item) → HasRooms self.old is → IsFirstRoom words is room.now → OnOk result ((fid : FullName) (name : List ℕ) → item_words (entry fid name) ≡ words → HasRooms self.new (items_entered (entry fid name) is)) }
    {
        self.take_out(room);
        let next = room.place.saturating_add(u32::from(words));
        self.keep_rest(next, room.total - words)?;
        self.from[usize::from(words)] = room.place;
        Ok(())
    }

    /// Takes the free slots of a room out of the map.
    fn take_out(&mut self, room: &EntryRoom)
        ensures free { (before row rest : List Item) → IsRow room.now before row rest → self.old.free.entries ≡ free_slots 0 (before ++ (row ++ rest)) → self.new.free.entries ≡ free_slots 0 before ++ free_slots (room.now.place + room.now.total) rest }
        ensures end { self.new.end ≡ self.old.end }
        ensures from { self.new.from ≡ self.old.from }
    {
        let mut taken = 0u16;
        while taken < room.total {
            let place = room.place.saturating_add(u32::from(taken));
            let Some(words) = self.free.remove(&place) else {
                return;
            };
            taken = taken.saturating_add(words);
        }
    }

    /// Keeps the words of a room that an entry leaves over as a free slot, unless there are none.
    ///
    /// Memory: none was left for it.
    fn keep_rest(&mut self, place: u32, words: u16) -> Result<(), Memory>
        ensures free { (before rest : List Item) → All IsSize before → all_words before ≡ place → self.old.free.entries ≡ free_slots 0 before ++ free_slots (place + words) rest → OnOk result (self.new.free.entries ≡ free_slots 0 (before ++ left_over words rest)) }
        ensures end { self.new.end ≡ self.old.end }
        ensures from { self.new.from ≡ self.old.from }
    {
        if words > 0 {
            self.free.insert(place, words)?;
        }
        Ok(())
    }

    /// The directory gets a page more: a free slot of 256 words after all others.
    ///
    /// Memory: none was left for it.
    pub(crate) fn widen(&mut self) -> Result<(), Memory>
        ensures { (is : List Item) → HasRooms self.old is → all_words is + 256 < 2 ^ 32 → OnOk result (HasRooms self.new (with_page is)) }
    {
        self.push(&Slot::Free { words: PAGE_WORDS })
    }
}

/// The words of the fewest adjacent free slots from this place on that have so many, if they have 1,023 at most.
fn total_at(free: &BTreeMap<u32, u16>, place: u32, words: u16) -> Option<u16>
    requires least { 1 ≤ words }
    requires most { words ≤ 26 }
    ensures total { (before rest : List Item) → AreAt free.now.entries place before rest → result ≡ run_total (run words rest) }
    ensures fits { IfSome result (λ total. words ≤ total) }
{
    let mut total = 0u16;
    for _ in 0..words {
        let next = place.checked_add(u32::from(total))?;
        total = total.checked_add(*free.get(&next)?)?;
        if total >= words {
            return (total <= MAX_FREE_WORDS).then_some(total);
        }
    }
    None
}
