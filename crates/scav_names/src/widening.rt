// How many pages more SysDir gets.
ghost use Rattle.std.specs.Prelude.{◌≡◌, ℕ, ◌+◌, ◌*◌, ◌^◌, ◌<◌, ◌≤◌, List, length, IfOk, map};
ghost use Rattle.alto_words.specs.declared.fid.Fid.{Fid as FullName};
ghost use Rattle.pack_model.specs.reading.Slots.{Item, all_words, item_words};
ghost use Rattle.pack_model.specs.reading.Slots.Item.{entry};
ghost use Rattle.pack_model.specs.scavenger.Mended.{widens};
ghost use Rattle.scav_names.specs.Lacking.{entry_for};
ghost use Rattle.scav_names.specs.Rooms.{HasRooms, PlacesEntry};

use crate::living::Living;
use crate::rooms::Rooms;
use alto_words::Memory;
use dir_slots::entry_words;

/// Places an entry of so many words in the first room, after a page more if there is none. Answers whether there was none.
fn place(rooms: &mut Rooms, words: u16) -> Result<bool, Memory>
    requires least { 1 ≤ words }
    requires most { words ≤ 26 }
    ensures { (is : List Item) (fid : FullName) (name : List ℕ) → HasRooms rooms.old is → all_words is + 256 < 2 ^ 32 → item_words (entry fid name) ≡ words → IfOk result (PlacesEntry fid name is rooms.new) }
{
    if let Some(room) = rooms.find(words) {
        rooms.fill(&room, words)?;
        return Ok(false);
    }
    rooms.widen()?;
    let Some(room) = rooms.find(words) else {
        return Ok(true);
    };
    rooms.fill(&room, words)?;
    Ok(true)
}

/// How many pages more SysDir gets, so that each of these entries has room in its turn. They are placed.
///
/// Memory: none was left for the slots.
pub fn widens(rooms: &mut Rooms, files: &[Living]) -> Result<u32, Memory>
    ensures { (is : List Item) → HasRooms rooms.old is → all_words is + 256 * length files.now < 2 ^ 32 → IfOk result (λ n. n ≡ widens is (map entry_for files.now)) }
{
    let mut more = 0u32;
    for file in files {
        if place(rooms, entry_words(&file.name))? {
            more = more.saturating_add(1);
        }
    }
    Ok(more)
}
