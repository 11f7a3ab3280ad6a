// SysDir's slots as they will stand when names are entered.
ghost use Rattle.std.specs.Prelude.{◌≡◌, OnOk};
ghost use Rattle.disk_records.specs.Packs.{Pack};
ghost use Rattle.laws_room.specs.NextLaws.{mended_pack};
ghost use Rattle.pack_model.specs.reading.Model.{root_items};
ghost use Rattle.scav_names.specs.Catalogues.{HoldsNames};
ghost use Rattle.scav_names.specs.Parting.{IsParted};
ghost use Rattle.scav_names.specs.Rooms.{HasSlots};

use crate::catalogue::Catalogue;
use crate::living::find_living;
use crate::parted::Parted;
use alto_words::{Fid, Memory};
use dir_slots::Slot;

/// The words of the one free slot of a SysDir that is made.
const FRESH_WORDS: u16 = 255;

/// Makes SysDir's free slots those that it will have when names are entered: the slots of entries that aren't kept are free ones, and a
/// SysDir that doesn't live is one free slot of 255 words.
///
/// Memory: none was left for them.
pub fn root_rooms(names: &mut Catalogue, parted: &Parted) -> Result<(), Memory>
    ensures rooms { (p : Pack) → HoldsNames p names.old → IsParted p parted.now → OnOk result (HasSlots names.new.rooms (root_items (mended_pack p))) }
    ensures living { names.new.living ≡ names.old.living }
    ensures entries { names.new.entries ≡ names.old.entries }
    ensures pages { names.new.root_pages ≡ names.old.root_pages }
{
    for entry in parted.unkept.as_slice() {
        if entry.dir == Fid::SYS_DIR {
            names.rooms.free(entry.place, entry.words())?;
        }
    }
    if find_living(names.living.as_slice(), Fid::SYS_DIR).is_none() {
        names.rooms.push(&Slot::Free { words: FRESH_WORDS })?;
    }
    Ok(())
}
