// What is read of the names of a pack.
use crate::living::Living;
use crate::placed::PlacedEntry;
use crate::rooms::Rooms;
use alto_words::{Fid, List, Memory};
use dir_slots::{PlacedSlot, Slot};
use std::alloc::Global;

/// What is read of the names of a pack, whatever stands on it.
#[derive(Drop)]
pub struct Catalogue {
    /// The living files, rising by full name.
    pub living: List<Living>,
    /// The entries in the slots of living directories: SysDir's first, then those of the others by rising full name, each by slots.
    pub entries: List<PlacedEntry>,
    /// SysDir's free slots.
    pub rooms: Rooms,
    /// The sectors of SysDir's data pages, as far as its slots go.
    pub root_pages: List<u16>,
}

impl Catalogue {
    ghost use Rattle.std.specs.Prelude.{◌≡◌, [], OnOk};
    ghost use Rattle.dir_slots.specs.Items.{HasFreeLength};
    ghost use Rattle.dir_slots.specs.Walks.{slot_met};
    ghost use Rattle.scav_names.specs.Rooms.{HasSlots};
    ghost use Rattle.scav_names.specs.Catalogues.{TakesSlot};

    /// Nothing yet; it takes no memory.
    pub(crate) fn new(alloc: Global) -> Catalogue
        ensures living { result.living ≡ [] }
        ensures entries { result.entries ≡ [] }
        ensures rooms { HasSlots result.rooms [] }
        ensures pages { result.root_pages ≡ [] }
    {
        Catalogue {
            living: List::from_vec(Vec::new(alloc)),
            entries: List::from_vec(Vec::new(alloc)),
            rooms: Rooms::new(alloc),
            root_pages: List::from_vec(Vec::new(alloc)),
        }
    }

    /// Takes the next slot of a directory: an entry is kept, and a free slot if it is one of SysDir.
    pub(crate) fn take(&mut self, dir: Fid, met: &PlacedSlot) -> Result<(), Memory>
        requires size { HasFreeLength met.now.slot }
        ensures { OnOk result (TakesSlot dir (slot_met met.now) self.old self.new) }
    {
        if dir == Fid::SYS_DIR {
            self.rooms.push(&met.slot)?;
        }
        let Slot::Entry {
            fid,
            leader_at,
            name,
        } = met.slot
        else {
            return Ok(());
        };
        self.entries.as_vec().push(PlacedEntry {
            dir,
            place: met.place,
            fid,
            leader_at,
            name,
        })?;
        Ok(())
    }
}
