// The sectors of DiskDescriptor's pages.
ghost use Rattle.std.specs.Prelude.{◌≡◌, ℕ, ◌-◌, ◌<◌, ◌≤◌, List, IsTrue, IfOk, IsErrOf, OnOk, length};
ghost use Rattle.disk_records.specs.Addresses.{pages_of};
ghost use Rattle.disk_records.specs.Causes.{HasCause};
ghost use Rattle.disk_records.specs.Tapes.{Looks, pack};
ghost use Rattle.label_sweep.specs.Shown.{IsCounted, shown};
ghost use Rattle.scav_pages.specs.Ends.{ArePlaces, AreWithin};
ghost use Rattle.scav_pages.specs.Stops.{cause_of_stop};
ghost use Rattle.scavenger.specs.Descriptors.{NotesPage, ShowsPage};

use alto_words::{Fid, Memory};
use disk_records::{Disk, Sector};
use label_sweep::{Sight, Visit, sweep};
use scav_pages::Stop;

/// The sectors of DiskDescriptor's pages by their numbers, the leader page first: the lowest one that carries each; 0 if none does.
pub(crate) type Places = [u16; 6];

/// The number of DiskDescriptor's page that a sector shows, if it shows one.
fn page_shown(sight: Sight) -> Option<u16>
    requires { IsCounted sight }
    ensures { (value : List ℕ) → ShowsPage result (shown sight value) }
{
    match sight {
        Sight::Leads { fid } => (fid == Fid::DISK_DESCRIPTOR).then_some(0),
        Sight::Holds { fid, number, .. } => (fid == Fid::DISK_DESCRIPTOR).then_some(number),
        Sight::Hidden => None,
        Sight::Free => None,
        Sight::Stray => None,
    }
}

/// Notes what the sector at this address shows, if it is a page of DiskDescriptor and no lower sector shows that.
pub(crate) fn note_page(places: &mut Places, at: u16, sight: Sight)
    requires { IsCounted sight }
    ensures { (value : List ℕ) → NotesPage places.old at (shown sight value) places.new }
{
    let Some(number) = page_shown(sight) else {
        return;
    };
    let number = usize::from(number);
    if number < places.len() && places[number] == 0 {
        places[number] = at;
    }
}

/// The pages of DiskDescriptor, as far as a sweep has met them.
#[derive(Drop)]
struct Finder {
    places: Places,
}

impl Visit for Finder {
    ghost use Rattle.std.specs.Prelude.{false};
    ghost use Rattle.scavenger.specs.Descriptors.{Finds};

    ghost step = { Finds };

    ghost takes_memory = { false };

    fn visit(&mut self, at: u16, sight: Sight, _sector: &Sector) -> Result<(), Memory> {
        note_page(&mut self.places, at, sight);
        Ok(())
    }
}

/// Finds the sectors of DiskDescriptor's pages, by a sweep of all labels.
pub(crate) fn find_pages<D: Disk>(disk: &mut D) -> Result<Places, Stop>
    ensures places { IsTrue D.told → IfOk result (ArePlaces (pack (D.tape disk.old))) }
    ensures within { IfOk result (AreWithin (pages_of (D.tape disk.old).form)) }
    ensures want { IsTrue D.told → IsErrOf result Stop.Memory → ⊥ }
    ensures found { IsErrOf result Stop.Astray → ⊥ }
    ensures cause { HasCause cause_of_stop (D.tape disk.old) (D.tape disk.new) result }
    ensures looks { Looks D.told (pages_of (D.tape disk.old).form - 1) (D.tape disk.old) (D.tape disk.new) }
{
    let mut finder = Finder { places: [0; 6] };
    sweep(disk, &mut finder)?;
    Ok(finder.places)
}
