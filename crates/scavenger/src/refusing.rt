// Packs that can't be scavenged.
ghost use Rattle.std.specs.Prelude.{◌≡◌, [], IsTrue, IfOk, IfSome, IsErrOf, length};
ghost use Rattle.disk_records.specs.Addresses.{pages_of};
ghost use Rattle.disk_records.specs.Causes.{HasCause};
ghost use Rattle.disk_records.specs.Packs.{Pack};
ghost use Rattle.disk_records.specs.Tapes.{DiskAlone, added, pack};
ghost use Rattle.pack_model.specs.reading.Sights.{sights};
ghost use Rattle.pack_model.specs.scavenger.Needed.{root_widens};
ghost use Rattle.pack_model.specs.scavenger.Scavenging.{first_refusal};
ghost use Rattle.pack_model.specs.states.InUse.{bad_sectors};
ghost use Rattle.scav_names.specs.Catalogues.{HoldsNames};
ghost use Rattle.scav_names.specs.Parting.{IsParted};
ghost use Rattle.scav_pages.specs.Stops.{cause_of_stop};
ghost use Rattle.scavenger.specs.Answers.{IsRefusal, refused};
ghost use Rattle.scavenger.specs.Counting.{Counted};

use crate::counts::Counts;
use crate::errors::ScavError;
use alto_words::Memory;
use disk_records::{Disk, Sector};
use label_check::look;
use scav_names::{Catalogue, Parted, lacking, part_entries, read_names, root_rooms, widens};
use scav_pages::Stop;
use scav_table::Table;
use std::alloc::Global;

/// The pages that SysDir gets more for the entries that it lacks.
fn count_widens(alloc: Global, mut names: Catalogue) -> Result<u32, Memory>
    ensures { (p : Pack) → length p.sectors ≡ pages_of p.shape → HoldsNames p names → IfOk result (λ n. n ≡ root_widens p.shape (sights p)) }
{
    let mut parted = part_entries(alloc, &names)?;
    widens_parted(alloc, &mut names, &mut parted)
}

/// The pages that SysDir gets more, by these names, which are parted.
fn widens_parted(alloc: Global, names: &mut Catalogue, parted: &mut Parted) -> Result<u32, Memory>
    ensures { (p : Pack) → length p.sectors ≡ pages_of p.shape → HoldsNames p names.old → IsParted p parted.old → IfOk result (λ n. n ≡ root_widens p.shape (sights p)) }
{
    root_rooms(names, parted)?;
    let files = lacking(alloc, names.living.as_slice(), parted)?;
    widens(&mut names.rooms, files.as_slice())
}

/// Why a pack can't be scavenged, of which these are the counts; `bad` of its sectors have a wrong header. None where it can.
pub(crate) fn refuse<D: Disk>(
    alloc: Global,
    disk: &mut D,
    table: &mut Table,
    counts: &Counts,
    bad: u16,
) -> Result<Option<ScavError>, Stop>
    ensures refuses { IsTrue D.told → Counted (pack (D.tape disk.old)) counts.now → bad ≡ bad_sectors (sights (pack (D.tape disk.old))) → IfOk result (λ refusal. refused refusal ≡ first_refusal (pack (D.tape disk.old))) }
    ensures refusal { IfOk result (λ refusal. IfSome refusal IsRefusal) }
    ensures found { IsTrue D.told → IsErrOf result Stop.Astray → ⊥ }
    ensures cause { HasCause cause_of_stop (D.tape disk.old) (D.tape disk.new) result }
    ensures alone { DiskAlone (D.tape disk.old) (D.tape disk.new) }
    ensures silent { IsTrue D.told → added (D.tape disk.old) (D.tape disk.new) ≡ [] }
{
    let mut buf = Sector::ZEROS;
    if !look(disk, 1, &mut buf)? {
        return Ok(Some(ScavError::RootBad { header: buf.header }));
    }
    if counts.taken {
        return Ok(Some(ScavError::RootTaken { found: buf.label }));
    }
    let names = read_names(alloc, disk, table)?;
    let more = count_widens(alloc, names)?;
    let needed = counts.needed.saturating_add(more);
    let good = u32::from(disk.shape().pages() - 1).saturating_sub(u32::from(bad));
    let free = good.saturating_sub(counts.in_use);
    if needed > free {
        return Ok(Some(ScavError::PackFull { needed, free }));
    }
    Ok(None)
}
