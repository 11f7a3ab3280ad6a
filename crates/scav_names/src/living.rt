// Living files.
ghost use Rattle.std.specs.Prelude.{◌≡◌, ◌<◌, ◌≤◌, Some, IsTrue, IfOk, IsErrOf};
ghost use Rattle.disk_records.specs.Addresses.{pages_of};
ghost use Rattle.disk_records.specs.Causes.{HasCause};
ghost use Rattle.disk_records.specs.Packs.{carried, sector_at};
ghost use Rattle.disk_records.specs.Tapes.{Looks, pack};
ghost use Rattle.pack_model.specs.reading.Leaders.{leader_of};
ghost use Rattle.scav_pages.specs.Stops.{cause_of_stop};
ghost use Rattle.scav_names.specs.Living.{Rises, living_in};

use alto_words::{Fid, Name};
use disk_records::{Disk, Sector};
use label_check::read_page;
use leader_page::Leader;
use scav_pages::Stop;
use scav_table::Row;

/// A living file, and a name for it.
#[derive(Clone, Copy, Debug, PartialEq, Eq)]
pub struct Living {
    /// Its full name.
    pub fid: Fid,
    /// The virtual address of its leader page; 0 where none is known.
    pub leader_at: u16,
    /// The name in its leader page, or the one that stands for it where none can be read; of an entry that is lacking, the entry's.
    pub name: Name,
}

/// Reads the file of a row that is its leader page. One sector command.
pub(crate) fn read_living<D: Disk>(disk: &mut D, row: &Row) -> Result<Living, Stop>
    requires first { 1 ≤ row.now.at }
    requires place { row.now.at < pages_of (D.tape disk.old).form }
    ensures file { IfOk result (λ file. file.fid ≡ row.now.page.fid) }
    ensures at { IfOk result (λ file. file.leader_at ≡ row.now.at) }
    ensures name { IsTrue D.told → IfOk result (λ file. file.name ≡ (leader_of row.now.page.fid (sector_at (pack (D.tape disk.old)) row.now.at).value).name) }
    ensures found { IsTrue D.told → carried (pack (D.tape disk.old)) row.now.at ≡ Some row.now.page → IsErrOf result Stop.Astray → ⊥ }
    ensures cause { HasCause cause_of_stop (D.tape disk.old) (D.tape disk.new) result }
    ensures looks { Looks D.told 1 (D.tape disk.old) (D.tape disk.new) }
{
    let mut buf = Sector::ZEROS;
    read_page(disk, row.at, row.page, &mut buf)?;
    let fid = row.page.fid;
    Ok(Living {
        fid,
        leader_at: row.at,
        name: Leader::of_file(fid, &buf.value).name,
    })
}

/// The file with this full name among these, which rise by full name.
pub(crate) fn find_living(living: &[Living], fid: Fid) -> Option<Living>
    ensures found { Rises living.now → result ≡ living_in living.now fid }
{
    match living.binary_search_by_key(&fid, |file| file.fid) {
        Ok(i) => Some(living[i]),
        Err(_) => None,
    }
}
