// The whole reading of a pack.
ghost use Rattle.std.specs.Prelude.{◌≡◌, ◌≤◌, ◌-◌, List, IsTrue, IfOk};
ghost use Rattle.disk_records.specs.Addresses.{pages_of};
ghost use Rattle.disk_records.specs.Causes.{HasCause};
ghost use Rattle.disk_records.specs.Tapes.{Looks, pack};
ghost use Rattle.pack_model.specs.reading.Sights.{Sight};
ghost use Rattle.pack_model.specs.showing.Settling.{show, settle};
ghost use Rattle.pack_model.specs.showing.View.{view};
ghost use Rattle.pack_model.specs.reading.Model.{read_sights};
ghost use Rattle.disk_records.specs.declared.shape.Shape.{Shape as Form};
ghost use Rattle.pack_reading.specs.Errors.{cause_of_reading};
ghost use Rattle.pack_reading.specs.Kept.{HoldsSights};
ghost use Rattle.pack_reading.specs.Shows.{ShowsView};

use crate::error::ReadingError;
use crate::files::{find_files, show_files};
use crate::scan::scan;
use crate::settle::{list_names, settle};
use crate::shown::Shown;
use crate::sweep::sweep_all;
use crate::swept::Swept;
use alto_words::Memory;
use disk_records::Disk;
use std::alloc::Global;

/// What these sectors show.
pub(crate) fn show_swept(alloc: Global, swept: Swept) -> Result<Shown, Memory>
    ensures { (form : Form) (ss : List Sight) → HoldsSights ss swept → IfOk result (λ shown. ShowsView shown (settle (view (read_sights form ss)))) }
{
    let Swept { leaders, pages } = swept;
    let found = find_files(alloc, &leaders, pages)?;
    let mut names = scan(alloc, found.as_slice(), &leaders)?;
    let files = show_files(alloc, found)?;
    settle(alloc, &mut names, files.as_slice())?;
    let names = list_names(alloc, &names)?;
    Ok(Shown { files, names })
}

/// What a pack shows, whatever stands on it: each living file with its leader and bytes, and its name, which it is given in
/// SysDir where no entry of it is kept. Nothing is written. Fewer sector commands than sectors.
///
/// DiskFault: a sector wasn't read, and the count of disk faults rose. Memory: none was left. A pack full of ordinary files took 1.7
/// times its bytes, one large directory 3.7 times, leader pages alone 4.8 times: leaders are held as they were seen and as they are
/// shown, and the words of a directory while it is scanned.
pub fn read_pack<D: Disk>(alloc: Global, disk: &mut D) -> Result<Shown, ReadingError>
    ensures read { IsTrue D.told → IfOk result (λ shown. ShowsView shown (show (pack (D.tape disk.old)))) }
    ensures cause { HasCause cause_of_reading (D.tape disk.old) (D.tape disk.new) result }
    ensures looks { Looks D.told (pages_of (D.tape disk.old).form - 1) (D.tape disk.old) (D.tape disk.new) }
{
    let swept = sweep_all(alloc, disk)?;
    Ok(show_swept(alloc, swept)?)
}
