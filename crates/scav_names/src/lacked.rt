// The entries that SysDir lacks.
ghost use Rattle.std.specs.Prelude.{◌≡◌, [], ◌++◌, IfOk, OnOk};
ghost use Rattle.std.specs.FinMap.{FinMap};
ghost use Rattle.alto_words.specs.Fid.{fid_cmp};
ghost use Rattle.disk_records.specs.Packs.{Pack};
ghost use Rattle.kept_names.specs.Homes.{StandsFor};
ghost use Rattle.pack_model.specs.showing.Settling.{unless};
ghost use Rattle.pack_model.specs.showing.View.{Home};
ghost use Rattle.scav_names.specs.Adopting.{Knows, all_entered, entered_then, named_then};
ghost use Rattle.scav_names.specs.Lacking.{lacking_files, system_living};
ghost use Rattle.scav_names.specs.Living.{Rises, living_files};
ghost use Rattle.scav_names.specs.Parting.{IsParted};

use crate::living::{Living, find_living};
use crate::parted::Parted;
use alto_words::{Fid, List, Memory};
use kept_names::{Names, Passed, adopt, is_system};
use scav_pages::own_name;
use std::alloc::Global;

/// A system file, to be entered under its own name. Its leader page's sector is 0 if it doesn't live.
fn system_living(living: &[Living], fid: Fid) -> Living
    ensures { Rises living.now → result ≡ system_living living.now fid }
{
    Living {
        fid,
        leader_at: match find_living(living, fid) {
            Some(file) => file.leader_at,
            None => 0,
        },
        name: own_name(fid),
    }
}

/// Appends the entry of a system file, unless it is named.
fn enter_system(
    files: &mut Vec<Living>,
    living: &[Living],
    named: bool,
    fid: Fid,
) -> Result<(), Memory>
    ensures { Rises living.now → OnOk result (files.new.items ≡ files.old.items ++ unless named (system_living living.now fid) []) }
{
    if !named {
        files.push(system_living(living, fid))?;
    }
    Ok(())
}

/// The entries that SysDir lacks, in the order in which they are entered: those of the system files, and then one of each nameless file, by
/// rising full name, under its leader's name or the first suffix of that which isn't taken. The names are given away by it.
///
/// Memory: none was left for them.
pub fn lacking(
    alloc: Global,
    living: &[Living],
    parted: &mut Parted,
) -> Result<List<Living>, Memory>
    ensures files { (p : Pack) → living.now ≡ living_files p → IsParted p parted.old → IfOk result (λ files. files ≡ lacking_files p) }
    ensures kept { parted.new.kept ≡ parted.old.kept }
{
    let mut files = Vec::new(alloc);
    enter_system(&mut files, living, parted.names_root, Fid::SYS_DIR)?;
    enter_system(
        &mut files,
        living,
        parted.names_descriptor,
        Fid::DISK_DESCRIPTOR,
    )?;
    adopt_all(alloc, &mut files, living, &mut parted.names)?;
    Ok(List::from_vec(files))
}

/// Appends the entries that these files get, in their order, those that are shown and have none.
fn adopt_all(
    alloc: Global,
    files: &mut Vec<Living>,
    living: &[Living],
    names: &mut Names,
) -> Result<(), Memory>
    ensures { (homes : FinMap fid_cmp Home) → StandsFor names.old homes → OnOk result (files.new.items ≡ files.old.items ++ all_entered homes living.now) }
{
    let mut passed = Passed::new(alloc);
    for file in living {
        adopt_file(files, names, &mut passed, file)?;
    }
    Ok(())
}

/// Appends the entry that a file gets, if it is shown and has none.
fn adopt_file(
    files: &mut Vec<Living>,
    names: &mut Names,
    passed: &mut Passed,
    file: &Living,
) -> Result<(), Memory>
    ensures files { (homes : FinMap fid_cmp Home) → Knows homes names.old passed.old → OnOk result (files.new.items ≡ files.old.items ++ entered_then homes file.now) }
    ensures names { (homes : FinMap fid_cmp Home) → Knows homes names.old passed.old → OnOk result (Knows (named_then homes file.now) names.new passed.new) }
{
    if is_system(file.fid) {
        return Ok(());
    }
    if let Some(name) = adopt(names, passed, file.fid, file.name)? {
        files.push(Living {
            fid: file.fid,
            leader_at: file.leader_at,
            name,
        })?;
    }
    Ok(())
}
