// The names that nameless files get.
ghost use Rattle.std.specs.Prelude.{◌≡◌, map, IfOk, OnOk};
ghost use Rattle.std.specs.FinMap.{FinMap};
ghost use Rattle.alto_words.specs.Fid.{fid_cmp};
ghost use Rattle.kept_names.specs.Homes.{StandsFor, naming_at};
ghost use Rattle.pack_model.specs.showing.Settling.{settled};
ghost use Rattle.pack_model.specs.showing.View.{Home};
ghost use Rattle.pack_reading.specs.Shows.{seen_file, shown_name};

use crate::shown::{ShownFile, ShownName};
use alto_words::{List, Memory};
use kept_names::{Names, Passed, adopt};
use std::alloc::Global;

/// Gives each file that has no name one, in order.
pub(crate) fn settle(alloc: Global, names: &mut Names, files: &[ShownFile]) -> Result<(), Memory>
    ensures { (homes : FinMap fid_cmp Home) → StandsFor names.old homes → OnOk result (StandsFor names.new (settled homes (map seen_file files.now))) }
{
    let mut passed = Passed::new(alloc);
    for file in files {
        adopt(names, &mut passed, file.fid, file.leader.name)?;
    }
    Ok(())
}

/// The names in the order in which they are shown.
pub(crate) fn list_names(alloc: Global, names: &Names) -> Result<List<ShownName>, Memory>
    ensures { IfOk result (λ list. list ≡ map (λ e. shown_name (naming_at e)) names.now.kept.keys) }
{
    let mut list = Vec::with_capacity(alloc, names.kept.len())?;
    for entry in &names.kept {
        list.push(ShownName {
            directory: entry.name.directory,
            name: entry.name.name,
            fid: entry.fid,
        })?;
    }
    Ok(List::from_vec(list))
}
