// The one scan of all directories: which entries are kept.
ghost use Rattle.std.specs.Prelude.{[], ◌∷◌, fold, IfOk, OnOk};
ghost use Rattle.std.specs.FinMap.{FinMap, empty};
ghost use Rattle.alto_words.specs.declared.fid.Fid.{Fid};
ghost use Rattle.alto_words.specs.Fid.{fid_cmp};
ghost use Rattle.dir_slots.specs.Items.{item_of};
ghost use Rattle.kept_names.specs.Homes.{StandsFor, considered};
ghost use Rattle.pack_model.specs.reading.Namings.{namings_in};
ghost use Rattle.pack_model.specs.showing.View.{Home};
ghost use Rattle.pack_reading.specs.Kept.{lives_kept};
ghost use Rattle.pack_reading.specs.Scans.{namings_of, all_namings};

use crate::bytes::words_of;
use crate::files::Found;
use crate::swept::Leaders;
use alto_words::{Fid, Memory};
use dir_slots::{Slot, first_slot};
use kept_names::{Entry, Names, QualifiedName, consider};
use std::alloc::Global;

/// Considers the entry of a slot.
fn consider_slot(
    names: &mut Names,
    leaders: &Leaders,
    directory: Fid,
    slot: &Slot,
) -> Result<(), Memory>
    ensures { (homes : FinMap fid_cmp Home) → StandsFor names.old homes → OnOk result (StandsFor names.new (fold (considered (lives_kept leaders.now)) homes (namings_in directory (item_of slot.now ∷ [])))) }
{
    match slot {
        Slot::Free { .. } => Ok(()),
        Slot::Entry { fid, name, .. } => {
            let name = QualifiedName {
                directory,
                name: *name,
            };
            consider(names, leaders.has(*fid), Entry { name, fid: *fid })?;
            Ok(())
        }
    }
}

/// Considers the entries of a directory, each in its turn. No list of its slots is made: in memory a slot is many times as long as the
/// one word that it may have.
fn scan_directory(
    alloc: Global,
    names: &mut Names,
    leaders: &Leaders,
    file: &Found,
) -> Result<(), Memory>
    ensures { (homes : FinMap fid_cmp Home) → StandsFor names.old homes → OnOk result (StandsFor names.new (fold (considered (lives_kept leaders.now)) homes (namings_of file.now))) }
{
    if !file.fid.is_directory() {
        return Ok(());
    }
    let words = words_of(alloc, file.bytes.as_slice())?;
    let mut rest = words.as_slice();
    while let Some(slot) = first_slot(rest) {
        consider_slot(names, leaders, file.fid, &slot)?;
        rest = &rest[slot.words() as usize..];
    }
    Ok(())
}

/// The entries that are kept of all directories, by rising full name.
pub(crate) fn scan(alloc: Global, files: &[Found], leaders: &Leaders) -> Result<Names, Memory>
    ensures { IfOk result (λ names. StandsFor names (fold (considered (lives_kept leaders.now)) (empty {R = fid_cmp}) (all_namings files.now))) }
{
    let mut names = Names::new(alloc);
    for file in files {
        scan_directory(alloc, &mut names, leaders, file)?;
    }
    Ok(names)
}
