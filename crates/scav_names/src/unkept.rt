// Entries that aren't kept.
ghost use Rattle.std.specs.Prelude.{◌≡◌, map, IsTrue, IfOk};
ghost use Rattle.disk_records.specs.Causes.{HasCause};
ghost use Rattle.disk_records.specs.Frames.{WritesUsable};
ghost use Rattle.disk_records.specs.Tapes.{DiskAlone, pack};
ghost use Rattle.scav_pages.specs.Stops.{cause_of_stop};
ghost use Rattle.scav_names.specs.Does.{Does};
ghost use Rattle.scav_names.specs.Parting.{unkept_entries};
ghost use Rattle.scav_names.specs.Parts.{MayBeNamed, UnkeptFreed};
ghost use Rattle.scav_names.specs.Words.{freeing_word};

use crate::placed::PlacedEntry;
use crate::words::{DirWord, write_words};
use alto_words::{List, Memory};
use disk_records::Disk;
use scav_pages::Stop;
use scav_table::Table;
use std::alloc::Global;

/// The first words that make the slots of these entries free ones of their lengths.
fn freeing_words(alloc: Global, entries: &[PlacedEntry]) -> Result<List<DirWord>, Memory>
    ensures { IfOk result (λ words. words ≡ map freeing_word entries.now) }
{
    let mut words = Vec::with_capacity(alloc, entries.len())?;
    for entry in entries {
        words.push(DirWord {
            dir: entry.dir,
            place: entry.place,
            word: entry.words(),
        })?;
    }
    Ok(List::from_vec(words))
}

/// Makes the slot of each of these entries, all those of the pack that aren't kept, a free one.
pub(crate) fn free_unkept<D: Disk>(
    alloc: Global,
    disk: &mut D,
    table: &mut Table,
    unkept: &[PlacedEntry],
) -> Result<(), Stop>
    ensures does { IsTrue D.told → MayBeNamed (pack (D.tape disk.old)) → unkept.now ≡ unkept_entries (pack (D.tape disk.old)) → Does UnkeptFreed (D.tape disk.old) (D.tape disk.new) result }
    ensures cause { HasCause cause_of_stop (D.tape disk.old) (D.tape disk.new) result }
    ensures frame { WritesUsable D.told (D.tape disk.old) (D.tape disk.new) }
    ensures alone { DiskAlone (D.tape disk.old) (D.tape disk.new) }
{
    let words = freeing_words(alloc, unkept)?;
    write_words(disk, table, words.as_slice())
}
