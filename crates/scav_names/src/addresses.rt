// Addresses of entries.
ghost use Rattle.std.specs.Prelude.{◌≡◌, ◌+◌, ◌^◌, ◌<◌, IsTrue, IfOk, All};
ghost use Rattle.disk_records.specs.Causes.{HasCause};
ghost use Rattle.disk_records.specs.Frames.{WritesUsable};
ghost use Rattle.disk_records.specs.Tapes.{DiskAlone, pack};
ghost use Rattle.scav_pages.specs.Stops.{cause_of_stop};
ghost use Rattle.scav_names.specs.Does.{Does};
ghost use Rattle.scav_names.specs.Living.{Rises};
ghost use Rattle.scav_names.specs.Parts.{AddressesTrue, MayBeAddressed};
ghost use Rattle.scav_names.specs.Words.{address_words, true_address};

use crate::living::{Living, find_living};
use crate::placed::PlacedEntry;
use crate::words::{DirWord, write_words};
use alto_words::{List, Memory};
use disk_records::Disk;
use scav_pages::Stop;
use scav_table::Table;
use std::alloc::Global;

/// The word of an entry that is the address of its file's leader page, counted from its first.
const LEADER_AT: u32 = 5;

/// The address of an entry, if it isn't that of its file's leader page, as it is to be.
fn address_of(living: &[Living], entry: &PlacedEntry) -> Option<DirWord>
    ensures { Rises living.now → entry.now.place + 5 < 2 ^ 32 → result ≡ true_address living.now entry.now }
{
    let file = find_living(living, entry.fid)?;
    if file.leader_at == entry.leader_at {
        return None;
    }
    Some(DirWord {
        dir: entry.dir,
        place: entry.place.saturating_add(LEADER_AT),
        word: file.leader_at,
    })
}

/// Those of all these entries.
fn addresses_of(
    alloc: Global,
    living: &[Living],
    entries: &[PlacedEntry],
) -> Result<List<DirWord>, Memory>
    ensures { Rises living.now → All (λ e. e.place + 5 < 2 ^ 32) entries.now → IfOk result (λ words. words ≡ address_words living.now entries.now) }
{
    let mut words = Vec::new(alloc);
    for entry in entries {
        if let Some(word) = address_of(living, entry) {
            words.push(word)?;
        }
    }
    Ok(List::from_vec(words))
}

/// Makes the address of each of these entries, which were kept before others came, that of its file's leader page.
pub(crate) fn mend_addresses<D: Disk>(
    alloc: Global,
    disk: &mut D,
    table: &mut Table,
    living: &[Living],
    kept: &[PlacedEntry],
) -> Result<(), Stop>
    ensures does { IsTrue D.told → MayBeAddressed (pack (D.tape disk.old)) living.now kept.now → Does AddressesTrue (D.tape disk.old) (D.tape disk.new) result }
    ensures cause { HasCause cause_of_stop (D.tape disk.old) (D.tape disk.new) result }
    ensures frame { WritesUsable D.told (D.tape disk.old) (D.tape disk.new) }
    ensures alone { DiskAlone (D.tape disk.old) (D.tape disk.new) }
{
    let words = addresses_of(alloc, living, kept)?;
    write_words(disk, table, words.as_slice())
}
