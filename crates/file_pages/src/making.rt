// A new file.
ghost use Rattle.std.specs.Prelude.{◌≡◌, ◌+◌, ◌<◌, ◌≤◌, ◌∷◌, [], true, IsTrue, None, OnErr, OnOk, length};
ghost use Rattle.alto_words.specs.Fid.{is_full_name};
ghost use Rattle.disk_records.specs.Addresses.{pages_of};
ghost use Rattle.disk_records.specs.Causes.{HasCause};
ghost use Rattle.disk_records.specs.Frames.{IsFreeSector, WritesIn};
ghost use Rattle.disk_records.specs.Tapes.{DiskAlone, added, pack};
ghost use Rattle.disk_records.specs.Words.{word};
ghost use Rattle.disk_records.specs.declared.records.Place.TheVariants as place;
ghost use Rattle.laws_call.specs.Acting.{Operates, around};
ghost use Rattle.laws_lookup.specs.OtherLaws.{LeavesOthers};
ghost use Rattle.laws_operation.specs.PlaceLaws.{HasTwoPages};
ghost use Rattle.page_seeking.specs.declared.refs.FileError.TheVariants as error;
ghost use Rattle.page_seeking.specs.Refs.{IfMisled};
ghost use Rattle.file_pages.specs.Calls.{ListsTwoPages, MayBeMade, StaysHandy, WasGiven, to_make};
ghost use Rattle.page_seeking.specs.Causes.{cause_of_length};

use crate::FileError;
use crate::new_hints::note_two;
use crate::new_pages::{first_label, first_value, new_leader_label, new_value};
use crate::refs::{error_at, page_of_file};
use crate::tallying::count_operation;
use alto_words::{Fid, Name};
use disk_records::{Disk, Page, Place, Tally};
use hint_cache::{BitTable, Hints};
use label_check::claim;

/// The number of record writes up to which a tally counts, a number of 64 bits.
pub(crate) fn limit_of(tally: &Tally) -> u64
    ensures { result ≡ tally.now.limit }
{
    tally.limit
}

/// Makes a new file in two sectors: claims page 1, and then the leader.
fn make_file<D: Disk>(
    disk: &mut D,
    table: &mut BitTable,
    tally: &mut Tally,
    fid: Fid,
    name: &Name,
    moment: u32,
    leader_at: u16,
    page_at: u16,
) -> Result<(), FileError>
    requires sized { length table.old ≡ pages_of (D.tape disk.old).form }
    requires full_name { is_full_name fid ≡ true }
    requires leader_first { 1 ≤ leader_at }
    requires leader_last { leader_at < pages_of (D.tape disk.old).form }
    requires page_first { 1 ≤ page_at }
    requires page_last { page_at < pages_of (D.tape disk.old).form }
    ensures frame { IsTrue D.told → WritesIn (IsFreeSector (pack (D.tape disk.old))) (added (D.tape disk.old) (D.tape disk.new)) }
    ensures were_free { IsTrue D.told → OnOk result (IsFreeSector (pack (D.tape disk.old)) leader_at × IsFreeSector (pack (D.tape disk.old)) page_at) }
    ensures operates { IsTrue D.told → MayBeMade (pack (D.tape disk.old)) fid name.now leader_at page_at → Operates error.DiskFault error.Memory (to_make fid name.now moment) (page_at ∷ leader_at ∷ []) (around (D.tape disk.old) table.old tally.old) (around (D.tape disk.new) table.new tally.new) result }
    ensures placed { IsTrue D.told → MayBeMade (pack (D.tape disk.old)) fid name.now leader_at page_at → OnOk result (HasTwoPages (pack (D.tape disk.new)) fid leader_at page_at) }
    ensures others { IsTrue D.told → MayBeMade (pack (D.tape disk.old)) fid name.now leader_at page_at → OnOk result (LeavesOthers fid (pack (D.tape disk.old)) (pack (D.tape disk.new))) }
    ensures misled { IsTrue D.told → MayBeMade (pack (D.tape disk.old)) fid name.now leader_at page_at → IfMisled result (λ place at wanted found. ⊥) }
    ensures given { IfMisled result (WasGiven fid leader_at page_at) }
    ensures cause { HasCause cause_of_length (D.tape disk.old) (D.tape disk.new) result }
    ensures runs { IsTrue D.told → (D.tape disk.new).runs ≤ (D.tape disk.old).runs + 4 }
    ensures alone { DiskAlone (D.tape disk.old) (D.tape disk.new) }
    ensures table { OnErr result (table.new ≡ table.old) }
    ensures sized { length table.new ≡ length table.old }
{
    let shape = disk.shape();
    let label = first_label(shape, fid, leader_at);
    let value = first_value(fid);
    match claim(disk, page_at, label, &value) {
        Ok(()) => {}
        Err(error) => return Err(error_at(
            Place::Held { at: page_at },
            page_at,
            page_of_file(fid, 1),
            error,
        )),
    }
    let label = new_leader_label(shape, fid, page_at);
    let value = new_value(fid, name, moment, page_at);
    let _limit = limit_of(tally);
    let before = disk.writes();
    let claimed = claim(disk, leader_at, label, &value);
    let now = disk.writes();
    count_operation(tally, before, 2, now, &claimed);
    match claimed {
        Ok(()) => {
            table.set(page_at, true);
            table.set(leader_at, true);
            Ok(())
        }
        Err(error) => Err(error_at(
            Place::Held { at: leader_at },
            leader_at,
            page_of_file(fid, 0),
            error,
        )),
    }
}

/// The answer if an address that was to be checked is no sector's.
pub(crate) fn at_held(at: u16, wanted: Page) -> FileError
    ensures { result ≡ error.Misled (place.Held at) at wanted None }
{
    FileError::Misled {
        place: Place::Held { at },
        at,
        wanted,
        found: None,
    }
}

/// Makes a new file with this leader name, whose three dates are `moment`, in seconds since the start of 1901. It claims page 1 in the
/// second of the two sectors `fresh`, given by their virtual addresses, and then the leader in the first, whose label commits. Page 1 has
/// no bytes, or of a directory one free slot of 255 words. At most four sector commands, and six record writes. The full name has to be one
/// that can be given, of no living file, with the last serial given out; the sectors have to be two free ones. Both pages are listed then,
/// unless a note was refused, and their sectors busy in the table. On any pack, and whatever the answer is, each record write is in a sector
/// that was free; so one of `fresh` that isn't free stays, and the answer isn't Ok then.
///
/// Misled: an address of `fresh` is no usable sector's, or its sector isn't free: where the machine is modelled, this comes of no such
/// sectors as are asked for. The page that is wanted is the new file's that was to be there. DiskFault: the device failed. Memory: no memory
/// was left for a record write. After each of these a prefix of the record writes was done, and the table is as before.
pub fn make<D: Disk>(
    disk: &mut D,
    hints: &mut Hints,
    tally: &mut Tally,
    fid: Fid,
    name: &Name,
    moment: u32,
    fresh: [u16; 2],
) -> Result<(), FileError>
    requires sized { length hints.old.table ≡ pages_of (D.tape disk.old).form }
    requires full_name { is_full_name fid ≡ true }
    ensures frame { IsTrue D.told → WritesIn (IsFreeSector (pack (D.tape disk.old))) (added (D.tape disk.old) (D.tape disk.new)) }
    ensures were_free { IsTrue D.told → OnOk result (IsFreeSector (pack (D.tape disk.old)) (word fresh 0) × IsFreeSector (pack (D.tape disk.old)) (word fresh 1)) }
    ensures operates { IsTrue D.told → MayBeMade (pack (D.tape disk.old)) fid name.now (word fresh 0) (word fresh 1) → Operates error.DiskFault error.Memory (to_make fid name.now moment) (word fresh 1 ∷ word fresh 0 ∷ []) (around (D.tape disk.old) hints.old.table tally.old) (around (D.tape disk.new) hints.new.table tally.new) result }
    ensures placed { IsTrue D.told → MayBeMade (pack (D.tape disk.old)) fid name.now (word fresh 0) (word fresh 1) → OnOk result (HasTwoPages (pack (D.tape disk.new)) fid (word fresh 0) (word fresh 1)) }
    ensures misled { IsTrue D.told → MayBeMade (pack (D.tape disk.old)) fid name.now (word fresh 0) (word fresh 1) → IfMisled result (λ place at wanted found. ⊥) }
    ensures given { IfMisled result (WasGiven fid (word fresh 0) (word fresh 1)) }
    ensures cause { HasCause cause_of_length (D.tape disk.old) (D.tape disk.new) result }
    ensures runs { IsTrue D.told → (D.tape disk.new).runs ≤ (D.tape disk.old).runs + 4 }
    ensures alone { DiskAlone (D.tape disk.old) (D.tape disk.new) }
    ensures table { OnErr result (hints.new.table ≡ hints.old.table) }
    ensures sized { length hints.new.table ≡ length hints.old.table }
    ensures refused { hints.old.cache.refused ≤ hints.new.cache.refused }
    ensures listed { OnOk result (ListsTwoPages fid (word fresh 0) (word fresh 1) hints.old.cache hints.new.cache) }
    ensures handy { IsTrue D.told → MayBeMade (pack (D.tape disk.old)) fid name.now (word fresh 0) (word fresh 1) → OnOk result (StaysHandy (pack (D.tape disk.old)) (pack (D.tape disk.new)) hints.old.cache hints.new.cache) }
{
    let pages = disk.shape().pages();
    let [leader_at, page_at] = fresh;
    if leader_at == 0 || leader_at >= pages {
        return Err(at_held(leader_at, page_of_file(fid, 0)));
    }
    if page_at == 0 || page_at >= pages {
        return Err(at_held(page_at, page_of_file(fid, 1)));
    }
    match make_file(
        disk,
        &mut hints.table,
        tally,
        fid,
        name,
        moment,
        leader_at,
        page_at,
    ) {
        Ok(()) => {
            note_two(&mut hints.cache, fid, leader_at, page_at);
            Ok(())
        }
        Err(error) => Err(error),
    }
}
