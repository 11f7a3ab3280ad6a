// `list`: the names in a directory.
ghost use Rattle.alto_words.specs.Fid.{sys_dir};
ghost use Rattle.alto_words.specs.Names.{folded_cmp};
ghost use Rattle.dir_slots.specs.Items.{items_of};
ghost use Rattle.disk_records.specs.Causes.{HasCause};
ghost use Rattle.disk_records.specs.Tapes.{DiskAlone, added, pack};
ghost use Rattle.executive.specs.Orders.{with_name};
ghost use Rattle.executive.specs.Reads.{ReadsRight};
ghost use Rattle.exec_session.specs.Meant.{LooksAbout, MayObey, Stays, TakesLine};
ghost use Rattle.exec_session.specs.Stops.{cause_of_stop};
ghost use Rattle.exec_words.specs.Texts.{list_text, names_text};
ghost use Rattle.pack_model.specs.reading.Namings.{namings_in};
ghost use Rattle.pack_model.specs.showing.Listing.{in_order};
ghost use Rattle.pack_model.specs.states.Sound.{Sound};
ghost use Rattle.std.specs.Prelude.{IfOk, IsTrue, OnOk, [], map, ◌*◌, ◌≡◌};
ghost use Rattle.exec_words.specs.declared.line.Line.TheVariants as line;

use crate::order::Listed;
use alto_words::{Memory, Name};
use dir_slots::Slot;
use directory::list;
use disk_records::Disk;
use exec_session::{Session, Stop, find_dir, require_directory};
use exec_words::names_text;
use std::alloc::Global;
use std::collections::BTreeSet;

/// Puts the name of an entry among these, if the slot is one.
fn insert_name(names: &mut BTreeSet<Listed>, slot: &Slot) -> Result<(), Memory>
    ensures { OnOk result (names.new.keys ≡ with_name names.old.keys slot.now) }
{
    match slot {
        Slot::Entry { name, .. } => {
            names.insert(Listed { name: *name })?;
            Ok(())
        }
        Slot::Free { .. } => Ok(()),
    }
}

/// The names of entries, each once, by their order.
fn names_of(alloc: Global, slots: &[Slot]) -> Result<BTreeSet<Listed>, Memory>
    ensures { IfOk result (λ names. map (λ l. l.name) names.keys ≡ in_order folded_cmp (map (λ n. n.name) (namings_in sys_dir (items_of slots.now)))) }
{
    let mut names = BTreeSet::new(alloc);
    // from the last slot to the first, as the model's `in_order` inserts them
    for slot in slots.iter().rev() {
        insert_name(&mut names, slot)?;
    }
    Ok(names)
}

/// These names in a row.
fn row_of(alloc: Global, names: &BTreeSet<Listed>) -> Result<Vec<Name>, Memory>
    ensures { IfOk result (λ row. row.items ≡ map (λ l. l.name) names.now.keys) }
{
    let mut row = Vec::new(alloc);
    for listed in names {
        row.push(listed.name)?;
    }
    Ok(row)
}

/// These names, each on a line, and how many there are.
fn text_of(alloc: Global, names: &BTreeSet<Listed>) -> Result<Vec<u8>, Memory>
    ensures { IfOk result (λ text. text.items ≡ names_text (map (λ l. l.name) names.now.keys)) }
{
    let row = row_of(alloc, names)?;
    names_text(alloc, &row)
}

/// The text of `list` for the entries among these slots.
fn slots_text(alloc: Global, slots: &[Slot]) -> Result<Vec<u8>, Memory>
    ensures { IfOk result (λ text. text.items ≡ list_text (map (λ n. n.name) (namings_in sys_dir (items_of slots.now)))) }
{
    let names = names_of(alloc, slots)?;
    text_of(alloc, &names)
}

/// The slots of the directory that is to be listed.
fn find_slots<D: Disk>(
    alloc: Global,
    session: &mut Session,
    disk: &mut D,
    dir: &Option<Name>,
) -> Result<Vec<Slot>, Stop>
    ensures reads { IsTrue D.told → Sound (pack (D.tape disk.old)) → ReadsRight (pack (D.tape disk.old)) (line.ListNames dir.now) (λ slots. list_text (map (λ n. n.name) (namings_in sys_dir (items_of slots.items)))) result }
    ensures cause { HasCause cause_of_stop (D.tape disk.old) (D.tape disk.new) result }
    ensures looks { LooksAbout D.told (65588 * 131072) (D.tape disk.old) (D.tape disk.new) session.old session.new }
{
    let dir = find_dir(session, disk, dir)?;
    require_directory(dir.fid)?;
    Ok(list(alloc, disk, &mut session.hints, &dir)?)
}

/// The text of `list`: the names of a directory's entries by their order, each on a line, and how many there are.
///
/// NoSuchName: the directory isn't there. NotADirectory: it isn't one. Misled: an address on the way to it is wrong, or one of its links.
/// DiskFault: the device failed. Memory: none was left for the names or the text.
pub(crate) fn list_names<D: Disk>(
    alloc: Global,
    session: &mut Session,
    disk: &mut D,
    dir: &Option<Name>,
) -> Result<Vec<u8>, Stop>
    requires obeys { MayObey (D.tape disk.old) session.old (line.ListNames dir.now) }
    ensures turns { IsTrue D.told → TakesLine (D.tape disk.old) (D.tape disk.new) session.old session.new (line.ListNames dir.now) result }
    ensures silent { IsTrue D.told → added (D.tape disk.old) (D.tape disk.new) ≡ [] }
    ensures stays { Stays (D.tape disk.new) session.old session.new }
    ensures cause { HasCause cause_of_stop (D.tape disk.old) (D.tape disk.new) result }
    ensures alone { DiskAlone (D.tape disk.old) (D.tape disk.new) }
{
    let slots = find_slots(alloc, session, disk, dir)?;
    Ok(slots_text(alloc, &slots)?)
}
