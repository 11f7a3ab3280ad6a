// All names of a pack.
ghost use Rattle.std.specs.Prelude.{◌≡◌, ◌^◌, ◌<◌, ◌≤◌, length, IsTrue};
ghost use Rattle.disk_records.specs.Causes.{HasCause};
ghost use Rattle.disk_records.specs.Frames.{WritesUsable};
ghost use Rattle.disk_records.specs.Packs.{Pack};
ghost use Rattle.disk_records.specs.Tapes.{DiskAlone, pack};
ghost use Rattle.pack_model.specs.scavenger.Reports.{PagesMended};
ghost use Rattle.pack_model.specs.scavenger.Scavenging.{Scavengeable};
ghost use Rattle.scav_pages.specs.Stops.{cause_of_stop};
ghost use Rattle.scav_table.specs.Causes.{cause_of_sweep};
ghost use Rattle.scav_names.specs.Catalogues.{HoldsNames};
ghost use Rattle.scav_names.specs.Does.{Does};
ghost use Rattle.scav_names.specs.Lacking.{adopted_among};
ghost use Rattle.scav_names.specs.Mending.{AreMended, AreMendedSince, AreReady, MendsNames, root_read};
ghost use Rattle.scav_names.specs.Parting.{IsParted};
ghost use Rattle.scav_names.specs.Parts.{MayBeNamed};

use crate::addresses::mend_addresses;
use crate::catalogue::Catalogue;
use crate::enter::enter_all;
use crate::freed::root_rooms;
use crate::lacked::lacking;
use crate::living::Living;
use crate::parted::{Parted, part_entries};
use crate::placed::PlacedEntry;
use crate::read::read_names;
use crate::root::Root;
use crate::unkept::free_unkept;
use alto_words::List;
use disk_records::Disk;
use kept_names::is_system;
use scav_pages::Stop;
use scav_table::{SweepError, Table};
use std::alloc::Global;

/// How many of these files aren't system files.
fn count_adopted(files: &[Living]) -> u32
    ensures { length files.now < 2 ^ 32 → result ≡ adopted_among files.now }
{
    let mut adopted = 0u32;
    for file in files {
        if !is_system(file.fid) {
            adopted = adopted.saturating_add(1);
        }
    }
    adopted
}

/// Mends the names of a pack that can be scavenged and whose pages are mended, at whatever window the table is: makes the slots of entries
/// free that aren't kept, enters the system files in SysDir if they have no entry there, and then each nameless file by rising full name, under its
/// leader's name or the first suffix of that which isn't taken, and makes the addresses of all entries true. SysDir gets a page more for an
/// entry that has no room. Answers how many files got a name, the system files aside. No label is written that stands already, and no value
/// either, except in a free sector or with its sector's label. Whatever the answer, sector 0 and each sector with a wrong header keep all of
/// their records, and every other sector its header. What it keeps in memory are names and slots.
///
/// DiskFault: the disk failed. Memory: none was left for names and slots, or for record writes of the disk; or, on a disk that isn't modelled, a
/// sector shows another page than a moment ago, or none is free where one has to be. After either of them a prefix of the work is done, and the
/// pack can be scavenged again.
pub fn mend_names<D: Disk>(
    alloc: Global,
    disk: &mut D,
    table: &mut Table,
) -> Result<u32, SweepError>
    ensures mends { IsTrue D.told → Scavengeable (pack (D.tape disk.old)) → PagesMended (pack (D.tape disk.old)) → MendsNames (D.tape disk.old) (D.tape disk.new) result }
    ensures cause { HasCause cause_of_sweep (D.tape disk.old) (D.tape disk.new) result }
    ensures frame { WritesUsable D.told (D.tape disk.old) (D.tape disk.new) }
    ensures alone { DiskAlone (D.tape disk.old) (D.tape disk.new) }
{
    match mend(alloc, disk, table) {
        Ok(adopted) => Ok(adopted),
        // it comes only of a pack that can't be scavenged or whose pages aren't mended, or on a machine that isn't modelled
        Err(Stop::Astray) => Err(SweepError::Memory),
        Err(Stop::DiskFault) => Err(SweepError::DiskFault),
        Err(Stop::Memory) => Err(SweepError::Memory),
    }
}

/// The names are read and parted, and then mended.
fn mend<D: Disk>(alloc: Global, disk: &mut D, table: &mut Table) -> Result<u32, Stop>
    ensures does { IsTrue D.told → MayBeNamed (pack (D.tape disk.old)) → Does AreMended (D.tape disk.old) (D.tape disk.new) result }
    ensures cause { HasCause cause_of_stop (D.tape disk.old) (D.tape disk.new) result }
    ensures frame { WritesUsable D.told (D.tape disk.old) (D.tape disk.new) }
    ensures alone { DiskAlone (D.tape disk.old) (D.tape disk.new) }
{
    let names = read_names(alloc, disk, table)?;
    let mut parted = part_entries(alloc, &names)?;
    mend_parted(alloc, disk, table, names, &mut parted)
}

/// Mends the names of a pack that were read and parted.
fn mend_parted<D: Disk>(
    alloc: Global,
    disk: &mut D,
    table: &mut Table,
    mut names: Catalogue,
    parted: &mut Parted,
) -> Result<u32, Stop>
    ensures does { IsTrue D.told → MayBeNamed (pack (D.tape disk.old)) → HoldsNames (pack (D.tape disk.old)) names → IsParted (pack (D.tape disk.old)) parted.old → Does AreMended (D.tape disk.old) (D.tape disk.new) result }
    ensures cause { HasCause cause_of_stop (D.tape disk.old) (D.tape disk.new) result }
    ensures frame { WritesUsable D.told (D.tape disk.old) (D.tape disk.new) }
    ensures alone { DiskAlone (D.tape disk.old) (D.tape disk.new) }
{
    let files = make_ready(alloc, disk, table, &mut names, parted)?;
    let Catalogue {
        living,
        rooms,
        root_pages,
        ..
    } = names;
    let mut root = Root {
        rooms,
        pages: root_pages,
        from: 1,
    };
    name_files(
        alloc,
        disk,
        table,
        &mut root,
        living.as_slice(),
        parted.kept.as_slice(),
        files.as_slice(),
    )
}

/// Makes the slots of entries free that aren't kept, on the pack and in memory. Answers the entries that SysDir lacks then.
fn make_ready<D: Disk>(
    alloc: Global,
    disk: &mut D,
    table: &mut Table,
    names: &mut Catalogue,
    parted: &mut Parted,
) -> Result<List<Living>, Stop>
    ensures does { IsTrue D.told → MayBeNamed (pack (D.tape disk.old)) → HoldsNames (pack (D.tape disk.old)) names.old → IsParted (pack (D.tape disk.old)) parted.old → Does (AreReady (root_read names.new) names.new.living parted.new.kept) (D.tape disk.old) (D.tape disk.new) result }
    ensures cause { HasCause cause_of_stop (D.tape disk.old) (D.tape disk.new) result }
    ensures frame { WritesUsable D.told (D.tape disk.old) (D.tape disk.new) }
    ensures alone { DiskAlone (D.tape disk.old) (D.tape disk.new) }
{
    free_unkept(alloc, disk, table, parted.unkept.as_slice())?;
    root_rooms(names, parted)?;
    let files = lacking(alloc, names.living.as_slice(), parted)?;
    Ok(files)
}

/// Enters in SysDir what it lacks, and makes the addresses of the entries that were kept true. Answers how many files got a name, the system
/// files aside.
fn name_files<D: Disk>(
    alloc: Global,
    disk: &mut D,
    table: &mut Table,
    root: &mut Root,
    living: &[Living],
    kept: &[PlacedEntry],
    files: &[Living],
) -> Result<u32, Stop>
    requires first { 1 ≤ root.old.from }
    ensures does { IsTrue D.told → (p : Pack) → AreReady root.old living.now kept.now p (pack (D.tape disk.old)) files.now → Does (AreMendedSince p) (D.tape disk.old) (D.tape disk.new) result }
    ensures cause { HasCause cause_of_stop (D.tape disk.old) (D.tape disk.new) result }
    ensures frame { WritesUsable D.told (D.tape disk.old) (D.tape disk.new) }
    ensures alone { DiskAlone (D.tape disk.old) (D.tape disk.new) }
{
    enter_all(alloc, disk, root, files)?;
    mend_addresses(alloc, disk, table, living, kept)?;
    Ok(count_adopted(files))
}
