// The one scan of all entries: those that are kept, and the others.
ghost use Rattle.std.specs.Prelude.{◌≡◌, ◌&&◌, IfOk};
ghost use Rattle.alto_words.specs.Names.{is_same_name};
ghost use Rattle.alto_words.specs.Fid.{is_fid, sys_dir};
ghost use Rattle.disk_records.specs.Packs.{Pack};
ghost use Rattle.scav_names.specs.Catalogues.{HoldsNames};
ghost use Rattle.scav_names.specs.Living.{Rises, lives_in};
ghost use Rattle.scav_names.specs.Parting.{IsParted};

use crate::catalogue::Catalogue;
use crate::living::{Living, find_living};
use crate::placed::PlacedEntry;
use alto_words::{Fid, List, Memory};
use kept_names::{Entry, Names, QualifiedName, consider, is_system, is_text};
use std::alloc::Global;

/// The entries of a pack, parted by the one scan: both system files are taken for living.
#[derive(Drop)]
pub struct Parted {
    /// Those that are kept, in the order of the scan.
    pub kept: List<PlacedEntry>,
    /// The others, in the same order.
    pub unkept: List<PlacedEntry>,
    /// The kept ones of the files that are shown, as names.
    pub names: Names,
    /// Whether SysDir has a kept entry.
    pub names_root: bool,
    /// Whether DiskDescriptor has one.
    pub names_descriptor: bool,
}

impl Parted {
    ghost use Rattle.std.specs.Prelude.{◌≡◌, Bool, IfOk, OnOk, List, []};
    ghost use Rattle.alto_words.specs.declared.fid.Fid.{Fid as FullName};
    ghost use Rattle.scav_names.specs.declared.placed.PlacedEntry.{PlacedEntry as Entered};
    ghost use Rattle.scav_names.specs.Parting.{IsJudged, IsPartedTo, LetsSystem, push_entry};

    /// No entries; they take no memory.
    fn new(alloc: Global) -> Parted
        ensures { (alive : FullName → Bool) → IsPartedTo alive [] result }
    {
        Parted {
            kept: List::from_vec(Vec::new(alloc)),
            unkept: List::from_vec(Vec::new(alloc)),
            names: Names::new(alloc),
            names_root: false,
            names_descriptor: false,
        }
    }

    /// Takes the next entry of the scan, whose file lives or not; a system file is taken for living.
    fn take(&mut self, lives: bool, entry: &PlacedEntry) -> Result<(), Memory>
        ensures { (alive : FullName → Bool) (before : List Entered) → LetsSystem alive → lives ≡ alive entry.now.fid → IsPartedTo alive before self.old → OnOk result (IsPartedTo alive (push_entry before entry.now) self.new) }
    {
        if self.keeps(lives, entry)? {
            self.kept.as_vec().push(*entry)?;
        } else {
            self.unkept.as_vec().push(*entry)?;
        }
        Ok(())
    }

    /// Whether the next entry of the scan is kept, and from then on its file has an entry.
    fn keeps(&mut self, lives: bool, entry: &PlacedEntry) -> Result<bool, Memory>
        ensures { (alive : FullName → Bool) (before : List Entered) → LetsSystem alive → lives ≡ alive entry.now.fid → IsPartedTo alive before self.old → IfOk result (IsJudged alive before entry.now self.old self.new) }
    {
        if entry.fid == Fid::SYS_DIR {
            let keeps = !self.names_root && is_own(entry, b"SysDir.");
            self.names_root |= keeps;
            return Ok(keeps);
        }
        if entry.fid == Fid::DISK_DESCRIPTOR {
            let keeps = !self.names_descriptor && is_own(entry, b"DiskDescriptor.");
            self.names_descriptor |= keeps;
            return Ok(keeps);
        }
        let name = QualifiedName {
            directory: entry.dir,
            name: entry.name,
        };
        let fid = entry.fid;
        consider(&mut self.names, lives, Entry { name, fid })
    }
}

/// Whether an entry stands in SysDir under this name, in any case of its letters.
fn is_own(entry: &PlacedEntry, name: &[u8]) -> bool
    ensures { result ≡ (is_fid entry.now.dir sys_dir && is_same_name entry.now.name name.now) }
{
    entry.dir == Fid::SYS_DIR && is_text(&entry.name, name)
}

/// Whether a file lives, by these living files, which rise by full name; a system file is taken for living.
fn lives_in(living: &[Living], fid: Fid) -> bool
    ensures { Rises living.now → result ≡ lives_in living.now fid }
{
    is_system(fid) || find_living(living, fid).is_some()
}

/// Parts the entries of a pack into those that are kept and the others.
///
/// Memory: none was left for them.
pub fn part_entries(alloc: Global, names: &Catalogue) -> Result<Parted, Memory>
    ensures { (p : Pack) → HoldsNames p names.now → IfOk result (IsParted p) }
{
    let mut parted = Parted::new(alloc);
    let living = names.living.as_slice();
    for entry in names.entries.as_slice() {
        parted.take(lives_in(living, entry.fid), entry)?;
    }
    Ok(parted)
}
