// The greatest version of a name.
ghost use Rattle.std.specs.Prelude.{◌≡◌, ◌*◌, ◌≤◌, true, IsTrue, IsErrOf, IfOk, OnOk, []};
ghost use Rattle.alto_words.specs.Fid.{is_system};
ghost use Rattle.alto_words.specs.Names.{is_bare_name};
ghost use Rattle.disk_records.specs.Causes.{HasCause};
ghost use Rattle.disk_records.specs.Tapes.{Looks, pack};
ghost use Rattle.dir_slots.specs.Items.{item_of};
ghost use Rattle.pack_model.specs.hints.Links.{LinksTrue};
ghost use Rattle.pack_model.specs.reading.Lookup.{holds_base};
ghost use Rattle.page_seeking.specs.Causes.{cause_of_length};
ghost use Rattle.page_seeking.specs.Refs.{IfMisled, IsOwnHint, MisledBy};
ghost use Rattle.page_seeking.specs.Seeking.{KeepsHandy, Quick};
ghost use Rattle.directory.specs.Asked.{DirIsFound, DirStands};
ghost use Rattle.directory.specs.Found.{IsGreatest, IsQuick, IsReadByPages, ListsLastPage};

use crate::finding::{Finding, version_met};
use crate::walk::{Visit, visit_slots};
use crate::{FileError, FileRef};
use alto_words::{Fid, Memory, Name, Wanted};
use dir_slots::{Passing, PlacedSlot, Slot};
use disk_records::{Disk, Sector};
use hint_cache::Hints;

/// The versions of a bare name in a directory.
#[derive(Clone, Copy, Debug, PartialEq, Eq)]
pub struct VersionFound {
    /// The greatest version, 1 to 65,534; 0 where no entry has this base.
    pub version: u16,
    /// Whether the bare name is that of a directory or of a system file, which has no other version.
    pub held: bool,
}

/// The entry with the greatest version of a base, and whether the base is held, of the slots met so far.
#[derive(Drop)]
struct Versions {
    newest: Finding,
    held: bool,
}

/// Whether this is one of the two system files.
fn is_system(fid: Fid) -> bool
    ensures { result ≡ is_system fid }
{
    fid == Fid::SYS_DIR || fid == Fid::DISK_DESCRIPTOR
}

/// Whether a slot is the entry of a directory or of a system file, with this base as its name.
fn holds_base(base: &Name, slot: &Slot) -> bool
    ensures { result ≡ holds_base base.now (item_of slot.now) }
{
    match slot {
        Slot::Free { .. } => false,
        Slot::Entry { fid, name, .. } => name.same(base) && (fid.is_directory() || is_system(*fid)),
    }
}

impl Visit for Versions {
    ghost use Rattle.std.specs.Prelude.{false};
    ghost use Rattle.directory.specs.Inside.{MeetsVersion};

    ghost step = { MeetsVersion };

    ghost takes_memory = { false };

    fn passes(&self) -> Option<Passing> {
        match self.newest.wanted {
            // an entry of the base itself counts then, too
            Wanted::Exact { .. } => None,
            Wanted::Newest { base } => Some(Passing {
                free: true,
                name: Some(base),
            }),
        }
    }

    fn visit(&mut self, met: PlacedSlot) -> Result<(), Memory> {
        if holds_base(&self.newest.wanted.base(), &met.slot) {
            self.held = true;
        }
        self.newest.visit(met)
    }
}

/// The greatest version of a bare name in a directory, and whether the name is held by a directory or a system file. Pages are sought as by
/// `locate`. Nothing is written.
///
/// Misled: the address that the directory is named with, or a next link of it, misleads. DiskFault: the device failed. Memory: no memory
/// was left, which no machine that is modelled answers here. Beyond never comes. What `buf` holds then is open.
pub fn greatest<D: Disk>(
    disk: &mut D,
    hints: &mut Hints,
    dir: &FileRef,
    base: &Name,
    buf: &mut Sector,
) -> Result<VersionFound, FileError>
    requires bare { is_bare_name base.now ≡ true }
    ensures found { IsTrue D.told → DirIsFound (pack (D.tape disk.old)) dir.now → IfOk result (IsGreatest (pack (D.tape disk.old)) dir.now.fid base.now) }
    ensures misled { IsTrue D.told → DirIsFound (pack (D.tape disk.old)) dir.now → IfMisled result (MisledBy (pack (D.tape disk.old)) [] dir.now.fid) }
    ensures hint { IfMisled result (IsOwnHint dir.now) }
    ensures true_links { IsTrue D.told → DirStands (pack (D.tape disk.old)) dir.now → LinksTrue (pack (D.tape disk.old)) → IfMisled result (λ place at wanted found. ⊥) }
    ensures cause { HasCause cause_of_length (D.tape disk.old) (D.tape disk.new) result }
    ensures want { IsTrue D.told → IsErrOf result FileError.Memory → ⊥ }
    ensures looks { Looks D.told (65588 * 65535) (D.tape disk.old) (D.tape disk.new) }
    ensures pages { IsTrue D.told → IsReadByPages (pack (D.tape disk.old)) dir.now.fid (D.tape disk.old) (D.tape disk.new) }
    ensures quick { IsTrue D.told → Quick (pack (D.tape disk.old)) dir.now.fid hints.old.cache → OnOk result (IsQuick (pack (D.tape disk.old)) dir.now.fid hints.old.cache hints.new.cache (D.tape disk.old) (D.tape disk.new)) }
    ensures table { hints.new.table ≡ hints.old.table }
    ensures listed { IsTrue D.told → DirIsFound (pack (D.tape disk.old)) dir.now → OnOk result (ListsLastPage D.told (pack (D.tape disk.old)) dir.now.fid hints.old.cache hints.new.cache) }
    ensures refused { hints.old.cache.refused ≤ hints.new.cache.refused }
    ensures handy { IsTrue D.told → KeepsHandy (pack (D.tape disk.old)) hints.old.cache hints.new.cache }
{
    let mut versions = Versions {
        newest: Finding {
            wanted: Wanted::Newest { base: *base },
            best: None,
        },
        held: false,
    };
    match visit_slots(disk, hints, dir, &mut versions, buf) {
        Ok(()) => Ok(VersionFound {
            version: version_met(&versions.newest.best),
            held: versions.held,
        }),
        Err(error) => Err(error),
    }
}
