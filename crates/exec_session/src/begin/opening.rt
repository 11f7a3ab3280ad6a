// Opening a pack: SysDir at its fixed address, DiskDescriptor by its name, and what DiskDescriptor says.
ghost use Rattle.alto_words.specs.Fid.{disk_descriptor};
ghost use Rattle.disk_descriptor.specs.Opening.{HasCleanPage, IsOpened};
ghost use Rattle.disk_records.specs.Addresses.{pages_of};
ghost use Rattle.disk_records.specs.Causes.{HasCause};
ghost use Rattle.disk_records.specs.Tapes.{Looks, pack};
ghost use Rattle.exec_session.specs.Opens.{Refuses, cause_of_open};
ghost use Rattle.pack_model.specs.reading.Sights.{sights};
ghost use Rattle.pack_model.specs.states.Sentences.{EachOnce};
ghost use Rattle.pack_model.specs.states.Sound.{mark_clean};
ghost use Rattle.session_model.specs.Opening.{unready};
ghost use Rattle.std.specs.Prelude.{IfErr, IfOk, IsTrue, None, [], length, ◌*◌, ◌≡◌};

use crate::begin::root::{check_root, find_descriptor};
use alto_words::Memory;
use disk_descriptor::{Descriptor, OpenError, enter_pack};
use disk_records::{Disk, Sector};
use hint_cache::{BitTable, HintCache, Hints};
use std::alloc::Global;

/// What is kept of a pack that was opened.
#[derive(Drop)]
pub(crate) struct Opened {
    pub descriptor: Descriptor,
    pub hints: Hints,
}

/// Empty hints: no address, and every sector busy.
fn empty_hints(alloc: Global, pages: u16) -> Result<Hints, Memory>
    ensures cache { IfOk result (λ hints. hints.cache ≡ record { entries = []; refused = 0 }) }
    ensures table { IfOk result (λ hints. length hints.table ≡ pages) }
{
    Ok(Hints {
        cache: HintCache::new(alloc)?,
        table: BitTable::new(alloc, pages)?,
    })
}

/// Enters the pack by SysDir at its fixed address and DiskDescriptor by its name, with these hints of no address. Nothing is written.
fn enter_found<D: Disk>(disk: &mut D, hints: &mut Hints) -> Result<Descriptor, OpenError>
    requires sized { length hints.old.table ≡ pages_of (D.tape disk.old).form }
    ensures opened { IsTrue D.told → EachOnce (sights (pack (D.tape disk.old))) → IfOk result (λ d. (unready (pack (D.tape disk.old)) ≡ None) × IsOpened (pack (D.tape disk.old)) d hints.new.table) }
    ensures refused { IsTrue D.told → EachOnce (sights (pack (D.tape disk.old))) → IfErr result (Refuses (pack (D.tape disk.old))) }
    ensures clean { IfOk result (λ d. d.mark ≡ mark_clean) }
    ensures clean_page { IsTrue D.told → IfOk result (λ d. HasCleanPage (pack (D.tape disk.old)) disk_descriptor) }
    ensures shape { IfOk result (λ d. d.shape ≡ (D.tape disk.old).form) }
    ensures sized { length hints.new.table ≡ length hints.old.table }
    ensures cause { HasCause cause_of_open (D.tape disk.old) (D.tape disk.new) result }
    ensures looks { Looks D.told (65588 * 131072) (D.tape disk.old) (D.tape disk.new) }
{
    let mut buf = Sector::ZEROS;
    check_root(disk, &mut buf)?;
    let entry = find_descriptor(disk, hints, &mut buf)?;
    enter_pack(disk, hints, &entry)
}

/// Opens the pack, with empty caches. Nothing is written.
pub(crate) fn open_pack<D: Disk>(alloc: Global, disk: &mut D) -> Result<Opened, OpenError>
    ensures opened { IsTrue D.told → EachOnce (sights (pack (D.tape disk.old))) → IfOk result (λ o. (unready (pack (D.tape disk.old)) ≡ None) × IsOpened (pack (D.tape disk.old)) o.descriptor o.hints.table) }
    ensures refused { IsTrue D.told → EachOnce (sights (pack (D.tape disk.old))) → IfErr result (Refuses (pack (D.tape disk.old))) }
    ensures clean { IfOk result (λ o. o.descriptor.mark ≡ mark_clean) }
    ensures clean_page { IsTrue D.told → IfOk result (λ d. HasCleanPage (pack (D.tape disk.old)) disk_descriptor) }
    ensures formed { IfOk result (λ o. (o.descriptor.shape ≡ (D.tape disk.old).form) × (length o.hints.table ≡ pages_of (D.tape disk.old).form)) }
    ensures cause { HasCause cause_of_open (D.tape disk.old) (D.tape disk.new) result }
    ensures looks { Looks D.told (65588 * 131072) (D.tape disk.old) (D.tape disk.new) }
{
    let mut hints = match empty_hints(alloc, disk.shape().pages()) {
        Ok(hints) => hints,
        Err(Memory) => return Err(OpenError::Memory),
    };
    let descriptor = enter_found(disk, &mut hints)?;
    Ok(Opened { descriptor, hints })
}
