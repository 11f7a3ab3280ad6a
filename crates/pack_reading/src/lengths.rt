// What a pack shows, with the lengths of files in the place of their bytes.
//
// A listing shows no byte of an ordinary file, so none is kept here: that takes a small part of the memory, and of the time that it
// takes to touch it.
ghost use Rattle.std.specs.Prelude.{◌≡◌, ◌-◌, List, map, IsTrue, IfOk};
ghost use Rattle.disk_records.specs.Addresses.{pages_of};
ghost use Rattle.disk_records.specs.Causes.{HasCause};
ghost use Rattle.disk_records.specs.Tapes.{Looks, pack};
ghost use Rattle.disk_records.specs.declared.shape.Shape.{Shape as Form};
ghost use Rattle.pack_model.specs.reading.Sights.{Sight as Shows, sights};
ghost use Rattle.pack_model.specs.reading.Model.{read_sights};
ghost use Rattle.pack_model.specs.showing.Settling.{show, settle};
ghost use Rattle.pack_model.specs.showing.View.{view};
ghost use Rattle.pack_reading.specs.Errors.{cause_of_reading};
ghost use Rattle.pack_reading.specs.Lengths.{length_in, CountsFiles, HoldsLengths, ShowsLengths};

use crate::counts::Counts;
use crate::error::ReadingError;
use crate::pack::show_swept;
use crate::shown::{FileLength, Shown, ShownFile, ShownLengths};
use crate::swept::{Leaders, Pages, Swept, counted_bytes, leader_in};
use alto_words::{List, Memory};
use disk_records::{Disk, Page, Sector};
use label_sweep::{Sight, Visit, sweep};
use std::alloc::Global;

/// What the sectors seen so far show, and where the memory for it comes from. Of an ordinary file no bytes are kept, and how many of
/// each page count is.
#[derive(Drop)]
pub(crate) struct Measuring {
    pub(crate) alloc: Global,
    pub(crate) swept: Swept,
    pub(crate) counts: Counts,
}

impl Measuring {
    ghost use Rattle.std.specs.Prelude.{◌≡◌, ◌≤◌, OnOk, length};
    ghost use Rattle.pack_model.specs.reading.Sights.{page_sight};
    ghost use Rattle.pack_reading.specs.Lengths.{KeepsLength};

    /// Keeps what a data page shows: its bytes where its file is a directory, else how many count.
    fn keep_page(&mut self, page: Page, bytes: u16, value: &[u16; 256]) -> Result<(), Memory>
        requires number { 1 ≤ page.number }
        requires bytes { bytes ≤ 512 }
        requires whole { length value.now ≡ 256 }
        ensures { OnOk result (KeepsLength (page_sight page.fid page.number bytes value.now) self.old self.new) }
    {
        if page.fid.is_directory() {
            let bytes = counted_bytes(self.alloc, value, bytes)?;
            self.swept.pages.keep(page, bytes)
        } else {
            self.counts.keep(page, bytes)
        }
    }
}

impl Visit for Measuring {
    ghost use Rattle.std.specs.Prelude.{true};
    ghost use Rattle.pack_reading.specs.Lengths.{KeepsLength};

    ghost step = { λ old at s new. KeepsLength s old new };

    ghost takes_memory = { true };

    fn visit(&mut self, _at: u16, sight: Sight, sector: &Sector) -> Result<(), Memory> {
        match sight {
            Sight::Leads { fid } => {
                let leader = leader_in(fid, &sector.value);
                self.swept.leaders.keep(fid, leader)
            }
            Sight::Holds { fid, number, bytes } => {
                self.keep_page(Page { fid, number }, bytes, &sector.value)
            }
            Sight::Hidden => Ok(()),
            Sight::Free => Ok(()),
            Sight::Stray => Ok(()),
        }
    }
}

/// What all sectors show, except the first, which is never used. Fewer sector commands than sectors.
fn sweep_lengths<D: Disk>(alloc: Global, disk: &mut D) -> Result<Measuring, ReadingError>
    ensures holds { IsTrue D.told → IfOk result (HoldsLengths (sights (pack (D.tape disk.old)))) }
    ensures cause { HasCause cause_of_reading (D.tape disk.old) (D.tape disk.new) result }
    ensures looks { Looks D.told (pages_of (D.tape disk.old).form - 1) (D.tape disk.old) (D.tape disk.new) }
{
    let mut measuring = Measuring {
        alloc,
        swept: Swept {
            leaders: Leaders::new(alloc),
            pages: Pages::new(alloc),
        },
        counts: Counts::new(alloc),
    };
    sweep(disk, &mut measuring)?;
    Ok(measuring)
}

/// The length of a file that is shown; None of a directory.
fn length_of(counts: &Counts, file: &ShownFile) -> FileLength
    ensures { (ss : List Shows) → CountsFiles ss counts.now → result ≡ length_in ss file.now.fid }
{
    let fid = file.fid;
    if fid.is_directory() {
        return FileLength { fid, length: None };
    }
    FileLength {
        fid,
        length: Some(counts.length(fid)),
    }
}

/// The lengths of these files, in their order.
fn lengths_of(
    alloc: Global,
    counts: &Counts,
    files: &[ShownFile],
) -> Result<List<FileLength>, Memory>
    ensures { (ss : List Shows) → CountsFiles ss counts.now → IfOk result (λ lengths. lengths ≡ map (λ x. length_in ss x.fid) files.now) }
{
    let mut lengths = Vec::with_capacity(alloc, files.len())?;
    for file in files {
        lengths.push(length_of(counts, file))?;
    }
    Ok(List::from_vec(lengths))
}

/// What these sectors show.
fn show_measured(measuring: Measuring) -> Result<ShownLengths, Memory>
    ensures { (form : Form) (ss : List Shows) → HoldsLengths ss measuring → IfOk result (λ shown. ShowsLengths shown (settle (view (read_sights form ss)))) }
{
    let Measuring {
        alloc,
        swept,
        counts,
    } = measuring;
    // the ordinary ones of these files are empty
    let Shown { files, names } = show_swept(alloc, swept)?;
    let files = lengths_of(alloc, &counts, files.as_slice())?;
    Ok(ShownLengths { files, names })
}

/// What a pack shows, whatever stands on it, as `read_pack` does, with the length of each file in the place of its leader and bytes.
/// Nothing is written. Fewer sector commands than sectors.
///
/// DiskFault: a sector wasn't read, and the count of disk faults rose. Memory: none was left. It takes none for the bytes of ordinary
/// files.
pub fn read_lengths<D: Disk>(alloc: Global, disk: &mut D) -> Result<ShownLengths, ReadingError>
    ensures read { IsTrue D.told → IfOk result (λ shown. ShowsLengths shown (show (pack (D.tape disk.old)))) }
    ensures cause { HasCause cause_of_reading (D.tape disk.old) (D.tape disk.new) result }
    ensures looks { Looks D.told (pages_of (D.tape disk.old).form - 1) (D.tape disk.old) (D.tape disk.new) }
{
    let measuring = sweep_lengths(alloc, disk)?;
    Ok(show_measured(measuring)?)
}
