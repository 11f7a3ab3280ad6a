// The numbers of a pack, file by file.
ghost use Rattle.std.specs.Prelude.{◌≡◌, ◌≤◌, true, Some};
ghost use Rattle.alto_words.specs.Fid.{is_system};
ghost use Rattle.disk_records.specs.Packs.{Pack};
ghost use Rattle.pack_model.specs.reading.Files.{lives};
ghost use Rattle.pack_model.specs.reading.Sights.{sights};
ghost use Rattle.scav_pages.specs.Walks.{file_in_hand};
ghost use Rattle.scavenger.specs.Counting.{IsLeftAt};
ghost use Rattle.scavenger.specs.Descriptors.{IsSystem};
ghost use Rattle.scavenger.specs.InUse.{is_root, lacking_of, last_in_use, takes_of};

use crate::system::System;
use alto_words::Fid;
use disk_records::{PAGE_BYTES, Page, Shape};
use scav_pages::{Directory, data_pages};

/// The words of a page.
const PAGE_WORDS: u32 = 256;

/// What a pass along all rows counts, without memory.
#[derive(Clone, Copy)]
pub(crate) struct Counts {
    /// The sectors in use.
    pub(crate) in_use: u32,
    /// The sectors that a scavenge needs, without the pages that SysDir gets more for entries.
    pub(crate) needed: u32,
    /// The files that live at its end, with both system files.
    pub(crate) files: u32,
    /// The greatest of the serials of these and of the last one that the old DiskDescriptor says.
    pub(crate) last: u32,
    /// Whether sector 1 is in use by another page than SysDir's leader.
    pub(crate) taken: bool,
    /// The lowest sector that carries DiskDescriptor's first data page; 0 where none does.
    pub(crate) mark_at: u16,
    /// Whether SysDir lives.
    root: bool,
}

/// Whether this is one of the two system files.
fn is_system(fid: Fid) -> bool
    ensures { result ≡ is_system fid }
{
    fid == Fid::SYS_DIR || fid == Fid::DISK_DESCRIPTOR
}

/// The number of the last page of a living file that is in use: DiskDescriptor's by its format, that of a directory by its slots, that of any
/// other file by its bytes.
fn last_page(shape: Shape, fid: Fid, dir: &Directory) -> u32
    ensures most { result ≤ 16777217 }
    ensures last { (p : Pack) → p.shape ≡ shape → IsLeftAt p dir.now → file_in_hand dir.now.walk ≡ Some fid → lives (sights p) fid ≡ true → result ≡ last_in_use p fid }
{
    if fid == Fid::DISK_DESCRIPTOR {
        u32::from(data_pages(shape))
    } else if fid.is_directory() {
        dir.slots.place() / PAGE_WORDS + 1
    } else {
        dir.walk.length() / u32::from(PAGE_BYTES) + 1
    }
}

/// How many pages of a living file, up to this last one, no sector carries.
fn pages_lacking(shape: Shape, fid: Fid, last: u32, system: &System, dir: &Directory) -> u32
    ensures lacks { (p : Pack) → p.shape ≡ shape → IsSystem p system.now → IsLeftAt p dir.now → file_in_hand dir.now.walk ≡ Some fid → lives (sights p) fid ≡ true → last ≡ last_in_use p fid → result ≡ lacking_of p fid }
{
    if fid == Fid::DISK_DESCRIPTOR {
        system.lacks(shape)
    } else if u32::from(dir.walk.pages()) < last {
        1
    } else {
        0
    }
}

/// Whether this is SysDir's leader page.
fn is_root(page: &Page) -> bool
    ensures { result ≡ is_root page.now }
{
    page.fid == Fid::SYS_DIR && page.number == 0
}

/// Whether a page is one of this living file, whose last page in use is given, and takes sector 1 from SysDir's leader.
fn takes(first: Option<Page>, fid: Fid, last: u32) -> bool
    ensures { result ≡ takes_of first fid last }
{
    match first {
        Some(page) => page.fid == fid && u32::from(page.number) <= last && !is_root(&page),
        None => false,
    }
}

impl Counts {
    ghost use Rattle.std.specs.Prelude.{◌≡◌, ◌+◌, ◌<◌, ◌≤◌, get_or, length};
    ghost use Rattle.disk_records.specs.Addresses.{pages_of};
    ghost use Rattle.disk_records.specs.Packs.{Pack};
    ghost use Rattle.scavenger.specs.Counting.{Adds, Counted, CountsAll, CountsFiles, CountsTo, IsLeftAt, none_met};
    ghost use Rattle.scavenger.specs.Descriptors.{IsSystem};
    ghost use Rattle.alto_words.specs.Fid.{sys_dir};
    ghost use Rattle.pack_model.specs.reading.Files.{lives};
    ghost use Rattle.pack_model.specs.reading.Sights.{sights};
    ghost use Rattle.pack_model.specs.scavenger.Needed.{descriptor_lacks, root_lacks};

    /// No file yet.
    pub(crate) fn new() -> Counts
        ensures { (p : Pack) → CountsTo p none_met result }
    {
        Counts {
            in_use: 0,
            needed: 0,
            files: 0,
            last: 0,
            taken: false,
            mark_at: 0,
            root: false,
        }
    }

    /// Counts the file in hand, all of whose rows were met, if there is one.
    pub(crate) fn close(&mut self, shape: Shape, system: &System, dir: &Directory)
        ensures { (p : Pack) → p.shape ≡ shape → IsSystem p system.now → IsLeftAt p dir.now → CountsFiles p dir.now self.old self.new }
    {
        let Some(fid) = dir.walk.fid() else {
            return;
        };
        if fid == Fid::DISK_DESCRIPTOR {
            self.last = self.last.max(system.old_serial(shape, dir.walk.length()));
        }
        if dir.walk.lives() {
            let last = last_page(shape, fid, dir);
            let lacks = pages_lacking(shape, fid, last, system, dir);
            self.count_living(system.first, fid, last, lacks);
        }
    }

    /// Counts a living file, whose last page in use has this number, and of whose pages up to it so many are carried by no sector.
    fn count_living(&mut self, first: Option<Page>, fid: Fid, last: u32, lacks: u32)
        requires last { last < 4294967295 }
        ensures { Adds first fid last lacks self.old self.new }
    {
        self.last = self.last.max(fid.serial());
        if !is_system(fid) {
            self.files = self.files.saturating_add(1);
        }
        self.root |= fid == Fid::SYS_DIR;
        self.taken |= takes(first, fid, last);
        self.in_use = self.in_use.saturating_add((last + 1).saturating_sub(lacks));
        self.needed = self.needed.saturating_add(lacks);
    }

    /// The sectors that the system files need that don't live.
    fn system_lacks(&self, shape: Shape, system: &System) -> u32
        ensures lacks { (p : Pack) → p.shape ≡ shape → IsSystem p system.now → self.now.root ≡ lives (sights p) sys_dir → result ≡ root_lacks (sights p) + descriptor_lacks shape (sights p) }
        ensures most { result ≤ 8 }
    {
        let root = if self.root { 0 } else { 2 };
        let descriptor = if system.places[0] == 0 {
            1 + u32::from(data_pages(shape))
        } else {
            0
        };
        root + descriptor
    }

    /// All files being counted, with what the system files need that don't live: these live at the end.
    pub(crate) fn finish(&self, shape: Shape, system: &System) -> Counts
        ensures counted { (p : Pack) → p.shape ≡ shape → length p.sectors ≡ pages_of shape → IsSystem p system.now → CountsAll p self.now → Counted p result }
        ensures mark { result.mark_at ≡ get_or system.now.places 1 0 }
    {
        let lacks = self.system_lacks(shape, system);
        Counts {
            in_use: self.in_use,
            needed: self.needed.saturating_add(lacks),
            files: self.files.saturating_add(2),
            last: self.last.max(Fid::DISK_DESCRIPTOR.serial()),
            taken: self.taken,
            mark_at: system.places[1],
            root: self.root,
        }
    }
}
