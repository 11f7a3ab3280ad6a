// Each sector of a formatted pack, by its address:
//   0: not used, zeros
//   1, 2: SysDir's leader and its page
//   3: DiskDescriptor's leader
//   from 4 on: DiskDescriptor's data pages
//   after them: free sectors, ones
ghost use Rattle.std.specs.Prelude.{◌≡◌, ◌≤◌};
ghost use Rattle.pack_model.specs.sessions.Format.{sectors_used};

use crate::pages::{data_pages, fresh_value, page_bytes};
use crate::root::{LEADER, ROOT, descriptor_name, root_name, root_value};
use alto_words::{Fid, Name};
use disk_records::{PAGE_BYTES, Page, Sector, Shape, label_of};
use leader_page::Leader;

/// The sector of SysDir's page.
const ROOT_PAGE: u16 = 2;

/// The sector of DiskDescriptor's first data page.
const FIRST_PAGE: u16 = 4;

/// The bytes of SysDir: 255 words.
const ROOT_BYTES: u16 = 510;

/// A link at either end of a file.
const NO_LINK: u16 = 0xFFFF;

/// The sectors that aren't free: those of the system files, and sector 0.
pub(crate) fn sectors_used(shape: Shape) -> u16
    ensures used { result ≡ sectors_used shape }
    ensures most { result ≤ 9 }
{
    FIRST_PAGE + data_pages(shape)
}

/// A pack to be formatted: its shape, its number, and the moment that its leaders have as their dates.
#[derive(Clone, Copy, Drop)]
pub(crate) struct Fresh {
    pub(crate) shape: Shape,
    pub(crate) number: u16,
    pub(crate) moment: u32,
}

impl Fresh {
    ghost use Rattle.std.specs.Prelude.{◌≡◌, ◌+◌, ◌<◌, ◌≤◌};
    ghost use Rattle.disk_records.specs.Addresses.{pages_of};
    ghost use Rattle.disk_records.specs.Packs.{sector_at};
    ghost use Rattle.pack_model.specs.sessions.Descriptor.{data_pages};
    ghost use Rattle.pack_model.specs.sessions.Format.{format_leader, format_page, format_root, formatted};
    ghost use Rattle.laws_format.specs.Writing.{headed};

    /// The sector at this address.
    pub(crate) fn sector(self, at: u16) -> Sector
        requires { at < pages_of self.shape }
        ensures { result ≡ sector_at (formatted self.shape self.number self.moment) at }
    {
        match at {
            0 => self.headed(0, [0; 8], [0; 256]),
            ROOT => self.leader(ROOT, Fid::SYS_DIR, root_name(), 1, ROOT_BYTES),
            ROOT_PAGE => self.root_page(),
            LEADER => self.descriptor_leader(),
            _ => self.later_sector(at),
        }
    }

    /// A sector after the leaders: a data page of DiskDescriptor, or a free one.
    fn later_sector(self, at: u16) -> Sector
        requires first { 4 ≤ at }
        requires place { at < pages_of self.shape }
        ensures { result ≡ sector_at (formatted self.shape self.number self.moment) at }
    {
        if at < sectors_used(self.shape) {
            self.descriptor_page(at - FIRST_PAGE)
        } else {
            self.headed(at, [0xFFFF; 8], [0xFFFF; 256])
        }
    }

    /// A sector with this label and this value.
    fn headed(self, at: u16, label: [u16; 8], value: [u16; 256]) -> Sector
        requires { at < pages_of self.shape }
        ensures { result ≡ headed self.shape self.number at (label, value) }
    {
        Sector {
            header: [self.number, self.shape.real_of(at)],
            label,
            value,
        }
    }

    /// The leader of a file whose data pages stand in the sectors after it. The last of so many has so many bytes.
    fn leader(self, at: u16, fid: Fid, name: Name, pages: u16, bytes: u16) -> Sector
        requires place { at + 1 < pages_of self.shape }
        requires few { pages ≤ 5 }
        ensures { result ≡ headed self.shape self.number at (format_leader self.shape fid name self.moment at pages bytes) }
    {
        let page = Page { fid, number: 0 };
        let label = label_of(page, PAGE_BYTES, self.shape.real_of(at + 1), NO_LINK);
        let leader = Leader {
            created: self.moment,
            written: self.moment,
            read: self.moment,
            name,
            rest: [0; 220],
            hints: [0, 0, 0, 0, 0, 0, 0, at + pages, pages, bytes],
        };
        self.headed(at, label, leader.encode())
    }

    /// The leader of DiskDescriptor.
    fn descriptor_leader(self) -> Sector
        ensures { result ≡ sector_at (formatted self.shape self.number self.moment) 3 }
    {
        let pages = data_pages(self.shape);
        let bytes = (self.shape.descriptor_length() % u32::from(PAGE_BYTES)) as u16;
        self.leader(
            LEADER,
            Fid::DISK_DESCRIPTOR,
            descriptor_name(),
            pages,
            bytes,
        )
    }

    /// The page of SysDir.
    fn root_page(self) -> Sector
        ensures { result ≡ headed self.shape self.number 2 (format_root self.shape) }
    {
        let page = Page {
            fid: Fid::SYS_DIR,
            number: 1,
        };
        let label = label_of(page, ROOT_BYTES, NO_LINK, self.shape.real_of(ROOT));
        self.headed(ROOT_PAGE, label, root_value())
    }

    /// Data page n of DiskDescriptor, counted from 0.
    fn descriptor_page(self, n: u16) -> Sector
        requires { n < data_pages self.shape }
        ensures { result ≡ headed self.shape self.number (4 + n) (format_page self.shape n) }
    {
        let at = FIRST_PAGE + n;
        let page = Page {
            fid: Fid::DISK_DESCRIPTOR,
            number: n + 1,
        };
        let bytes = page_bytes(self.shape, n);
        let next = if at + 1 < sectors_used(self.shape) {
            self.shape.real_of(at + 1)
        } else {
            NO_LINK
        };
        let label = label_of(page, bytes, next, self.shape.real_of(at - 1));
        let free = self.shape.pages() - sectors_used(self.shape);
        self.headed(at, label, fresh_value(self.shape, free, n))
    }
}
