// What is known of the system files before the files of a pack are counted.
ghost use Rattle.std.specs.Prelude.{◌≡◌, ℕ, ◌+◌, ◌<◌, ◌≤◌, get_or, [], IsTrue, IfOk, IsErrOf, OnOk};
ghost use Rattle.disk_records.specs.Addresses.{pages_of};
ghost use Rattle.disk_records.specs.Causes.{HasCause};
ghost use Rattle.disk_records.specs.Packs.{carried};
ghost use Rattle.disk_records.specs.Tapes.{Looks, pack};
ghost use Rattle.scav_pages.specs.Ends.{ArePlaces};
ghost use Rattle.scav_pages.specs.Stops.{cause_of_stop};
ghost use Rattle.scavenger.specs.Descriptors.{AreFirstWords, IsSystem, mark_sector};

use crate::descriptor::{Places, find_pages};
use alto_words::Fid;
use disk_records::{Disk, Page, Sector, Shape, page_of};
use label_check::{look, read_page};
use scav_pages::{Stop, data_pages};

/// The words of DiskDescriptor that say a shape and the last serial.
const HEADING: usize = 9;

/// What a pack has where its system files are to be.
#[derive(Clone, Copy)]
pub(crate) struct System {
    /// The page in sector 1, if it carries one.
    pub(crate) first: Option<Page>,
    /// The sectors of DiskDescriptor's pages.
    pub(crate) places: Places,
    /// The first words of its first data page; zeros where no sector carries that.
    pub(crate) words: [u16; HEADING],
}

impl System {
    ghost use Rattle.std.specs.Prelude.{◌≡◌, ◌≤◌, length, get_or};
    ghost use Rattle.alto_words.specs.Fid.{disk_descriptor};
    ghost use Rattle.disk_records.specs.Packs.{Pack};
    ghost use Rattle.pack_model.specs.reading.Files.{file_bytes};
    ghost use Rattle.pack_model.specs.reading.Model.{descriptor_words};
    ghost use Rattle.pack_model.specs.reading.Sights.{sights};
    ghost use Rattle.pack_model.specs.scavenger.Needed.{missing};
    ghost use Rattle.pack_model.specs.scavenger.Reports.{says_drives};
    ghost use Rattle.pack_model.specs.sessions.Descriptor.{data_pages};
    ghost use Rattle.scavenger.specs.Descriptors.{IsSystem, heads, old_serial_of};

    /// The data pages of DiskDescriptor that no sector carries.
    pub(crate) fn lacks(&self, shape: Shape) -> u32
        ensures lacks { (p : Pack) → p.shape ≡ shape → IsSystem p self.now → result ≡ missing (sights p) disk_descriptor (data_pages shape) }
        ensures most { result ≤ data_pages shape }
    {
        let mut lacks = 0;
        for number in 1..data_pages(shape) + 1 {
            if self.places[usize::from(number)] == 0 {
                lacks += 1;
            }
        }
        lacks
    }

    /// The last serial that DiskDescriptor says, which has so many bytes: 0 unless it has the length and the words of this shape, or of one
    /// drive with as many cylinders.
    pub(crate) fn old_serial(&self, shape: Shape, bytes: u32) -> u32
        ensures { (p : Pack) → p.shape ≡ shape → IsSystem p self.now → bytes ≡ length (file_bytes (sights p) disk_descriptor) → result ≡ old_serial_of p }
    {
        let own = self.says_drives(shape, bytes, shape.disks());
        let one = self.says_drives(shape, bytes, 1);
        if own || one {
            u32::from(self.words[4]) * 0x1_0000 + u32::from(self.words[5])
        } else {
            0
        }
    }

    /// Whether it has the length, and the words, of so many drives with the cylinders of this shape.
    fn says_drives(&self, shape: Shape, bytes: u32, drives: u16) -> bool
        requires { drives ≤ 2 }
        ensures { (p : Pack) → p.shape ≡ shape → IsSystem p self.now → bytes ≡ length (file_bytes (sights p) disk_descriptor) → result ≡ says_drives drives shape (file_bytes (sights p) disk_descriptor) (descriptor_words (sights p)) }
    {
        let pages = u32::from(drives) * u32::from(shape.cylinders()) * 24;
        let map_words = pages.div_ceil(16);
        bytes == 32 + 2 * map_words && self.states(drives, shape.cylinders(), map_words)
    }

    /// Whether its words are those of so many drives, cylinders and words of the map.
    fn states(&self, drives: u16, cylinders: u16, map_words: u32) -> bool
        ensures { result ≡ heads self.now.words drives cylinders map_words }
    {
        self.words[0] == drives
            && self.words[1] == cylinders
            && self.words[2] == 2
            && self.words[3] == 12
            && u32::from(self.words[8]) == map_words
    }
}

/// The page in sector 1, if it carries one.
fn first_page<D: Disk>(disk: &mut D) -> Result<Option<Page>, Stop>
    ensures first { IsTrue D.told → IfOk result (λ page. page ≡ carried (pack (D.tape disk.old)) 1) }
    ensures want { IsTrue D.told → IsErrOf result Stop.Memory → ⊥ }
    ensures found { IsErrOf result Stop.Astray → ⊥ }
    ensures cause { HasCause cause_of_stop (D.tape disk.old) (D.tape disk.new) result }
    ensures looks { Looks D.told 1 (D.tape disk.old) (D.tape disk.new) }
{
    let mut buf = Sector::ZEROS;
    if look(disk, 1, &mut buf)? {
        Ok(page_of(&buf.label))
    } else {
        Ok(None)
    }
}

/// The first words of DiskDescriptor's first data page, which is in this sector; zeros where it is sector 0.
fn first_words<D: Disk>(disk: &mut D, at: u16) -> Result<[u16; HEADING], Stop>
    requires place { at < pages_of (D.tape disk.old).form }
    ensures words { IsTrue D.told → at ≡ mark_sector (pack (D.tape disk.old)) → IfOk result (AreFirstWords (pack (D.tape disk.old))) }
    ensures want { IsTrue D.told → IsErrOf result Stop.Memory → ⊥ }
    ensures found { IsTrue D.told → at ≡ mark_sector (pack (D.tape disk.old)) → IsErrOf result Stop.Astray → ⊥ }
    ensures cause { HasCause cause_of_stop (D.tape disk.old) (D.tape disk.new) result }
    ensures looks { Looks D.told 1 (D.tape disk.old) (D.tape disk.new) }
{
    let mut words = [0; HEADING];
    if at == 0 {
        return Ok(words);
    }
    let page = Page {
        fid: Fid::DISK_DESCRIPTOR,
        number: 1,
    };
    let mut buf = Sector::ZEROS;
    read_page(disk, at, page, &mut buf)?;
    words.copy_from_slice(&buf.value[..HEADING]);
    Ok(words)
}

/// Looks at the places of the system files: a sweep of all labels, and two sectors more.
pub(crate) fn look_at_system<D: Disk>(disk: &mut D) -> Result<System, Stop>
    ensures system { IsTrue D.told → IfOk result (IsSystem (pack (D.tape disk.old))) }
    ensures within { IfOk result (λ system. get_or system.places 1 0 < pages_of (D.tape disk.old).form) }
    ensures want { IsTrue D.told → IsErrOf result Stop.Memory → ⊥ }
    ensures found { IsTrue D.told → IsErrOf result Stop.Astray → ⊥ }
    ensures cause { HasCause cause_of_stop (D.tape disk.old) (D.tape disk.new) result }
    ensures looks { Looks D.told (pages_of (D.tape disk.old).form + 1) (D.tape disk.old) (D.tape disk.new) }
{
    let first = first_page(disk)?;
    let places = find_pages(disk)?;
    let words = first_words(disk, places[1])?;
    Ok(System {
        first,
        places,
        words,
    })
}
