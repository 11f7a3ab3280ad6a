// SysDir gets a page more.
ghost use Rattle.std.specs.Prelude.{◌≡◌, ◌≤◌, ◌<◌, ◌+◌, ◌^◌, ◌∷◌, ◌++◌, [], true, List, Some, IsTrue, IfErr, OnOk};
ghost use Rattle.pack_model.specs.reading.Slots.{Item, all_words};
ghost use Rattle.pack_model.specs.scavenger.Mended.{with_page};
ghost use Rattle.alto_words.specs.Fid.{is_full_name};
ghost use Rattle.disk_records.specs.Addresses.{pages_of};
ghost use Rattle.disk_records.specs.Causes.{HasCause};
ghost use Rattle.disk_records.specs.Frames.{WritesUsable};
ghost use Rattle.disk_records.specs.Packs.{carried};
ghost use Rattle.disk_records.specs.Tapes.{DiskAlone, pack};
ghost use Rattle.scav_pages.specs.Stops.{cause_of_stop};
ghost use Rattle.scav_names.specs.declared.living.Living.{Living as File};
ghost use Rattle.scav_names.specs.Does.{Does};
ghost use Rattle.scav_names.specs.Rooms.{HasRooms};
ghost use Rattle.scav_names.specs.Roots.{MayBeWidened, Widened, lengthened_value, lengthening_writes};
ghost use Rattle.scav_names.specs.Words.{WritesPageWords};

use crate::root::Root;
use crate::words::{PAGE_WORDS, put_value};
use disk_records::{Disk, PAGE_BYTES, Page, Sector, label_of};
use label_check::{claim, read_page, relabel};
use scav_pages::{Stop, next_free};

/// A link at either end of a file.
const NO_LINK: u16 = 0xFFFF;

/// Gives SysDir a page more, a free slot of 256 words after all others: the new last page is claimed at the lowest free sector, the words are
/// written in the old one past its count unless they stand there, and then its label counts them.
pub(crate) fn widen_root<D: Disk>(disk: &mut D, root: &mut Root) -> Result<(), Stop>
    requires first { 1 ≤ root.old.from }
    ensures does { IsTrue D.told → (todo : List File) → MayBeWidened (pack (D.tape disk.old)) root.old todo → Does (Widened root.old root.new todo) (D.tape disk.old) (D.tape disk.new) result }
    ensures first { 1 ≤ root.new.from }
    ensures cause { HasCause cause_of_stop (D.tape disk.old) (D.tape disk.new) result }
    ensures frame { WritesUsable D.told (D.tape disk.old) (D.tape disk.new) }
    ensures alone { DiskAlone (D.tape disk.old) (D.tape disk.new) }
{
    let shape = disk.shape();
    let end = root.rooms.end();
    let last = root.page_at(shape, end)?;
    let used = (end % PAGE_WORDS) as u16;
    let fresh = next_free(disk, &mut root.from)?;
    let Some(number) = last.page.number.checked_add(1) else {
        return Err(Stop::Astray);
    };
    let page = Page {
        fid: last.page.fid,
        number,
    };
    let label = label_of(page, 2 * used, NO_LINK, shape.real_of(last.at));
    claim(disk, fresh, label, &[0; 256])?;
    lengthen(disk, last.at, last.page, used, shape.real_of(fresh))?;
    push_page(root, fresh)
}

/// Puts a free slot of 256 words after the words of a last page that count, if none stands there, and then gives it a label that counts all
/// of its words, with a link to the page after it.
fn lengthen<D: Disk>(disk: &mut D, at: u16, page: Page, used: u16, next: u16) -> Result<(), Stop>
    requires first { 1 ≤ at }
    requires place { at < pages_of (D.tape disk.old).form }
    requires full_name { is_full_name page.fid ≡ true }
    requires used { used < 256 }
    ensures writes { IsTrue D.told → carried (pack (D.tape disk.old)) at ≡ Some page → WritesPageWords (lengthening_writes (pack (D.tape disk.old)) at page used next) (D.tape disk.old) (D.tape disk.new) result }
    ensures cause { HasCause cause_of_stop (D.tape disk.old) (D.tape disk.new) result }
    ensures frame { WritesUsable D.told (D.tape disk.old) (D.tape disk.new) }
    ensures alone { DiskAlone (D.tape disk.old) (D.tape disk.new) }
{
    let mut buf = Sector::ZEROS;
    let info = read_page(disk, at, page, &mut buf)?;
    let words = with_space(&buf.value, used);
    put_value(disk, at, page, &buf.value, &words)?;
    let label = label_of(page, PAGE_BYTES, next, info.previous);
    relabel(disk, at, page, label)?;
    Ok(())
}

/// The value of a page with the first word of a free slot of 256 words at this word of it, and zeros after that.
fn with_space(value: &[u16; 256], used: u16) -> [u16; 256]
    requires used { used < 256 }
    ensures { result ≡ lengthened_value used value.now }
{
    let used = usize::from(used);
    let mut words = [0; 256];
    words[..used].copy_from_slice(&value[..used]);
    words[used] = PAGE_WORDS as u16;
    words
}

/// Keeps that SysDir has one page more, in this sector.
fn push_page(root: &mut Root, at: u16) -> Result<(), Stop>
    ensures pages { OnOk result (root.new.pages ≡ root.old.pages ++ at ∷ []) }
    ensures rooms { (is : List Item) → HasRooms root.old.rooms is → all_words is + 256 < 2 ^ 32 → OnOk result (HasRooms root.new.rooms (with_page is)) }
    ensures from { root.new.from ≡ root.old.from }
    ensures memory { IfErr result (λ stop. stop ≡ Stop.Memory) }
{
    push(&mut root.pages, at)?;
    root.rooms.widen()?;
    Ok(())
}

/// Appends a sector.
fn push(pages: &mut alto_words::List<u16>, at: u16) -> Result<(), alto_words::Memory>
    ensures { OnOk result (pages.new ≡ pages.old ++ at ∷ []) }
{
    pages.as_vec().push(at)?;
    Ok(())
}
