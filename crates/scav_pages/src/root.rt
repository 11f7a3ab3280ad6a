// SysDir's leader page comes to sector 1.
ghost use Rattle.std.specs.Prelude.{◌≡◌, ◌<◌, ◌≤◌, IsTrue, None, Some, IfSome};
ghost use Rattle.disk_records.specs.Addresses.{pages_of};
ghost use Rattle.disk_records.specs.Causes.{HasCause};
ghost use Rattle.disk_records.specs.Frames.{WritesUsable};
ghost use Rattle.disk_records.specs.Tapes.{DiskAlone, pack};
ghost use Rattle.leader_page.specs.Pages.{Says};
ghost use Rattle.pack_model.specs.operations.PageWords.{last_page_hints};
ghost use Rattle.pack_model.specs.reading.Namings.{descriptor_name, sys_dir_name};
ghost use Rattle.scav_pages.specs.Does.{Does};
ghost use Rattle.scav_pages.specs.Fresh.{fresh_leader, own_name};
ghost use Rattle.scav_pages.specs.Parts.{MayMoveRoot, RootMended};
ghost use Rattle.scav_pages.specs.Stops.{cause_of_stop};

use crate::errors::Stop;
use crate::free::next_free;
use crate::unused::ROOT;
use alto_words::{Fid, Name};
use disk_records::{Disk, PAGE_BYTES, Page, Sector, label_of};
use label_check::{claim, read_page, release};
use leader_page::{Leader, value_says_its_leader};

/// A link at either end of a file.
const NO_LINK: u16 = 0xFFFF;

/// The sector of SysDir's leader page.
const ROOT_AT: u16 = 1;

/// The bytes of a new SysDir: one free slot of 255 words.
const ROOT_BYTES: u16 = 510;

/// The name of SysDir.
fn root_name() -> Name
    ensures { result ≡ sys_dir_name }
{
    match Name::stored(b"SysDir.") {
        Some(name) => name,
        None => unreachable!(),
    }
}

/// The name of DiskDescriptor.
fn descriptor_name() -> Name
    ensures { result ≡ descriptor_name }
{
    match Name::stored(b"DiskDescriptor.") {
        Some(name) => name,
        None => unreachable!(),
    }
}

/// The name that the Scavenger writes for a file whose leader page has none that can be read: `SysDir.` and `DiskDescriptor.` for these two
/// files, and for any other `Lost`, its serial in octal and a `.`.
pub fn own_name(fid: Fid) -> Name
    ensures { result ≡ own_name fid }
{
    if fid == Fid::SYS_DIR {
        root_name()
    } else if fid == Fid::DISK_DESCRIPTOR {
        descriptor_name()
    } else {
        Name::lost(fid.serial())
    }
}

/// The value of a new leader page with dates 0, whose hint at the last page is this one.
pub(crate) fn fresh_leader(fid: Fid, at: u16, number: u16, bytes: u16) -> [u16; 256]
    ensures says { Says result (fresh_leader fid) (last_page_hints at number bytes) }
{
    // this law says that the words can be read so
    value_says_its_leader();
    let leader = Leader {
        created: 0,
        written: 0,
        read: 0,
        name: own_name(fid),
        rest: [0; 220],
        hints: [0, 0, 0, 0, 0, 0, 0, at, number, bytes],
    };
    leader.encode()
}

/// Brings SysDir's leader page to sector 1 from the sector where it is, or makes SysDir.
pub(crate) fn mend_root<D: Disk>(disk: &mut D, root: Option<u16>) -> Result<(), Stop>
    requires first { IfSome root (λ at. 1 ≤ at) }
    requires place { IfSome root (λ at. at < pages_of (D.tape disk.old).form) }
    ensures does { IsTrue D.told → MayMoveRoot (pack (D.tape disk.old)) root → Does RootMended (D.tape disk.old) (D.tape disk.new) result }
    ensures cause { HasCause cause_of_stop (D.tape disk.old) (D.tape disk.new) result }
    ensures frame { WritesUsable D.told (D.tape disk.old) (D.tape disk.new) }
    ensures alone { DiskAlone (D.tape disk.old) (D.tape disk.new) }
{
    match root {
        Some(ROOT_AT) => Ok(()),
        Some(old) => move_root(disk, old),
        None => make_root(disk),
    }
}

/// SysDir's leader page is copied to sector 1, which is free, and its old sector released.
fn move_root<D: Disk>(disk: &mut D, old: u16) -> Result<(), Stop>
    requires first { 1 < old }
    requires place { old < pages_of (D.tape disk.old).form }
    ensures does { IsTrue D.told → MayMoveRoot (pack (D.tape disk.old)) (Some old) → Does RootMended (D.tape disk.old) (D.tape disk.new) result }
    ensures cause { HasCause cause_of_stop (D.tape disk.old) (D.tape disk.new) result }
    ensures frame { WritesUsable D.told (D.tape disk.old) (D.tape disk.new) }
    ensures alone { DiskAlone (D.tape disk.old) (D.tape disk.new) }
{
    let mut buf = Sector::ZEROS;
    read_page(disk, old, ROOT, &mut buf)?;
    claim(disk, ROOT_AT, buf.label, &buf.value)?;
    release(disk, old, ROOT)?;
    Ok(())
}

/// SysDir's first data page is claimed at the lowest free sector from 2 on, with one free slot of 255 words, and then its leader page at
/// sector 1.
fn make_root<D: Disk>(disk: &mut D) -> Result<(), Stop>
    ensures does { IsTrue D.told → MayMoveRoot (pack (D.tape disk.old)) None → Does RootMended (D.tape disk.old) (D.tape disk.new) result }
    ensures cause { HasCause cause_of_stop (D.tape disk.old) (D.tape disk.new) result }
    ensures frame { WritesUsable D.told (D.tape disk.old) (D.tape disk.new) }
    ensures alone { DiskAlone (D.tape disk.old) (D.tape disk.new) }
{
    let shape = disk.shape();
    let at = next_free(disk, &mut 2)?;
    let page = Page {
        fid: Fid::SYS_DIR,
        number: 1,
    };
    let mut value = [0; 256];
    value[0] = ROOT_BYTES / 2;
    let label = label_of(page, ROOT_BYTES, NO_LINK, shape.real_of(ROOT_AT));
    claim(disk, at, label, &value)?;
    let leader = fresh_leader(Fid::SYS_DIR, at, 1, ROOT_BYTES);
    let label = label_of(ROOT, PAGE_BYTES, shape.real_of(at), NO_LINK);
    claim(disk, ROOT_AT, label, &leader)?;
    Ok(())
}
