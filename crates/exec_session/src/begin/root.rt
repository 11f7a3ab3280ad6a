// SysDir at its fixed address, and DiskDescriptor by its name in it.
ghost use Rattle.alto_words.specs.Fid.{disk_descriptor};
ghost use Rattle.directory.specs.Asked.{DirIsFound};
ghost use Rattle.disk_descriptor.specs.Opening.{MayBeOpened};
ghost use Rattle.disk_records.specs.Causes.{HasCause};
ghost use Rattle.disk_records.specs.Packs.{carried};
ghost use Rattle.disk_records.specs.Tapes.{Looks, pack};
ghost use Rattle.exec_session.specs.Found.{root_ref};
ghost use Rattle.exec_session.specs.Opens.{DescriptorRefused, RootRefused, cause_of_open, root_error};
ghost use Rattle.session_model.specs.Opening.{descriptor_entry, is_descriptor, is_root};
ghost use Rattle.std.specs.Prelude.{IfErr, IfOk, IsTrue, OnOk, true, ◌*◌, ◌≡◌};

use crate::operands::ROOT;
use alto_words::{Fid, Wanted};
use directory::{DirError, lookup};
use disk_descriptor::{OpenError, descriptor_name};
use disk_records::{Disk, Page, Sector};
use hint_cache::Hints;
use label_check::{GuardError, read_page};
use page_seeking::{FileError, FileRef};

/// The page that sector 1 carries.
const ROOT_LEADER: Page = Page {
    fid: Fid::SYS_DIR,
    number: 0,
};

/// NoRoot: sector 1 doesn't carry SysDir's leader.
pub(crate) fn check_root<D: Disk>(disk: &mut D, buf: &mut Sector) -> Result<(), OpenError>
    ensures root { IsTrue D.told → OnOk result (is_root (carried (pack (D.tape disk.old)) 1) ≡ true) }
    ensures refused { IsTrue D.told → IfErr result (λ e. RootRefused (pack (D.tape disk.old)) e) }
    ensures cause { HasCause cause_of_open (D.tape disk.old) (D.tape disk.new) result }
    ensures looks { Looks D.told 1 (D.tape disk.old) (D.tape disk.new) }
{
    match read_page(disk, ROOT.leader_at, ROOT_LEADER, buf) {
        Ok(_) => Ok(()),
        Err(GuardError::Wrong { found }) => Err(OpenError::NoRoot { found }),
        Err(GuardError::DiskFault) => Err(OpenError::DiskFault),
        Err(GuardError::Memory) => Err(OpenError::Memory),
    }
}

/// The answer if a page of SysDir isn't read.
fn root_error(error: FileError) -> OpenError
    ensures { result ≡ root_error error }
{
    match error {
        FileError::Misled {
            place,
            at,
            wanted,
            found,
        } => OpenError::Misled {
            place,
            at,
            wanted,
            found,
        },
        FileError::Beyond { .. } => OpenError::NoDescriptor,
        FileError::DiskFault => OpenError::DiskFault,
        FileError::Memory => OpenError::Memory,
    }
}

/// DiskDescriptor, by its entry in SysDir.
///
/// NoDescriptor: SysDir has no entry of its name, or the first one is of another file.
pub(crate) fn find_descriptor<D: Disk>(
    disk: &mut D,
    hints: &mut Hints,
    buf: &mut Sector,
) -> Result<FileRef, OpenError>
    ensures fid { IfOk result (λ file. file.fid ≡ disk_descriptor) }
    ensures found { IsTrue D.told → DirIsFound (pack (D.tape disk.old)) root_ref → IfOk result (MayBeOpened (pack (D.tape disk.old))) }
    ensures is { IsTrue D.told → DirIsFound (pack (D.tape disk.old)) root_ref → OnOk result (is_descriptor (descriptor_entry (pack (D.tape disk.old))) ≡ true) }
    ensures refused { IsTrue D.told → DirIsFound (pack (D.tape disk.old)) root_ref → is_root (carried (pack (D.tape disk.old)) 1) ≡ true → IfErr result (DescriptorRefused (pack (D.tape disk.old))) }
    ensures cause { HasCause cause_of_open (D.tape disk.old) (D.tape disk.new) result }
    ensures looks { Looks D.told (65588 * 65535) (D.tape disk.old) (D.tape disk.new) }
    ensures table { hints.new.table ≡ hints.old.table }
{
    let wanted = Wanted::Exact {
        name: descriptor_name(),
    };
    match lookup(disk, hints, &ROOT, &wanted, buf) {
        Ok((file, _)) => if file.fid == Fid::DISK_DESCRIPTOR {
            Ok(file)
        } else {
            Err(OpenError::NoDescriptor)
        },
        Err(DirError::File { fault }) => Err(root_error(fault)),
        Err(DirError::NoSuchName) => Err(OpenError::NoDescriptor),
        Err(DirError::NameTaken) => Err(OpenError::NoDescriptor),
        Err(DirError::NoSlot { .. }) => Err(OpenError::NoDescriptor),
    }
}
