// The file that a name means.
ghost use Rattle.std.specs.Prelude.{◌≡◌, ◌*◌, ◌≤◌, IsTrue, IsErrOf, IfOk, OnOk, []};
ghost use Rattle.disk_records.specs.Causes.{HasCause, never, other};
ghost use Rattle.disk_records.specs.Tapes.{Looks, pack};
ghost use Rattle.pack_model.specs.hints.Links.{LinksTrue};
ghost use Rattle.pack_model.specs.hints.Misled.{IsOnDisk};
ghost use Rattle.page_seeking.specs.Refs.{FileIsRooted, IsOwnHint, MisledBy};
ghost use Rattle.page_seeking.specs.Seeking.{KeepsHandy, Quick};
ghost use Rattle.directory.specs.Asked.{DirIsFound, DirStands};
ghost use Rattle.directory.specs.Errors.{IfMisled, cause_of, out_of_memory};
ghost use Rattle.directory.specs.Found.{IsAbsent, IsLookedUp, IsQuick, IsReadByPages, ListsLastPage, file_of};
ghost use Rattle.directory.specs.Inside.{found_at};

use crate::entry::EntryFound;
use crate::finding::find_entry;
use crate::{DirError, FileRef};
use alto_words::{Fid, Name, Wanted};
use disk_records::{Disk, Place, Sector};
use hint_cache::Hints;

/// The word of an entry with the address of its file's leader, counted from its first.
const ADDRESS: u32 = 5;

/// The file of an entry of a directory, with the address of its leader and where that stands.
fn file_of(dir: Fid, entry: &EntryFound) -> FileRef
    ensures { result ≡ file_of dir (found_at entry.now) }
{
    FileRef {
        fid: entry.fid,
        leader_at: entry.leader_at,
        from: Place::Entry {
            dir,
            word: entry.place + ADDRESS,
        },
    }
}

/// The file that a name means in a directory, and the name that its entry has: the entry of this name, in whatever case of its letters, or
/// the entry with the greatest version of this base. Its leader's address is the one that stands in the entry: a hint, which isn't followed
/// here. The pages of the directory are sought as by `locate`. Nothing is written.
///
/// NoSuchName: the directory has no such entry. File: Misled where the address that the directory is named with, or a next link of it,
/// misleads; DiskFault where the device failed; Memory where no memory was left, which no machine that is modelled answers here. NameTaken
/// and NoSlot never come. What `buf` holds then is open.
pub fn lookup<D: Disk>(
    disk: &mut D,
    hints: &mut Hints,
    dir: &FileRef,
    wanted: &Wanted,
    buf: &mut Sector,
) -> Result<(FileRef, Name), DirError>
    // What is answered, by the slots of the directory.
    ensures found { IsTrue D.told → DirIsFound (pack (D.tape disk.old)) dir.now → IfOk result (IsLookedUp (pack (D.tape disk.old)) dir.now.fid wanted.now) }
    ensures absent { IsTrue D.told → DirIsFound (pack (D.tape disk.old)) dir.now → IsErrOf result DirError.NoSuchName → IsAbsent (pack (D.tape disk.old)) dir.now.fid wanted.now }

    // Which other error comes when.
    ensures misled { IsTrue D.told → DirIsFound (pack (D.tape disk.old)) dir.now → IfMisled result (MisledBy (pack (D.tape disk.old)) [] dir.now.fid) }
    ensures on_disk { IsTrue D.told → FileIsRooted (pack (D.tape disk.old)) dir.now → IfMisled result (λ place at wanted found. IsOnDisk place) }
    ensures hint { IfMisled result (IsOwnHint dir.now) }
    ensures true_links { IsTrue D.told → DirStands (pack (D.tape disk.old)) dir.now → LinksTrue (pack (D.tape disk.old)) → IfMisled result (λ place at wanted found. ⊥) }
    ensures cause { HasCause (cause_of other never never) (D.tape disk.old) (D.tape disk.new) result }
    ensures want { IsTrue D.told → IsErrOf result out_of_memory → ⊥ }

    // Nothing is written; with true links and handy hints there is one sector command a data page and one more.
    ensures looks { Looks D.told (65588 * 65535) (D.tape disk.old) (D.tape disk.new) }
    ensures pages { IsTrue D.told → IsReadByPages (pack (D.tape disk.old)) dir.now.fid (D.tape disk.old) (D.tape disk.new) }
    ensures quick { IsTrue D.told → Quick (pack (D.tape disk.old)) dir.now.fid hints.old.cache → OnOk result (IsQuick (pack (D.tape disk.old)) dir.now.fid hints.old.cache hints.new.cache (D.tape disk.old) (D.tape disk.new)) }
    ensures quick_absent { IsTrue D.told → Quick (pack (D.tape disk.old)) dir.now.fid hints.old.cache → IsErrOf result DirError.NoSuchName → IsQuick (pack (D.tape disk.old)) dir.now.fid hints.old.cache hints.new.cache (D.tape disk.old) (D.tape disk.new) }

    // What becomes of the hints.
    ensures table { hints.new.table ≡ hints.old.table }
    ensures listed { IsTrue D.told → DirIsFound (pack (D.tape disk.old)) dir.now → OnOk result (ListsLastPage D.told (pack (D.tape disk.old)) dir.now.fid hints.old.cache hints.new.cache) }
    ensures refused { hints.old.cache.refused ≤ hints.new.cache.refused }
    ensures handy { IsTrue D.told → KeepsHandy (pack (D.tape disk.old)) hints.old.cache hints.new.cache }
{
    match find_entry(disk, hints, dir, wanted, buf)? {
        Some(entry) => Ok((file_of(dir.fid, &entry), entry.name)),
        None => Err(DirError::NoSuchName),
    }
}
