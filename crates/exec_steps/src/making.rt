// A new file and its entry.
ghost use Rattle.disk_records.specs.Frames.{WritesUsable};
ghost use Rattle.session_model.specs.Refusals.{most_serials};
ghost use Rattle.alto_words.specs.Fid.{is_full_name, sys_dir};
ghost use Rattle.disk_records.specs.Addresses.{pages_of};
ghost use Rattle.disk_records.specs.Causes.{HasCause};
ghost use Rattle.disk_records.specs.Tapes.{DiskAlone, Taped, pack};
ghost use Rattle.disk_records.specs.Words.{word};
ghost use Rattle.exec_steps.specs.Asked.{MayEnterFile, MayMakeEntered, MayMakeNext, Works, made_entered, made_fid, new_ref, to_enter, to_make};
ghost use Rattle.exec_steps.specs.Rooms.{pages_planned};
ghost use Rattle.exec_session.specs.Meant.{IfRefused, kept};
ghost use Rattle.exec_steps.specs.Midway.{Midway, StepsOn};
ghost use Rattle.page_seeking.specs.Refs.{FileIsFrom};
ghost use Rattle.session_model.specs.Keeping.{Kept};
ghost use Rattle.pack_model.specs.operations.Step.{Operation};
ghost use Rattle.exec_session.specs.Stops.{cause_of_stop};
ghost use Rattle.pack_model.specs.reading.Files.{place};
ghost use Rattle.pack_model.specs.reading.Sights.{sights};
ghost use Rattle.std.specs.Prelude.{IfOk, IsTrue, List, OnOk, Some, [], length, take, true, ◌+◌, ◌^◌, ◌∷◌, ◌≡◌, ◌≤◌, ◌<◌, ℕ, ◌++◌};

use crate::rooms::NewEntry;
use crate::widening::widen_first;
use alto_words::Fid;
use directory::enter;
use disk_records::{Disk, Place, Sector};
use exec_session::{Session, Stop, entered, limit_of, written};
use file_pages::make;
use page_seeking::FileRef;

/// The file with this full name and with its leader in this sector.
fn new_file(fid: Fid, leader_at: u16) -> FileRef
    ensures { result ≡ new_ref fid leader_at }
{
    FileRef {
        fid,
        leader_at,
        from: Place::Held { at: leader_at },
    }
}

/// The full name with this serial: that of a directory, or of an ordinary file.
fn next_fid(of_directory: bool, serial: u32) -> Fid
    requires least { 1 ≤ serial }
    requires most { serial < 2 ^ 31 }
    ensures is { result ≡ made_fid of_directory serial }
    ensures full_name { is_full_name result ≡ true }
{
    if of_directory {
        Fid::directory(serial)
    } else {
        Fid::ordinary(serial)
    }
}

/// Makes a file in the first two of these sectors, under the next serial: a directory, or an ordinary one.
fn make_next<D: Disk>(
    session: &mut Session,
    disk: &mut D,
    entry: &NewEntry,
    of_directory: bool,
    fresh: &[u16],
) -> Result<FileRef, Stop>
    requires shape { session.old.descriptor.shape ≡ (D.tape disk.old).form }
    requires sized { length session.old.hints.table ≡ pages_of (D.tape disk.old).form }
    requires left { session.old.descriptor.last < most_serials }
    requires many { 2 ≤ length fresh.now }
    ensures made { IfOk result (λ file. file ≡ new_ref (made_fid of_directory (session.old.descriptor.last + 1)) (word fresh.now 0)) }
    ensures placed { IsTrue D.told → MayMakeNext (pack (D.tape disk.old)) (kept session.old) of_directory entry.now.name fresh.now → OnOk result (place (sights (pack (D.tape disk.new))) (made_fid of_directory (session.old.descriptor.last + 1)) 0 ≡ Some (word fresh.now 0)) }
    ensures steps { IsTrue D.told → MayMakeNext (pack (D.tape disk.old)) (kept session.old) of_directory entry.now.name fresh.now → StepsOn (D.tape disk.old) (D.tape disk.new) (kept session.old) (kept session.new) (to_make (made_fid of_directory (session.old.descriptor.last + 1)) entry.now.name session.old.moment ∷ []) (take 2 fresh.now) ([]) result }
    ensures unrefused { IfRefused result (λ r. ⊥) }
    ensures cause { HasCause cause_of_stop (D.tape disk.old) (D.tape disk.new) result }
    ensures works { Works session.old session.new }
    ensures frame { WritesUsable D.told (D.tape disk.old) (D.tape disk.new) }
    ensures alone { DiskAlone (D.tape disk.old) (D.tape disk.new) }
{
    let _limit = limit_of(session);
    let serial = session.descriptor.next_serial(disk)?;
    let fid = next_fid(of_directory, serial);
    let file = new_file(fid, fresh[0]);
    let made = make(
        disk,
        &mut session.hints,
        &mut session.tally,
        fid,
        &entry.name,
        session.moment,
        [fresh[0], fresh[1]],
    );
    written(&file, made)?;
    Ok(file)
}

/// Enters a file in its directory, with this virtual address of its leader.
///
/// Misled: the directory's address or one of its links doesn't lead to its page. DiskFault: the device failed. Memory: none was left for a
/// record write. After each of them a prefix of the record writes was done, on a modelled disk.
pub fn enter_file<D: Disk>(
    session: &mut Session,
    disk: &mut D,
    entry: &NewEntry,
    fid: Fid,
    leader_at: u16,
) -> Result<(), Stop>
    requires shape { session.old.descriptor.shape ≡ (D.tape disk.old).form }
    requires sized { length session.old.hints.table ≡ pages_of (D.tape disk.old).form }
    ensures steps { IsTrue D.told → MayEnterFile (pack (D.tape disk.old)) entry.now fid leader_at → StepsOn (D.tape disk.old) (D.tape disk.new) (kept session.old) (kept session.new) (to_enter entry.now.dir.fid entry.now.name fid ∷ []) ([]) (entry.now.dir.fid ∷ []) result }
    ensures unrefused { IfRefused result (λ r. ⊥) }
    ensures cause { HasCause cause_of_stop (D.tape disk.old) (D.tape disk.new) result }
    ensures works { Works session.old session.new }
    ensures descriptor { session.new.descriptor ≡ session.old.descriptor }
    ensures frame { WritesUsable D.told (D.tape disk.old) (D.tape disk.new) }
    ensures alone { DiskAlone (D.tape disk.old) (D.tape disk.new) }
{
    let _limit = limit_of(session);
    let mut buf = Sector::ZEROS;
    let answer = enter(
        disk,
        &mut session.hints,
        &mut session.tally,
        &entry.dir,
        &entry.name,
        fid,
        leader_at,
        &mut buf,
    );
    entered(&entry.dir, answer)
}

/// Makes a new file and enters it, after the pages of directories and the new serial. The first of these sectors, virtual addresses, are for
/// the pages of directories, the next two for the file: its leader, and its first data page, which has no bytes.
///
/// Misled: an address or a link of a directory doesn't lead to its page. DiskFault: the device failed. Memory: none was left for a record
/// write. After each of them a prefix of the record writes was done, on a modelled disk.
pub fn make_entered<D: Disk>(
    session: &mut Session,
    disk: &mut D,
    entry: &NewEntry,
    of_directory: bool,
    fresh: &[u16],
) -> Result<FileRef, Stop>
    requires shape { session.old.descriptor.shape ≡ (D.tape disk.old).form }
    requires sized { length session.old.hints.table ≡ pages_of (D.tape disk.old).form }
    requires left { session.old.descriptor.last < most_serials }
    requires many { pages_planned entry.now + 2 ≤ length fresh.now }
    ensures made { IfOk result (λ file. file ≡ new_ref (made_fid of_directory (session.old.descriptor.last + 1)) (word fresh.now (pages_planned entry.now))) }
    ensures steps { IsTrue D.told → MayMakeEntered (pack (D.tape disk.old)) (kept session.old) entry.now of_directory fresh.now → StepsOn (D.tape disk.old) (D.tape disk.new) (kept session.old) (kept session.new) (made_entered entry.now (made_fid of_directory (session.old.descriptor.last + 1)) session.old.moment) (take (pages_planned entry.now + 2) fresh.now) (sys_dir ∷ entry.now.dir.fid ∷ []) result }
    ensures stands { (old : Taped) (one : Kept) (at : ℕ) (done all : List Operation) (rest : List ℕ) → IsTrue D.told → MayMakeEntered (pack (D.tape disk.old)) (kept session.old) entry.now of_directory fresh.now → Midway old (D.tape disk.old) one (kept session.old) at done all (take (pages_planned entry.now + 2) fresh.now ++ rest) → IfOk result (λ file. FileIsFrom (pack (D.tape disk.new)) file) }
    ensures unrefused { IfRefused result (λ r. ⊥) }
    ensures cause { HasCause cause_of_stop (D.tape disk.old) (D.tape disk.new) result }
    ensures works { Works session.old session.new }
    ensures frame { WritesUsable D.told (D.tape disk.old) (D.tape disk.new) }
    ensures alone { DiskAlone (D.tape disk.old) (D.tape disk.new) }
{
    widen_first(session, disk, entry, fresh)?;
    let file = make_next(session, disk, entry, of_directory, &fresh[entry.pages()..])?;
    enter_file(session, disk, entry, file.fid, file.leader_at)?;
    Ok(file)
}
