// Machines over pack files that are there, and over new ones.
//
// That two paths lead to one file is seen by the device and by the file's number there, which the outside tells. A stand-in for it in a
// test may tell no numbers, and all are 0 then: the files of two paths are taken for different ones.
ghost use Rattle.std.specs.Prelude.{◌≡◌, ◌≤◌, IfOk, IfErr, IfSome};
ghost use Rattle.disk_records.specs.Addresses.{disks_of, cylinders_of};
ghost use Rattle.disk_image.specs.Locks.{HasLock};
ghost use Rattle.disk_image.specs.Machines.{IsUntouched, IsReaching, IsReachingTwo, IsMaking};

use crate::codec::shape_of_length;
use crate::error::ReachError;
use crate::locks::{Lockable, Purpose, take_lock};
use crate::machine::FileMachine;
use crate::pair::shape_of_lengths;
use crate::records::fill;
use disk_records::{Shape, Tape};
use std::alloc::Global;
use std::fs::{Metadata, OpenFile, OpenOptions};
use std::io::{BufReader, Input, Print};
use std::os::unix::fs::MetadataExt;
use std::rt::Files;
use std::{fs, io};

/// The most keys that are read ahead.
const KEYS_AHEAD: usize = 16_384;

impl<'a, R: Files + Input + Print> FileMachine<'a, R>
where
    R::File: Lockable,
{
    /// A machine of one drive over the pack file at this path, which is opened for reading and writing. The file isn't read yet.
    ///
    /// No other process may have the file while the machine is there: its lock is taken before its length is asked, and isn't waited for.
    ///
    /// NoFile: the file or `/dev/null` can't be opened, or the file's lock can't be taken for another reason, or its length can't be asked.
    /// InUse: another process has the file. BadLength: its length isn't that of 2 to 406 cylinders. Unlike never comes. Memory: none was
    /// left for the buffer of the keys. They are tested in this order, Memory first.
    pub fn reach(rt: &'a R, alloc: Global, path: &str) -> Result<FileMachine<'a, R>, ReachError>
        ensures untouched { IfOk result (λ machine. IsUntouched (⟦<FileMachine<'a, R> as Tape>⟧.tape machine)) }
        ensures handed_on { IfOk result (λ machine. ⟦<FileMachine<'a, R> as Tape>⟧.handed_on machine) }
        ensures disks { IfOk result (λ machine. disks_of (⟦<FileMachine<'a, R> as Tape>⟧.tape machine).form ≡ 1) }
        ensures locked { IfOk result (λ machine. R.File.alone machine.first.file) }
        ensures err { IfErr result IsReaching }
    {
        FileMachine::reach_for(rt, alloc, path, Purpose::Writing)
    }

    /// A machine of one drive over the pack file at this path, which is opened for reading alone, and which others may read meanwhile. It is
    /// for words that write nothing: a record write is a fault of the disk, at the latest when it is handed on.
    ///
    /// NoFile: as at `reach`, or what stands at the path isn't a file. InUse: another process has the file for writing. The others are those
    /// of `reach`.
    pub fn reach_to_read(
        rt: &'a R,
        alloc: Global,
        path: &str,
    ) -> Result<FileMachine<'a, R>, ReachError>
        ensures untouched { IfOk result (λ machine. IsUntouched (⟦<FileMachine<'a, R> as Tape>⟧.tape machine)) }
        ensures handed_on { IfOk result (λ machine. ⟦<FileMachine<'a, R> as Tape>⟧.handed_on machine) }
        ensures disks { IfOk result (λ machine. disks_of (⟦<FileMachine<'a, R> as Tape>⟧.tape machine).form ≡ 1) }
        ensures locked { IfOk result (λ machine. R.File.shared machine.first.file) }
        ensures err { IfErr result IsReaching }
    {
        FileMachine::reach_for(rt, alloc, path, Purpose::Reading)
    }

    /// A machine of one drive over the pack file at this path, for what is to be done with it. The errors are those of `reach`, or of
    /// `reach_to_read`.
    fn reach_for(
        rt: &'a R,
        alloc: Global,
        path: &str,
        purpose: Purpose,
    ) -> Result<FileMachine<'a, R>, ReachError>
        ensures untouched { IfOk result (λ machine. IsUntouched (⟦<FileMachine<'a, R> as Tape>⟧.tape machine)) }
        ensures handed_on { IfOk result (λ machine. ⟦<FileMachine<'a, R> as Tape>⟧.handed_on machine) }
        ensures disks { IfOk result (λ machine. disks_of (⟦<FileMachine<'a, R> as Tape>⟧.tape machine).form ≡ 1) }
        ensures locked { IfOk result (λ machine. HasLock R.File.alone R.File.shared purpose machine.first.file) }
        ensures err { IfErr result IsReaching }
    {
        let keys = reader_of_keys(rt, alloc)?;
        let (file, _) = open_pack(rt, path, purpose)?;
        take_lock(&file, purpose)?;
        let bytes = length_of(&file)?;
        match shape_of_length(1, bytes) {
            Some(shape) => Ok(FileMachine::over(rt, alloc, file, None, shape, keys)),
            None => Err(ReachError::BadLength { bytes }),
        }
    }

    /// A machine of two drives over the pack files at these paths, that of the first drive first. They are opened for reading and
    /// writing, and not read yet.
    ///
    /// No other process may have either file while the machine is there, as by `reach`.
    ///
    /// NoFile: a file or `/dev/null` can't be opened, or both paths lead to one file, or a file's lock can't be taken for another reason, or
    /// its length can't be asked. InUse: another process has a file. BadLength: the length of a file isn't that of 2 to 406 cylinders; it is
    /// that of the first such file. Unlike: both lengths are, and differ. Memory: none was left for the buffer of the keys. They are tested in
    /// this order, Memory first.
    pub fn reach_two(
        rt: &'a R,
        alloc: Global,
        first: &str,
        second: &str,
    ) -> Result<FileMachine<'a, R>, ReachError>
        ensures untouched { IfOk result (λ machine. IsUntouched (⟦<FileMachine<'a, R> as Tape>⟧.tape machine)) }
        ensures handed_on { IfOk result (λ machine. ⟦<FileMachine<'a, R> as Tape>⟧.handed_on machine) }
        ensures disks { IfOk result (λ machine. disks_of (⟦<FileMachine<'a, R> as Tape>⟧.tape machine).form ≡ 2) }
        ensures locked { IfOk result (λ machine. R.File.alone machine.first.file) }
        ensures second_locked { IfOk result (λ machine. IfSome machine.second (λ placed. R.File.alone placed.file)) }
        ensures err { IfErr result IsReachingTwo }
    {
        FileMachine::reach_two_for(rt, alloc, first, second, Purpose::Writing)
    }

    /// A machine of two drives over the pack files at these paths, that of the first drive first. They are opened for reading alone, as by
    /// `reach_to_read`. The errors are those of `reach_two`, where NoFile tells also of what isn't a file.
    pub fn reach_two_to_read(
        rt: &'a R,
        alloc: Global,
        first: &str,
        second: &str,
    ) -> Result<FileMachine<'a, R>, ReachError>
        ensures untouched { IfOk result (λ machine. IsUntouched (⟦<FileMachine<'a, R> as Tape>⟧.tape machine)) }
        ensures handed_on { IfOk result (λ machine. ⟦<FileMachine<'a, R> as Tape>⟧.handed_on machine) }
        ensures disks { IfOk result (λ machine. disks_of (⟦<FileMachine<'a, R> as Tape>⟧.tape machine).form ≡ 2) }
        ensures locked { IfOk result (λ machine. R.File.shared machine.first.file) }
        ensures second_locked { IfOk result (λ machine. IfSome machine.second (λ placed. R.File.shared placed.file)) }
        ensures err { IfErr result IsReachingTwo }
    {
        FileMachine::reach_two_for(rt, alloc, first, second, Purpose::Reading)
    }

    /// A machine of two drives over the pack files at these paths, for what is to be done with them. That both paths lead to one file is
    /// asked before its lock, which the second opening would else not get.
    fn reach_two_for(
        rt: &'a R,
        alloc: Global,
        first: &str,
        second: &str,
        purpose: Purpose,
    ) -> Result<FileMachine<'a, R>, ReachError>
        ensures untouched { IfOk result (λ machine. IsUntouched (⟦<FileMachine<'a, R> as Tape>⟧.tape machine)) }
        ensures handed_on { IfOk result (λ machine. ⟦<FileMachine<'a, R> as Tape>⟧.handed_on machine) }
        ensures disks { IfOk result (λ machine. disks_of (⟦<FileMachine<'a, R> as Tape>⟧.tape machine).form ≡ 2) }
        ensures locked { IfOk result (λ machine. HasLock R.File.alone R.File.shared purpose machine.first.file) }
        ensures second_locked { IfOk result (λ machine. IfSome machine.second (λ placed. HasLock R.File.alone R.File.shared purpose placed.file)) }
        ensures err { IfErr result IsReachingTwo }
    {
        let keys = reader_of_keys(rt, alloc)?;
        let (one, of_one) = open_pack(rt, first, purpose)?;
        let (other, of_other) = open_pack(rt, second, purpose)?;
        if is_same_file(&of_one, &of_other) {
            return Err(ReachError::NoFile);
        }
        take_lock(&one, purpose)?;
        take_lock(&other, purpose)?;
        let shape = shape_of_lengths(length_of(&one)?, length_of(&other)?)?;
        Ok(FileMachine::over(rt, alloc, one, Some(other), shape, keys))
    }

    /// A machine of one drive over a new pack file of zeros at this path. The number of cylinders is 2 to 406.
    ///
    /// No other process may have the file while the machine is there: its lock is taken before it is filled.
    ///
    /// NoFile: the file is there already, or it can't be made, locked or filled, or `/dev/null` can't be opened. InUse: another process has it,
    /// which opened it as it was made. A file that can't be locked or filled is removed again; where that fails too, nothing tells of it and
    /// a shorter file stays. Memory: none was left for the buffer of the keys, and no file was made.
    pub fn create(
        rt: &'a R,
        alloc: Global,
        path: &str,
        cylinders: u16,
    ) -> Result<FileMachine<'a, R>, ReachError>
        requires least { 2 ≤ cylinders }
        requires most { cylinders ≤ 406 }
        ensures untouched { IfOk result (λ machine. IsUntouched (⟦<FileMachine<'a, R> as Tape>⟧.tape machine)) }
        ensures handed_on { IfOk result (λ machine. ⟦<FileMachine<'a, R> as Tape>⟧.handed_on machine) }
        ensures disks { IfOk result (λ machine. disks_of (⟦<FileMachine<'a, R> as Tape>⟧.tape machine).form ≡ 1) }
        ensures cylinders { IfOk result (λ machine. cylinders_of (⟦<FileMachine<'a, R> as Tape>⟧.tape machine).form ≡ cylinders) }
        ensures err { IfErr result IsMaking }
    {
        let Some(shape) = Shape::new(1, cylinders) else {
            unreachable!();
        };
        let keys = reader_of_keys(rt, alloc)?;
        let file = make_pack(rt, path, cylinders)?;
        Ok(FileMachine::over(rt, alloc, file, None, shape, keys))
    }

    /// A machine of two drives over new pack files of zeros at these paths, that of the first drive first, with so many cylinders each,
    /// 2 to 406.
    ///
    /// No other process may have either file while the machine is there, as by `create`.
    ///
    /// NoFile: a file is there already, or can't be made, locked or filled, or `/dev/null` can't be opened. InUse: another process has one,
    /// which opened it as it was made. What was made is removed again, and so is the first file where the second can't be made; where that
    /// fails too, nothing tells of it and the file stays. So where both paths are one, no file is left. Memory: none was left for the buffer
    /// of the keys, and no file was made.
    pub fn create_two(
        rt: &'a R,
        alloc: Global,
        first: &str,
        second: &str,
        cylinders: u16,
    ) -> Result<FileMachine<'a, R>, ReachError>
        requires least { 2 ≤ cylinders }
        requires most { cylinders ≤ 406 }
        ensures untouched { IfOk result (λ machine. IsUntouched (⟦<FileMachine<'a, R> as Tape>⟧.tape machine)) }
        ensures handed_on { IfOk result (λ machine. ⟦<FileMachine<'a, R> as Tape>⟧.handed_on machine) }
        ensures disks { IfOk result (λ machine. disks_of (⟦<FileMachine<'a, R> as Tape>⟧.tape machine).form ≡ 2) }
        ensures cylinders { IfOk result (λ machine. cylinders_of (⟦<FileMachine<'a, R> as Tape>⟧.tape machine).form ≡ cylinders) }
        ensures err { IfErr result IsMaking }
    {
        let Some(shape) = Shape::new(2, cylinders) else {
            unreachable!();
        };
        let keys = reader_of_keys(rt, alloc)?;
        let one = make_pack(rt, first, cylinders)?;
        match make_pack(rt, second, cylinders) {
            Ok(other) => Ok(FileMachine::over(rt, alloc, one, Some(other), shape, keys)),
            Err(error) => {
                let _ = fs::remove_file(rt, first);
                Err(error)
            }
        }
    }
}

/// Standard input, read ahead. The error is Memory.
fn reader_of_keys<R: Input>(rt: &R, alloc: Global) -> Result<BufReader<R::Reader>, ReachError>
    ensures err { IfErr result (λ error. error ≡ ReachError.Memory) }
{
    match BufReader::with_capacity(alloc, KEYS_AHEAD, rt.reader()) {
        Ok(keys) => Ok(keys),
        Err(_) => Err(ReachError::Memory),
    }
}

/// Opens a pack file that is there, and asks the outside what it knows of it. The error is NoFile. Where it is to be read alone it has to be
/// a file, which is asked before: the opening of a pipe for reading alone would wait for one who writes it, and that of a folder succeeds.
fn open_pack<R: Files>(
    rt: &R,
    path: &str,
    purpose: Purpose,
) -> Result<(R::File, Metadata), ReachError>
    ensures err { IfErr result (λ error. error ≡ ReachError.NoFile) }
{
    if purpose == Purpose::Reading && !is_file(rt, path) {
        return Err(ReachError::NoFile);
    }
    let mut options = OpenOptions::new();
    options.read(true).write(purpose == Purpose::Writing);
    let Ok(file) = open_above_std_streams(rt, &options, path) else {
        return Err(ReachError::NoFile);
    };
    match file.metadata() {
        Ok(metadata) => Ok((file, metadata)),
        Err(_) => Err(ReachError::NoFile),
    }
}

/// Whether a path leads to a file, and not to a folder, a pipe or a device.
fn is_file<R: Files>(rt: &R, path: &str) -> bool {
    match fs::metadata(rt, path) {
        Ok(metadata) => metadata.is_file(),
        Err(_) => false,
    }
}

/// The length of an open file in bytes. The error is NoFile.
fn length_of<F: OpenFile>(file: &F) -> Result<u64, ReachError>
    ensures err { IfErr result (λ error. error ≡ ReachError.NoFile) }
{
    match file.metadata() {
        Ok(metadata) => Ok(metadata.len()),
        Err(_) => Err(ReachError::NoFile),
    }
}

/// Makes a new pack file of a drive with so many cylinders, all zeros. Its lock is taken before the first write, so that another process that
/// opens it meanwhile finds it in use, and not too short. Where that or the filling fails it is removed again.
///
/// NoFile: it can't be made, locked or filled. InUse: another process has its lock already.
fn make_pack<R: Files>(rt: &R, path: &str, cylinders: u16) -> Result<R::File, ReachError>
where
    R::File: Lockable,
    ensures err { IfErr result IsMaking }
{
    let mut options = OpenOptions::new();
    options.read(true).write(true).create_new(true);
    let Ok(mut file) = open_above_std_streams(rt, &options, path) else {
        return Err(ReachError::NoFile);
    };
    if let Err(error) = take_lock(&file, Purpose::Writing) {
        let _ = fs::remove_file(rt, path);
        return Err(error);
    }
    if fill(&mut file, cylinders).is_err() {
        let _ = fs::remove_file(rt, path);
        return Err(ReachError::NoFile);
    }
    // where the folder can't be asked for it, as one that may not be read, the file is there all the same
    let _ = sync_folder(rt, path);
    Ok(file)
}

/// Has the device take the entry of a new file: syncs the folder in which it was made, which is opened for reading as a file is.
fn sync_folder<R: Files>(rt: &R, path: &str) -> io::Result<()> {
    let folder = match path.rsplit_once('/') {
        None => ".",
        Some((folder, _)) => if folder.is_empty() { "/" } else { folder },
    };
    fs::open(rt, folder)?.sync_all()
}

/// Whether two open files are one. False where the outside tells no number of them.
fn is_same_file(one: &Metadata, other: &Metadata) -> bool {
    one.ino() != 0 && one.ino() == other.ino() && one.dev() == other.dev()
}

/// Opens a file in a place above those of the standard streams. Where a program was started with one of these closed, the next file
/// that it opens takes that place, and what is shown would be written over the pack: so other files are open in such places
/// meanwhile. Where one of those can't be opened, the file isn't opened either.
fn open_above_std_streams<R: Files>(
    rt: &R,
    options: &OpenOptions,
    path: &str,
) -> io::Result<R::File> {
    let _input = fs::open(rt, "/dev/null")?;
    let _output = fs::open(rt, "/dev/null")?;
    let _errors = fs::open(rt, "/dev/null")?;
    options.open(rt, path)
}
