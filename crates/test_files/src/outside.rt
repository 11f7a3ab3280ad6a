// The outside of a test: real files in its folder, keys from a list, and a display that keeps what it is shown. What calls were
// made is noted; each part may fail, and calls may be short or interrupted.
ghost use Rattle.std.specs.Prelude.{◌≤◌, IfOk};

use disk_image::Lockable;
use std::alloc::{AllocError, Allocator, Global};
use std::cell::{Cell, RefCell};
use std::fmt::Display;
use std::fs::{File, Metadata, OpenFile, OpenOptions, TryLockError};
use std::io::{BufRead, Error, ErrorKind, Input, Lines, Print, Read, Seek, SeekFrom, Write};
use std::mem::replace;
use std::os::unix::fs::FileExt;
use std::rt::Files;
use std::{fs, io};

/// What fails of an outside, or goes otherwise than a call asks.
#[derive(Clone, Copy, Debug, PartialEq, Eq)]
pub enum Broken {
    /// Nothing fails.
    Nothing,
    /// Nothing can be shown.
    Display,
    /// The keyboard fails after its last key, where it would end.
    Keyboard,
    /// Files may be read and not written, however they are opened.
    Writing,
    /// Files may be written and not read.
    Reading,
    /// One read call of files fails: that with this number, counted from 0 over all files.
    ReadCall(u64),
    /// One write call of files fails: that with this number, counted from 0 over all files.
    WriteCall(u64),
    /// A file takes so many bytes, and then none: a write call of more is short, and the next one fails.
    Full(usize),
    /// Another process has each file.
    InUse,
    /// A lock of a file can't be taken, as where the file system has none.
    Lockless,
    /// The device doesn't take what was written.
    Syncing,
    /// One opening of a file fails: that with this number, counted from 0.
    Opening(u64),
    /// Each read and write call of a file, and each read of keys, does 5 bytes of what it is asked at most.
    Short,
    /// Every other read and write call of a file, and every other read of keys, is interrupted by a signal: the first of each.
    Interrupted,
}

/// How many bytes a short call does at most: an odd number, so that words are cut too.
const SHORT_BYTES: usize = 5;

/// How the read and write calls of a file or of a keyboard go.
#[derive(Clone, Copy)]
enum Calls {
    /// As they are asked.
    Plain,
    /// Each is short.
    Short,
    /// This one is interrupted, and the next one isn't.
    Interrupted,
    /// This one isn't interrupted, and the next one is.
    Resumed,
}

impl Calls {
    /// Those of an outside with this fault, before the first.
    fn of(broken: Broken) -> Calls {
        match broken {
            Broken::Short => Calls::Short,
            Broken::Interrupted => Calls::Interrupted,
            _ => Calls::Plain,
        }
    }

    /// How many bytes the next call does of those that it is asked. Interrupted: none, this time.
    fn next_length(&mut self, asked: usize) -> io::Result<usize>
        ensures most { IfOk result (λ length. length ≤ asked) }
    {
        match *self {
            Calls::Plain => Ok(asked),
            Calls::Short => Ok(asked.min(SHORT_BYTES)),
            Calls::Interrupted => {
                *self = Calls::Resumed;
                Err(Error::from(ErrorKind::Interrupted))
            }
            Calls::Resumed => {
                *self = Calls::Interrupted;
                Ok(asked)
            }
        }
    }
}

/// One call of a file, with the place that it seeks, or how many bytes it was to read or write and from which place on: without one, from
/// the file's position on.
#[derive(Clone, Copy, Debug, PartialEq, Eq)]
pub enum FileCall {
    Seek(SeekFrom),
    Read(usize),
    Write(usize),
    ReadAt(u64, usize),
    WriteAt(u64, usize),
    Sync,
}

/// How many calls of files are kept.
const MOST_CALLS: usize = 12;

/// What the device is asked to have of a file, in the order of the calls.
#[derive(Drop)]
pub enum Taken {
    /// The bytes of one write call, and their place in the file.
    Bytes { at: u64, bytes: Vec<u8> },
    /// It was waited for until it had all that was written before.
    Settled,
}

/// What an outside was asked to do.
#[derive(Drop)]
pub struct Log {
    shown: RefCell<Vec<u8>>,
    shows: Cell<u64>,
    key_reads: Cell<u64>,
    openings: Cell<u64>,
    file_reads: Cell<u64>,
    file_writes: Cell<u64>,
    lengths: Cell<u64>,
    file_calls: RefCell<Vec<FileCall>>,
    taken: RefCell<Vec<Taken>>,
}

impl Log {
    /// A log of nothing.
    pub fn new(alloc: Global) -> Log {
        Log {
            shown: RefCell::new(Vec::new(alloc)),
            shows: Cell::new(0),
            key_reads: Cell::new(0),
            openings: Cell::new(0),
            file_reads: Cell::new(0),
            file_writes: Cell::new(0),
            lengths: Cell::new(0),
            file_calls: RefCell::new(Vec::new(alloc)),
            taken: RefCell::new(Vec::new(alloc)),
        }
    }

    /// A copy of what was shown so far.
    pub fn shown(&self, alloc: Global) -> Result<Vec<u8>, AllocError> {
        match self.shown.try_borrow() {
            Ok(bytes) => bytes.as_slice().to_vec(alloc),
            Err(_) => Err(AllocError),
        }
    }

    /// How many write calls the display had, those that failed among them.
    pub fn shows(&self) -> u64 {
        self.shows.get()
    }

    /// How many read calls the keyboard had.
    pub fn key_reads(&self) -> u64 {
        self.key_reads.get()
    }

    /// How often the files were asked for their length.
    pub fn lengths(&self) -> u64 {
        self.lengths.get()
    }

    /// The first 12 calls of files since they were last taken.
    pub fn take_file_calls(&self, alloc: Global) -> Result<Vec<FileCall>, AllocError> {
        match self.file_calls.try_borrow_mut() {
            Ok(mut calls) => {
                let taken = calls.as_slice().to_vec(alloc)?;
                calls.clear();
                Ok(taken)
            }
            Err(_) => Err(AllocError),
        }
    }

    fn note_file_call(&self, call: FileCall) -> io::Result<()> {
        match self.file_calls.try_borrow_mut() {
            Ok(mut calls) => {
                if calls.len() < MOST_CALLS {
                    calls.push(call)?;
                }
                Ok(())
            }
            Err(_) => Err(Error::from(ErrorKind::ResourceBusy)),
        }
    }

    /// What files took at places that were named, and the waits for the device, since the log was made or this was last asked.
    pub fn take_taken(&self, alloc: Global) -> Result<Vec<Taken>, AllocError> {
        match self.taken.try_borrow_mut() {
            Ok(mut taken) => Ok(replace(&mut *taken, Vec::new(alloc))),
            Err(_) => Err(AllocError),
        }
    }

    fn note_taken(&self, taken: Taken) -> io::Result<()> {
        match self.taken.try_borrow_mut() {
            Ok(mut all) => Ok(all.push(taken)?),
            Err(_) => Err(Error::from(ErrorKind::ResourceBusy)),
        }
    }

    /// Notes the opening of a file, and answers its number.
    fn note_opening(&self) -> u64 {
        let number = self.openings.get();
        self.openings.set(number.saturating_add(1));
        number
    }

    /// Notes a read call of a file, and answers its number among those of all files.
    fn note_file_read(&self) -> u64 {
        let number = self.file_reads.get();
        self.file_reads.set(number.saturating_add(1));
        number
    }

    /// Notes a write call of a file, and answers its number among those of all files.
    fn note_file_write(&self) -> u64 {
        let number = self.file_writes.get();
        self.file_writes.set(number.saturating_add(1));
        number
    }

    fn note_length(&self) {
        self.lengths.set(self.lengths.get().saturating_add(1));
    }

    fn note_key_read(&self) {
        self.key_reads.set(self.key_reads.get().saturating_add(1));
    }

    fn note_show(&self) {
        self.shows.set(self.shows.get().saturating_add(1));
    }

    fn note_shown(&self, bytes: &[u8]) -> io::Result<()> {
        match self.shown.try_borrow_mut() {
            Ok(mut shown) => Ok(shown.extend_from_slice(bytes)?),
            Err(_) => Err(Error::from(ErrorKind::ResourceBusy)),
        }
    }
}

/// A runtime over the host's: its files, and keys and a display of its own.
#[derive(Drop)]
pub struct Outside<'a> {
    host: &'a HostRuntime,
    keys: &'a [u8],
    broken: Broken,
    log: &'a Log,
}

impl<'a> Outside<'a> {
    /// An outside with these keys.
    pub fn new(host: &'a HostRuntime, keys: &'a [u8], broken: Broken, log: &'a Log) -> Outside<'a> {
        Outside {
            host,
            keys,
            broken,
            log,
        }
    }

    fn opened(&self, how: &OpenOptions, path: &str) -> io::Result<File> {
        let number = self.log.note_opening();
        if self.broken == Broken::Opening(number) {
            return Err(Error::from(ErrorKind::NotFound));
        }
        if self.broken == Broken::Writing {
            return fs::open(self.host, path);
        }
        self.host.open_file(how, path)
    }
}

/// The keyboard of an outside.
#[derive(Drop)]
pub struct Keys<'a> {
    rest: &'a [u8],
    is_broken: bool,
    calls: Calls,
    log: &'a Log,
}

impl Read for Keys<'_> {
    fn read(&mut self, buf: &mut [u8]) -> io::Result<usize> {
        self.log.note_key_read();
        if self.is_broken && self.rest.is_empty() {
            return Err(Error::from(ErrorKind::Other));
        }
        let length = self.calls.next_length(buf.len())?;
        self.rest.read(&mut buf[..length])
    }
}

impl BufRead for Keys<'_> {
    fn fill_buf(&mut self) -> io::Result<&[u8]> {
        Ok(self.rest)
    }

    fn consume(&mut self, amount: usize) {
        self.rest.consume(amount);
    }
}

/// A file of an outside.
#[derive(Drop)]
pub struct Logged<'a> {
    file: File,
    broken: Broken,
    calls: Cell<Calls>,
    // how many bytes it still takes
    room: Cell<usize>,
    log: &'a Log,
    alloc: Global,
}

impl Logged<'_> {
    /// How many bytes the next call does of those that it is asked. Interrupted: none, this time.
    fn next_length(&self, asked: usize) -> io::Result<usize>
        ensures most { IfOk result (λ length. length ≤ asked) }
    {
        let mut calls = self.calls.get();
        let length = calls.next_length(asked);
        self.calls.set(calls);
        length
    }

    /// How many bytes a write call does of those that it is asked. StorageFull: there is room for none.
    fn take_room(&self, asked: usize) -> io::Result<usize>
        ensures most { IfOk result (λ length. length ≤ asked) }
    {
        let room = self.room.get();
        if room == 0 {
            return Err(Error::from(ErrorKind::StorageFull));
        }
        let length = asked.min(room);
        self.room.set(room - length);
        Ok(length)
    }

    /// How many bytes a read call that is noted so does of those that it is asked.
    fn length_to_read(&self, call: FileCall, asked: usize) -> io::Result<usize>
        ensures most { IfOk result (λ length. length ≤ asked) }
    {
        self.log.note_file_call(call)?;
        let number = self.log.note_file_read();
        if self.broken == Broken::Reading || self.broken == Broken::ReadCall(number) {
            return Err(Error::from(ErrorKind::Other));
        }
        self.next_length(asked)
    }

    /// How many bytes a write call that is noted so does of those that it is asked.
    fn length_to_write(&self, call: FileCall, asked: usize) -> io::Result<usize>
        ensures most { IfOk result (λ length. length ≤ asked) }
    {
        self.log.note_file_call(call)?;
        let number = self.log.note_file_write();
        if self.broken == Broken::WriteCall(number) {
            return Err(Error::from(ErrorKind::StorageFull));
        }
        let length = self.next_length(asked)?;
        self.take_room(length)
    }
}

impl Read for Logged<'_> {
    fn read(&mut self, buf: &mut [u8]) -> io::Result<usize> {
        let length = self.length_to_read(FileCall::Read(buf.len()), buf.len())?;
        self.file.read(&mut buf[..length])
    }
}

impl Write for Logged<'_> {
    fn write(&mut self, buf: &[u8]) -> io::Result<usize> {
        let length = self.length_to_write(FileCall::Write(buf.len()), buf.len())?;
        self.file.write(&buf[..length])
    }

    fn flush(&mut self) -> io::Result<()> {
        self.file.flush()
    }
}

impl FileExt for Logged<'_> {
    fn read_at(&self, buf: &mut [u8], offset: u64) -> io::Result<usize> {
        let length = self.length_to_read(FileCall::ReadAt(offset, buf.len()), buf.len())?;
        self.file.read_at(&mut buf[..length], offset)
    }

    fn write_at(&self, buf: &[u8], offset: u64) -> io::Result<usize> {
        let length = self.length_to_write(FileCall::WriteAt(offset, buf.len()), buf.len())?;
        self.log.note_taken(Taken::Bytes {
            at: offset,
            bytes: buf[..length].to_vec(self.alloc)?,
        })?;
        self.file.write_at(&buf[..length], offset)
    }
}

impl Seek for Logged<'_> {
    fn seek(&mut self, to: SeekFrom) -> io::Result<u64> {
        self.log.note_file_call(FileCall::Seek(to))?;
        if to == SeekFrom::End(0) {
            self.log.note_length();
        }
        self.file.seek(to)
    }
}

impl OpenFile for Logged<'_> {
    fn metadata(&self) -> io::Result<Metadata> {
        self.file.metadata()
    }

    fn set_len(&self, size: u64) -> io::Result<()> {
        self.file.set_len(size)
    }

    fn sync_all(&self) -> io::Result<()> {
        self.file.sync_all()
    }

    fn sync_data(&self) -> io::Result<()> {
        self.log.note_file_call(FileCall::Sync)?;
        if self.broken == Broken::Syncing {
            return Err(Error::from(ErrorKind::Other));
        }
        self.log.note_taken(Taken::Settled)?;
        self.file.sync_data()
    }
}

impl Logged<'_> {
    /// Whether the outside lets the file be locked.
    fn may_lock(&self) -> Result<(), TryLockError> {
        match self.broken {
            Broken::InUse => Err(TryLockError::WouldBlock),
            Broken::Lockless => Err(TryLockError::Error(Error::from(ErrorKind::Unsupported))),
            _ => Ok(()),
        }
    }
}

impl Lockable for Logged<'_> {
    ghost alone = { λ file. Unit {0} };

    ghost shared = { λ file. Unit {0} };

    fn try_lock(&self) -> Result<(), TryLockError> {
        self.may_lock()?;
        self.file.try_lock()
    }

    fn try_lock_shared(&self) -> Result<(), TryLockError> {
        self.may_lock()?;
        self.file.try_lock_shared()
    }
}

impl<'a> Input for Outside<'a> {
    type Reader = Keys<'a>;

    fn read_line<A: Allocator + Clone>(&self, buf: &mut String<A>) -> io::Result<usize> {
        self.reader().read_line(buf)
    }

    fn lines<A: Allocator>(&self, alloc: A) -> Lines<Keys<'a>, A> {
        self.reader().lines(alloc)
    }

    fn reader(&self) -> Keys<'a> {
        Keys {
            rest: self.keys,
            is_broken: self.broken == Broken::Keyboard,
            calls: Calls::of(self.broken),
            log: self.log,
        }
    }
}

impl Print for Outside<'_> {
    fn print<D: Display + Drop>(&self, value: D) -> io::Result<()> {
        let text = value.to_string(self.host.alloc())?;
        self.write_all(text.as_bytes())
    }

    fn println<D: Display + Drop>(&self, value: D) -> io::Result<()> {
        self.print(value)?;
        self.write_all(b"\n")
    }

    fn write_all(&self, bytes: &[u8]) -> io::Result<()> {
        self.log.note_show();
        if self.broken == Broken::Display {
            return Err(Error::from(ErrorKind::BrokenPipe));
        }
        self.log.note_shown(bytes)
    }
}

impl<'a> Files for Outside<'a> {
    type File = Logged<'a>;

    type Dir = <HostRuntime as Files>::Dir;

    fn open_file(&self, how: &OpenOptions, path: &str) -> io::Result<Logged<'a>> {
        Ok(Logged {
            file: self.opened(how, path)?,
            broken: self.broken,
            calls: Cell::new(Calls::of(self.broken)),
            room: Cell::new(match self.broken {
                Broken::Full(room) => room,
                _ => usize::MAX,
            }),
            log: self.log,
            alloc: self.host.alloc(),
        })
    }

    fn open_dir(&self, path: &str) -> io::Result<Self::Dir> {
        self.host.open_dir(path)
    }

    fn metadata(&self, path: &str) -> io::Result<Metadata> {
        Files::metadata(self.host, path)
    }

    fn symlink_metadata(&self, path: &str) -> io::Result<Metadata> {
        self.host.symlink_metadata(path)
    }

    fn copy(&self, from: &str, to: &str) -> io::Result<u64> {
        self.host.copy(from, to)
    }

    fn rename(&self, from: &str, to: &str) -> io::Result<()> {
        self.host.rename(from, to)
    }

    fn remove_file(&self, path: &str) -> io::Result<()> {
        self.host.remove_file(path)
    }

    fn create_dir(&self, path: &str) -> io::Result<()> {
        self.host.create_dir(path)
    }

    fn remove_dir(&self, path: &str) -> io::Result<()> {
        self.host.remove_dir(path)
    }

    fn remove_dir_all<B: Allocator>(&self, alloc: B, path: &str) -> io::Result<()> {
        self.host.remove_dir_all(alloc, path)
    }
}
