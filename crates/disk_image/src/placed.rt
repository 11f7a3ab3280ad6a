// A file that is read and written at a place that is kept in memory: a seek to a place makes no call of the outside, and each read and
// write names its place in the call that it makes. Bytes that are written are held back as long as they touch each other in some pages of
// memory of the file that follow each other, in an order in which one call may write them all (held.rt). They go ahead of all that is read
// or written after them.
//
// The file's length is asked for before the first write call, and before the first after the machine forgot it (machine.rt). So it is
// before the first after an error of a write call or of that question, and before the first after a read call that brought fewer bytes than
// were asked for, as of a file that was shortened. The other write calls go by the length that was answered then.
ghost use Rattle.std.specs.Prelude.{◌≡◌, ◌⊎◌, ◌↔◌, ◌+◌, ◌≤◌, false, length, None, Some, IfSome, IsSomeAnd, IsTrue, OnOk, OnErr};
ghost use Rattle.disk_records.specs.Tapes.{capped};
ghost use Rattle.disk_image.specs.Holding.{HoldsNone, TakesSector};

use crate::codec::{SECTOR_BYTES, write_sector};
use crate::held::Held;
use disk_records::Sector;
use std::alloc::Global;
use std::fs::OpenFile;
use std::io;
use std::io::{Error, ErrorKind, Read, Seek, SeekFrom};
use std::os::unix::fs::FileExt;

/// A call of the outside failed. Why it did isn't told on, as the machine only counts it: an answer with the outside's own error takes 96
/// bytes, which each command would clear.
#[derive(Drop)]
pub(crate) struct Failed;

impl From<Error> for Failed {
    fn from(_error: Error) -> Self {
        Failed
    }
}

/// An open file with the place in it of the next byte that is read or written. The position that the outside has for it means nothing.
#[derive(Drop)]
pub(crate) struct Placed<F> {
    file: F,
    // counted in bytes from 0
    at: u64,
    // what was written and isn't in the file yet
    held: Held,
    // whether a write call was made that the device needn't have yet
    is_unsettled: bool,
    // the length in bytes that the file answered when it was asked last, where it wasn't forgotten since then, and no error of a write call or
    // of that question came, and no read call that brought fewer bytes than were asked for
    known_length: Option<u64>,
}

impl<F> Placed<F> {
    /// A file at its first byte, of which nothing is held back.
    pub(crate) fn new(alloc: Global, file: F) -> Placed<F>
        ensures file { result.file ≡ file }
        ensures place { result.at ≡ 0 }
        ensures none { HoldsNone result.held }
        ensures unknown { result.known_length ≡ None }
    {
        Placed {
            file,
            at: 0,
            held: Held::new(alloc),
            is_unsettled: false,
            known_length: None,
        }
    }

    /// Knows the file's length no longer: the next write call asks for it.
    pub(crate) fn forget_length(&mut self)
        ensures forgotten { self.new.known_length ≡ None }
        ensures same_held { self.new.held ≡ self.old.held }
        ensures same_place { self.new.at ≡ self.old.at }
        ensures same_settled { self.new.is_unsettled ≡ self.old.is_unsettled }
    {
        self.known_length = None;
    }
}

impl<F: FileExt + Seek> Placed<F> {
    /// Hands on to the file what is held back of it, by one write call. Where that fails it is held back still, and nothing goes ahead of it
    /// later.
    pub(crate) fn hand_on(&mut self) -> io::Result<()>
        ensures ok { OnOk result (HoldsNone self.new.held) }
        ensures err { OnErr result (self.new.held ≡ self.old.held) }
        ensures place { self.new.at ≡ self.old.at }
        ensures forgotten { OnErr result (self.new.known_length ≡ None) }
    {
        if self.held.is_empty() {
            return Ok(());
        }
        let at = self.held.place();
        self.is_unsettled = true;
        write_within(
            &mut self.file,
            &mut self.known_length,
            at,
            self.held.bytes(),
        )?;
        self.held.clear();
        Ok(())
    }

    /// Takes a sector for the place where the file stands, which goes on by the sector's 532 bytes. They are held back. What is held goes
    /// ahead of them, by one call, unless they may join it: so all that one call writes from a multiple of 4,096 on was taken after all that
    /// it writes before it, or together with it. Where there is no memory to hold them they are written by a call of their own. After an
    /// error the place is as it was, and what was held is held still, or was handed on.
    pub(crate) fn put(&mut self, sector: &Sector) -> Result<(), Failed>
        ensures ok { OnOk result (TakesSector self.old.at sector.now self.old.held self.new.held) }
        ensures err { OnErr result ((self.new.held ≡ self.old.held) ⊎ HoldsNone self.new.held) }
        ensures place { OnOk result (self.new.at ≡ capped (self.old.at + 532)) }
        ensures same_place { OnErr result (self.new.at ≡ self.old.at) }
    {
        if !self.held.put(self.at, sector) {
            self.hand_on()?;
            if !self.held.put(self.at, sector) {
                self.write_at_once(sector)?;
            }
        }
        self.at = self.at.saturating_add(SECTOR_BYTES as u64);
        Ok(())
    }

    /// Writes a sector where the file stands, by a call of its own. It stands apart from `put`, which would else clear its memory each time.
    #[inline(never)]
    fn write_at_once(&mut self, sector: &Sector) -> io::Result<()>
        ensures same_held { self.new.held ≡ self.old.held }
        ensures same_place { self.new.at ≡ self.old.at }
    {
        self.is_unsettled = true;
        let mut bytes = [0; SECTOR_BYTES];
        write_sector(sector, &mut bytes);
        write_within(&mut self.file, &mut self.known_length, self.at, &bytes)
    }
}

impl<F: FileExt + OpenFile + Seek> Placed<F> {
    /// Hands on what is held back, and waits until the device has all that was written. Where nothing was since it was last waited for, no
    /// call is made. After an error the file counts as unsettled still, if it was written.
    pub(crate) fn settle(&mut self) -> io::Result<()>
        ensures ok { OnOk result (HoldsNone self.new.held) }
        ensures settled { OnOk result (self.new.is_unsettled ≡ false) }
        ensures place { self.new.at ≡ self.old.at }
    {
        self.hand_on()?;
        if self.is_unsettled {
            self.file.sync_data()?;
            self.is_unsettled = false;
        }
        Ok(())
    }
}

/// Whether a file of so many bytes has all of these many from a place on.
fn has_bytes(length: u64, at: u64, count: usize) -> bool
    ensures { IsTrue result ↔ at + count ≤ length }
{
    at <= length && count as u64 <= length - at
}

/// Writes bytes to their place in a file that has the whole of it, by one write call. `known` is the length that the file is known to have;
/// where none is, the file is asked for it. UnexpectedEof: it doesn't have all of them by that length. Records written there would make the
/// file longer again, and those that were lost would be read as zeros. After each error no length is known. What is tested holds for the
/// moment of the question: another process can shorten the file after it.
fn write_within<F: FileExt + Seek>(
    file: &mut F,
    known: &mut Option<u64>,
    at: u64,
    bytes: &[u8],
) -> io::Result<()>
    ensures enough { OnOk result (IsSomeAnd known.new (λ bound. at + length bytes.now ≤ bound)) }
    ensures same { OnOk result (IfSome known.old (λ bound. known.new ≡ Some bound)) }
    ensures forgotten { OnErr result (known.new ≡ None) }
{
    let length = match known.take() {
        Some(length) => length,
        None => file.seek(SeekFrom::End(0))?,
    };
    if !has_bytes(length, at, bytes.len()) {
        return Err(Error::from(ErrorKind::UnexpectedEof));
    }
    file.write_all_at(bytes, at)?;
    *known = Some(length);
    Ok(())
}

impl<F: FileExt + Seek> Read for Placed<F> {
    fn read(&mut self, buf: &mut [u8]) -> io::Result<usize> {
        self.hand_on()?;
        let count = self.file.read_at(buf, self.at)?;
        if count < buf.len() {
            self.forget_length();
        }
        self.at = self.at.saturating_add(count as u64);
        Ok(count)
    }
}

impl<F: Seek> Seek for Placed<F> {
    ghost use Rattle.std.specs.Prelude.{Some};

    ghost stream_position = { λ placed. Some placed.at };

    /// Where the place is counted from the file's end, the outside is asked for that. The program counts each place from the file's start.
    fn seek(&mut self, to: SeekFrom) -> io::Result<u64> {
        let at = match to {
            SeekFrom::Start(at) => at,
            SeekFrom::End(_) => self.file.seek(to)?,
            SeekFrom::Current(offset) => {
                let Some(at) = self.at.checked_add_signed(offset) else {
                    return Err(io::Error::from(ErrorKind::InvalidInput));
                };
                at
            }
        };
        self.at = at;
        Ok(at)
    }
}
