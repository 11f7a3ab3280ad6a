// The machine over a pack file, or two of them for two drives, standard input and standard output: the edge to the outside.
//
// Sectors that were read are kept in memory (kept.rt), and a sector command on one that is kept makes no read call. Else it goes to the
// sector's cylinder, in the file of its drive, makes one read call for all of it, and keeps it: until another cylinder is read for the
// first time, before any write, or for good where it was read before or a sector was written. Where there is no memory for that, or the cylinder
// can't be read whole, it goes to the sector and makes one read call for the records before its first Write. A command that begins with
// a Write reads nothing. To go to a place makes no call: each read and write call names its place (placed.rt). So the first two sweeps of a
// pack at most read its files, and the others read memory; a session that has written before its first sweep reads each cylinder once more
// at most. A write to a sector that isn't kept doesn't keep it, though all of it is known then. A cylinder that can't be read whole is tried
// again at the next sector, so a fault of a read is that of its own sector.
//
// A command that writes hands its sector on whole. The records before its first Write were read or compared just before, so memory has
// them as they stand. The bytes are held back (held.rt) as long as those of one command after another touch or overlap, are all in four
// pages of 4,096 bytes of one file that follow each other, and begin in the page of the last byte that is held or a later one. They are
// written by one call before a command writes elsewhere, in this file or in the other drive's, before a cylinder or a sector is read from
// this file, and at `flush`. Where no memory was left to hold bytes each sector is written at once, by a call of its own. What is kept of a
// sector is changed with the command that writes it, and after a fault of that command it is kept no longer. What is said here and in
// records.rt of the number of calls holds for calls that are neither short nor interrupted by a signal: after a short one another does the
// rest, and an interrupted one is made again.
//
// After a write call that fails a prefix of its bytes may stand, if the call was short and the one for the rest failed, and which the outside
// doesn't tell. It may be no prefix of the record writes, as a growth claims the page after the last one first. To hold back only bytes that
// come right after those that are held would keep it one, but a claim writes its sector twice, so that most sectors would be a call of their
// own.
//
// That a process which is stopped leaves a prefix of its record writes in the files, each of them whole, is a premise. It holds for one
// that is stopped between two calls, of which the first wasn't short: the record writes that are held back are the last ones, and none of
// them stands. It holds for one that a signal kills within a write call unless a record of it crosses the multiple of 4,096 bytes of its
// file at which the call ends then: Linux writes the bytes of a call in rising order and looks for such a signal between two pages of
// memory, and all that is held from a multiple on was written after all that is held before it, except for a sector that crosses it. That one
// was written between them; of a record of it that crosses the multiple the front may be new and the rest old. About one sector in 8
// has such a record; the first is the value of a file's sector 7, which is the bytes 3,744 to 4,255. The premise doesn't hold where a call
// writes a part of its bytes and the one for the rest fails, or is stopped by a limit on the size of files that lies within them: they
// stand in the order of the file, which needn't be that of the commands. A machine that is dropped without a flush takes along what it
// holds back.
//
// Where the power fails, the device may have any of the write calls that were made since the last `settle`, and needn't have the others:
// `settle` asks the device for each file that was written since the one before, by one call, and answers Ok only if it has them all.
//
// The file's length is asked for before its first write call, by a seek to its end; the write calls that follow go by the length that was
// answered. It is asked for again after a flush, unless a line that was read ahead is there whole then, after a read of keys that weren't
// read ahead, and after a write call of texts: so a session asks once for lines whose keys were read together and whose replies are handed
// on together, and no write goes by what was answered before keys or the display were waited for. No write makes the file longer, unless
// another process shortens the file after the question: the time in which it can is that from the question to the last write call that
// goes by it. It isn't asked for once a session: a file that another process shortened between two lines that a person types would be made
// longer. `format`, `prepare` and `scavenge` ask once for what they write between two flushes. The question is a seek to the end, which takes
// a quarter of the time of a call for all that the outside knows of the file.
// Where the file is too short by that length, or the call fails, the command fails in which that was tried, or the flush; what is held back
// stays so and is tried again first, so nothing goes ahead of it, and the length is asked for again. So it is after a read call that is
// short.
//
// Keys are read ahead. Those of one line that were are taken at once, and none past the line's end (`read_piece`). Whether the end of a
// line is among them is known by one search after each read call that brought keys (`has_line`). 16,384 keys are read ahead at most: to touch
// memory for more takes longer than the calls that it saves.
//
// Texts that are shown are held back, one after the other, in memory for 4,096 bytes (texts.rt). They are handed on to the display by one
// write call at `flush_display`, and before a text for which there is no room after them; that text is then held. One of more than 4,096
// bytes is written at once, by a call of its own, after those that were held. Where no memory was left to hold texts, each is written at
// once. The record writes that were handed on before a text was shown stand in the files before anyone sees it. After a call that fails
// nothing is held any more, and no byte is handed on again: the display may have some of them. A machine that is dropped without
// `flush_display` takes along what it holds back. After a fault of the display lines that were typed ahead may have been obeyed; none of them
// is acknowledged whose reply wasn't shown. A call for each short reply takes as long as much of the line. A `read` that handed on by itself
// would need an answer for a display that fails, and a keyboard has none; so the session asks for it, before keys are waited for, before
// `quit` and at its end.
ghost use Rattle.std.specs.Prelude.{◌≡◌, ◌≢◌, ℕ, ◌-◌, ◌<◌, ◌≤◌, false, [], length, take, drop, slice_index, IfOk, IfErr, OnErr};
ghost use Rattle.std.specs.Option.{ForNone};
ghost use Rattle.std.specs.Io.{ReadsAtMost};
ghost use Rattle.std.specs.Io.Buffered.{reader_buffer, reader_remaining};
ghost use Rattle.std.specs.Io.KnownBytes.{Consumes, IsAtEnd, Keeps};
ghost use Rattle.std.specs.IoError.{error_kind};
ghost use Rattle.disk_records.specs.Addresses.{disks_of};
ghost use Rattle.disk_records.specs.Tapes.{IsUnbroken};
ghost use Rattle.disk_image.specs.Machines.{EndsLine};

use crate::command::{compare, read_in_file, write_in_file};
use crate::drives::{OnDrive, drive_of};
use crate::kept::KeptSectors;
use crate::placed::{Failed, Placed};
use crate::records::memory_of_cylinder;
use crate::texts::HeldTexts;
use disk_records::{
    Act, Console, ConsoleError, Disk, DiskError, LINE_END, Machine, Plan, Sector, Shape, Tape,
};
use memchr::{memchr, memrchr};
use std::alloc::Global;
use std::io;
use std::io::{BufRead, BufReader, Error, ErrorKind, Input, Print, Read};
use std::os::unix::fs::FileExt;
use std::rt::Files;

/// How often at most a read of keys is tried that a signal interrupts each time.
const MOST_TRIES: u64 = u64::MAX;

/// A machine over a pack file, or over two of them for two drives, standard input and standard output. It isn't modelled: contracts see its
/// shape and its counts, and nothing of what the files, the keys and the display hold. The last record writes may be held back until
/// `flush`, and the last texts that were shown until `flush_display`. Each fault of the outside, as a read past a file's end, raises the
/// count of its device by one and is answered by Failed; a count stands at 2^64 - 1 once there. Without faults each cylinder is read twice
/// at most. One that was read twice, or is kept or read once a sector was written, stays in memory for all sectors of the pack, which is
/// taken as the machine is made; where that memory is refused, each sector is read from its file each time. No call takes memory, and a
/// sector that is kept meets no fault of a read.
#[derive(Drop)]
pub struct FileMachine<'a, R: Files + Input + Print> {
    rt: &'a R,
    // the file of each drive; the place in it means nothing between two commands, and one of them at most holds bytes back
    first: Placed<R::File>,
    second: Option<Placed<R::File>>,
    shape: Shape,
    // what was read of the files and is read from memory
    kept: KeptSectors,
    // what the bytes of a cylinder are read into
    cylinder: Vec<u8>,
    // standard input, read ahead, so that few calls of the outside bring many keys
    keys: BufReader<R::Reader>,
    // how many of the keys that were read ahead last stand after the last line end among them: all of them where none ends a line
    keys_after: usize,
    // what was shown and the display doesn't have yet
    texts: HeldTexts,
    // record writes of the commands that did all of theirs
    writes: u64,
    disk_faults: u64,
    key_faults: u64,
    show_faults: u64,
    ghost one_drive: { ForNone second (disks_of shape ≡ 1) },
    ghost ends_line: { EndsLine keys_after keys },
}

impl<'a, R: Files + Input + Print> Tape for FileMachine<'a, R> {
    ghost use Rattle.std.specs.Prelude.{IfSome};
    ghost use Rattle.disk_image.specs.Holding.{HoldsNone};

    ghost told = { false };

    ghost tape = { λ m. record { form = m.shape; base = []; events = []; keys = []; disk_faults = m.disk_faults; key_faults = m.key_faults; show_faults = m.show_faults; runs = 0; writes = m.writes; spare = 0 } };

    ghost handed_on = { λ m. HoldsNone m.first.held × IfSome m.second (λ file. HoldsNone file.held) };
}

impl<'a, R: Files + Input + Print> Disk for FileMachine<'a, R>
where
    R::File: FileExt,
{
    ghost use Rattle.std.specs.Prelude.{◌≡◌, ◌<◌, OnOk, OnErr, IfErr, IsOk, IsErrOf, IsTrue};
    ghost use Rattle.std.proofs.lemmas.Bool.{false≢true};
    ghost use Rattle.disk_records.specs.Addresses.{pages_of};
    ghost use Rattle.disk_records.specs.Checks.{is_legal, is_checked};
    ghost use Rattle.disk_records.specs.Tapes.{DiskAlone, IfMismatch, Ran, Rose, UnlessFailed};
    ghost use Rattle.disk_image.specs.Kept.{LooksKept};
    ghost use Rattle.disk_image.specs.Machines.{CountsFault, HasNoLine, IsSettled, KnowsNoLength};
    ghost use Rattle.disk_image.specs.Records.{writes_after_all};

    fn shape(&self) -> Shape {
        self.shape
    }

    fn writes(&self) -> u64 {
        self.writes
    }

    /// It takes no memory.
    fn run(&mut self, at: u16, plan: Plan, buf: &mut Sector) -> Result<(), DiskError>
        requires place { at < pages_of (⟦<FileMachine<'a, R> as Tape>⟧.tape self.old).form }
        requires legal { IsTrue (is_legal plan) }
        ensures alone { DiskAlone (⟦<FileMachine<'a, R> as Tape>⟧.tape self.old) (⟦<FileMachine<'a, R> as Tape>⟧.tape self.new) }
        ensures failed { IsErrOf result DiskError.Failed → Rose (⟦<FileMachine<'a, R> as Tape>⟧.tape self.old).disk_faults (⟦<FileMachine<'a, R> as Tape>⟧.tape self.new).disk_faults }
        ensures unfailed { UnlessFailed result ((⟦<FileMachine<'a, R> as Tape>⟧.tape self.new).disk_faults ≡ (⟦<FileMachine<'a, R> as Tape>⟧.tape self.old).disk_faults) }
        ensures checked { IfMismatch result (λ part word. IsTrue (is_checked plan part)) }
        ensures ran { IsTrue ⟦<FileMachine<'a, R> as Tape>⟧.told → Ran at plan buf.old buf.new (⟦<FileMachine<'a, R> as Tape>⟧.tape self.old) (⟦<FileMachine<'a, R> as Tape>⟧.tape self.new) result }

        // What is counted, and what never comes.
        ensures fault { CountsFault (IsErrOf result DiskError.Failed) (⟦<FileMachine<'a, R> as Tape>⟧.tape self.old).disk_faults (⟦<FileMachine<'a, R> as Tape>⟧.tape self.new).disk_faults }
        ensures wrote { OnOk result ((⟦<FileMachine<'a, R> as Tape>⟧.tape self.new).writes ≡ writes_after_all plan (⟦<FileMachine<'a, R> as Tape>⟧.tape self.old).writes) }
        ensures no_want { IsErrOf result DiskError.Memory → ⊥ }
    {
        match self.obey(at, plan, buf) {
            Ok(None) => Ok(()),
            Ok(Some((part, word))) => Err(DiskError::Mismatch { part, word }),
            Err(_) => {
                self.disk_faults = self.disk_faults.saturating_add(1);
                Err(DiskError::Failed)
            }
        }
    }

    /// A sector that is kept is copied to `buf` at once, and is no fault. It takes no memory.
    fn read_sector(&mut self, at: u16, buf: &mut Sector) -> Result<(), DiskError>
        requires place { at < pages_of (⟦<FileMachine<'a, R> as Tape>⟧.tape self.old).form }
        ensures alone { DiskAlone (⟦<FileMachine<'a, R> as Tape>⟧.tape self.old) (⟦<FileMachine<'a, R> as Tape>⟧.tape self.new) }
        ensures failed { IsErrOf result DiskError.Failed → Rose (⟦<FileMachine<'a, R> as Tape>⟧.tape self.old).disk_faults (⟦<FileMachine<'a, R> as Tape>⟧.tape self.new).disk_faults }
        ensures unfailed { UnlessFailed result ((⟦<FileMachine<'a, R> as Tape>⟧.tape self.new).disk_faults ≡ (⟦<FileMachine<'a, R> as Tape>⟧.tape self.old).disk_faults) }
        ensures checked { IfMismatch result (λ part word. IsTrue (is_checked Plan.READ part)) }
        ensures ran { IsTrue ⟦<FileMachine<'a, R> as Tape>⟧.told → Ran at Plan.READ buf.old buf.new (⟦<FileMachine<'a, R> as Tape>⟧.tape self.old) (⟦<FileMachine<'a, R> as Tape>⟧.tape self.new) result }

        // What is counted, what never comes, and what is read of the sectors that are kept.
        ensures fault { CountsFault (IsErrOf result DiskError.Failed) (⟦<FileMachine<'a, R> as Tape>⟧.tape self.old).disk_faults (⟦<FileMachine<'a, R> as Tape>⟧.tape self.new).disk_faults }
        ensures same_writes { (⟦<FileMachine<'a, R> as Tape>⟧.tape self.new).writes ≡ (⟦<FileMachine<'a, R> as Tape>⟧.tape self.old).writes }
        ensures no_want { IsErrOf result DiskError.Memory → ⊥ }
        ensures kept { LooksKept at buf.new self.old.kept self.new.kept result }
    {
        if let Some(disk) = self.kept.sector(at) {
            *buf = *disk;
            return Ok(());
        }
        self.read_unkept(at, buf)
    }

    /// It hands on the bytes that are held back of a drive's file, by one write call, and takes no memory. After Failed they are held back
    /// still, until a call hands them on. The next write call of each file asks for its length again, unless a line is there whole.
    fn flush(&mut self) -> Result<(), DiskError>
        ensures handed_on { OnOk result (⟦<FileMachine<'a, R> as Tape>⟧.handed_on self.new) }
        ensures alone { DiskAlone (⟦<FileMachine<'a, R> as Tape>⟧.tape self.old) (⟦<FileMachine<'a, R> as Tape>⟧.tape self.new) }
        ensures failed { OnErr result (Rose (⟦<FileMachine<'a, R> as Tape>⟧.tape self.old).disk_faults (⟦<FileMachine<'a, R> as Tape>⟧.tape self.new).disk_faults) }
        ensures unfailed { OnOk result ((⟦<FileMachine<'a, R> as Tape>⟧.tape self.new).disk_faults ≡ (⟦<FileMachine<'a, R> as Tape>⟧.tape self.old).disk_faults) }
        ensures only { IfErr result (λ error. error ≡ DiskError.Failed) }
        ensures told { IsTrue ⟦<FileMachine<'a, R> as Tape>⟧.told → IsOk result × ((⟦<FileMachine<'a, R> as Tape>⟧.tape self.new) ≡ (⟦<FileMachine<'a, R> as Tape>⟧.tape self.old)) }

        // What is counted.
        ensures fault { CountsFault (IsErrOf result DiskError.Failed) (⟦<FileMachine<'a, R> as Tape>⟧.tape self.old).disk_faults (⟦<FileMachine<'a, R> as Tape>⟧.tape self.new).disk_faults }
        ensures same_writes { (⟦<FileMachine<'a, R> as Tape>⟧.tape self.new).writes ≡ (⟦<FileMachine<'a, R> as Tape>⟧.tape self.old).writes }
        ensures forgotten { HasNoLine self.old.keys_after self.old.keys → KnowsNoLength self.new.first self.new.second }
    {
        let answer = self.hand_on_all();
        self.forget_unless_line();
        match answer {
            Ok(()) => Ok(()),
            Err(_) => {
                self.disk_faults = self.disk_faults.saturating_add(1);
                Err(DiskError::Failed)
            }
        }
    }

    /// It hands on what `flush` hands on, and then waits for the device of each file that was written since it was last waited for, by one
    /// call each; it makes none where nothing was written, and takes no memory. After Failed the files that weren't settled count as such
    /// still. The next write call of each file asks for its length again, unless a line is there whole.
    fn settle(&mut self) -> Result<(), DiskError>
        ensures handed_on { OnOk result (⟦<FileMachine<'a, R> as Tape>⟧.handed_on self.new) }
        ensures alone { DiskAlone (⟦<FileMachine<'a, R> as Tape>⟧.tape self.old) (⟦<FileMachine<'a, R> as Tape>⟧.tape self.new) }
        ensures failed { OnErr result (Rose (⟦<FileMachine<'a, R> as Tape>⟧.tape self.old).disk_faults (⟦<FileMachine<'a, R> as Tape>⟧.tape self.new).disk_faults) }
        ensures unfailed { OnOk result ((⟦<FileMachine<'a, R> as Tape>⟧.tape self.new).disk_faults ≡ (⟦<FileMachine<'a, R> as Tape>⟧.tape self.old).disk_faults) }
        ensures only { IfErr result (λ error. error ≡ DiskError.Failed) }
        ensures told { IsTrue ⟦<FileMachine<'a, R> as Tape>⟧.told → IsOk result × ((⟦<FileMachine<'a, R> as Tape>⟧.tape self.new) ≡ (⟦<FileMachine<'a, R> as Tape>⟧.tape self.old)) }

        // What is counted, and what of the files is left to the device and known.
        ensures fault { CountsFault (IsErrOf result DiskError.Failed) (⟦<FileMachine<'a, R> as Tape>⟧.tape self.old).disk_faults (⟦<FileMachine<'a, R> as Tape>⟧.tape self.new).disk_faults }
        ensures same_writes { (⟦<FileMachine<'a, R> as Tape>⟧.tape self.new).writes ≡ (⟦<FileMachine<'a, R> as Tape>⟧.tape self.old).writes }
        ensures settled { OnOk result (IsSettled self.new.first self.new.second) }
        ensures forgotten { HasNoLine self.old.keys_after self.old.keys → KnowsNoLength self.new.first self.new.second }
    {
        let answer = self.settle_all();
        self.forget_unless_line();
        match answer {
            Ok(()) => Ok(()),
            Err(_) => {
                self.disk_faults = self.disk_faults.saturating_add(1);
                Err(DiskError::Failed)
            }
        }
    }

    ghost counted = { λ m told. absurd (false≢true told) };

    ghost sized = { λ m told. absurd (false≢true told) };

    ghost formed = { λ m told. absurd (false≢true told) };
}

impl<'a, R: Files + Input + Print> Console for FileMachine<'a, R> {
    ghost use Rattle.std.specs.Prelude.{◌≡◌, ◌-◌, ◌<◌, ◌≤◌, length, take, IfOk, IfErr, IsErrOf, IsFalse, IsOk, IsTrue, OnErr, OnOk};
    ghost use Rattle.disk_records.specs.Tapes.{KeysAlone, ShowAlone, HasRead, HasShown, IsUnbroken, Rose, UnlessBroken};
    ghost use Rattle.disk_image.specs.Machines.{CountsFault, HasNoLine, KnowsNoLength};
    ghost use Rattle.disk_image.specs.Texts.{HoldsNoText, IsTooLong, TakesText};

    ghost displayed = { λ m. HoldsNoText m.texts };

    ghost waits = { λ m. HasNoLine m.keys_after m.keys };

    /// It takes keys of one line that were read ahead, as `read_piece` does, and where none is left of them it reads. A read that a signal
    /// interrupts is made again. The next write call of each file asks for its length again. It takes no memory.
    fn read(&mut self, buf: &mut [u8]) -> Result<usize, ConsoleError>
        requires some { 0 < length buf.old }
        requires answered { ⟦<FileMachine<'a, R> as Console>⟧.waits self.old → ⟦<FileMachine<'a, R> as Console>⟧.displayed self.old }
        ensures displayed { ⟦<FileMachine<'a, R> as Console>⟧.displayed self.old → ⟦<FileMachine<'a, R> as Console>⟧.displayed self.new }
        ensures goes_on { IfOk result (λ n. IsUnbroken (take n buf.new) → ⟦<FileMachine<'a, R> as Console>⟧.waits self.new → ⟦<FileMachine<'a, R> as Console>⟧.waits self.old) }
        ensures alone { KeysAlone (⟦<FileMachine<'a, R> as Tape>⟧.tape self.old) (⟦<FileMachine<'a, R> as Tape>⟧.tape self.new) }
        ensures failed { IsErrOf result ConsoleError.Failed → Rose (⟦<FileMachine<'a, R> as Tape>⟧.tape self.old).key_faults (⟦<FileMachine<'a, R> as Tape>⟧.tape self.new).key_faults }
        ensures unfailed { UnlessBroken result ((⟦<FileMachine<'a, R> as Tape>⟧.tape self.new).key_faults ≡ (⟦<FileMachine<'a, R> as Tape>⟧.tape self.old).key_faults) }
        ensures fits { IfOk result (λ n. n ≤ length buf.old) }
        ensures read { IsTrue ⟦<FileMachine<'a, R> as Tape>⟧.told → HasRead buf.old buf.new (⟦<FileMachine<'a, R> as Tape>⟧.tape self.old) (⟦<FileMachine<'a, R> as Tape>⟧.tape self.new) result }

        // What is counted, and what never comes.
        ensures fault { CountsFault (IsErrOf result ConsoleError.Failed) (⟦<FileMachine<'a, R> as Tape>⟧.tape self.old).key_faults (⟦<FileMachine<'a, R> as Tape>⟧.tape self.new).key_faults }
        ensures no_want { IsErrOf result ConsoleError.Memory → ⊥ }
        ensures forgotten { KnowsNoLength self.new.first self.new.second }
    {
        self.forget_lengths();
        let taken = take_read_ahead(&mut self.keys, buf);
        if taken > 0 {
            return Ok(taken);
        }
        let answer = read_keys(&mut self.keys, buf);
        self.keys_after = keys_after_lines(self.keys.buffer());
        match answer {
            Ok(count) => Ok(count),
            Err(_) => {
                self.key_faults = self.key_faults.saturating_add(1);
                Err(ConsoleError::Failed)
            }
        }
    }

    /// It takes all keys of the line that were read ahead and that `buf` has place for, and one key where none is left of them. A read that a
    /// signal interrupts is made again. Where none is left, the next write call of each file asks for its length again. It takes no memory.
    fn read_piece(&mut self, buf: &mut [u8]) -> Result<usize, ConsoleError>
        requires some { 0 < length buf.old }
        requires answered { ⟦<FileMachine<'a, R> as Console>⟧.waits self.old → ⟦<FileMachine<'a, R> as Console>⟧.displayed self.old }
        ensures displayed { ⟦<FileMachine<'a, R> as Console>⟧.displayed self.old → ⟦<FileMachine<'a, R> as Console>⟧.displayed self.new }
        ensures goes_on { IfOk result (λ n. IsUnbroken (take n buf.new) → ⟦<FileMachine<'a, R> as Console>⟧.waits self.new → ⟦<FileMachine<'a, R> as Console>⟧.waits self.old) }
        ensures alone { KeysAlone (⟦<FileMachine<'a, R> as Tape>⟧.tape self.old) (⟦<FileMachine<'a, R> as Tape>⟧.tape self.new) }
        ensures failed { IsErrOf result ConsoleError.Failed → Rose (⟦<FileMachine<'a, R> as Tape>⟧.tape self.old).key_faults (⟦<FileMachine<'a, R> as Tape>⟧.tape self.new).key_faults }
        ensures unfailed { UnlessBroken result ((⟦<FileMachine<'a, R> as Tape>⟧.tape self.new).key_faults ≡ (⟦<FileMachine<'a, R> as Tape>⟧.tape self.old).key_faults) }
        ensures fits { IfOk result (λ n. n ≤ length buf.old) }
        ensures read { IsTrue ⟦<FileMachine<'a, R> as Tape>⟧.told → HasRead buf.old buf.new (⟦<FileMachine<'a, R> as Tape>⟧.tape self.old) (⟦<FileMachine<'a, R> as Tape>⟧.tape self.new) result }
        ensures unbroken { IfOk result (λ n. IsUnbroken (take (n - 1) buf.new)) }

        // What is counted, and what never comes.
        ensures fault { CountsFault (IsErrOf result ConsoleError.Failed) (⟦<FileMachine<'a, R> as Tape>⟧.tape self.old).key_faults (⟦<FileMachine<'a, R> as Tape>⟧.tape self.new).key_faults }
        ensures no_want { IsErrOf result ConsoleError.Memory → ⊥ }
        ensures forgotten { reader_buffer self.old.keys ≡ [] → KnowsNoLength self.new.first self.new.second }
    {
        match take_read_ahead(&mut self.keys, buf) {
            0 => self.read(&mut buf[..1]),
            count => Ok(count),
        }
    }

    /// Whether a line end is among the keys that were read ahead. It makes no call of the outside and no search.
    fn has_line(&self) -> bool
        ensures some { IsTrue result → HasNoLine self.now.keys_after self.now.keys → ⊥ }
        ensures none { IsFalse result → HasNoLine self.now.keys_after self.now.keys }
    {
        self.keys.buffer().len() > self.keys_after
    }

    /// It holds the bytes back after those that are held, where there is room for them among 4,096. Where there isn't, what is held is
    /// handed on by one write call, and then the bytes are held if they fit, else written by a call of their own; and the next write call of
    /// each file asks for its length again. After Failed nothing is held, and what the display has of it isn't known. It takes no memory.
    fn show(&mut self, bytes: &[u8]) -> Result<(), ConsoleError>
        requires handed_on { ⟦<FileMachine<'a, R> as Tape>⟧.handed_on self.old }
        ensures handed_on { ⟦<FileMachine<'a, R> as Tape>⟧.handed_on self.new }
        ensures alone { ShowAlone (⟦<FileMachine<'a, R> as Tape>⟧.tape self.old) (⟦<FileMachine<'a, R> as Tape>⟧.tape self.new) }
        ensures failed { IsErrOf result ConsoleError.Failed → Rose (⟦<FileMachine<'a, R> as Tape>⟧.tape self.old).show_faults (⟦<FileMachine<'a, R> as Tape>⟧.tape self.new).show_faults }
        ensures unfailed { UnlessBroken result ((⟦<FileMachine<'a, R> as Tape>⟧.tape self.new).show_faults ≡ (⟦<FileMachine<'a, R> as Tape>⟧.tape self.old).show_faults) }
        ensures shown { IsTrue ⟦<FileMachine<'a, R> as Tape>⟧.told → HasShown bytes.now (⟦<FileMachine<'a, R> as Tape>⟧.tape self.old) (⟦<FileMachine<'a, R> as Tape>⟧.tape self.new) result }

        // What is counted, what never comes, and what is held back.
        ensures fault { CountsFault (IsErrOf result ConsoleError.Failed) (⟦<FileMachine<'a, R> as Tape>⟧.tape self.old).show_faults (⟦<FileMachine<'a, R> as Tape>⟧.tape self.new).show_faults }
        ensures no_want { IsErrOf result ConsoleError.Memory → ⊥ }
        ensures taken { OnOk result (TakesText bytes.now self.old.texts self.new.texts) }
        ensures none_held { OnErr result (HoldsNoText self.new.texts) }
        ensures forgotten { IsTooLong (length bytes.now) self.old.texts → KnowsNoLength self.new.first self.new.second }
    {
        self.forget_unless_room(bytes);
        match self.texts.show(self.rt, bytes) {
            Ok(()) => Ok(()),
            Err(_) => {
                self.show_faults = self.show_faults.saturating_add(1);
                Err(ConsoleError::Failed)
            }
        }
    }

    /// It hands on what is held by one write call, and makes none where nothing is held. After Failed nothing is held any more. The next write
    /// call of each file asks for its length again. It takes no memory.
    fn flush_display(&mut self) -> Result<(), ConsoleError>
        ensures displayed { OnOk result (HoldsNoText self.new.texts) }
        ensures lines { ⟦<FileMachine<'a, R> as Console>⟧.waits self.new → ⟦<FileMachine<'a, R> as Console>⟧.waits self.old }
        ensures same { OnOk result ((⟦<FileMachine<'a, R> as Tape>⟧.tape self.new) ≡ (⟦<FileMachine<'a, R> as Tape>⟧.tape self.old)) }
        ensures handed_on { ⟦<FileMachine<'a, R> as Tape>⟧.handed_on self.old → ⟦<FileMachine<'a, R> as Tape>⟧.handed_on self.new }
        ensures alone { ShowAlone (⟦<FileMachine<'a, R> as Tape>⟧.tape self.old) (⟦<FileMachine<'a, R> as Tape>⟧.tape self.new) }
        ensures failed { OnErr result (Rose (⟦<FileMachine<'a, R> as Tape>⟧.tape self.old).show_faults (⟦<FileMachine<'a, R> as Tape>⟧.tape self.new).show_faults) }
        ensures only { IfErr result (λ error. error ≡ ConsoleError.Failed) }
        ensures told { IsTrue ⟦<FileMachine<'a, R> as Tape>⟧.told → IsOk result × ((⟦<FileMachine<'a, R> as Tape>⟧.tape self.new) ≡ (⟦<FileMachine<'a, R> as Tape>⟧.tape self.old)) }

        // What is counted, and that nothing is held and no length known, whatever the answer.
        ensures fault { CountsFault (IsErrOf result ConsoleError.Failed) (⟦<FileMachine<'a, R> as Tape>⟧.tape self.old).show_faults (⟦<FileMachine<'a, R> as Tape>⟧.tape self.new).show_faults }
        ensures none_held { HoldsNoText self.new.texts }
        ensures forgotten { KnowsNoLength self.new.first self.new.second }
    {
        self.forget_lengths();
        match self.texts.hand_on(self.rt) {
            Ok(()) => Ok(()),
            Err(_) => {
                self.show_faults = self.show_faults.saturating_add(1);
                Err(ConsoleError::Failed)
            }
        }
    }
}

impl<'a, R: Files + Input + Print> Machine for FileMachine<'a, R>
where
    R::File: FileExt,
{}

impl<'a, R: Files + Input + Print> FileMachine<'a, R> {
    ghost use Rattle.std.specs.Prelude.{◌≡◌, Some, IfSome};
    ghost use Rattle.disk_image.specs.Machines.{HasNoLine, IsSettled, IsUntouched, KnowsNoLength};
    ghost use Rattle.disk_image.specs.Texts.{IsTooLong};

    /// A machine over the files of a pack of this shape, before its first call. Where the shape has two drives there is a second file.
    /// Where no memory is left for the sectors of the pack, none will be kept, and where none is left for texts, none will be held back.
    pub(crate) fn over(
        rt: &'a R,
        alloc: Global,
        first: R::File,
        second: Option<R::File>,
        shape: Shape,
        keys: BufReader<R::Reader>,
    ) -> FileMachine<'a, R>
        requires { ForNone second (disks_of shape ≡ 1) }
        ensures untouched { IsUntouched (⟦<FileMachine<'a, R> as Tape>⟧.tape result) }
        ensures handed_on { ⟦<FileMachine<'a, R> as Tape>⟧.handed_on result }
        ensures form { (⟦<FileMachine<'a, R> as Tape>⟧.tape result).form ≡ shape }
        ensures displayed { ⟦<FileMachine<'a, R> as Console>⟧.displayed result }
        ensures first { result.first.file ≡ first }
        ensures second { IfSome result.second (λ placed. second ≡ Some placed.file) }
    {
        let keys_after = keys_after_lines(keys.buffer());
        FileMachine {
            rt,
            first: Placed::new(alloc, first),
            second: second.map(|file| Placed::new(alloc, file)),
            shape,
            kept: KeptSectors::none_of(alloc, shape),
            cylinder: memory_of_cylinder(alloc),
            keys,
            keys_after,
            texts: HeldTexts::new(alloc),
            writes: 0,
            disk_faults: 0,
            key_faults: 0,
            show_faults: 0,
        }
    }

    /// Knows the length of no file any longer: the next write call of each asks for it.
    fn forget_lengths(&mut self)
        ensures forgotten { KnowsNoLength self.new.first self.new.second }
        ensures same { (⟦<FileMachine<'a, R> as Tape>⟧.tape self.new) ≡ (⟦<FileMachine<'a, R> as Tape>⟧.tape self.old) }
        ensures handed_on { ⟦<FileMachine<'a, R> as Tape>⟧.handed_on self.old → ⟦<FileMachine<'a, R> as Tape>⟧.handed_on self.new }
        ensures same_texts { self.new.texts ≡ self.old.texts }
        ensures settled { IsSettled self.old.first self.old.second → IsSettled self.new.first self.new.second }
        ensures same_keys { self.new.keys ≡ self.old.keys }
        ensures same_after { self.new.keys_after ≡ self.old.keys_after }
    {
        self.first.forget_length();
        if let Some(second) = &mut self.second {
            second.forget_length();
        }
    }

    /// Knows the length of no file any longer, unless a line that was read ahead is there whole.
    fn forget_unless_line(&mut self)
        ensures forgotten { HasNoLine self.old.keys_after self.old.keys → KnowsNoLength self.new.first self.new.second }
        ensures same { (⟦<FileMachine<'a, R> as Tape>⟧.tape self.new) ≡ (⟦<FileMachine<'a, R> as Tape>⟧.tape self.old) }
        ensures handed_on { ⟦<FileMachine<'a, R> as Tape>⟧.handed_on self.old → ⟦<FileMachine<'a, R> as Tape>⟧.handed_on self.new }
        ensures settled { IsSettled self.old.first self.old.second → IsSettled self.new.first self.new.second }
    {
        if self.has_line() {
            return;
        }
        self.forget_lengths();
    }

    /// Knows the length of no file any longer, unless there is room for a text after those that are held back: to show it makes no call
    /// then.
    fn forget_unless_room(&mut self, text: &[u8])
        ensures forgotten { IsTooLong (length text.now) self.old.texts → KnowsNoLength self.new.first self.new.second }
        ensures same { (⟦<FileMachine<'a, R> as Tape>⟧.tape self.new) ≡ (⟦<FileMachine<'a, R> as Tape>⟧.tape self.old) }
        ensures handed_on { ⟦<FileMachine<'a, R> as Tape>⟧.handed_on self.old → ⟦<FileMachine<'a, R> as Tape>⟧.handed_on self.new }
        ensures same_texts { self.new.texts ≡ self.old.texts }
    {
        if self.texts.has_room(text) {
            return;
        }
        self.forget_lengths();
    }
}

impl<'a, R: Files + Input + Print> FileMachine<'a, R>
where
    R::File: FileExt,
{
    ghost use Rattle.std.specs.Prelude.{◌≡◌, ◌≢◌, ◌<◌, ◌≤◌, None, IfOk, IfSome, IfNone, IsTrue, IsErrOf, OnOk};
    ghost use Rattle.disk_records.specs.declared.records.Act.TheVariants.{Write};
    ghost use Rattle.disk_records.specs.Addresses.{pages_of};
    ghost use Rattle.disk_records.specs.Checks.{is_legal, is_checked};
    ghost use Rattle.disk_records.specs.Tapes.{DiskAlone, IfMismatch};
    ghost use Rattle.disk_image.specs.Holding.{HoldsNone};
    ghost use Rattle.disk_image.specs.Images.{first_drive};
    ghost use Rattle.disk_image.specs.Kept.{kept_at, LooksKept, ReadsKept, ObeysKept};
    ghost use Rattle.disk_image.specs.Machines.{CountsFault, HasNoLine};
    ghost use Rattle.disk_image.specs.Records.{writes_after_all};

    /// Does one sector command on a sector that is kept, or in the file of its drive, and answers the first word that differs, if one
    /// does. The other drive's file isn't touched, except by a command that writes: what is held back of it goes ahead. What is kept of
    /// other cylinders was kept before.
    fn obey(&mut self, at: u16, plan: Plan, buf: &mut Sector) -> Result<Option<(u8, u16)>, Failed>
        requires place { at < pages_of (⟦<FileMachine<'a, R> as Tape>⟧.tape self.old).form }
        requires legal { IsTrue (is_legal plan) }
        ensures alone { DiskAlone (⟦<FileMachine<'a, R> as Tape>⟧.tape self.old) (⟦<FileMachine<'a, R> as Tape>⟧.tape self.new) }
        ensures same_faults { (⟦<FileMachine<'a, R> as Tape>⟧.tape self.new).disk_faults ≡ (⟦<FileMachine<'a, R> as Tape>⟧.tape self.old).disk_faults }
        ensures checked { IfOk result (λ found. IfSome found (λ place. IsTrue (is_checked plan place.0))) }
        ensures wrote { IfOk result (λ found. IfNone found ((⟦<FileMachine<'a, R> as Tape>⟧.tape self.new).writes ≡ writes_after_all plan (⟦<FileMachine<'a, R> as Tape>⟧.tape self.old).writes)) }
        ensures first_kept { first_drive self.old.shape ≤ at → plan.value ≢ Write → self.new.first ≡ self.old.first }
        ensures second_kept { at < first_drive self.old.shape → plan.value ≢ Write → self.new.second ≡ self.old.second }
        ensures first_ahead { first_drive self.old.shape ≤ at → plan.value ≡ Write → IfOk result (λ found. IfNone found (HoldsNone self.new.first.held)) }
        ensures second_ahead { at < first_drive self.old.shape → plan.value ≡ Write → IfOk result (λ found. IfNone found (IfSome self.new.second (λ file. HoldsNone file.held))) }
        ensures kept { ObeysKept at plan buf.old buf.new self.old.kept self.new.kept result }
    {
        let found = self.read_on_drive(at, plan, buf)?;
        if found.is_some() || plan.value != Act::Write {
            return Ok(found);
        }
        match self.write_on_drive(at, plan, buf) {
            Ok(()) => {
                self.kept.replace(at, buf);
                Ok(None)
            }
            Err(error) => {
                self.kept.forget(at);
                Err(error)
            }
        }
    }

    /// Does what a sector command reads, and answers the first word that differs, if one does. What is held back of the file goes ahead
    /// where it is read. The other drive's file isn't touched.
    fn read_on_drive(
        &mut self,
        at: u16,
        plan: Plan,
        buf: &mut Sector,
    ) -> Result<Option<(u8, u16)>, Failed>
        requires place { at < pages_of (⟦<FileMachine<'a, R> as Tape>⟧.tape self.old).form }
        requires legal { IsTrue (is_legal plan) }
        ensures same { (⟦<FileMachine<'a, R> as Tape>⟧.tape self.new) ≡ (⟦<FileMachine<'a, R> as Tape>⟧.tape self.old) }
        ensures checked { IfOk result (λ found. IfSome found (λ place. IsTrue (is_checked plan place.0))) }
        ensures first_kept { first_drive self.old.shape ≤ at → self.new.first ≡ self.old.first }
        ensures second_kept { at < first_drive self.old.shape → self.new.second ≡ self.old.second }
        ensures kept { ReadsKept at plan buf.old buf.new self.old.kept self.new.kept result }
    {
        if plan.header == Act::Write {
            return Ok(None);
        }
        if let Some(disk) = self.kept.sector(at) {
            return Ok(compare(plan, buf, disk));
        }
        self.read_from_file(at, plan, buf)
    }

    /// Reads a whole sector that isn't kept. It stands apart from the reading of one that is, which then makes no call but the one that
    /// copies.
    #[inline(never)]
    fn read_unkept(&mut self, at: u16, buf: &mut Sector) -> Result<(), DiskError>
        requires place { at < pages_of (⟦<FileMachine<'a, R> as Tape>⟧.tape self.old).form }
        requires not_kept { kept_at self.old.kept at ≡ None }
        ensures alone { DiskAlone (⟦<FileMachine<'a, R> as Tape>⟧.tape self.old) (⟦<FileMachine<'a, R> as Tape>⟧.tape self.new) }
        ensures fault { CountsFault (IsErrOf result DiskError.Failed) (⟦<FileMachine<'a, R> as Tape>⟧.tape self.old).disk_faults (⟦<FileMachine<'a, R> as Tape>⟧.tape self.new).disk_faults }
        ensures same_writes { (⟦<FileMachine<'a, R> as Tape>⟧.tape self.new).writes ≡ (⟦<FileMachine<'a, R> as Tape>⟧.tape self.old).writes }
        ensures checked { IfMismatch result (λ part word. IsTrue (is_checked Plan.READ part)) }
        ensures no_want { IsErrOf result DiskError.Memory → ⊥ }
        ensures kept { LooksKept at buf.new self.old.kept self.new.kept result }
    {
        match self.read_from_file(at, Plan::READ, buf) {
            Ok(None) => Ok(()),
            Ok(Some((part, word))) => Err(DiskError::Mismatch { part, word }),
            Err(_) => {
                self.disk_faults = self.disk_faults.saturating_add(1);
                Err(DiskError::Failed)
            }
        }
    }

    /// Does what a sector command reads of a sector that isn't kept, from the file of its drive, and answers the first word that differs, if
    /// one does. What is held back of the file goes ahead. It stands apart from the commands on what is kept, which are far more and would
    /// else clear its memory each time.
    #[inline(never)]
    fn read_from_file(
        &mut self,
        at: u16,
        plan: Plan,
        buf: &mut Sector,
    ) -> Result<Option<(u8, u16)>, Failed>
        requires place { at < pages_of (⟦<FileMachine<'a, R> as Tape>⟧.tape self.old).form }
        requires legal { IsTrue (is_legal plan) }
        requires not_kept { kept_at self.old.kept at ≡ None }
        ensures same { (⟦<FileMachine<'a, R> as Tape>⟧.tape self.new) ≡ (⟦<FileMachine<'a, R> as Tape>⟧.tape self.old) }
        ensures checked { IfOk result (λ found. IfSome found (λ place. IsTrue (is_checked plan place.0))) }
        ensures first_kept { first_drive self.old.shape ≤ at → self.new.first ≡ self.old.first }
        ensures second_kept { at < first_drive self.old.shape → self.new.second ≡ self.old.second }
        ensures kept { ReadsKept at plan buf.old buf.new self.old.kept self.new.kept result }
    {
        match drive_of(self.shape, at) {
            OnDrive::First(spot) => {
                self.first.hand_on()?;
                let (file, memory) = (&mut self.first, &mut self.cylinder);
                read_in_file(file, spot, plan, buf, &mut self.kept, memory)
            }
            OnDrive::Second(spot) => match &mut self.second {
                Some(file) => {
                    file.hand_on()?;
                    let memory = &mut self.cylinder;
                    read_in_file(file, spot, plan, buf, &mut self.kept, memory)
                }
                None => unreachable!(),
            },
        }
    }

    /// Writes a sector as a command does, and counts its record writes. What is held back of the other drive's file goes ahead of it.
    fn write_on_drive(&mut self, at: u16, plan: Plan, sector: &Sector) -> Result<(), Failed>
        requires place { at < pages_of (⟦<FileMachine<'a, R> as Tape>⟧.tape self.old).form }
        ensures alone { DiskAlone (⟦<FileMachine<'a, R> as Tape>⟧.tape self.old) (⟦<FileMachine<'a, R> as Tape>⟧.tape self.new) }
        ensures same_faults { (⟦<FileMachine<'a, R> as Tape>⟧.tape self.new).disk_faults ≡ (⟦<FileMachine<'a, R> as Tape>⟧.tape self.old).disk_faults }
        ensures wrote { OnOk result ((⟦<FileMachine<'a, R> as Tape>⟧.tape self.new).writes ≡ writes_after_all plan (⟦<FileMachine<'a, R> as Tape>⟧.tape self.old).writes) }
        ensures first_ahead { first_drive self.old.shape ≤ at → OnOk result (HoldsNone self.new.first.held) }
        ensures second_ahead { at < first_drive self.old.shape → OnOk result (IfSome self.new.second (λ file. HoldsNone file.held)) }
        ensures kept { self.new.kept ≡ self.old.kept }
    {
        match drive_of(self.shape, at) {
            OnDrive::First(spot) => {
                if let Some(other) = &mut self.second {
                    other.hand_on()?;
                }
                let file = &mut self.first;
                write_in_file(file, spot.ahead, plan, sector, &mut self.writes)
            }
            OnDrive::Second(spot) => match &mut self.second {
                Some(file) => {
                    self.first.hand_on()?;
                    write_in_file(file, spot.ahead, plan, sector, &mut self.writes)
                }
                None => unreachable!(),
            },
        }
    }

    /// Hands on what is held back of the files. At most one of them has any held back, as a command that writes hands on that of the other
    /// drive.
    fn hand_on_all(&mut self) -> io::Result<()>
        ensures same { (⟦<FileMachine<'a, R> as Tape>⟧.tape self.new) ≡ (⟦<FileMachine<'a, R> as Tape>⟧.tape self.old) }
        ensures first { OnOk result (HoldsNone self.new.first.held) }
        ensures second { OnOk result (IfSome self.new.second (λ file. HoldsNone file.held)) }
        ensures no_line { HasNoLine self.old.keys_after self.old.keys → HasNoLine self.new.keys_after self.new.keys }
    {
        let first = self.first.hand_on();
        if let Some(second) = &mut self.second {
            second.hand_on()?;
        }
        first
    }
}

impl<'a, R: Files + Input + Print> FileMachine<'a, R>
where
    R::File: FileExt,
{
    ghost use Rattle.std.specs.Prelude.{◌≡◌, IfSome, OnOk};
    ghost use Rattle.disk_image.specs.Holding.{HoldsNone};
    ghost use Rattle.disk_image.specs.Machines.{HasNoLine, IsSettled};

    /// Hands on what is held back of the files, and waits for the devices of those that were written since they were last waited for.
    fn settle_all(&mut self) -> io::Result<()>
        ensures same { (⟦<FileMachine<'a, R> as Tape>⟧.tape self.new) ≡ (⟦<FileMachine<'a, R> as Tape>⟧.tape self.old) }
        ensures first { OnOk result (HoldsNone self.new.first.held) }
        ensures second { OnOk result (IfSome self.new.second (λ file. HoldsNone file.held)) }
        ensures settled { OnOk result (IsSettled self.new.first self.new.second) }
        ensures no_line { HasNoLine self.old.keys_after self.old.keys → HasNoLine self.new.keys_after self.new.keys }
    {
        self.first.settle()?;
        if let Some(second) = &mut self.second {
            second.settle()?;
        }
        Ok(())
    }
}

/// Counts the keys of the line that these begin with: up to its end, or all of them if none ends it.
fn keys_of_line(keys: &[u8]) -> usize
    ensures fits { result ≤ length keys.now }
    ensures some { 0 < length keys.now → 0 < result }
    ensures unbroken { IsUnbroken (take (result - 1) keys.now) }
{
    match memchr(LINE_END, keys) {
        Some(end) => end + 1,
        None => keys.len(),
    }
}

/// Counts the keys after the last line end among these: all of them where none ends a line.
fn keys_after_lines(keys: &[u8]) -> usize
    ensures fits { result ≤ length keys.now }
    ensures after { (k : ℕ) → length keys.now - result ≤ k → k < length keys.now → slice_index keys.now k ≢ 10 }
    ensures end { result < length keys.now → slice_index keys.now (length keys.now - result - 1) ≡ 10 }
{
    match memrchr(LINE_END, keys) {
        Some(end) => keys.len() - (end + 1),
        None => keys.len(),
    }
}

/// Moves keys of one line that were read ahead to the front of `buf`, as many as it has place for, and answers how many: 0 where none is
/// left of them.
fn take_read_ahead<R: Read>(keys: &mut BufReader<R>, buf: &mut [u8]) -> usize
    ensures fits { result ≤ length buf.old }
    ensures taken { Consumes (reader_remaining R.remaining keys.old) (reader_remaining R.remaining keys.new) (take result buf.new) }
    ensures unbroken { IsUnbroken (take (result - 1) buf.new) }
    ensures none { reader_buffer keys.old ≡ [] → result ≡ 0 }
    ensures some { 0 < length buf.old → result ≡ 0 → reader_buffer keys.old ≡ [] }
    ensures front { take result buf.new ≡ take result (reader_buffer keys.old) }
    ensures left { reader_buffer keys.new ≡ drop result (reader_buffer keys.old) }
{
    let ready = keys.buffer();
    let most = ready.len().min(buf.len());
    let count = keys_of_line(&ready[..most]);
    buf[..count].copy_from_slice(&ready[..count]);
    keys.consume(count);
    count
}

/// Reads keys, and again where a signal interrupted the call, as std's own calls do that read more than once.
fn read_keys<R: Read>(keys: &mut BufReader<R>, buf: &mut [u8]) -> io::Result<usize>
    ensures bound { ReadsAtMost result buf.new }
    ensures ok { IfOk result (λ count. Consumes (reader_remaining R.remaining keys.old) (reader_remaining R.remaining keys.new) (take count buf.new)) }
    ensures end { IfOk result (λ count. count ≡ 0 → 0 < length buf.old → IsAtEnd (reader_remaining R.remaining keys.new)) }
    ensures err { OnErr result (Keeps (reader_remaining R.remaining keys.old) (reader_remaining R.remaining keys.new)) }
    ensures retried { IfErr result (λ error. error_kind error ≢ ErrorKind.Interrupted) }
{
    for _ in 0..MOST_TRIES {
        match keys.read(buf) {
            Ok(count) => return Ok(count),
            Err(error) => {
                if error.kind() != ErrorKind::Interrupted {
                    return Err(error);
                }
            }
        }
    }
    Err(Error::from(ErrorKind::TimedOut))
}
