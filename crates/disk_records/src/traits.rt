// The machine as the layers above see it.
ghost use Rattle.std.specs.Prelude.{◌≡◌, ◌-◌, ◌<◌, ◌≤◌, Bool, IsTrue, IsOk, IsErrOf, IfOk, IfErr, OnErr, OnOk, length, take};
ghost use Rattle.disk_records.specs.Addresses.{pages_of};
ghost use Rattle.disk_records.specs.Checks.{is_legal, is_checked};
ghost use Rattle.disk_records.specs.Events.{writes_in};
ghost use Rattle.disk_records.specs.Packs.{AreFormed};
ghost use Rattle.disk_records.specs.Tapes.{Taped, DiskAlone, KeysAlone, ShowAlone, HasRead, HasShown, IsUnbroken, Rose, Ran, RanFront, IfMismatch, UnlessFailed, UnlessBroken, capped, pack};

use crate::{Front, Plan, Sector, Shape};

/// Why a sector command wasn't done whole.
#[derive(Clone, Copy, Debug, PartialEq, Eq, Drop)]
pub enum DiskError {
    /// A checked word that isn't 0 differs, first at this record (0 header, 1 label, 2 value) and word. Nothing was written.
    Mismatch { part: u8, word: u16 },
    /// The device failed, and the count of disk faults rose. The record writes done are a prefix of the command's; of those that the
    /// machine held back the last ones may be lost.
    Failed,
    /// No memory was left for the record writes of a sector that matched. Nothing was written.
    Memory,
}

/// Why keys weren't read or bytes not all shown.
#[derive(Clone, Copy, Debug, PartialEq, Eq, Drop)]
pub enum ConsoleError {
    /// The device failed, and its own count of faults rose. A failed `read` took no key; a failed `show` has shown a prefix of its bytes.
    /// Of the texts that the machine held back the last ones may be lost.
    Failed,
    /// No memory was left. No key was taken and nothing shown.
    Memory,
}

/// What a machine holds and what has happened to it, for contracts alone.
pub trait Tape {
    /// Whether the machine is modelled (`told`): its contract says what stands on its pack, which keys are left and what was shown. A
    /// constant of the type.
    ghost told: { Bool };

    /// What it holds and what has happened to it.
    ghost tape: { Self → Taped };

    /// Whether all record writes so far, except those that were lost at a fault, were handed on to the device, so that they stand on the
    /// pack if the process stops. After a `flush` that failed and one that didn't, those that the first one lost are lost still. A machine in
    /// memory holds none back, and has always handed them on.
    ghost handed_on: { Self → Type 0 };
}

/// A disk drive with one pack in it.
pub trait Disk: Tape {
    /// The shape of the pack. It never changes.
    fn shape(&self) -> Shape
        ensures { result ≡ (Self.tape self.now).form };

    /// The number of record writes so far, with those that are held back or were lost after that. It stands at 2^64 - 1 once there.
    fn writes(&self) -> u64
        ensures { result ≡ (Self.tape self.now).writes };

    /// One sector command at the virtual address `at`: the records of the sector are read to `buf`, checked against it or
    /// written from it, in order. What it writes may be held back until `flush`, and is seen by the next commands all the same. After an
    /// error what `buf` holds is open. A fault that came is answered: at each other answer the count of disk faults is as it was.
    fn run(&mut self, at: u16, plan: Plan, buf: &mut Sector) -> Result<(), DiskError>
        requires place { at < pages_of (Self.tape self.old).form }
        requires legal { IsTrue (is_legal plan) }
        ensures alone { DiskAlone (Self.tape self.old) (Self.tape self.new) }
        ensures failed { IsErrOf result DiskError.Failed → Rose (Self.tape self.old).disk_faults (Self.tape self.new).disk_faults }
        ensures unfailed { UnlessFailed result ((Self.tape self.new).disk_faults ≡ (Self.tape self.old).disk_faults) }
        ensures checked { IfMismatch result (λ part word. IsTrue (is_checked plan part)) }
        ensures ran { IsTrue Self.told → Ran at plan buf.old buf.new (Self.tape self.old) (Self.tape self.new) result };

    /// Reads the whole sector at the virtual address `at` to `buf`, as `run` does with `Plan::READ`. Unless a machine does it otherwise, it
    /// is that command. After an error what `buf` holds is open.
    fn read_sector(&mut self, at: u16, buf: &mut Sector) -> Result<(), DiskError>
        requires place { at < pages_of (Self.tape self.old).form }
        ensures alone { DiskAlone (Self.tape self.old) (Self.tape self.new) }
        ensures failed { IsErrOf result DiskError.Failed → Rose (Self.tape self.old).disk_faults (Self.tape self.new).disk_faults }
        ensures unfailed { UnlessFailed result ((Self.tape self.new).disk_faults ≡ (Self.tape self.old).disk_faults) }
        ensures checked { IfMismatch result (λ part word. IsTrue (is_checked Plan.READ part)) }
        ensures ran { IsTrue Self.told → Ran at Plan.READ buf.old buf.new (Self.tape self.old) (Self.tape self.new) result }
    {
        self.run(at, Plan::READ, buf)
    }

    /// Reads header and label of the sector at the virtual address `at` to `front`: the command of `read_sector`, of which the value isn't
    /// handed on. Unless a machine does it otherwise, it is that command. After an error what `front` holds is open.
    #[tactic(auto, using(crate::proofs::FirstOnes::none_of_none))]
    fn read_front(&mut self, at: u16, front: &mut Front) -> Result<(), DiskError>
        requires place { at < pages_of (Self.tape self.old).form }
        ensures alone { DiskAlone (Self.tape self.old) (Self.tape self.new) }
        ensures failed { IsErrOf result DiskError.Failed → Rose (Self.tape self.old).disk_faults (Self.tape self.new).disk_faults }
        ensures unfailed { UnlessFailed result ((Self.tape self.new).disk_faults ≡ (Self.tape self.old).disk_faults) }
        ensures checked { IfMismatch result (λ part word. IsTrue (is_checked Plan.READ part)) }
        ensures ran { IsTrue Self.told → RanFront at front.new (Self.tape self.old) (Self.tape self.new) result }
    {
        let mut buf = Sector::ZEROS;
        let answer = self.read_sector(at, &mut buf);
        front.header = buf.header;
        front.label = buf.label;
        answer
    }

    /// Hands on to the device the record writes that the machine holds back, so that they stand on the pack if the process stops. A machine
    /// may hold back those of its last sector commands, in their order, until the next call of this one; one that is modelled holds none
    /// back. After Failed some of them may be lost, the last ones; no other error comes.
    fn flush(&mut self) -> Result<(), DiskError>
        ensures handed_on { OnOk result (Self.handed_on self.new) }
        ensures alone { DiskAlone (Self.tape self.old) (Self.tape self.new) }
        ensures failed { OnErr result (Rose (Self.tape self.old).disk_faults (Self.tape self.new).disk_faults) }
        ensures unfailed { OnOk result ((Self.tape self.new).disk_faults ≡ (Self.tape self.old).disk_faults) }
        ensures only { IfErr result (λ error. error ≡ DiskError.Failed) }
        ensures told { IsTrue Self.told → IsOk result × (Self.tape self.new ≡ Self.tape self.old) };

    /// A barrier: hands on what `flush` hands on, and answers Ok only once all record writes before it stand on the device, so that they
    /// stand there if the machine loses power, whatever becomes of those after it. Unless a machine does it otherwise, it is `flush`: the
    /// pack of a machine in memory is the device. After Failed none of those since the last barrier need stand; no other error comes.
    fn settle(&mut self) -> Result<(), DiskError>
        ensures handed_on { OnOk result (Self.handed_on self.new) }
        ensures alone { DiskAlone (Self.tape self.old) (Self.tape self.new) }
        ensures failed { OnErr result (Rose (Self.tape self.old).disk_faults (Self.tape self.new).disk_faults) }
        ensures unfailed { OnOk result ((Self.tape self.new).disk_faults ≡ (Self.tape self.old).disk_faults) }
        ensures only { IfErr result (λ error. error ≡ DiskError.Failed) }
        ensures told { IsTrue Self.told → IsOk result × (Self.tape self.new ≡ Self.tape self.old) }
    {
        self.flush()
    }

    /// Where the machine is modelled, the count is that of its events.
    ghost counted: { (d : Self) → IsTrue Self.told → (Self.tape d).writes ≡ capped (writes_in (Self.tape d).events) };

    /// Where the machine is modelled, it has as many sectors as its shape says.
    ghost sized: { (d : Self) → IsTrue Self.told → length (Self.tape d).base ≡ pages_of (Self.tape d).form };

    /// Where the machine is modelled, each sector of its pack has records of 2, 8 and 256 words.
    ghost formed: { (d : Self) → IsTrue Self.told → AreFormed (pack (Self.tape d)) };
}

/// The key that ends a line: the byte 10.
pub const LINE_END: u8 = 10;

/// A keyboard and a display.
pub trait Console: Tape {
    /// Whether all bytes shown so far, except those that were lost at a fault, were handed on to the display. A machine in memory holds
    /// none back, and has always handed them on.
    ghost displayed: { Self → Type 0 };

    /// Whether keys may have to be waited for: no whole line is known to be there. Until then somebody may wait for what was shown, so the
    /// display has to have it before keys are read. A machine in memory has all of its keys, and waits for none.
    ghost waits: { Self → Type 0 };

    /// Moves keys to the front of `buf` and answers how many: 0 if and only if the input is at its end. Where keys may have to be waited for,
    /// what was shown has to be displayed before; that it is displayed stays. After keys without a line's end nobody waits who didn't before.
    /// After Failed no key was taken; it is answered wherever a fault came.
    fn read(&mut self, buf: &mut [u8]) -> Result<usize, ConsoleError>
        requires some { 0 < length buf.old }
        requires answered { Self.waits self.old → Self.displayed self.old }
        ensures displayed { Self.displayed self.old → Self.displayed self.new }
        ensures goes_on { IfOk result (λ n. IsUnbroken (take n buf.new) → Self.waits self.new → Self.waits self.old) }
        ensures alone { KeysAlone (Self.tape self.old) (Self.tape self.new) }
        ensures failed { IsErrOf result ConsoleError.Failed → Rose (Self.tape self.old).key_faults (Self.tape self.new).key_faults }
        ensures unfailed { UnlessBroken result ((Self.tape self.new).key_faults ≡ (Self.tape self.old).key_faults) }
        ensures fits { IfOk result (λ n. n ≤ length buf.old) }
        ensures read { IsTrue Self.told → HasRead buf.old buf.new (Self.tape self.old) (Self.tape self.new) result };

    /// Moves keys of one line to the front of `buf` and answers how many: 0 if and only if the input is at its end. At most the last of them
    /// ends the line. Unless a machine does it otherwise, each call takes one key by one `read`, of which the rest holds too.
    fn read_piece(&mut self, buf: &mut [u8]) -> Result<usize, ConsoleError>
        requires some { 0 < length buf.old }
        requires answered { Self.waits self.old → Self.displayed self.old }
        ensures displayed { Self.displayed self.old → Self.displayed self.new }
        ensures goes_on { IfOk result (λ n. IsUnbroken (take n buf.new) → Self.waits self.new → Self.waits self.old) }
        ensures alone { KeysAlone (Self.tape self.old) (Self.tape self.new) }
        ensures failed { IsErrOf result ConsoleError.Failed → Rose (Self.tape self.old).key_faults (Self.tape self.new).key_faults }
        ensures unfailed { UnlessBroken result ((Self.tape self.new).key_faults ≡ (Self.tape self.old).key_faults) }
        ensures fits { IfOk result (λ n. n ≤ length buf.old) }
        ensures read { IsTrue Self.told → HasRead buf.old buf.new (Self.tape self.old) (Self.tape self.new) result }
        ensures unbroken { IfOk result (λ n. IsUnbroken (take (n - 1) buf.new)) }
    {
        self.read(&mut buf[..1])
    }

    /// Whether the keys of a whole line are there, so that they can be taken without waiting for any. False doesn't rule it out.
    fn has_line(&self) -> bool
        ensures { IsTrue result → Self.waits self.now → ⊥ }
    {
        false
    }

    /// Shows these bytes. Whoever sees them may rely on what was written before, so all record writes have to be handed on by then. A
    /// machine may hold the bytes back, after those that were shown before, until the next call of `flush_display`; one that is modelled
    /// holds none back.
    fn show(&mut self, bytes: &[u8]) -> Result<(), ConsoleError>
        requires handed_on { Self.handed_on self.old }
        ensures handed_on { Self.handed_on self.new }
        ensures alone { ShowAlone (Self.tape self.old) (Self.tape self.new) }
        ensures failed { IsErrOf result ConsoleError.Failed → Rose (Self.tape self.old).show_faults (Self.tape self.new).show_faults }
        ensures unfailed { UnlessBroken result ((Self.tape self.new).show_faults ≡ (Self.tape self.old).show_faults) }
        ensures shown { IsTrue Self.told → HasShown bytes.now (Self.tape self.old) (Self.tape self.new) result };

    /// Hands on to the display the bytes that the machine holds back, which makes nobody wait for keys who didn't before. At Ok its tape
    /// stays as it was. After Failed some of them may be lost, the last ones; no other error comes.
    fn flush_display(&mut self) -> Result<(), ConsoleError>
        ensures displayed { OnOk result (Self.displayed self.new) }
        ensures lines { Self.waits self.new → Self.waits self.old }
        ensures same { OnOk result ((Self.tape self.new) ≡ (Self.tape self.old)) }
        ensures handed_on { Self.handed_on self.old → Self.handed_on self.new }
        ensures alone { ShowAlone (Self.tape self.old) (Self.tape self.new) }
        ensures failed { OnErr result (Rose (Self.tape self.old).show_faults (Self.tape self.new).show_faults) }
        ensures only { IfErr result (λ error. error ≡ ConsoleError.Failed) }
        ensures told { IsTrue Self.told → IsOk result × (Self.tape self.new ≡ Self.tape self.old) };
}

/// A whole machine: one disk drive, a keyboard and a display, with one tape.
pub trait Machine: Disk + Console {}
