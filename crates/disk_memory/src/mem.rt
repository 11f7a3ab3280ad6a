// A machine in memory whose calls fail where they are set to.
ghost use Rattle.std.specs.Prelude.{true};

use crate::command::first_writes;
use crate::error::NewError;
use crate::sure::SureMachine;
use alto_words::Memory;
use disk_records::{Console, ConsoleError, Disk, DiskError, Machine, Plan, Sector, Shape, Tape};
use std::alloc::Global;
use std::collections::BTreeMap;

/// A machine in memory whose devices fail at the calls that `fail_at` names, and at no others. Calls of `run`, `read` and
/// `show` are counted together, from 0. Its counts of calls and of faults stand at 2^64 - 1 once there.
#[derive(Drop)]
pub struct MemMachine {
    machine: SureMachine,
    calls: u64,
    // the calls that are to fail, each with the number of record writes that it makes first
    failures: BTreeMap<u64, u8>,
    disk_faults: u64,
    key_faults: u64,
    show_faults: u64,
}

impl Tape for MemMachine {
    ghost told = { true };

    ghost tape = { λ m. record (⟦<SureMachine as Tape>⟧.tape m.machine) { disk_faults = m.disk_faults; key_faults = m.key_faults; show_faults = m.show_faults } };

    ghost handed_on = { λ m. Unit {0} };
}

impl Disk for MemMachine {
    ghost use Rattle.std.proofs.Common.{subst};
    ghost use Rattle.std.specs.Prelude.{All, ◌≡◌, ◌<◌, IsTrue, IsErrOf, IfNone, IfSome};
    ghost use Rattle.disk_records.specs.Addresses.{pages_of};
    ghost use Rattle.disk_records.specs.Checks.{is_checked};
    ghost use Rattle.disk_records.specs.Packs.{IsFormed};
    ghost use Rattle.disk_records.specs.Tapes.{DiskAlone, IfMismatch, UnlessFailed, Ran, Rose};
    ghost use Rattle.disk_memory.specs.Failing.{HasFailed, IsCalled, IsSure, next_failure};

    fn shape(&self) -> Shape {
        self.machine.shape()
    }

    fn writes(&self) -> u64 {
        self.machine.writes()
    }

    /// A command that is to fail answers Failed with its first record writes done, or none where a checked word differs. It
    /// answers Memory, and counts no fault, only where fewer events are kept ready than those writes are.
    fn run(&mut self, at: u16, plan: Plan, buf: &mut Sector) -> Result<(), DiskError>
        requires { at < pages_of (⟦<MemMachine as Tape>⟧.tape self.old).form }
        ensures alone { DiskAlone (⟦<MemMachine as Tape>⟧.tape self.old) (⟦<MemMachine as Tape>⟧.tape self.new) }
        ensures failed { IsErrOf result DiskError.Failed → Rose (⟦<MemMachine as Tape>⟧.tape self.old).disk_faults (⟦<MemMachine as Tape>⟧.tape self.new).disk_faults }
        ensures unfailed { UnlessFailed result ((⟦<MemMachine as Tape>⟧.tape self.new).disk_faults ≡ (⟦<MemMachine as Tape>⟧.tape self.old).disk_faults) }
        ensures checked { IfMismatch result (λ part word. IsTrue (is_checked plan part)) }
        ensures ran { IsTrue ⟦<MemMachine as Tape>⟧.told → Ran at plan buf.old buf.new (⟦<MemMachine as Tape>⟧.tape self.old) (⟦<MemMachine as Tape>⟧.tape self.new) result }

        // Which calls fail, and what they do first.
        ensures called { IsCalled self.old self.new }
        ensures others { IfNone (next_failure self.old) (IsSure (⟦<MemMachine as Tape>⟧.tape self.old) (⟦<MemMachine as Tape>⟧.tape self.new) result) }
        ensures fails { IfSome (next_failure self.old) (HasFailed at plan buf.old (⟦<MemMachine as Tape>⟧.tape self.old) (⟦<MemMachine as Tape>⟧.tape self.new) result) }
    {
        match self.next_call() {
            None => self.machine.obey(at, plan, buf),
            Some(after) => self.run_failing(at, plan, buf, after),
        }
    }

    /// It holds nothing back, so it always answers Ok.
    fn flush(&mut self) -> Result<(), DiskError> {
        Ok(())
    }

    ghost counted = { λ m told. m.machine.counted };

    ghost sized = { λ m told. m.machine.base_sized };

    ghost formed = { λ m told. subst (All IsFormed) m.machine.right m.machine.formed };
}

impl Console for MemMachine {
    ghost use Rattle.std.specs.Prelude.{◌≡◌, ◌+◌, ◌<◌, ◌≤◌, ◌↔◌, IsTrue, IfOk, IsErrOf, IsOk, IfNone, IsSome, is_some, if◌then◌else◌, length};
    ghost use Rattle.disk_records.specs.Tapes.{KeysAlone, ShowAlone, HasRead, HasShown, UnlessBroken, Rose, capped};
    ghost use Rattle.disk_memory.specs.Failing.{IsCalled, next_failure};

    ghost displayed = { λ m. Unit {0} };

    ghost waits = { λ m. ⊥ };

    /// A call that is to fail takes no key and leaves the buffer as it was. The others take no memory and answer Ok.
    fn read(&mut self, buf: &mut [u8]) -> Result<usize, ConsoleError>
        requires some { 0 < length buf.old }
        requires answered { ⟦<MemMachine as Console>⟧.waits self.old → ⟦<MemMachine as Console>⟧.displayed self.old }
        ensures alone { KeysAlone (⟦<MemMachine as Tape>⟧.tape self.old) (⟦<MemMachine as Tape>⟧.tape self.new) }
        ensures failed { IsErrOf result ConsoleError.Failed → Rose (⟦<MemMachine as Tape>⟧.tape self.old).key_faults (⟦<MemMachine as Tape>⟧.tape self.new).key_faults }
        ensures unfailed { UnlessBroken result ((⟦<MemMachine as Tape>⟧.tape self.new).key_faults ≡ (⟦<MemMachine as Tape>⟧.tape self.old).key_faults) }
        ensures fits { IfOk result (λ n. n ≤ length buf.old) }
        ensures read { IsTrue ⟦<MemMachine as Tape>⟧.told → HasRead buf.old buf.new (⟦<MemMachine as Tape>⟧.tape self.old) (⟦<MemMachine as Tape>⟧.tape self.new) result }

        // Which calls fail.
        ensures called { IsCalled self.old self.new }
        ensures fails { IsErrOf result ConsoleError.Failed ↔ IsSome (next_failure self.old) }
        ensures others { IfNone (next_failure self.old) (IsOk result) }
        ensures kept { IsErrOf result ConsoleError.Failed → buf.new ≡ buf.old }
        ensures faults { (⟦<MemMachine as Tape>⟧.tape self.new).key_faults ≡ (if is_some (next_failure self.old) then capped ((⟦<MemMachine as Tape>⟧.tape self.old).key_faults + 1) else (⟦<MemMachine as Tape>⟧.tape self.old).key_faults) }
    {
        if self.next_call().is_some() {
            self.key_faults = self.key_faults.saturating_add(1);
            return Err(ConsoleError::Failed);
        }
        self.machine.read(buf)
    }

    /// A call that is to fail shows nothing.
    fn show(&mut self, bytes: &[u8]) -> Result<(), ConsoleError>
        ensures alone { ShowAlone (⟦<MemMachine as Tape>⟧.tape self.old) (⟦<MemMachine as Tape>⟧.tape self.new) }
        ensures failed { IsErrOf result ConsoleError.Failed → Rose (⟦<MemMachine as Tape>⟧.tape self.old).show_faults (⟦<MemMachine as Tape>⟧.tape self.new).show_faults }
        ensures unfailed { UnlessBroken result ((⟦<MemMachine as Tape>⟧.tape self.new).show_faults ≡ (⟦<MemMachine as Tape>⟧.tape self.old).show_faults) }
        ensures shown { IsTrue ⟦<MemMachine as Tape>⟧.told → HasShown bytes.now (⟦<MemMachine as Tape>⟧.tape self.old) (⟦<MemMachine as Tape>⟧.tape self.new) result }

        // Which calls fail.
        ensures called { IsCalled self.old self.new }
        ensures fails { IsErrOf result ConsoleError.Failed ↔ IsSome (next_failure self.old) }
        ensures nothing { IsErrOf result ConsoleError.Failed → (⟦<MemMachine as Tape>⟧.tape self.new).events ≡ (⟦<MemMachine as Tape>⟧.tape self.old).events }
        ensures faults { (⟦<MemMachine as Tape>⟧.tape self.new).show_faults ≡ (if is_some (next_failure self.old) then capped ((⟦<MemMachine as Tape>⟧.tape self.old).show_faults + 1) else (⟦<MemMachine as Tape>⟧.tape self.old).show_faults) }
    {
        if self.next_call().is_some() {
            self.show_faults = self.show_faults.saturating_add(1);
            return Err(ConsoleError::Failed);
        }
        self.machine.show(bytes)
    }

    /// It holds nothing back, so it always answers Ok.
    fn flush_display(&mut self) -> Result<(), ConsoleError> {
        Ok(())
    }
}

impl Machine for MemMachine {}

impl MemMachine {
    ghost use Rattle.std.specs.Prelude.{◌≡◌, ◌+◌, ◌<◌, ◌≤◌, ◌↔◌, IfOk, IfErr, IsNone, OnOk, OnErr, length};
    ghost use Rattle.disk_records.specs.Addresses.{pages_of};
    ghost use Rattle.disk_records.specs.Events.{next_write, place_of_write, shown_bytes, writes_in};
    ghost use Rattle.disk_records.specs.Packs.{sector_at};
    ghost use Rattle.disk_records.specs.Tapes.{DiskAlone, Ran, capped, pack};
    ghost use Rattle.disk_memory.specs.Making.{IsNewErrorAt, IsCut, first_tape};
    ghost use Rattle.disk_memory.specs.Failing.{FailsAt, HasFailed, IsFresh, SameFailures, calls_of, next_failure};

    /// A machine over these sectors, in order of their virtual addresses, with these keys to be read. No call is to fail.
    /// WrongCount comes if and only if there aren't as many sectors as the shape has.
    pub fn new(
        alloc: Global,
        shape: Shape,
        sectors: Vec<Sector>,
        keys: Vec<u8>,
    ) -> Result<MemMachine, NewError>
        ensures ok { IfOk result (λ machine. ⟦<MemMachine as Tape>⟧.tape machine ≡ first_tape shape sectors.items keys.items) }
        ensures fresh { IfOk result IsFresh }
        ensures count { OnOk result (length sectors.items ≡ pages_of shape) }
        ensures err { IfErr result (IsNewErrorAt (pages_of shape) (length sectors.items)) }
    {
        match SureMachine::new(alloc, shape, sectors, keys) {
            Ok(machine) => Ok(MemMachine::over(alloc, machine)),
            Err(error) => Err(error),
        }
    }

    /// A machine of which no call was made and none is to fail.
    fn over(alloc: Global, machine: SureMachine) -> MemMachine
        ensures tape { ⟦<MemMachine as Tape>⟧.tape result ≡ ⟦<SureMachine as Tape>⟧.tape machine }
        ensures fresh { IsFresh result }
    {
        MemMachine {
            machine,
            calls: 0,
            failures: BTreeMap::new(alloc),
            disk_faults: 0,
            key_faults: 0,
            show_faults: 0,
        }
    }

    /// Lets the call with this number fail, counted from 0 over `run`, `read` and `show` since the machine was made. A `run`
    /// makes `after` of its record writes first, or all if there are fewer. Without memory nothing more is to fail.
    pub fn fail_at(&mut self, _alloc: Global, call: u64, after: u8) -> Result<(), Memory>
        ensures tape { ⟦<MemMachine as Tape>⟧.tape self.new ≡ ⟦<MemMachine as Tape>⟧.tape self.old }
        ensures calls { calls_of self.new ≡ calls_of self.old }
        ensures ok { OnOk result (FailsAt self.old self.new call after) }
        ensures err { OnErr result (SameFailures self.old self.new) }
    {
        self.failures.insert(call, after)?;
        Ok(())
    }

    /// The number of events so far.
    pub fn event_count(&self) -> usize
        ensures { result ≡ length (⟦<MemMachine as Tape>⟧.tape self.now).events }
    {
        self.machine.event_count()
    }

    /// The length of the shortest prefix of the events that has `k` record writes, or of all events if there are fewer.
    pub fn place_of_write(&self, k: u64) -> usize
        ensures { result ≡ place_of_write (⟦<MemMachine as Tape>⟧.tape self.now).events k }
    {
        self.machine.place_of_write(k)
    }

    /// The sector (a virtual address) and the part (0 header, 1 label, 2 value) of the record write after the first `k`: the one that follows
    /// the cut with `k` record writes. None if and only if there are no more.
    pub fn next_write(&self, k: u64) -> Option<(u16, u8)>
        ensures next { result ≡ next_write (⟦<MemMachine as Tape>⟧.tape self.now).events k }
        ensures none { IsNone result ↔ writes_in (⟦<MemMachine as Tape>⟧.tape self.now).events ≤ k }
    {
        self.machine.next_write(k)
    }

    /// A machine as this one stood after its first `count` events: the same shape and first sectors, these events and no
    /// others, no keys left, no calls counted and none that is to fail. Its time and memory go by the sectors and the events.
    pub fn cut(&self, alloc: Global, count: usize) -> Result<MemMachine, Memory>
        requires { count ≤ length (⟦<MemMachine as Tape>⟧.tape self.now).events }
        ensures cut { IfOk result (λ machine. IsCut (⟦<MemMachine as Tape>⟧.tape self.now) count (⟦<MemMachine as Tape>⟧.tape machine)) }
        ensures fresh { IfOk result IsFresh }
    {
        Ok(MemMachine::over(alloc, self.machine.cut(alloc, count)?))
    }

    /// The sector that stands at this virtual address.
    pub fn sector(&self, at: u16) -> &Sector
        requires { at < pages_of (⟦<MemMachine as Tape>⟧.tape self.now).form }
        ensures { sector_at (pack (⟦<MemMachine as Tape>⟧.tape self.now)) at ≡ result.now }
    {
        self.machine.sector(at)
    }

    /// The bytes that were shown, in order.
    pub fn shown(&self, alloc: Global) -> Result<Vec<u8>, Memory>
        ensures { IfOk result (λ bytes. bytes.items ≡ shown_bytes (⟦<MemMachine as Tape>⟧.tape self.now).events) }
    {
        self.machine.shown(alloc)
    }

    /// Keeps memory ready for this many events to come, whatever they are: a command with no more record writes than that
    /// then never answers Memory. Where memory runs out here, some more may be ready than before.
    pub fn reserve(&mut self, alloc: Global, events: u64) -> Result<(), Memory>
        ensures same { ⟦<MemMachine as Tape>⟧.tape self.new ≡ record (⟦<MemMachine as Tape>⟧.tape self.old) { spare = (⟦<MemMachine as Tape>⟧.tape self.new).spare } }
        ensures failures { (calls_of self.new ≡ calls_of self.old) × SameFailures self.old self.new }
        ensures kept { (⟦<MemMachine as Tape>⟧.tape self.old).spare ≤ (⟦<MemMachine as Tape>⟧.tape self.new).spare }
        ensures ready { OnOk result (events ≤ (⟦<MemMachine as Tape>⟧.tape self.new).spare) }
    {
        self.machine.reserve(alloc, events)
    }

    /// The sectors that stand, in order of their virtual addresses.
    pub fn into_sectors(self) -> Vec<Sector>
        ensures { result.items ≡ (pack (⟦<MemMachine as Tape>⟧.tape self)).sectors }
    {
        self.machine.into_sectors()
    }

    /// Counts a call of `run`, `read` or `show`. Some where it is to fail, with the number of record writes that it makes
    /// first.
    fn next_call(&mut self) -> Option<u8>
        ensures answer { result ≡ next_failure self.old }
        ensures called { self.new ≡ record self.old { calls = capped (self.old.calls + 1) } }
    {
        let failure = self.failures.get(&self.calls).copied();
        self.calls = self.calls.saturating_add(1);
        failure
    }

    /// A command that fails after this many of its record writes.
    fn run_failing(
        &mut self,
        at: u16,
        plan: Plan,
        buf: &mut Sector,
        after: u8,
    ) -> Result<(), DiskError>
        requires { at < pages_of (⟦<MemMachine as Tape>⟧.tape self.old).form }
        ensures alone { DiskAlone (⟦<MemMachine as Tape>⟧.tape self.old) (⟦<MemMachine as Tape>⟧.tape self.new) }
        ensures ran { Ran at plan buf.old buf.new (⟦<MemMachine as Tape>⟧.tape self.old) (⟦<MemMachine as Tape>⟧.tape self.new) result }
        ensures fails { HasFailed at plan buf.old (⟦<MemMachine as Tape>⟧.tape self.old) (⟦<MemMachine as Tape>⟧.tape self.new) result after }
        ensures calls { (self.new.calls ≡ self.old.calls) × (self.new.failures ≡ self.old.failures) }
    {
        match self.machine.obey(at, first_writes(plan, after), buf) {
            Ok(()) => self.fail_disk(),
            Err(error) => match error {
                DiskError::Memory => Err(DiskError::Memory),
                DiskError::Mismatch { .. } => self.fail_disk(),
                DiskError::Failed => self.fail_disk(),
            },
        }
    }

    /// Counts a fault of the disk.
    fn fail_disk(&mut self) -> Result<(), DiskError>
        ensures answer { result ≡ Err DiskError.Failed }
        ensures counted { ⟦<MemMachine as Tape>⟧.tape self.new ≡ record (⟦<MemMachine as Tape>⟧.tape self.old) { disk_faults = capped ((⟦<MemMachine as Tape>⟧.tape self.old).disk_faults + 1) } }
        ensures more { (⟦<MemMachine as Tape>⟧.tape self.old).disk_faults ≤ (⟦<MemMachine as Tape>⟧.tape self.new).disk_faults }
        ensures calls { (self.new.calls ≡ self.old.calls) × (self.new.failures ≡ self.old.failures) }
    {
        self.disk_faults = self.disk_faults.saturating_add(1);
        Err(DiskError::Failed)
    }
}
