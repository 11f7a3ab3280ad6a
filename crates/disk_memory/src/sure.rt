// A machine in memory that never fails.
ghost use Rattle.std.specs.Prelude.{All, ◌≡◌, ◌-◌, ◌<◌, ◌≤◌, min, true, [], length, drop, IsTrue};
ghost use Rattle.std.proofs.Common.{subst};
ghost use Rattle.std.specs.List.{list_all};
ghost use Rattle.std.specs.Vec.{vec_len, vec_capacity};
ghost use Rattle.disk_records.specs.Addresses.{pages_of};
ghost use Rattle.disk_records.specs.Events.{writes_in};
ghost use Rattle.disk_records.specs.Packs.{IsFormed, after_all};
ghost use Rattle.disk_records.specs.Tapes.{capped};
ghost use Rattle.disk_memory.specs.Storing.{is_formed_event};

use crate::block::{Block, fill_up, push_ready};
use crate::command::{replace_record, write_count};
use crate::error::NewError;
use crate::events::{add_shown_byte, push_shown, writes_of_event, written_by};
use alto_words::Memory;
use disk_records::{
    Act, Console, ConsoleError, Disk, DiskError, Event, Machine, Plan, Sector, Shape, Tape,
    first_mismatch, update_memory,
};
use std::alloc::{AllocError, Global};

/// A machine in memory whose devices never fail. It takes memory for each event: a sector command that writes, or a show,
/// answers Memory where there is none, and then neither the pack nor the events have changed.
#[derive(Drop)]
pub struct SureMachine {
    alloc: Global,
    shape: Shape,
    sectors: Vec<Sector>,
    base: Vec<Sector>,
    events: Vec<Event>,
    keys: Vec<u8>,
    // the number of keys that were read
    taken: usize,
    runs: u64,
    writes: u64,
    // room for the words of record writes to come
    blocks: Vec<Block>,
    ghost right: { sectors.items ≡ after_all events.items base.items },
    ghost sized: { length sectors.items ≡ pages_of shape },
    ghost base_sized: { length base.items ≡ pages_of shape },
    ghost formed: { All IsFormed sectors.items },
    ghost within: { taken ≤ length keys.items },
    ghost counted: { writes ≡ capped (writes_in events.items) },
    ghost whole: { IsTrue (list_all (is_formed_event shape) events.items) },
}

impl Tape for SureMachine {
    ghost told = { true };

    ghost tape = { λ m. record { form = m.shape; base = m.base.items; events = m.events.items; keys = drop m.taken m.keys.items; disk_faults = 0; key_faults = 0; show_faults = 0; runs = m.runs; writes = m.writes; spare = min (vec_capacity m.events - vec_len m.events) (vec_len m.blocks) } };

    ghost handed_on = { λ m. Unit {0} };
}

impl Disk for SureMachine {
    fn shape(&self) -> Shape {
        self.shape
    }

    fn writes(&self) -> u64 {
        self.writes
    }

    fn run(&mut self, at: u16, plan: Plan, buf: &mut Sector) -> Result<(), DiskError> {
        self.obey(at, plan, buf)
    }

    /// It holds nothing back, so it always answers Ok.
    fn flush(&mut self) -> Result<(), DiskError> {
        Ok(())
    }

    ghost counted = { λ m told. m.counted };

    ghost sized = { λ m told. m.base_sized };

    ghost formed = { λ m told. subst (All IsFormed) m.right m.formed };
}

impl Console for SureMachine {
    ghost use Rattle.std.specs.Prelude.{IfOk, IsErrOf, IsOk};
    ghost use Rattle.disk_records.specs.Tapes.{KeysAlone, HasRead, Rose};

    ghost displayed = { λ m. Unit {0} };

    ghost waits = { λ m. ⊥ };

    /// It takes no memory and always answers Ok.
    fn read(&mut self, buf: &mut [u8]) -> Result<usize, ConsoleError>
        requires some { 0 < length buf.old }
        requires answered { ⟦<SureMachine as Console>⟧.waits self.old → ⟦<SureMachine as Console>⟧.displayed self.old }
        ensures alone { KeysAlone (⟦<SureMachine as Tape>⟧.tape self.old) (⟦<SureMachine as Tape>⟧.tape self.new) }
        ensures failed { IsErrOf result ConsoleError.Failed → Rose 0 0 }
        ensures fits { IfOk result (λ n. n ≤ length buf.old) }
        ensures read { HasRead buf.old buf.new (⟦<SureMachine as Tape>⟧.tape self.old) (⟦<SureMachine as Tape>⟧.tape self.new) result }
        ensures sure { IsOk result }
    {
        let left = self.keys.len() - self.taken;
        let n = left.min(buf.len());
        buf[..n].copy_from_slice(&self.keys[self.taken..self.taken + n]);
        self.taken += n;
        Ok(n)
    }

    fn show(&mut self, bytes: &[u8]) -> Result<(), ConsoleError> {
        match self.add_shown(bytes) {
            Ok(()) => Ok(()),
            Err(AllocError) => Err(ConsoleError::Memory),
        }
    }

    /// It holds nothing back, so it always answers Ok.
    fn flush_display(&mut self) -> Result<(), ConsoleError> {
        Ok(())
    }
}

impl Machine for SureMachine {}

impl SureMachine {
    ghost use Rattle.std.specs.Prelude.{◌+◌, ◌↔◌, ◌∷◌, IsNone, OnOk, OnErr, IfOk, IfErr, IsErrOf};
    ghost use Rattle.disk_records.specs.Checks.{is_checked, write_of};
    ghost use Rattle.disk_records.specs.Events.{next_write, place_of_write, shown_bytes, shown_events, writes_in};
    ghost use Rattle.disk_records.specs.Packs.{sector_at};
    ghost use Rattle.disk_records.specs.Tapes.{DiskAlone, IfMismatch, Ran, Rose, pack};
    ghost use Rattle.disk_memory.specs.Adding.{Adds, writes_by};
    ghost use Rattle.disk_memory.specs.Storing.{record_words};
    ghost use Rattle.disk_memory.specs.Making.{IsNewErrorAt, IsCut, first_tape};

    /// A machine over these sectors, in order of their virtual addresses, with these keys to be read. WrongCount comes
    /// if and only if there aren't as many sectors as the shape has.
    pub fn new(
        alloc: Global,
        shape: Shape,
        sectors: Vec<Sector>,
        keys: Vec<u8>,
    ) -> Result<SureMachine, NewError>
        ensures ok { IfOk result (λ machine. ⟦<SureMachine as Tape>⟧.tape machine ≡ first_tape shape sectors.items keys.items) }
        ensures count { OnOk result (length sectors.items ≡ pages_of shape) }
        ensures err { IfErr result (IsNewErrorAt (pages_of shape) (length sectors.items)) }
    {
        if sectors.len() != shape.pages() as usize {
            return Err(NewError::WrongCount {
                wanted: shape.pages(),
                got: sectors.len() as u64,
            });
        }
        match SureMachine::over(alloc, shape, sectors, keys) {
            Ok(machine) => Ok(machine),
            Err(AllocError) => Err(NewError::Memory),
        }
    }

    /// A copy of this sector, which has records of 2, 8 and 256 words.
    fn copy_of_one(sector: &Sector) -> Sector
        ensures same { result ≡ sector.now }
        ensures formed { IsFormed sector.now }
    {
        Sector {
            header: sector.header,
            label: sector.label,
            value: sector.value,
        }
    }

    /// A copy of these sectors, each of which has records of 2, 8 and 256 words.
    fn copy_of(alloc: Global, sectors: &[Sector]) -> Result<Vec<Sector>, AllocError>
        ensures same { IfOk result (λ copy. copy.items ≡ sectors.now) }
        ensures formed { OnOk result (All IsFormed sectors.now) }
    {
        let mut copy = Vec::new(alloc);
        copy.reserve(sectors.len())?;
        for sector in sectors {
            copy.push(SureMachine::copy_of_one(sector))?;
        }
        Ok(copy)
    }

    /// A machine over as many sectors as the shape has.
    fn over(
        alloc: Global,
        shape: Shape,
        sectors: Vec<Sector>,
        keys: Vec<u8>,
    ) -> Result<SureMachine, AllocError>
        requires { length sectors.items ≡ pages_of shape }
        ensures { IfOk result (λ machine. ⟦<SureMachine as Tape>⟧.tape machine ≡ first_tape shape sectors.items keys.items) }
    {
        let base = SureMachine::copy_of(alloc, &sectors)?;
        Ok(SureMachine {
            alloc,
            shape,
            sectors,
            base,
            events: Vec::new(alloc),
            keys,
            taken: 0,
            runs: 0,
            writes: 0,
            blocks: Vec::new(alloc),
        })
    }

    /// The number of events so far.
    pub fn event_count(&self) -> usize
        ensures { result ≡ length (⟦<SureMachine as Tape>⟧.tape self.now).events }
    {
        self.events.len()
    }

    /// The length of the shortest prefix of the events that has `k` record writes, or of all events if there are fewer.
    pub fn place_of_write(&self, k: u64) -> usize
        ensures { result ≡ place_of_write (⟦<SureMachine as Tape>⟧.tape self.now).events k }
    {
        let mut left = k;
        for (place, event) in self.events.iter().enumerate() {
            if left == 0 {
                return place;
            }
            left -= writes_of_event(event);
        }
        self.events.len()
    }

    /// The sector (a virtual address) and the part (0 header, 1 label, 2 value) of the record write after the first `k`: the one that follows
    /// the cut with `k` record writes. None if and only if there are no more.
    pub fn next_write(&self, k: u64) -> Option<(u16, u8)>
        ensures next { result ≡ next_write (⟦<SureMachine as Tape>⟧.tape self.now).events k }
        ensures none { IsNone result ↔ writes_in (⟦<SureMachine as Tape>⟧.tape self.now).events ≤ k }
    {
        let mut left = k;
        for event in &self.events {
            let Some(place) = written_by(event) else {
                continue;
            };
            if left == 0 {
                return Some(place);
            }
            left -= 1;
        }
        None
    }

    /// A machine as this one stood after its first `count` events: the same shape and first sectors, these events and no
    /// others, no keys left and no sector commands counted. Its time and memory go by the sectors and the events.
    pub fn cut(&self, alloc: Global, count: usize) -> Result<SureMachine, Memory>
        requires { count ≤ length (⟦<SureMachine as Tape>⟧.tape self.now).events }
        ensures { IfOk result (λ machine. IsCut (⟦<SureMachine as Tape>⟧.tape self.now) count (⟦<SureMachine as Tape>⟧.tape machine)) }
    {
        let sectors = self.base.to_vec(alloc)?;
        let mut machine = SureMachine::over(alloc, self.shape, sectors, Vec::new(alloc))?;
        for event in &self.events[..count] {
            machine.redo(event)?;
        }
        Ok(machine)
    }

    /// The sector that stands at this virtual address.
    pub fn sector(&self, at: u16) -> &Sector
        requires { at < pages_of (⟦<SureMachine as Tape>⟧.tape self.now).form }
        ensures { sector_at (pack (⟦<SureMachine as Tape>⟧.tape self.now)) at ≡ result.now }
    {
        &self.sectors[at as usize]
    }

    /// The bytes that were shown, in order.
    pub fn shown(&self, alloc: Global) -> Result<Vec<u8>, Memory>
        ensures { IfOk result (λ bytes. bytes.items ≡ shown_bytes (⟦<SureMachine as Tape>⟧.tape self.now).events) }
    {
        let mut bytes = Vec::new(alloc);
        for event in &self.events {
            add_shown_byte(&mut bytes, event)?;
        }
        Ok(bytes)
    }

    /// Keeps memory ready for this many events to come, whatever they are: a command with no more record writes than that
    /// then never answers Memory. Where memory runs out here, some more may be ready than before.
    pub fn reserve(&mut self, alloc: Global, events: u64) -> Result<(), Memory>
        ensures same { ⟦<SureMachine as Tape>⟧.tape self.new ≡ record (⟦<SureMachine as Tape>⟧.tape self.old) { spare = (⟦<SureMachine as Tape>⟧.tape self.new).spare } }
        ensures kept { (⟦<SureMachine as Tape>⟧.tape self.old).spare ≤ (⟦<SureMachine as Tape>⟧.tape self.new).spare }
        ensures ready { OnOk result (events ≤ (⟦<SureMachine as Tape>⟧.tape self.new).spare) }
    {
        self.make_room(alloc, events as usize)?;
        Ok(())
    }

    /// The sectors that stand, in order of their virtual addresses.
    pub fn into_sectors(self) -> Vec<Sector>
        ensures { result.items ≡ (pack (⟦<SureMachine as Tape>⟧.tape self)).sectors }
    {
        self.sectors
    }

    /// One sector command, be it legal or not.
    pub(crate) fn obey(&mut self, at: u16, plan: Plan, buf: &mut Sector) -> Result<(), DiskError>
        requires { at < pages_of (⟦<SureMachine as Tape>⟧.tape self.old).form }
        ensures alone { DiskAlone (⟦<SureMachine as Tape>⟧.tape self.old) (⟦<SureMachine as Tape>⟧.tape self.new) }
        ensures failed { IsErrOf result DiskError.Failed → Rose 0 0 }
        ensures checked { IfMismatch result (λ part word. IsTrue (is_checked plan part)) }
        ensures ran { Ran at plan buf.old buf.new (⟦<SureMachine as Tape>⟧.tape self.old) (⟦<SureMachine as Tape>⟧.tape self.new) result }
    {
        self.runs = self.runs.saturating_add(1);
        let sector = self.sectors[at as usize];
        if let Some((part, word)) = first_mismatch(plan, buf, &sector) {
            return Err(DiskError::Mismatch { part, word });
        }
        if self
            .make_room(self.alloc, write_count(plan) as usize)
            .is_err()
        {
            return Err(DiskError::Memory);
        }
        self.write_record(at, 0, plan.header, &buf.header);
        self.write_record(at, 1, plan.label, &buf.label);
        self.write_record(at, 2, plan.value, &buf.value);
        update_memory(plan, buf, &sector);
        Ok(())
    }

    /// Makes room for this many events, be they record writes or not. Where memory runs out, the room may have grown.
    fn make_room(&mut self, alloc: Global, count: usize) -> Result<(), AllocError>
        ensures adds { Adds (⟦<SureMachine as Tape>⟧.tape self.old) (⟦<SureMachine as Tape>⟧.tape self.new) [] }
        ensures ok { OnOk result (count ≤ (⟦<SureMachine as Tape>⟧.tape self.new).spare) }
        ensures err { OnErr result ((⟦<SureMachine as Tape>⟧.tape self.old).spare < count) }
    {
        self.events.reserve(count)?;
        fill_up(&mut self.blocks, alloc, count)
    }

    /// The record write of this act, if it makes one.
    fn write_record(&mut self, at: u16, part: u8, act: Act, words: &[u16])
        requires place { at < pages_of (⟦<SureMachine as Tape>⟧.tape self.old).form }
        requires one { part < 3 }
        requires whole { length words.now ≡ record_words part }
        requires room { writes_by act ≤ (⟦<SureMachine as Tape>⟧.tape self.old).spare }
        ensures adds { Adds (⟦<SureMachine as Tape>⟧.tape self.old) (⟦<SureMachine as Tape>⟧.tape self.new) (write_of at part act words.now) }
        ensures room { (⟦<SureMachine as Tape>⟧.tape self.old).spare ≤ (⟦<SureMachine as Tape>⟧.tape self.new).spare + writes_by act }
    {
        match act {
            Act::Write => self.write(at, part, words),
            Act::Read => {}
            Act::Check => {}
        }
    }

    /// Writes one record.
    fn write(&mut self, at: u16, part: u8, words: &[u16])
        requires place { at < pages_of (⟦<SureMachine as Tape>⟧.tape self.old).form }
        requires one { part < 3 }
        requires whole { length words.now ≡ record_words part }
        requires room { 0 < (⟦<SureMachine as Tape>⟧.tape self.old).spare }
        ensures { Adds (⟦<SureMachine as Tape>⟧.tape self.old) (⟦<SureMachine as Tape>⟧.tape self.new) (Event.Wrote at part words.now ∷ []) }
    {
        let Some(block) = self.blocks.pop() else {
            unreachable!();
        };
        let kept = block.filled(words);
        let event = Event::Wrote {
            at,
            part,
            words: kept,
        };
        push_ready(&mut self.events, event);
        replace_record(&mut self.sectors[at as usize], part, words);
        self.writes = self.writes.saturating_add(1);
    }

    /// Shows these bytes.
    fn add_shown(&mut self, bytes: &[u8]) -> Result<(), AllocError>
        ensures ok { OnOk result (Adds (⟦<SureMachine as Tape>⟧.tape self.old) (⟦<SureMachine as Tape>⟧.tape self.new) (shown_events bytes.now)) }
        ensures err { OnErr result (Adds (⟦<SureMachine as Tape>⟧.tape self.old) (⟦<SureMachine as Tape>⟧.tape self.new) []) }
        ensures writes { (⟦<SureMachine as Tape>⟧.tape self.new).writes ≡ (⟦<SureMachine as Tape>⟧.tape self.old).writes }
    {
        self.events.reserve(bytes.len())?;
        push_shown(&mut self.events, bytes);
        Ok(())
    }

    /// Does one event of a machine of the same shape again.
    fn redo(&mut self, event: &Event) -> Result<(), AllocError>
        requires { IsTrue (is_formed_event (⟦<SureMachine as Tape>⟧.tape self.old).form event.now) }
        ensures { OnOk result (Adds (⟦<SureMachine as Tape>⟧.tape self.old) (⟦<SureMachine as Tape>⟧.tape self.new) (event.now ∷ [])) }
    {
        match event {
            Event::Wrote { at, part, words } => {
                self.make_room(self.alloc, 1)?;
                self.write(*at, *part, words.as_slice());
                Ok(())
            }
            Event::Shown { byte } => self.add_shown(&[*byte]),
        }
    }
}
