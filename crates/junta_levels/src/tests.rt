// Levels that go and come back over one memory, as a session begins with it.
ghost use Rattle.std.specs.Prelude.{◌≡◌, ◌≤◌, length};
ghost use Rattle.zones.specs.world_model.specs.Levels.{IsAtLevel, all_levels};
ghost use Rattle.zones.specs.world_model.specs.ZoneWords.{memory_length};

use crate::{InUse, base_of, counter_junta, junta};
use std::alloc::{AllocError, Global};
use std::process::Abort;
use std::test::Fail;
use zones::{NotABlock, ZoneError, allocate, check_zone, free_block};

/// A call on a memory and the level that it is at.
#[derive(Clone, Copy, Debug)]
enum Call {
    Junta { to: u8 },
    CounterJunta,
    Block { words: u16 },
    Unblock { at: u16 },
    Check { top: u16 },
}

/// What it answers.
#[derive(Clone, Copy, Debug, PartialEq, Eq)]
enum Said {
    Level(u8),
    InUse(u16),
    Broken(u32),
    At(u16),
    NoRoom(u16),
    Done,
    NotABlock,
}

/// That, and whether it leaves each word of the memory as it was.
#[derive(Clone, Copy, Debug, PartialEq, Eq)]
enum Left {
    Same(Said),
    Changed(Said),
}

fn remove(memory: &mut [u16], level: &mut u8, to: u8) -> Said
    requires { IsAtLevel level.old memory.old }
    ensures { IsAtLevel level.new memory.new }
{
    *level = junta(memory, *level, to.max(1).min(8));
    Said::Level(*level)
}

fn bring_back(memory: &mut [u16], level: &mut u8) -> Said
    requires { IsAtLevel level.old memory.old }
    ensures { IsAtLevel level.new memory.new }
{
    match counter_junta(memory, *level) {
        Ok(()) => {
            *level = 8;
            Said::Level(8)
        }
        Err(InUse { at }) => Said::InUse(at),
    }
}

fn block(memory: &mut [u16], level: u8, words: u16) -> Said
    requires { IsAtLevel level memory.old }
    ensures { IsAtLevel level memory.new }
{
    match allocate(memory, base_of(level), words.max(1)) {
        Ok(at) => Said::At(at),
        Err(ZoneError::NoRoom { largest }) => Said::NoRoom(largest),
    }
}

fn unblock(memory: &mut [u16], level: u8, at: u16) -> Said
    requires { IsAtLevel level memory.old }
    ensures { IsAtLevel level memory.new }
{
    match free_block(memory, base_of(level), at) {
        Ok(()) => Said::Done,
        Err(NotABlock) => Said::NotABlock,
    }
}

fn check(memory: &[u16], top: u16) -> Said
    requires { length memory.now ≡ memory_length }
{
    match check_zone(memory, top.max(1026)) {
        Ok(()) => Said::Done,
        Err(at) => Said::Broken(at),
    }
}

fn answer(memory: &mut [u16], level: &mut u8, call: Call) -> Said
    requires { IsAtLevel level.old memory.old }
    ensures { IsAtLevel level.new memory.new }
{
    match call {
        Call::Junta { to } => remove(memory, level, to),
        Call::CounterJunta => bring_back(memory, level),
        Call::Block { words } => block(memory, *level, words),
        Call::Unblock { at } => unblock(memory, *level, at),
        Call::Check { top } => check(memory, top),
    }
}

fn answer_and_compare(
    alloc: Global,
    memory: &mut [u16],
    level: &mut u8,
    call: Call,
) -> Result<Left, AllocError>
    requires { IsAtLevel level.old memory.old }
    ensures { IsAtLevel level.new memory.new }
{
    let before = memory.to_vec(alloc)?;
    let said = answer(memory, level, call);
    if &memory[..] == before.as_slice() {
        Ok(Left::Same(said))
    } else {
        Ok(Left::Changed(said))
    }
}

/// The calls, with what each is to answer and to leave, over one memory that begins at level 8.
const CALLS: [(Call, Left); 9] = [
    (Call::Junta { to: 2 }, Left::Changed(Said::Level(2))),
    // more words than the zone has at level 8
    (Call::Block { words: 60_000 }, Left::Changed(Said::At(1025))),
    (Call::CounterJunta, Left::Same(Said::InUse(1025))),
    (Call::Unblock { at: 1025 }, Left::Changed(Said::Done)),
    (Call::CounterJunta, Left::Changed(Said::Level(8))),
    (Call::Check { top: 40_960 }, Left::Same(Said::Done)),
    (Call::CounterJunta, Left::Same(Said::Level(8))),
    (Call::Junta { to: 5 }, Left::Changed(Said::Level(5))),
    (Call::Junta { to: 7 }, Left::Same(Said::Level(5))),
];

/// Makes each call, one after another, and compares what it answers and leaves.
fn call_all(
    rt: &impl Abort,
    alloc: Global,
    memory: &mut [u16],
    calls: &[(Call, Left)],
) -> Result<(), Fail>
    requires { IsAtLevel 8 memory.old }
{
    let mut level = 8;
    for (call, left) in calls {
        assert_eq!(rt;
            answer_and_compare(alloc, memory, &mut level, *call)?,
            *left,
            "{call:?}"
        );
    }
    Ok(())
}

/// Makes zeros a memory as a session begins, and makes all calls.
fn go_through(rt: &impl Abort, alloc: Global, memory: &mut [u16]) -> Result<(), Fail>
    requires { length memory.old ≡ memory_length }
{
    memory[1024] = 39_936;
    let Ok(()) = check_zone(memory, base_of(8)) else {
        return Err("the zone of a memory as a session begins".into());
    };
    call_all(rt, alloc, memory, &CALLS)
}

#[test]
fn levels_go_and_come_back(rt: HostRuntime) -> Result<(), Fail> {
    let mut memory = vec![in rt.alloc(); 0; 65_536]?;
    go_through(&rt, rt.alloc(), &mut memory)
}

/// The bases of levels 1 to 8.
const BASES: [u16; 8] = [
    64_512, 63_488, 61_440, 57_344, 53_248, 49_152, 45_056, 40_960,
];

#[test]
fn bases_of_all_levels(rt: HostRuntime) {
    for (i, base) in BASES.iter().enumerate() {
        assert_eq!(rt; base_of(i as u8 + 1), *base, "level {}", i + 1);
    }
}
