// Blocks in a memory as a session begins: a worked row, and three blocks of which the middle one is given back first.
ghost use Rattle.std.specs.Prelude.{◌≡◌, length};
ghost use Rattle.laws_zone.specs.world_model.specs.ZoneWords.{IsMemory, memory_length};

use crate::{NotABlock, ZoneError, allocate, check_zone, free_block, inside};
use std::process::Abort;
use std::test::Fail;

/// The end of the zone of such a memory.
const TOP: u16 = 40960;

/// A call; a word is stored or read where it is inside.
#[derive(Clone, Copy, Debug)]
enum Call {
    Block { words: u16 },
    Store { at: u16, word: u16 },
    Fetch { at: u16 },
    Unblock { at: u16 },
}

/// What it answers.
#[derive(Clone, Copy, Debug, PartialEq, Eq)]
enum Said {
    At(u16),
    NoRoom(u16),
    Done,
    Word(u16),
    NotABlock,
}

fn block(memory: &mut [u16], words: u16) -> Said
    requires { IsMemory 40960 memory.old }
    ensures { IsMemory 40960 memory.new }
{
    match allocate(memory, TOP, words.max(1)) {
        Ok(at) => Said::At(at),
        Err(ZoneError::NoRoom { largest }) => Said::NoRoom(largest),
    }
}

fn unblock(memory: &mut [u16], at: u16) -> Said
    requires { IsMemory 40960 memory.old }
    ensures { IsMemory 40960 memory.new }
{
    match free_block(memory, TOP, at) {
        Ok(()) => Said::Done,
        Err(NotABlock) => Said::NotABlock,
    }
}

fn store(memory: &mut [u16], at: u16, word: u16) -> Said
    requires { IsMemory 40960 memory.old }
    ensures { IsMemory 40960 memory.new }
{
    if !inside(memory, TOP, at) {
        return Said::NotABlock;
    }
    memory[usize::from(at)] = word;
    Said::Done
}

fn fetch(memory: &[u16], at: u16) -> Said
    requires { IsMemory 40960 memory.now }
{
    if inside(memory, TOP, at) {
        Said::Word(memory[usize::from(at)])
    } else {
        Said::NotABlock
    }
}

fn answer(memory: &mut [u16], call: Call) -> Said
    requires { IsMemory 40960 memory.old }
    ensures { IsMemory 40960 memory.new }
{
    match call {
        Call::Block { words } => block(memory, words),
        Call::Store { at, word } => store(memory, at, word),
        Call::Fetch { at } => fetch(memory, at),
        Call::Unblock { at } => unblock(memory, at),
    }
}

/// The calls, with what each is to answer.
const CALLS: [(Call, Said); 24] = [
    (Call::Block { words: 100 }, Said::At(1025)),
    (Call::Block { words: 40_000 }, Said::NoRoom(39_833)),
    (Call::Store { at: 1025, word: 7 }, Said::Done),
    (Call::Fetch { at: 1025 }, Said::Word(7)),
    (Call::Store { at: 2000, word: 7 }, Said::NotABlock),
    (Call::Unblock { at: 1025 }, Said::Done),
    (Call::Unblock { at: 1025 }, Said::NotABlock),
    (Call::Block { words: 65_535 }, Said::NoRoom(39_935)),
    (Call::Store { at: 1023, word: 5 }, Said::Done),
    (Call::Fetch { at: 1023 }, Said::Word(5)),
    (Call::Store { at: 1024, word: 5 }, Said::NotABlock),
    // 102 words each, with their tags
    (Call::Block { words: 100 }, Said::At(1025)),
    (Call::Block { words: 101 }, Said::At(1127)),
    (Call::Block { words: 100 }, Said::At(1229)),
    (Call::Store { at: 1126, word: 5 }, Said::NotABlock),
    (Call::Store { at: 1227, word: 9 }, Said::Done),
    (Call::Unblock { at: 1127 }, Said::Done),
    (Call::Fetch { at: 1227 }, Said::NotABlock),
    (Call::Unblock { at: 1025 }, Said::Done),
    // the lowest that has room, and not the one after the third block
    (Call::Block { words: 203 }, Said::At(1025)),
    (Call::Unblock { at: 1025 }, Said::Done),
    (Call::Unblock { at: 1229 }, Said::Done),
    (Call::Block { words: 39_935 }, Said::At(1025)),
    (Call::Fetch { at: 1227 }, Said::Word(0)),
];

/// Makes each call, one after another, and compares what it answers.
fn call_all(rt: &impl Abort, memory: &mut [u16], calls: &[(Call, Said)])
    requires { IsMemory 40960 memory.old }
    ensures { IsMemory 40960 memory.new }
{
    for (call, said) in calls {
        assert_eq!(rt; answer(memory, *call), *said, "{call:?}");
    }
}

/// Makes zeros a memory as a session begins, makes all calls, and checks what they leave.
fn go_through(rt: &impl Abort, memory: &mut [u16]) -> Result<(), Fail>
    requires { length memory.old ≡ memory_length }
{
    memory[1024] = 39_936;
    let Ok(()) = check_zone(memory, TOP) else {
        return Err("the zone of a memory as a session begins".into());
    };
    call_all(rt, memory, &CALLS);
    assert_eq!(rt; check_zone(memory, TOP), Ok(()));
    memory[40_960] = 1;
    assert_eq!(rt; check_zone(memory, TOP), Err(40_960));
    Ok(())
}

#[test]
fn blocks_are_taken_and_given_back(rt: HostRuntime) -> Result<(), Fail> {
    let mut memory = vec![in rt.alloc(); 0; 65_536]?;
    go_through(&rt, &mut memory)
}
