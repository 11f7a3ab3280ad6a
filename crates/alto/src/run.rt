// One run of the program, over any runtime, clock and top call.
ghost use Rattle.std.specs.Prelude.{◌≡◌, ◌↔◌, map, string_bytes, is_some, IfOk, IfErr, IfSome, IsErrOf};
ghost use Rattle.disk_records.specs.Addresses.{disks_of, cylinders_of};
ghost use Rattle.disk_image.specs.Machines.{IsUntouched};
ghost use Rattle.alto.specs.CommandLines.{IsFaulty, HasRange};
ghost use Rattle.alto.specs.Running.{IsRefusal, IsHelpStop, IsCallEnd, IsEnd, drives};

use crate::clock::read_moment;
use crate::command_line::{Call, CommandLine, read_command_line, words_after_name};
use crate::end::Stop;
use crate::help::help_text;
use crate::top::{Alto, Runs};
use alto_top::Status;
use disk_image::{FileMachine, Lockable, ReachError};
use disk_records::Tape;
use std::env;
use std::io::{ErrorKind, Input};
use std::os::unix::fs::FileExt;
use std::rt::{Clock, Env, Files, Runtime};

/// The program's name and the words that it was started with. One that isn't UTF-8 makes no command line.
fn read_args<R: Env + AllocGlobal>(rt: &R) -> Result<Vec<String>, Stop> {
    match env::args(rt) {
        Ok(args) => Ok(args.collect(rt.alloc())?),
        Err(error) => if error.kind() == ErrorKind::OutOfMemory {
            Err(Stop::Memory)
        } else {
            Err(Stop::Words)
        },
    }
}

/// Prints the help to standard output, in one write call.
fn print_help<R: Print + AllocGlobal>(rt: &R) -> Result<Status, Stop>
    ensures ok { IfOk result (λ status. status ≡ Status.Done) }
    ensures err { IfErr result IsHelpStop }
{
    let text = help_text(rt.alloc())?;
    match rt.write_all(text.as_bytes()) {
        Ok(()) => Ok(Status::Done),
        Err(_) => Err(Stop::Display),
    }
}

/// The machine that a command line asks for: over two drives where it names a PACK2, and over new pack files where it names a number of
/// cylinders, else over those that are there, which are opened for reading alone unless the words may write.
fn machine_of<'a, R: Files + Input + Print + AllocGlobal>(
    rt: &'a R,
    call: Call<'_>,
    may_write: bool,
) -> Result<FileMachine<'a, R>, ReachError>
where
    R::File: Lockable,
    requires range { HasRange call }
    ensures untouched { IfOk result (λ machine. IsUntouched (⟦<FileMachine<'a, R> as Tape>⟧.tape machine)) }
    ensures handed_on { IfOk result (λ machine. ⟦<FileMachine<'a, R> as Tape>⟧.handed_on machine) }
    ensures disks { IfOk result (λ machine. disks_of (⟦<FileMachine<'a, R> as Tape>⟧.tape machine).form ≡ drives (is_some call.entry.second)) }
    ensures form { IfSome call.entry.cylinders (λ cylinders. IfOk result (λ machine. cylinders_of (⟦<FileMachine<'a, R> as Tape>⟧.tape machine).form ≡ cylinders)) }
    ensures err { IfErr result (IsRefusal call.entry.cylinders (is_some call.entry.second)) }
{
    let alloc = rt.alloc();
    let path = call.path;
    match (call.cylinders, call.second) {
        (Some(cylinders), Some(second)) => {
            FileMachine::create_two(rt, alloc, path, second, cylinders)
        }
        (Some(cylinders), None) => FileMachine::create(rt, alloc, path, cylinders),
        (None, Some(second)) => if may_write {
            FileMachine::reach_two(rt, alloc, path, second)
        } else {
            FileMachine::reach_two_to_read(rt, alloc, path, second)
        },
        (None, None) => if may_write {
            FileMachine::reach(rt, alloc, path)
        } else {
            FileMachine::reach_to_read(rt, alloc, path)
        },
    }
}

/// Does on its machine what a command line asks for, at the moment of a reading of the clock. Else only `run_words`, which hands the
/// clock on, and `run`, which has the whole runtime, could read one here; that a run reads it once at most is tested.
fn run_call<R: Files + Input + Print + AllocGlobal, C: Clock, T: Runs>(
    rt: &R,
    clock: &C,
    top: &T,
    call: Call<'_>,
) -> Result<Status, Stop>
where
    R::File: FileExt + Lockable,
    requires range { HasRange call }
    ensures end { IsCallEnd call.entry.cylinders (is_some call.entry.second) (map string_bytes call.entry.words.now) result }
{
    let mut machine = machine_of(rt, call, top.may_write(call.words))?;
    Ok(top.run(rt.alloc(), call.words, read_moment(clock), &mut machine))
}

/// Does what the words after the program's name ask for.
pub fn run_words<R: Files + Input + Print + AllocGlobal, C: Clock, T: Runs>(
    rt: &R,
    clock: &C,
    top: &T,
    words: &[String],
) -> Result<Status, Stop>
where
    R::File: FileExt + Lockable,
    ensures faulty { IsErrOf result Stop.Words ↔ IsFaulty (map string_bytes words.now) }
    ensures end { IsEnd (map string_bytes words.now) result }
{
    match read_command_line(words) {
        CommandLine::Help => print_help(rt),
        CommandLine::Machine(call) => run_call(rt, clock, top, call),
        CommandLine::Nothing => Err(Stop::Words),
    }
}

/// Does what the words that the program was started with ask for.
pub fn run<R: Runtime + AllocGlobal>(rt: &R) -> Result<Status, Stop>
where
    R::File: FileExt + Lockable,
{
    let args = read_args(rt)?;
    run_words(rt, rt, &Alto, words_after_name(&args))
}
