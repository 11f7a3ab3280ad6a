// The top call on the machine over a pack file, at a moment.
ghost use Rattle.std.specs.Prelude.{map, string_bytes};
ghost use Rattle.disk_records.specs.Addresses.{disks_of};
ghost use Rattle.alto.specs.Faults.{RoseIfFault};
ghost use Rattle.alto_top.specs.Top.{AnswersTo};

use alto_top::{Status, alto, may_write};
use disk_records::Machine;
use std::alloc::Global;

/// Runs what the words after PACK ask for on a machine. The program's is `alto`; a test has its own, to see at which moment it is called.
pub trait Runs {
    /// Whether what these words ask for may write the pack. Where it doesn't, the pack files are opened for reading alone.
    fn may_write(&self, words: &[String]) -> bool;

    /// Runs what these words ask for. `moment` is the time now, in seconds since the start of 1901. The machine holds no record write back, as
    /// a new one.
    fn run<M: Machine>(
        &self,
        alloc: Global,
        words: &[String],
        moment: u32,
        machine: &mut M,
    ) -> Status
        requires handed_on { M.handed_on machine.old }
        ensures cause { RoseIfFault (M.tape machine.old) (M.tape machine.new) result }
        ensures answer { AnswersTo (map string_bytes words.now) (disks_of (M.tape machine.old).form) result };
}

/// The top call of the program: `alto`.
pub struct Alto;

impl Runs for Alto {
    fn may_write(&self, words: &[String]) -> bool {
        may_write(words)
    }

    fn run<M: Machine>(
        &self,
        alloc: Global,
        words: &[String],
        moment: u32,
        machine: &mut M,
    ) -> Status {
        alto(alloc, words, moment, machine)
    }
}
