// What holds of every machine that never fails.
ghost use Rattle.disk_memory.specs.Sure.{NoFault};

use crate::sure::SureMachine;
use disk_records::Tape;

/// No count of faults rises from one state of a `SureMachine` to another. So an answer that comes only with a fault, as
/// `DiskError::Failed` or `ConsoleError::Failed`, never comes over it, nor does one of a layer above that comes only so.
pub fn no_fault_of_sure_machine()
    ensures { (before : SureMachine) → (after : SureMachine) → NoFault (⟦<SureMachine as Tape>⟧.tape before) (⟦<SureMachine as Tape>⟧.tape after) }
{}
