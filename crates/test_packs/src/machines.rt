// Machines over packs of two cylinders.
ghost use Rattle.std.specs.Prelude.{◌≡◌, IfOk, IfErr, length};
ghost use Rattle.disk_records.specs.Addresses.{disks_of, cylinders_of};
ghost use Rattle.disk_memory.specs.Failing.{IsFresh};
ghost use Rattle.test_packs.specs.Samples.{IsErrorOf, IsOver};

use disk_memory::{MemMachine, NewError, SureMachine};
use disk_records::{Sector, Shape, Tape};
use std::alloc::Global;

/// The shape of one drive with two cylinders: 48 sectors.
pub fn small_shape() -> Shape
    ensures disks { disks_of result ≡ 1 }
    ensures cylinders { cylinders_of result ≡ 2 }
{
    match Shape::new(1, 2) {
        Some(shape) => shape,
        None => unreachable!(),
    }
}

/// A machine that never fails, over these sectors, with these keys to be read. WrongCount: there aren't 48. Memory: none was
/// left for the keys or for a copy of the sectors.
pub fn sure_machine(
    alloc: Global,
    sectors: Vec<Sector>,
    keys: &[u8],
) -> Result<SureMachine, NewError>
    ensures ok { IfOk result (λ machine. IsOver sectors.items keys.now (⟦<SureMachine as Tape>⟧.tape machine)) }
    ensures err { IfErr result (IsErrorOf (length sectors.items)) }
{
    let Ok(keys) = keys.to_vec(alloc) else {
        return Err(NewError::Memory);
    };
    SureMachine::new(alloc, small_shape(), sectors, keys)
}

/// A machine that fails where it is set to, and is set to nothing yet, over these sectors, with these keys to be read. WrongCount: there
/// aren't 48. Memory: none was left for the keys or for a copy of the sectors.
pub fn failing_machine(
    alloc: Global,
    sectors: Vec<Sector>,
    keys: &[u8],
) -> Result<MemMachine, NewError>
    ensures ok { IfOk result (λ machine. IsOver sectors.items keys.now (⟦<MemMachine as Tape>⟧.tape machine)) }
    ensures fresh { IfOk result IsFresh }
    ensures err { IfErr result (IsErrorOf (length sectors.items)) }
{
    let Ok(keys) = keys.to_vec(alloc) else {
        return Err(NewError::Memory);
    };
    MemMachine::new(alloc, small_shape(), sectors, keys)
}
