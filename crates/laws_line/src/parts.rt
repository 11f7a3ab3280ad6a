//! What holds of the pack at each crash point, by parts of the events and at each of them; and moves whose crash points can be scavenged.
//!
//! The first three laws hold of any property of packs. `CanBeMended` is one.

ghost use Rattle.laws_line.specs.PartLaws.{CrashByCrash, CrashesOfBothParts, CrashesOfParts, LineMovesLeadToTheModel, MovesOfALineSplit, OperationsAreInSession, ReadAndMendableOperates, ViewedAndMendableInSession, ViewedAndMendableOperates};
ghost use Rattle.disk_records.specs.Packs.{Pack};
ghost use Rattle.pack_model.specs.sessions.Meanings.{Mendable};

/// A property of packs, of which the laws are stated. It has no functions.
pub trait Property {
    /// What it says of a pack.
    ghost holds: { Pack → Type 0 };
}

/// The Scavenger takes the pack, and it is clean only where it is sound.
pub struct CanBeMended;

impl Property for CanBeMended {
    ghost holds = { Mendable };
}

/// What holds at each crash point holds at each crash point of first events, as where a call was broken off, and of the others from there
/// on.
pub fn crashes_of_parts<X: Property>()
    ensures { CrashesOfParts X.holds }
{}

/// What holds at each crash point of some events, and of others from there on, holds at each crash point of both.
pub fn crashes_of_both_parts<X: Property>()
    ensures { CrashesOfBothParts X.holds }
{}

/// What holds throughout some events holds at each crash point by its number of events, and the other way round.
pub fn crash_by_crash<X: Property>()
    ensures { CrashByCrash X.holds }
{}

/// Record writes whose crash points are viewed as the models of their moves and can be scavenged are those of operations.
pub fn viewed_and_mendable_operates()
    ensures { ViewedAndMendableOperates }
{}

/// Record writes whose crash points are viewed as the models of their moves and can be scavenged are those of a session.
pub fn viewed_and_mendable_in_session()
    ensures { ViewedAndMendableInSession }
{}

/// Record writes of operations are those of a session.
pub fn operations_are_in_session()
    ensures { OperationsAreInSession }
{}

/// Record writes whose crash points are read as the models of their moves and can be scavenged are those of operations.
pub fn read_and_mendable_operates()
    ensures { ReadAndMendableOperates }
{}

/// The moves of a line's operations are those of the first ones, of the next one with its serial, and of the later ones.
pub fn moves_of_a_line_split()
    ensures { MovesOfALineSplit }
{}

/// The moves of a line lead to the model after its operations, from which the next line goes on.
pub fn line_moves_lead_to_the_model()
    ensures { LineMovesLeadToTheModel }
{}
