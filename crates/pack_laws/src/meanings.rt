//! What the record writes of operations and sessions mean, as meanings of moves: the laws of turns hold of each.
//!
//! They differ in what a pack stands for at a crash point alone: it is read, viewed or shown as the model, and can be scavenged.

ghost use Rattle.pack_model.specs.operations.Operations.{Move, weight_of};
ghost use Rattle.pack_model.specs.reading.Model.{Model};
ghost use Rattle.pack_model.specs.sessions.Meanings.{operating, reading, session, showing, viewing};

use crate::turns::Moves;

/// Each crash point is read as the model.
pub struct Reading;

impl Moves for Reading {
    ghost models = { Model };

    ghost moves = { Move };

    ghost means = { reading };

    ghost weight = { weight_of };
}

/// Each crash point is viewed as the model.
pub struct Viewing;

impl Moves for Viewing {
    ghost models = { Model };

    ghost moves = { Move };

    ghost means = { viewing };

    ghost weight = { weight_of };
}

/// Each crash point shows what the model shows.
pub struct Showing;

impl Moves for Showing {
    ghost models = { Model };

    ghost moves = { Move };

    ghost means = { showing };

    ghost weight = { weight_of };
}

/// Each crash point is viewed as the model, and can be scavenged.
pub struct Operating;

impl Moves for Operating {
    ghost models = { Model };

    ghost moves = { Move };

    ghost means = { operating };

    ghost weight = { weight_of };
}

/// Each crash point shows what the model shows, and can be scavenged: so it is in a whole session, a scavenge included.
pub struct Session;

impl Moves for Session {
    ghost models = { Model };

    ghost moves = { Move };

    ghost means = { session };

    ghost weight = { weight_of };
}
