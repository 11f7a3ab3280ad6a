//! A file by its serial: the least leader of a sweep is the one that the model means.

ghost use Rattle.laws_steps.specs.SerialLaws.{SerialIsTheModels};

/// On a whole pack the least full name with a serial, of the leaders that a sweep of all sectors meets, is the file that the model has by
/// this serial, and its leader is in the sector where it was met.
pub fn serial_is_the_models()
    ensures { SerialIsTheModels }
{}
