//! Calls one after another as the operations of a line.

ghost use Rattle.laws_call.specs.GoingLaws.{CallJoins, LineStops, NoCallYet, OperationJoins, SerialAndMakeJoin, SilentCallJoins};

/// Before the first call no operation is done.
pub fn no_call_yet<T, E>()
    ensures { NoCallYet T E }
{}

/// A call that is to do an operation goes on with the line, at each of its answers.
pub fn call_joins<T, U, E, F>()
    ensures { CallJoins T U E F }
{}

/// Some first record writes of an operation, whichever calls make them, go on with the line.
pub fn operation_joins<T, U, E, F>()
    ensures { OperationJoins T U E F }
{}

/// A call that writes nothing leaves the line where it is, at each of its answers.
pub fn silent_call_joins<T, U, E, F>()
    ensures { SilentCallJoins T U E F }
{}

/// A line that ends with an error has done a prefix of it.
pub fn line_stops<T, U, E, F>()
    ensures { LineStops T U E F }
{}

/// A new serial and the make that it is for are one step of a line; a break between them, or within the serial, is a prefix of it.
pub fn serial_and_make_join<T, U, E, F>()
    ensures { SerialAndMakeJoin T U E F }
{}
