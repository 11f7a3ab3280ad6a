//! Which call is a step of a line, how steps join, and how a line that is done or broke off is a turn: each law is what a function of
//! its name ensures. The functions do nothing.
ghost use Rattle.exec_steps.specs.Lines.{LineIsDone, LineKeepsItsStreams, LineStops, LinesBreakOff};
ghost use Rattle.exec_steps.specs.Several.{DoesIsAStep, LooksMidwayStop, QuietIsAStep};
ghost use Rattle.exec_steps.specs.Steps.{CallIsAStep, StepStops, StepsJoin};
ghost use Rattle.exec_steps.specs.Streamed.{StreamsStayFound};

/// A call that is to do one operation, on a machine that counts its record writes, is a step with it from wherever a line is midway.
pub fn call_is_a_step<T>()
    ensures { CallIsAStep T }
{}

/// Two steps of a line, one after the other, are a step with the operations of both.
pub fn steps_join<T, U>()
    ensures { StepsJoin T U }
{}

/// A step that isn't done ends what was to come after it, too.
pub fn step_stops<T, U>()
    ensures { StepStops T U }
{}

/// A call that only looked, on a machine that counts its record writes, is a step without an operation from wherever a line is midway.
pub fn quiet_is_a_step<T>()
    ensures { QuietIsAStep T }
{}

/// A call that only looked while a line is midway, and answered an error, is a step that isn't done: the line broke off there, and a hint
/// that misled the call did so as the line began.
pub fn looks_midway_stop<T>()
    ensures { LooksMidwayStop T }
{}

/// A call that is to do several operations (`Does`), whatever it answers, is a step with them from wherever a line is midway.
pub fn does_is_a_step<T>()
    ensures { DoesIsAStep T }
{}

/// Over the operations of a line that begins, and that fits the pack, the files of the streams that are kept open stay found.
pub fn streams_stay_found()
    ensures { StreamsStayFound }
{}

/// A line whose operations are all done is answered by its plain reply.
pub fn line_is_done()
    ensures { LineIsDone }
{}

/// A line that leaves the world, and over which the files of the open streams are found still, ends as the model's does.
pub fn line_keeps_its_streams()
    ensures { LineKeepsItsStreams }
{}

/// A line that broke off, before its first record write, as it opened the mark, in a step or after some, made a prefix of its moves.
pub fn lines_break_off<T>()
    ensures { LinesBreakOff T }
{}

/// A line that broke off is answered by a fault, by out of memory, or by a hint that misled.
pub fn line_stops()
    ensures { LineStops }
{}
