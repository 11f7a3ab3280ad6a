//! Files that were found, over several operations of a line, by what the model says of each.

ghost use Rattle.laws_steps.specs.LineKeepingLaws.{CallKeepsFound, DoneKeepsFound, LaterKeepsFound, MakeKeepsFound, ModelsFoundStaysEntered, NoLeaveKeepsFound, NoneKeepsFound, OneCallKeepsFound, OneKeepsFound, OtherFilesStayFound, SerialAndMakeKeepFound, WrittenKeepsFoundOver};
ghost use Rattle.laws_steps.specs.StreamedLaws.{StreamedFilesStayFound};

/// What the model says of an operation and a file that was found is so of the pack too.
pub fn models_found_stays_entered()
    ensures { ModelsFoundStaysEntered }
{}

/// Before the first operation each file is found that was.
pub fn none_keeps_found()
    ensures { NoneKeepsFound }
{}

/// Over one operation files stay found, by the model before it.
pub fn one_keeps_found()
    ensures { OneKeepsFound }
{}

/// Over a call that is to do one operation files stay found, at Ok.
pub fn one_call_keeps_found<T, E>()
    ensures { OneCallKeepsFound T E }
{}

/// Over a make with its new serial files stay found.
pub fn make_keeps_found()
    ensures { MakeKeepsFound }
{}

/// Files that stay found over some operations, and then over more of them, stay so over all.
pub fn later_keeps_found()
    ensures { LaterKeepsFound }
{}

/// Over operations that are done one after another from a whole and tidy pack files stay found.
pub fn done_keeps_found<E>()
    ensures { DoneKeepsFound E }
{}

/// Over operations of which none drops a file or takes an entry out each file stays found, however it was.
pub fn no_leave_keeps_found()
    ensures { NoLeaveKeepsFound }
{}

/// Over a line of the operating system (`IsKindOfLine`) each file stays found, however it was, that the line neither drops nor gives
/// another name.
pub fn other_files_stay_found()
    ensures { OtherFilesStayFound }
{}

/// Over a line of a session, if its operations are a line (`IsKindOfLine`), the ordinary files of the open streams stay found: one that is
/// streamed is neither dropped nor renamed.
pub fn streamed_files_stay_found()
    ensures { StreamedFilesStayFound }
{}

/// Files stay found over calls that did operations on a whole, tidy and unmarked pack, and then over what is `Written` of one more
/// operation, whichever calls write it.
pub fn written_keeps_found_over<U, F>()
    ensures { WrittenKeepsFoundOver U F }
{}

/// Files stay found over calls that did operations on a whole, tidy and unmarked pack, and over one more call that is to do one, at Ok.
pub fn call_keeps_found<T, U, E, F>()
    ensures { CallKeepsFound T U E F }
{}

/// Files stay found over calls that did operations on a whole, tidy and unmarked pack, and then over a new serial and the call that is to
/// do its make, at Ok.
pub fn serial_and_make_keep_found<T, U, E, F>()
    ensures { SerialAndMakeKeepFound T U E F }
{}
