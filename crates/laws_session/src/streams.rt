//! From a line on a stream that isn't refused, and from the end of a session, to what the laws of lines ask for;
//! and what lines leave of open streams.

ghost use Rattle.laws_session.specs.StreamLaws.{EndingIsALine, KeptStreamsStand, StreamLineMayBegin, StreamsStayApart, StreamsStayFit};

/// If the pending bytes of each stream begin within its file, a `get`, `putb`, `seek` or `close` that isn't refused is a line as the laws
/// of lines know them.
pub fn stream_line_may_begin()
    ensures { StreamLineMayBegin }
{}

/// If the pending bytes of each stream begin within its file, and each has a file of its own, the last operations of a session, by which
/// its streams are closed, are a line as the laws of lines know them.
pub fn ending_is_a_line()
    ensures { EndingIsALine }
{}

/// The streams that a session keeps are each of an ordinary file of its own, in which their pending bytes begin.
pub fn kept_streams_stand()
    ensures { KeptStreamsStand }
{}

/// If open streams are each of an ordinary file of its own, in which their pending bytes begin, they are so after each line on a sound
/// pack.
pub fn streams_stay_fit()
    ensures { StreamsStayFit }
{}

/// Streams by rising number, each of a file of its own, stay so where one changes, comes or goes, on every machine.
pub fn streams_stay_apart()
    ensures { StreamsStayApart }
{}
