// What a line is answered, and what a hint that failed leaves.
ghost use Rattle.exec_session.specs.Meant.{kept, kept_replied, kept_stopped, replied, stopped};
ghost use Rattle.std.specs.Prelude.{◌≡◌};

use crate::session::Session;
use crate::stop::Stop;
use crate::streams::SessionStreams;
use alto_words::List;
use exec_words::{Refusal, Reply};

/// The reply to a line that is done with this text, or that isn't done. After a hint failed the session needs a scavenge.
pub fn answer(session: &mut Session, done: Result<Vec<u8>, Stop>) -> Reply
    ensures reply { result ≡ replied done }
    ensures kept { (kept session.new) ≡ kept_replied done (kept session.old) }
{
    match done {
        Ok(text) => Reply::Done {
            text: List::from_vec(text),
        },
        Err(stop) => stopped(session, stop),
    }
}

/// The reply to a line, or to the end of a session, that isn't done. After a hint failed the session needs a scavenge.
pub fn stopped(session: &mut Session, stop: Stop) -> Reply
    ensures reply { result ≡ stopped stop }
    ensures kept { (kept session.new) ≡ kept_stopped stop (kept session.old) }
{
    match stop {
        Stop::Refused { refusal } => Reply::Refused { refusal },
        Stop::Misled {
            place,
            at,
            wanted,
            found,
        } => {
            session.streams = SessionStreams::none();
            session.need = true;
            Reply::Refused {
                refusal: Refusal::HintFailed {
                    place,
                    at,
                    wanted,
                    found,
                },
            }
        }
        Stop::DiskFault => Reply::DiskFault,
        Stop::Memory => Reply::Memory,
    }
}
