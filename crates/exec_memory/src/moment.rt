// `settime`: the moment of later dates.
ghost use Rattle.exec_memory.specs.Alone.{IsRefusalOrMemory, IsSameButMoment, MayTake, StaysFormed, TakesAlone};
ghost use Rattle.exec_words.specs.declared.line.Line.TheVariants as line;
ghost use Rattle.std.specs.Prelude.{IfErr, OnErr, ◌≡◌};

use exec_session::{Session, Stop};
use exec_words::done_text;
use std::alloc::Global;

/// Gives a session the moment of later dates, in seconds since the start of 1901, and answers the text of `settime`.
///
/// Memory: none was left for the text, and the moment is as it was.
pub fn set_time(alloc: Global, session: &mut Session, moment: u32) -> Result<Vec<u8>, Stop>
    requires may { MayTake session.old (line.SetTime moment) }
    ensures turns { TakesAlone session.old session.new (line.SetTime moment) result }
    ensures formed { StaysFormed session.old session.new }
    ensures stops { IfErr result IsRefusalOrMemory }
    ensures memory { IfErr result (λ error. error ≡ Stop.Memory) }
    ensures left { OnErr result (session.new ≡ session.old) }
    ensures alone { IsSameButMoment session.old session.new }
{
    let text = done_text(alloc)?;
    session.moment = moment;
    Ok(text)
}
