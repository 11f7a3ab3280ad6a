// `fetch`: a word of the memory.
ghost use Rattle.exec_memory.specs.Alone.{IsRefusalOrMemory, MayTake, TakesAlone};
ghost use Rattle.exec_words.specs.declared.line.Line.TheVariants as line;
ghost use Rattle.std.specs.Prelude.{IfErr};

use crate::words::is_storable;
use exec_session::{Session, Stop, refused};
use exec_words::{Refusal, word_text};
use std::alloc::Global;

/// The text of `fetch`: the word at the address `at`, in decimal.
///
/// NotABlock: the word is neither one of the user's, before word 1,024, nor a usable one of a used block. Memory: none was left for the text.
pub fn fetch_word(alloc: Global, session: &Session, at: u16) -> Result<Vec<u8>, Stop>
    requires may { MayTake session.now (line.Fetch at) }
    ensures turns { TakesAlone session.now session.now (line.Fetch at) result }
    ensures stops { IfErr result IsRefusalOrMemory }
{
    if !is_storable(&session.world, at) {
        return refused(Refusal::NotABlock);
    }
    Ok(word_text(alloc, session.world.memory.as_slice()[usize::from(at)])?)
}
