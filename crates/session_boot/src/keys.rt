// Keys as lines.
ghost use Rattle.std.specs.Prelude.{◌≡◌, ◌<◌, ◌≤◌, length, IfOk, IfSome, IsTrue, OnOk};
ghost use Rattle.disk_records.specs.Tapes.{KeysAlone};
ghost use Rattle.session_boot.specs.Faults.{HasKeyCause, NoFault};
ghost use Rattle.session_boot.specs.Keys.{FitsIn, IfPart, TookLine, TookPiece};

use crate::status::Fault;
use disk_records::{Console, ConsoleError, LINE_END};

/// At most 2^31 typed bytes are obeyed in one session.
pub(crate) const MOST_KEYS: u32 = 1 << 31;

/// A line has at most 4,096 bytes; a longer one is read to its end and is a bad line.
pub(crate) const LONGEST_LINE: usize = 4096;

/// The bytes of a buffer for lines: those that are kept of the longest one, and 1,024 more, so that there is always room for a piece.
pub(crate) const LINE_ROOM: usize = LONGEST_LINE + 1 + 1024;

/// What one call takes of a line: a piece of it, at the front of a buffer.
enum Piece {
    /// None: no key is left.
    End,
    /// So many keys, and the line goes on.
    Part(usize),
    /// So many keys, and then the one that ended the line.
    Last(usize),
}

/// Takes a piece of a line to the front of `buf`, and no key past the line's end. `End` exactly at the end of input. Where keys may have to
/// be waited for, the display has to have what was shown.
fn next_piece<C: Console>(console: &mut C, buf: &mut [u8]) -> Result<Piece, Fault>
    requires some { 0 < length buf.old }
    requires answered { C.waits console.old → C.displayed console.old }
    ensures piece { IsTrue C.told → TookPiece (C.tape console.old).keys (C.tape console.new).keys buf.new result }
    ensures fits { IfOk result (FitsIn (length buf.old)) }
    ensures displayed { C.displayed console.old → C.displayed console.new }
    ensures goes_on { IfPart result (C.waits console.new → C.waits console.old) }
    ensures cause { HasKeyCause (C.tape console.old) (C.tape console.new) result }
    ensures unfailed { OnOk result (NoFault (C.tape console.old) (C.tape console.new)) }
    ensures alone { KeysAlone (C.tape console.old) (C.tape console.new) }
{
    match console.read_piece(buf) {
        Ok(0) => Ok(Piece::End),
        Ok(n) if buf[n - 1] == LINE_END => Ok(Piece::Last(n - 1)),
        Ok(n) => Ok(Piece::Part(n)),
        Err(ConsoleError::Failed) => Err(Fault::Key),
        Err(ConsoleError::Memory) => Err(Fault::Memory),
    }
}

/// Takes the keys of one line by `read_piece`, which never goes past its end, to the front of `buffer`, and answers how many bytes it
/// keeps of them: the first 4,097, without the byte 10 that ends the line. The last line may end with the input. `left` is the number
/// of keys that still count; None where no key is left of them, and from then on. It takes no memory of its own, and a call that fails
/// takes no key, so a line that was taken whole is never lost.
///
/// Key and Memory: as from `read_piece`. A part of the line may have been taken.
pub(crate) fn take_line<C: Console>(
    console: &mut C,
    buffer: &mut [u8],
    left: &mut u32,
) -> Result<Option<usize>, Fault>
    requires room { 4097 < length buffer.old }
    requires answered { C.waits console.old → C.displayed console.old }
    ensures left { left.new ≤ left.old }
    ensures line { IsTrue C.told → TookLine (C.tape console.old).keys (C.tape console.new).keys left.old left.new buffer.new result }
    ensures fits { IfOk result (λ line. IfSome line (λ kept. kept ≤ length buffer.old)) }
    ensures cause { HasKeyCause (C.tape console.old) (C.tape console.new) result }
    ensures unfailed { OnOk result (NoFault (C.tape console.old) (C.tape console.new)) }
    ensures alone { KeysAlone (C.tape console.old) (C.tape console.new) }
{
    // A piece is put right after what is kept. Of an overlong line each writes over what the last one put past the first 4,097 bytes.
    let mut kept = 0;
    while *left > 0 {
        let room = buffer.len() - kept;
        let most = room.min(*left as usize);
        match next_piece(console, &mut buffer[kept..kept + most])? {
            Piece::End => break,
            Piece::Part(count) => {
                kept = (kept + count).min(LONGEST_LINE + 1);
                *left -= count as u32;
            }
            Piece::Last(count) => {
                kept = (kept + count).min(LONGEST_LINE + 1);
                *left -= count as u32 + 1;
                return Ok(Some(kept));
            }
        }
    }
    *left = 0;
    if kept == 0 {
        return Ok(None);
    }
    Ok(Some(kept))
}
