// A line that is obeyed.
ghost use Rattle.disk_records.specs.Causes.{HasCause, IsCause};
ghost use Rattle.disk_records.specs.Frames.{WritesUsable};
ghost use Rattle.disk_records.specs.Tapes.{DiskAlone, added};
ghost use Rattle.exec_session.specs.Ends.{cause_of_reply};
ghost use Rattle.exec_session.specs.Meant.{IfRefused, MayObey, TakesLine, kept};
ghost use Rattle.exec_session.specs.Stops.{cause_of_stop};
ghost use Rattle.exec_words.specs.Built.{is_built};
ghost use Rattle.session_model.specs.Answering.{IsByModel, TakesTurns};
ghost use Rattle.session_model.specs.Keeping.{Formed};
ghost use Rattle.session_model.specs.Turning.{cue_for, is_quit};
ghost use Rattle.std.specs.Prelude.{IsTrue, [], false, true, ◌≡◌, ◌≢◌};

use crate::free::free_pages;
use crate::list::list_names;
use crate::stat::stat_file;
use crate::type_out::type_file;
use disk_records::Disk;
use exec_memory::{
    fetch_word, remove_levels, restore_levels, return_block, set_time, store_word, take_block,
};
use exec_session::{Session, Stop, answer, limit_of, quit, refuse_line, stopped};
use exec_words::{Line, Refusal, Reply};
use exec_writing::{
    append_bytes, copy_file, cut_file, delete_file, make_dir, make_file, patch_bytes, remove_dir,
    rename_file,
};
use std::alloc::Global;

/// Obeys a line that the session takes up, except `quit`: the text of its reply, or why it isn't done.
fn obey_line<D: Disk>(
    alloc: Global,
    session: &mut Session,
    disk: &mut D,
    line: &Line,
) -> Result<Vec<u8>, Stop>
    requires obeys { MayObey (D.tape disk.old) session.old line.now }
    requires built { is_built line.now ≡ true }
    requires no_quit { is_quit line.now ≡ false }
    ensures turns { IsTrue D.told → TakesLine (D.tape disk.old) (D.tape disk.new) session.old session.new line.now result }
    ensures unwritten { IsTrue D.told → IfRefused result (λ r. added (D.tape disk.old) (D.tape disk.new) ≡ []) }
    ensures formed { Formed (D.tape disk.new).form (kept session.new) }
    ensures cause { HasCause cause_of_stop (D.tape disk.old) (D.tape disk.new) result }
    ensures frame { WritesUsable D.told (D.tape disk.old) (D.tape disk.new) }
    ensures alone { DiskAlone (D.tape disk.old) (D.tape disk.new) }
{
    match line {
        Line::ListNames { dir } => list_names(alloc, session, disk, dir),
        Line::TypeOut { file } => type_file(alloc, session, disk, file),
        Line::Stat { file } => stat_file(alloc, session, disk, file),
        Line::Make { path } => make_file(alloc, session, disk, path),
        Line::Append { file, bytes } => append_bytes(alloc, session, disk, file, bytes.as_slice()),
        Line::Patch {
            file,
            offset,
            bytes,
        } => patch_bytes(alloc, session, disk, file, *offset, bytes.as_slice()),
        Line::Cut { file, length } => cut_file(alloc, session, disk, file, *length),
        Line::Copy { file, path } => copy_file(alloc, session, disk, file, path),
        Line::Rename { old_path, new_path } => rename_file(
            alloc, session, disk, old_path, new_path,
        ),
        Line::Delete { path } => delete_file(alloc, session, disk, path),
        Line::MakeDir { name } => make_dir(alloc, session, disk, name),
        Line::RemoveDir { name } => remove_dir(alloc, session, disk, name),
        Line::Free => free_pages(alloc, session, disk),
        Line::SetTime { moment } => set_time(alloc, session, *moment),
        Line::Store { at, word } => store_word(alloc, session, *at, *word),
        Line::Fetch { at } => fetch_word(alloc, session, *at),
        Line::Block { words } => take_block(alloc, session, *words),
        Line::Unblock { at } => return_block(alloc, session, *at),
        Line::Junta { level } => remove_levels(alloc, session, *level),
        Line::CounterJunta => restore_levels(alloc, session),
        Line::OpenStream { .. }
        | Line::Get { .. }
        | Line::PutBytes { .. }
        | Line::Seek { .. }
        | Line::Close { .. }
        | Line::OutLoad { .. }
        | Line::InLoad { .. }
        | Line::Scavenge
        | Line::Quit
        | Line::Bad => Err(Stop::Refused {
            refusal: Refusal::BadLine,
        }),
    }
}

/// Obeys a line, and answers its reply, which isn't shown yet. The caller shows it, ends the session at Quit, DiskFault or Memory, and goes on
/// at Done and Refused.
///
/// Done: all that the line asks for is done, and this is its text. Quit: the line is `quit`, and the pack is closed, unless a scavenge is
/// needed. Refused: the first refusal of the line that holds, by what stands on the pack and what the session keeps, and nothing was written;
/// or HintFailed, by a hint that misled as the line began: a prefix of its record writes is made, and from now on the session needs a
/// scavenge. DiskFault: the device failed, and a prefix of the record writes is made. Memory: none was left, and a prefix of the record writes
/// is made, or all of them and the text is lacking. Scavenge never comes yet: `scavenge` isn't built.
pub fn obey<D: Disk>(alloc: Global, session: &mut Session, disk: &mut D, line: &Line) -> Reply
    requires formed { Formed (D.tape disk.old).form (kept session.old) }
    ensures turns { IsTrue D.told → TakesTurns (D.tape disk.old) (D.tape disk.new) (kept session.old) (kept session.new) (cue_for line.now) result }
    ensures unwritten { IsTrue D.told → IsByModel result → added (D.tape disk.old) (D.tape disk.new) ≡ [] }
    ensures unscavenged { result ≢ Reply.Scavenge }
    ensures limit { (kept session.new).tally.limit ≡ (kept session.old).tally.limit }
    ensures formed { Formed (D.tape disk.new).form (kept session.new) }
    ensures cause { IsCause (D.tape disk.old) (D.tape disk.new) (cause_of_reply result) }
    ensures frame { WritesUsable D.told (D.tape disk.old) (D.tape disk.new) }
    ensures alone { DiskAlone (D.tape disk.old) (D.tape disk.new) }
{
    match refuse_line(session, line) {
        Ok(()) => {}
        Err(stop) => return stopped(session, stop),
    }
    match line {
        Line::Quit => quit(session, disk),
        line => {
            let limit = limit_of(session);
            let done = obey_line(alloc, session, disk, line);
            session.tally.limit = limit;
            answer(session, done)
        }
    }
}
