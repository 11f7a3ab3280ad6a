// `stat`: what is known of a file without its bytes.
ghost use Rattle.disk_records.specs.Causes.{HasCause};
ghost use Rattle.disk_records.specs.Tapes.{DiskAlone, added, pack};
ghost use Rattle.executive.specs.Reads.{IsLeaderOf, ReadsRight};
ghost use Rattle.exec_session.specs.Meant.{IfHint, IfRefused, LooksAbout, MayObey, Stays, TakesLine};
ghost use Rattle.exec_session.specs.Stops.{cause_of_stop};
ghost use Rattle.exec_words.specs.Texts.{stat_text};
ghost use Rattle.leader_page.specs.Pages.{said};
ghost use Rattle.pack_model.specs.reading.Leaders.{leader_of};
ghost use Rattle.pack_model.specs.states.Sound.{Sound};
ghost use Rattle.page_seeking.specs.Refs.{FileIsFrom, MisledBy};
ghost use Rattle.std.specs.Prelude.{IfOk, IsTrue, [], ◌*◌, ◌≡◌};
ghost use Rattle.exec_words.specs.declared.line.Line.TheVariants as line;

use disk_records::{Disk, Sector};
use exec_session::{FileRef, Session, Stop, find_target, length_of, refuse_descriptor};
use exec_words::{Stat, Target, stat_text};
use leader_page::Leader;
use page_seeking::locate;
use std::alloc::Global;

/// What the leader of a file says.
fn read_leader<D: Disk>(session: &mut Session, disk: &mut D, file: &FileRef) -> Result<Leader, Stop>
    ensures leader { IsTrue D.told → IfOk result (λ l. IsLeaderOf (pack (D.tape disk.old)) file.now.fid (said l)) }
    ensures unrefused { IfRefused result (λ r. ⊥) }
    ensures misled { IsTrue D.told → FileIsFrom (pack (D.tape disk.old)) file.now → IfHint result (MisledBy (pack (D.tape disk.old)) [] file.now.fid) }
    ensures cause { HasCause cause_of_stop (D.tape disk.old) (D.tape disk.new) result }
    ensures looks { LooksAbout D.told 53 (D.tape disk.old) (D.tape disk.new) session.old session.new }
{
    let mut buf = Sector::ZEROS;
    locate(disk, &mut session.hints, file, 0, &mut buf)?;
    Ok(Leader::of_file(file.fid, &buf.value))
}

/// What is known of the file that an operand means.
fn find_stat<D: Disk>(session: &mut Session, disk: &mut D, target: &Target) -> Result<Stat, Stop>
    ensures reads { IsTrue D.told → Sound (pack (D.tape disk.old)) → ReadsRight (pack (D.tape disk.old)) (line.Stat target.now) stat_text result }
    ensures cause { HasCause cause_of_stop (D.tape disk.old) (D.tape disk.new) result }
    ensures looks { LooksAbout D.told (65588 * 131074) (D.tape disk.old) (D.tape disk.new) session.old session.new }
{
    let file = find_target(session, disk, target)?;
    refuse_descriptor(file.fid)?;
    // on a sound pack the slots of a directory are all of its bytes
    let length = length_of(session, disk, &file)?;
    let leader = read_leader(session, disk, &file)?;
    Ok(Stat {
        fid: file.fid,
        length,
        created: leader.created,
        written: leader.written,
        read: leader.read,
        name: leader.name,
    })
}

/// The text of `stat`: a file's serial, length, pages and dates, and the name in its leader.
///
/// NoSuchName: the file isn't there. SystemFile: it is DiskDescriptor. Misled: an address on the way to it is wrong, or one of its links.
/// DiskFault: the device failed. Memory: none was left for the text.
pub(crate) fn stat_file<D: Disk>(
    alloc: Global,
    session: &mut Session,
    disk: &mut D,
    target: &Target,
) -> Result<Vec<u8>, Stop>
    requires obeys { MayObey (D.tape disk.old) session.old (line.Stat target.now) }
    ensures turns { IsTrue D.told → TakesLine (D.tape disk.old) (D.tape disk.new) session.old session.new (line.Stat target.now) result }
    ensures silent { IsTrue D.told → added (D.tape disk.old) (D.tape disk.new) ≡ [] }
    ensures stays { Stays (D.tape disk.new) session.old session.new }
    ensures cause { HasCause cause_of_stop (D.tape disk.old) (D.tape disk.new) result }
    ensures alone { DiskAlone (D.tape disk.old) (D.tape disk.new) }
{
    let stat = find_stat(session, disk, target)?;
    Ok(stat_text(alloc, &stat)?)
}
