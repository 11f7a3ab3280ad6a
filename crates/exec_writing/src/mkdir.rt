// `mkdir`: a new directory.
ghost use Rattle.alto_words.specs.Names.{is_bare_name};
ghost use Rattle.disk_records.specs.Causes.{HasCause};
ghost use Rattle.disk_records.specs.Frames.{WritesUsable};
ghost use Rattle.disk_records.specs.Tapes.{DiskAlone, added, pack};
ghost use Rattle.exec_writing.specs.Entries.{OperandsRefuse, PlansDir};
ghost use Rattle.exec_session.specs.Meant.{IfHint, IfRefused, LooksAbout, MayObey, Stays, TakesLine};
ghost use Rattle.exec_session.specs.Stops.{cause_of_stop};
ghost use Rattle.exec_words.specs.declared.line.Line.TheVariants as line;
ghost use Rattle.pack_model.specs.reading.Model.{read_as};
ghost use Rattle.pack_model.specs.states.Sound.{Sound};
ghost use Rattle.session_model.specs.Touched.{files_named};
ghost use Rattle.session_model.specs.Turning.{HintFailing};
ghost use Rattle.std.specs.Prelude.{IfOk, IsErrOf, IsTrue, [], true, ◌*◌, ◌≡◌};

use crate::add_file::add_file;
use alto_words::Name;
use disk_records::Disk;
use exec_session::{ROOT, Session, Stop, refuse_held_base};
use exec_steps::{NewEntry, plan_entry};
use exec_words::made_text;
use std::alloc::Global;

/// Plans the entry of the new directory in SysDir.
///
/// NameTaken: some entry of SysDir has the name as its base.
fn plan_dir<D: Disk>(session: &mut Session, disk: &mut D, name: &Name) -> Result<NewEntry, Stop>
    requires bare { is_bare_name name.now ≡ true }
    ensures planned { IsTrue D.told → Sound (pack (D.tape disk.old)) → IfOk result (PlansDir (pack (D.tape disk.old)) name.now) }
    ensures refused { IsTrue D.told → Sound (pack (D.tape disk.old)) → IfRefused result (OperandsRefuse (pack (D.tape disk.old)) (line.MakeDir name.now)) }
    ensures misled { IsTrue D.told → Sound (pack (D.tape disk.old)) → IfHint result (HintFailing (pack (D.tape disk.old)) [] (files_named (line.MakeDir name.now) (read_as (pack (D.tape disk.old))))) }
    ensures cause { HasCause cause_of_stop (D.tape disk.old) (D.tape disk.new) result }
    ensures want { IsTrue D.told → IsErrOf result Stop.Memory → ⊥ }
    ensures looks { LooksAbout D.told (65588 * 196608) (D.tape disk.old) (D.tape disk.new) session.old session.new }
{
    refuse_held_base(session, disk, &ROOT, name)?;
    plan_entry(session, disk, ROOT, *name)
}

/// Makes a directory without entries in SysDir, under this bare name, and answers the text of `mkdir`, which says its serial.
///
/// NameTaken: some entry of SysDir has the name as its base. SerialsSpent: no serial is left. Full: too few sectors are free. In this order,
/// and nothing was written. Misled: an address or a link of SysDir doesn't lead to its page. DiskFault: the device failed. Memory: none was
/// left, maybe for the text alone. After these three a prefix of the record writes was done, on a modelled disk.
pub fn make_dir<D: Disk>(
    alloc: Global,
    session: &mut Session,
    disk: &mut D,
    name: &Name,
) -> Result<Vec<u8>, Stop>
    requires obeys { MayObey (D.tape disk.old) session.old (line.MakeDir name.now) }
    ensures turns { IsTrue D.told → TakesLine (D.tape disk.old) (D.tape disk.new) session.old session.new (line.MakeDir name.now) result }
    ensures unwritten { IsTrue D.told → IfRefused result (λ r. added (D.tape disk.old) (D.tape disk.new) ≡ []) }
    ensures stays { Stays (D.tape disk.new) session.old session.new }
    ensures cause { HasCause cause_of_stop (D.tape disk.old) (D.tape disk.new) result }
    ensures frame { WritesUsable D.told (D.tape disk.old) (D.tape disk.new) }
    ensures alone { DiskAlone (D.tape disk.old) (D.tape disk.new) }
{
    let entry = plan_dir(session, disk, name)?;
    let fid = add_file(alloc, session, disk, &entry, true)?;
    Ok(made_text(alloc, fid)?)
}
