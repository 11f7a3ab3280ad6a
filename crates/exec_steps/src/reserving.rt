// What a line needs besides its operands, before it writes: a serial, and free sectors.
ghost use Rattle.disk_records.specs.Addresses.{pages_of};
ghost use Rattle.disk_records.specs.Causes.{HasCause};
ghost use Rattle.disk_records.specs.Packs.{is_free_at};
ghost use Rattle.disk_records.specs.Tapes.{Looks, pack};
ghost use Rattle.exec_session.specs.Meant.{IfHint, IfRefused};
ghost use Rattle.exec_steps.specs.Asked.{IsSameButTable};
ghost use Rattle.exec_session.specs.Stops.{cause_of_stop, refused_if};
ghost use Rattle.exec_session.specs.laws_hint.specs.TableLaws.{TableReserves};
ghost use Rattle.pack_model.specs.hints.Tables.{TableTrue};
ghost use Rattle.pack_model.specs.reading.Model.{read_as, room};
ghost use Rattle.pack_model.specs.states.Sound.{Sound};
ghost use Rattle.page_alloc.specs.Free.{IsReserved};
ghost use Rattle.session_model.specs.Refusals.{most_serials};
ghost use Rattle.std.specs.Prelude.{All, IfOk, IsTrue, OnErr, OnOk, length, min, nat_le, true, ◌+◌, ◌-◌, ◌<◌, ◌≡◌, ◌≤◌};

use disk_descriptor::MOST_LAST;
use disk_records::Disk;
use exec_session::{Session, Stop, refused};
use exec_words::Refusal;
use page_alloc::reserve;
use std::alloc::Global;

/// Refuses a line that makes a file where no serial is left for it.
///
/// SerialsSpent: the last serial given out is 2,147,483,646 or more.
#[tactic(auto, unfolding(session_model::specs::Refusals::most_serials))]
pub fn require_serial(session: &Session) -> Result<(), Stop>
    ensures { result ≡ refused_if (nat_le most_serials session.now.descriptor.last) (Refusal.SerialsSpent session.now.descriptor.last) }
{
    let last = session.descriptor.last();
    if last >= MOST_LAST {
        return refused(Refusal::SerialsSpent { last });
    }
    Ok(())
}

/// Takes free sectors for all pages that a line adds, at most 65,535: their virtual addresses, rising. They are busy in the table from now
/// on. Each that the table offers is looked at by its label; where too few are free, all labels are swept once.
///
/// Full: fewer are free, by their labels. DiskFault: the device failed. Memory: none was left for the addresses.
pub fn reserve_pages<D: Disk>(
    alloc: Global,
    session: &mut Session,
    disk: &mut D,
    pages: u32,
) -> Result<Vec<u16>, Stop>
    requires shape { session.old.descriptor.shape ≡ (D.tape disk.old).form }
    requires sized { length session.old.hints.table ≡ pages_of (D.tape disk.old).form }
    ensures reserved { IfOk result (λ fresh. IsReserved (pages_of (D.tape disk.old).form) (min pages 65535) session.new.hints.table fresh.items) }
    ensures free { IsTrue D.told → IfOk result (λ fresh. All (λ at. is_free_at (pack (D.tape disk.old)) at ≡ true) fresh.items) }
    ensures enough { IsTrue D.told → Sound (pack (D.tape disk.old)) → OnOk result (pages ≤ room (read_as (pack (D.tape disk.old)))) }
    ensures full { IsTrue D.told → Sound (pack (D.tape disk.old)) → IfRefused result (λ r. (r ≡ Refusal.Full (min pages 65535) (room (read_as (pack (D.tape disk.old))))) × (room (read_as (pack (D.tape disk.old))) < pages)) }
    ensures never_misled { IfHint result (λ place at wanted found. ⊥) }
    ensures table { IsTrue D.told → Sound (pack (D.tape disk.old)) → TableTrue (pack (D.tape disk.old)) session.old.hints.table → IfOk result (λ fresh. TableReserves (pack (D.tape disk.old)) session.new.hints.table fresh.items) }
    ensures stays_true { IsTrue D.told → Sound (pack (D.tape disk.old)) → TableTrue (pack (D.tape disk.old)) session.old.hints.table → OnErr result (TableTrue (pack (D.tape disk.old)) session.new.hints.table) }
    ensures sized { length session.new.hints.table ≡ length session.old.hints.table }
    ensures cause { HasCause cause_of_stop (D.tape disk.old) (D.tape disk.new) result }
    ensures same { IsSameButTable session.old session.new }
    ensures looks { Looks D.told (pages_of (D.tape disk.old).form - 1) (D.tape disk.old) (D.tape disk.new) }
    ensures soon { IsTrue D.told → Sound (pack (D.tape disk.old)) → TableTrue (pack (D.tape disk.old)) session.old.hints.table → OnOk result ((D.tape disk.new).runs ≤ (D.tape disk.old).runs + pages) }
{
    // no disk has so many sectors
    let count = pages.min(u16::MAX as u32) as u16;
    Ok(reserve(alloc, disk, &mut session.hints.table, count)?)
}
