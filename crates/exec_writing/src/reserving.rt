// The serial and the sectors of a line that makes a file.
ghost use Rattle.disk_records.specs.Addresses.{pages_of};
ghost use Rattle.disk_records.specs.Causes.{HasCause};
ghost use Rattle.disk_records.specs.Packs.{is_free_at};
ghost use Rattle.disk_records.specs.Tapes.{Looks, pack};
ghost use Rattle.exec_writing.specs.Entries.{new_refusal};
ghost use Rattle.exec_session.specs.Meant.{IfHint, IfRefused};
ghost use Rattle.exec_steps.specs.Asked.{IsSameButTable};
ghost use Rattle.exec_steps.specs.Rooms.{pages_planned};
ghost use Rattle.exec_session.specs.Stops.{cause_of_stop};
ghost use Rattle.laws_hint.specs.TableLaws.{TableReserves};
ghost use Rattle.pack_model.specs.hints.Tables.{TableTrue};
ghost use Rattle.pack_model.specs.reading.Model.{read_as, room};
ghost use Rattle.pack_model.specs.states.Sound.{Sound};
ghost use Rattle.page_alloc.specs.Free.{IsReserved};
ghost use Rattle.session_model.specs.Refusals.{most_serials};
ghost use Rattle.std.specs.Prelude.{All, IfOk, IsTrue, None, OnErr, OnOk, Some, length, true, ◌+◌, ◌-◌, ◌<◌, ◌≡◌, ◌≤◌};

use disk_records::Disk;
use exec_session::{Session, Stop};
use exec_steps::{NewEntry, require_serial, reserve_pages};
use std::alloc::Global;

/// Takes free sectors for a new file with its entry, and for so many pages besides, at most 60,000: the pages of directories, the leader, the
/// first data page, and these. Answers their virtual addresses, rising.
///
/// SerialsSpent: no serial is left for the file. Full: too few sectors are free. In this order. DiskFault: the device failed. Memory: none
/// was left for the addresses. Nothing is written; of what the session keeps the table of busy bits alone is another.
pub fn reserve_new<D: Disk>(
    alloc: Global,
    session: &mut Session,
    disk: &mut D,
    entry: &NewEntry,
    more: u32,
) -> Result<Vec<u16>, Stop>
    requires shape { session.old.descriptor.shape ≡ (D.tape disk.old).form }
    requires sized { length session.old.hints.table ≡ pages_of (D.tape disk.old).form }
    requires most { more ≤ 60000 }
    ensures left { OnOk result (session.old.descriptor.last < most_serials) }
    ensures reserved { IfOk result (λ fresh. IsReserved (pages_of (D.tape disk.old).form) (pages_planned entry.now + 2 + more) session.new.hints.table fresh.items) }
    ensures free { IsTrue D.told → IfOk result (λ fresh. All (λ at. is_free_at (pack (D.tape disk.old)) at ≡ true) fresh.items) }
    ensures enough { IsTrue D.told → Sound (pack (D.tape disk.old)) → OnOk result (new_refusal session.old.descriptor.last (pages_planned entry.now + 2 + more) (room (read_as (pack (D.tape disk.old)))) ≡ None) }
    ensures refused { IsTrue D.told → Sound (pack (D.tape disk.old)) → IfRefused result (λ r. new_refusal session.old.descriptor.last (pages_planned entry.now + 2 + more) (room (read_as (pack (D.tape disk.old)))) ≡ Some r) }
    ensures never_misled { IfHint result (λ place at wanted found. ⊥) }
    ensures table { IsTrue D.told → Sound (pack (D.tape disk.old)) → TableTrue (pack (D.tape disk.old)) session.old.hints.table → IfOk result (λ fresh. TableReserves (pack (D.tape disk.old)) session.new.hints.table fresh.items) }
    ensures stays_true { IsTrue D.told → Sound (pack (D.tape disk.old)) → TableTrue (pack (D.tape disk.old)) session.old.hints.table → OnErr result (TableTrue (pack (D.tape disk.old)) session.new.hints.table) }
    ensures sized { length session.new.hints.table ≡ length session.old.hints.table }
    ensures cause { HasCause cause_of_stop (D.tape disk.old) (D.tape disk.new) result }
    ensures same { IsSameButTable session.old session.new }
    ensures looks { Looks D.told (pages_of (D.tape disk.old).form - 1) (D.tape disk.old) (D.tape disk.new) }
{
    require_serial(session)?;
    reserve_pages(alloc, session, disk, entry.pages() as u32 + 2 + more)
}
