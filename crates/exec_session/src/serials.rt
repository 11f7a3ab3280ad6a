// Files by their serials.
ghost use Rattle.disk_records.specs.Addresses.{pages_of};
ghost use Rattle.disk_records.specs.Causes.{HasCause};
ghost use Rattle.disk_records.specs.Tapes.{Looks, pack};
ghost use Rattle.exec_session.specs.Found.{IsAt, IsNoneAt};
ghost use Rattle.exec_session.specs.Meant.{IfHint, IfRefused};
ghost use Rattle.exec_session.specs.Serials.{leader_of};
ghost use Rattle.exec_session.specs.Stops.{cause_of_stop};
ghost use Rattle.exec_words.specs.declared.line.Target.TheVariants.{BySerial};
ghost use Rattle.laws_steps.specs.SerialLaws.{lesser_leader};
ghost use Rattle.pack_model.specs.states.Sound.{Sound};
ghost use Rattle.std.specs.Prelude.{IfOk, IsErrOf, IsTrue, ◌-◌, ◌≡◌};

use crate::stop::Stop;
use alto_words::{Fid, Memory};
use disk_records::{Disk, Place, Sector};
use exec_words::Refusal;
use label_sweep::{Sight, Visit, sweep};
use page_seeking::FileRef;

/// A leader page that was met, and the virtual address of its sector.
#[derive(Clone, Copy)]
pub(crate) struct LeaderAt {
    pub fid: Fid,
    pub at: u16,
}

/// The leader of least full name with a serial, of those met so far.
#[derive(Drop)]
struct LeastLeader {
    serial: u32,
    best: Option<LeaderAt>,
}

/// The lesser of a leader and one that was met before, by their full names; where these are one, the one met before.
fn lesser(best: Option<LeaderAt>, met: LeaderAt) -> Option<LeaderAt>
    ensures { leader_of result ≡ lesser_leader (leader_of best) met.fid met.at }
{
    match best {
        Some(best) => Some(if met.fid < best.fid { met } else { best }),
        None => Some(met),
    }
}

impl Visit for LeastLeader {
    ghost use Rattle.std.specs.Prelude.{false};
    ghost use Rattle.exec_session.specs.Serials.{MeetsLeader};

    ghost step = { MeetsLeader };

    ghost takes_memory = { false };

    fn visit(&mut self, at: u16, sight: Sight, _sector: &Sector) -> Result<(), Memory> {
        match sight {
            Sight::Leads { fid } => if fid.serial() == self.serial {
                self.best = lesser(self.best, LeaderAt { fid, at });
            },
            Sight::Holds { .. } => {}
            Sight::Hidden => {}
            Sight::Free => {}
            Sight::Stray => {}
        }
        Ok(())
    }
}

/// The living file of least full name with this serial, by a sweep of all labels.
///
/// NoSuchName: there is none.
pub(crate) fn find_serial<D: Disk>(disk: &mut D, serial: u32) -> Result<FileRef, Stop>
    ensures found { IsTrue D.told → Sound (pack (D.tape disk.old)) → IfOk result (IsAt (pack (D.tape disk.old)) (BySerial serial)) }
    ensures absent { IsTrue D.told → Sound (pack (D.tape disk.old)) → IfRefused result (IsNoneAt (pack (D.tape disk.old)) (BySerial serial)) }
    ensures never_misled { IfHint result (λ place at wanted found. ⊥) }
    ensures cause { HasCause cause_of_stop (D.tape disk.old) (D.tape disk.new) result }
    ensures want { IsTrue D.told → IsErrOf result Stop.Memory → ⊥ }
    ensures looks { Looks D.told (pages_of (D.tape disk.old).form - 1) (D.tape disk.old) (D.tape disk.new) }
{
    let mut least = LeastLeader { serial, best: None };
    sweep(disk, &mut least)?;
    match least.best {
        Some(found) => Ok(FileRef {
            fid: found.fid,
            leader_at: found.at,
            from: Place::Held { at: found.at },
        }),
        None => Err(Stop::Refused {
            refusal: Refusal::NoSuchName,
        }),
    }
}
