// Reading a sector and comparing its label.
ghost use Rattle.std.specs.Prelude.{◌≡◌, ◌<◌, ◌≤◌, ◌+◌, IsTrue, IsErrOf, IfOk, OnOk, [], length};
ghost use Rattle.disk_records.specs.Addresses.{pages_of, is_right_header};
ghost use Rattle.disk_records.specs.Causes.{HasCause};
ghost use Rattle.disk_records.specs.Packs.{sector_at};
ghost use Rattle.disk_records.specs.Tapes.{Looks, pack, capped};
ghost use Rattle.label_check.specs.Causes.{cause_of_guard, cause_of_look};
ghost use Rattle.label_check.specs.Guarded.{Carries, Guarded, HoldsOther, HoldsPage, IfWrong, IsReadPage, info_of};

use crate::{GuardError, LookError, PageInfo};
use disk_records::{
    Disk, DiskError, Page, Sector, bytes_in, next_link, page_of, previous_link, right_header,
};

/// Reads the whole sector at the virtual address `at` to `buf`, and answers whether its header is right. One sector command.
/// After an error what `buf` holds is open.
#[tactic(auto, using(disk_records::proofs::FirstOnes::none_of_none))]
pub fn look<D: Disk>(disk: &mut D, at: u16, buf: &mut Sector) -> Result<bool, LookError>
    requires place { at < pages_of (D.tape disk.old).form }
    ensures right { IfOk result (λ right. right ≡ is_right_header (D.tape disk.old).form at buf.new.header) }
    ensures holds { IsTrue D.told → OnOk result (buf.new ≡ sector_at (pack (D.tape disk.old)) at) }
    ensures cause { HasCause cause_of_look (D.tape disk.old) (D.tape disk.new) result }
    ensures want { IsTrue D.told → IsErrOf result LookError.Memory → ⊥ }
    ensures looks { Looks D.told 1 (D.tape disk.old) (D.tape disk.new) }
    ensures runs { IsTrue D.told → (D.tape disk.new).runs ≡ capped ((D.tape disk.old).runs + 1) }
{
    let shape = disk.shape();
    match disk.read_sector(at, buf) {
        Ok(()) => Ok(right_header(shape, at, &buf.header)),
        // nothing is checked
        Err(DiskError::Mismatch { .. }) => unreachable!(),
        Err(DiskError::Failed) => Err(LookError::DiskFault),
        Err(DiskError::Memory) => Err(LookError::Memory),
    }
}

/// Reads the sector to `buf` and compares: Ok where it carries this page. One sector command.
pub(crate) fn look_for<D: Disk>(
    disk: &mut D,
    at: u16,
    page: Page,
    buf: &mut Sector,
) -> Result<(), GuardError>
    requires first { 1 ≤ at }
    requires place { at < pages_of (D.tape disk.old).form }
    ensures page { OnOk result (HoldsPage (D.tape disk.old).form at page buf.new) }
    ensures other { IfWrong result (HoldsOther (D.tape disk.old).form at page buf.new) }
    ensures holds { IsTrue D.told → OnOk result (buf.new ≡ sector_at (pack (D.tape disk.old)) at) }
    ensures guarded { IsTrue D.told → Guarded (Carries at page) at [] [] 1 (D.tape disk.old) (D.tape disk.new) result }
    ensures cause { HasCause cause_of_guard (D.tape disk.old) (D.tape disk.new) result }
    ensures looks { Looks D.told 1 (D.tape disk.old) (D.tape disk.new) }
{
    if !look(disk, at, buf)? {
        return Err(GuardError::Wrong { found: None });
    }
    if page_of(&buf.label) == Some(page) {
        Ok(())
    } else {
        Err(GuardError::Wrong {
            found: Some(buf.label),
        })
    }
}

/// What the label of a sector says beside its page.
fn info_in(sector: &Sector) -> PageInfo
    ensures tells { result ≡ info_of sector.now.label }
    ensures whole { length sector.now.value ≡ 256 }
{
    PageInfo {
        bytes: bytes_in(&sector.label),
        next: next_link(&sector.label),
        previous: previous_link(&sector.label),
    }
}

/// Reads the sector at the virtual address `at`, which is to carry this page, to `buf`, and compares its label in software: a
/// check by the disk would pass over each word that is 0. One sector command. At Wrong `buf` holds what was read; after any
/// other error what it holds is open. On every disk, modelled or not, the answer and `found` are words of `buf`.
pub fn read_page<D: Disk>(
    disk: &mut D,
    at: u16,
    page: Page,
    buf: &mut Sector,
) -> Result<PageInfo, GuardError>
    requires first { 1 ≤ at }
    requires place { at < pages_of (D.tape disk.old).form }
    ensures page { OnOk result (HoldsPage (D.tape disk.old).form at page buf.new) }
    ensures whole { OnOk result (length buf.new.value ≡ 256) }
    ensures tells { IfOk result (λ info. info ≡ info_of buf.new.label) }
    ensures read { IsTrue D.told → IfOk result (IsReadPage (pack (D.tape disk.old)) at buf.new) }
    ensures other { IfWrong result (HoldsOther (D.tape disk.old).form at page buf.new) }
    ensures guarded { IsTrue D.told → Guarded (Carries at page) at [] [] 1 (D.tape disk.old) (D.tape disk.new) result }
    ensures cause { HasCause cause_of_guard (D.tape disk.old) (D.tape disk.new) result }
    ensures looks { Looks D.told 1 (D.tape disk.old) (D.tape disk.new) }
{
    look_for(disk, at, page, buf)?;
    Ok(info_in(buf))
}
