// What a session keeps of DiskDescriptor.
use crate::DescError;
use crate::closing::{CLEAN, write_pages};
use crate::pages::data_pages;
use crate::writing::{change_and_settle, change_words};
use disk_records::{Disk, Shape};
use hint_cache::BitTable;
use std::marker::Model;

/// The word of the last serial's high word.
pub(crate) const LAST: usize = 4;

/// The word of the mark.
pub(crate) const MARK: usize = 6;

/// The mark of a pack that was written to since it was closed.
const OPEN: u16 = 2;

/// The last serial from which none is left to give.
pub const MOST_LAST: u32 = 2_147_483_646;

/// What a session keeps of DiskDescriptor: the pack's shape, the last serial given out, the mark, and the virtual addresses of the sectors
/// of its data pages. Contracts see the record of these.
#[derive(Drop)]
pub struct Descriptor {
    pub(crate) shape: Shape,
    pub(crate) last: u32,
    pub(crate) mark: u16,
    // of the data pages; those past the last one mean nothing
    pub(crate) pages: [u16; 5],
}

impl Model for Descriptor {
    ghost use Rattle.std.specs.Prelude.{take};
    ghost use Rattle.pack_model.specs.sessions.Descriptor.{data_pages};
    ghost use Rattle.disk_descriptor.specs.Fields.{AreSectors, Fields};

    ghost Value = { Fields };

    ghost view = { λ d. record { shape = d.shape; last = d.last; mark = d.mark; pages = take (data_pages d.shape) d.pages } };

    ghost invariant = { λ d. AreSectors d.shape d.pages };
}

impl Descriptor {
    ghost use Rattle.std.specs.Prelude.{◌≡◌, ◌≢◌, ◌+◌, ◌*◌, ◌≤◌, ◌∷◌, [], Err, IfOk, IsTrue, OnErr, OnOk, length};
    ghost use Rattle.disk_records.specs.Addresses.{pages_of};
    ghost use Rattle.disk_records.specs.Causes.{HasCause};
    ghost use Rattle.disk_records.specs.Causes.Cause.{never, other};
    ghost use Rattle.disk_records.specs.Tapes.{DiskAlone, added, pack};
    ghost use Rattle.laws_hint.specs.MapClosing.{Describes};
    ghost use Rattle.pack_model.specs.reading.Model.{read_as};
    ghost use Rattle.pack_model.specs.states.Sound.{mark_clean};
    ghost use Rattle.disk_descriptor.specs.Answers.{IfHeld, IfSpent, cause_of};
    ghost use Rattle.disk_descriptor.specs.Fields.{Fits, FitsDisk, GivesOne, IsAboveLiving, Opens, ReadsAs, closed, closes, closes_kept, first_kept, gives_kept, most_last, opened, opens_kept, with_last};
    ghost use Rattle.disk_descriptor.specs.Writing.{Writes, WritesOwn};

    /// The last serial given out.
    pub fn last(&self) -> u32
        ensures { result ≡ self.now.last }
    {
        self.last
    }

    /// The mark: 1 where the pack was closed, 2 where it was written to since.
    pub fn mark(&self) -> u16
        ensures { result ≡ self.now.mark }
    {
        self.mark
    }

    /// Opens the mark, before the first other record write of a session: nothing where it is open, else one record write in three sector
    /// commands, which the device has taken at Ok. It takes no memory of its own.
    ///
    /// Held: the sector that is kept doesn't carry DiskDescriptor's first page; on a modelled disk nothing was written. DiskFault: the
    /// device failed. Memory: it wanted some for the record write, and had none. What is kept is as before after each of them; after
    /// DiskFault the mark may be open.
    pub fn mark_open<D: Disk>(&mut self, disk: &mut D) -> Result<(), DescError>
        requires shape { self.old.shape ≡ (D.tape disk.old).form }
        ensures guarded { IsTrue D.told → WritesOwn (first_kept self.old ∷ []) (opens_kept (pack (D.tape disk.old)) self.old) 3 (D.tape disk.old) (D.tape disk.new) result }
        ensures opens { IsTrue D.told → Fits (pack (D.tape disk.old)) self.old → Opens DescError.Memory (D.tape disk.old) (D.tape disk.new) result }
        ensures fits { IsTrue D.told → FitsDisk (pack (D.tape disk.old)) self.old → OnOk result (FitsDisk (pack (D.tape disk.new)) self.new) }
        ensures reads { IsTrue D.told → FitsDisk (pack (D.tape disk.old)) self.old → OnOk result (ReadsAs (read_as (pack (D.tape disk.old))) (pack (D.tape disk.old)) (pack (D.tape disk.new))) }
        ensures kept { OnOk result (self.new ≡ opened self.old) }
        ensures left { OnErr result (self.new ≡ self.old) }
        ensures held { IsTrue D.told → Fits (pack (D.tape disk.old)) self.old → IfHeld result (λ at found. ⊥) }
        ensures cause { HasCause (cause_of never) (D.tape disk.old) (D.tape disk.new) result }
        ensures alone { DiskAlone (D.tape disk.old) (D.tape disk.new) }
    {
        if self.mark == OPEN {
            return Ok(());
        }
        change_and_settle(disk, self.pages[0], MARK, &[OPEN])?;
        self.mark = OPEN;
        Ok(())
    }

    /// Gives out the serial after the last one, which is on the disk then, before any label bears it: one record write in three sector
    /// commands. It takes no memory of its own.
    ///
    /// Spent: the last serial is 2,147,483,646 or more. Held: the sector that is kept doesn't carry DiskDescriptor's first page. At both
    /// nothing was written, on a modelled disk. DiskFault: the device failed. Memory: it wanted some for the record write, and had none.
    /// What is kept is as before after each of them; after DiskFault the serial may be on the disk.
    pub fn next_serial<D: Disk>(&mut self, disk: &mut D) -> Result<u32, DescError>
        requires shape { self.old.shape ≡ (D.tape disk.old).form }
        ensures guarded { IsTrue D.told → WritesOwn (first_kept self.old ∷ []) (gives_kept (pack (D.tape disk.old)) self.old) 3 (D.tape disk.old) (D.tape disk.new) result }
        ensures gives { IsTrue D.told → Fits (pack (D.tape disk.old)) self.old → GivesOne DescError.Memory self.old (D.tape disk.old) (D.tape disk.new) result }
        ensures fits { IsTrue D.told → FitsDisk (pack (D.tape disk.old)) self.old → OnOk result (FitsDisk (pack (D.tape disk.new)) self.new) }
        ensures reads { IsTrue D.told → FitsDisk (pack (D.tape disk.old)) self.old → IfOk result (λ serial. ReadsAs (record (read_as (pack (D.tape disk.old))) { last = serial }) (pack (D.tape disk.old)) (pack (D.tape disk.new))) }
        ensures above { IsTrue D.told → FitsDisk (pack (D.tape disk.old)) self.old → IfOk result (λ serial. IsAboveLiving (pack (D.tape disk.new)) serial) }
        ensures next { IfOk result (λ serial. serial ≡ self.old.last + 1) }
        ensures kept { IfOk result (λ serial. self.new ≡ with_last serial self.old) }
        ensures left { OnErr result (self.new ≡ self.old) }
        ensures spent { IfSpent result (λ last. (last ≡ self.old.last) × (most_last ≤ last)) }
        ensures exact { most_last ≤ self.old.last → result ≡ Err (DescError.Spent self.old.last) }
        ensures refused { IsTrue D.told → IfSpent result (λ last. added (D.tape disk.old) (D.tape disk.new) ≡ []) }
        ensures held { IsTrue D.told → Fits (pack (D.tape disk.old)) self.old → IfHeld result (λ at found. ⊥) }
        ensures cause { HasCause (cause_of other) (D.tape disk.old) (D.tape disk.new) result }
        ensures alone { DiskAlone (D.tape disk.old) (D.tape disk.new) }
    {
        if self.last >= MOST_LAST {
            return Err(DescError::Spent { last: self.last });
        }
        let serial = self.last + 1;
        let words = [(serial / 65536) as u16, (serial % 65536) as u16];
        change_words(disk, self.pages[0], LAST, &words)?;
        self.last = serial;
        Ok(serial)
    }

    /// Closes the pack with this table as its allocation map: nothing where the mark is clean, else DiskDescriptor's data pages from the
    /// last to the first, so that the clean mark comes last. Two sector commands and one record write a page. The device has taken all that
    /// was written before when the mark is written, and the mark at Ok. The table has to have a bit for each sector. It takes no memory of
    /// its own.
    ///
    /// Held: a sector that is kept doesn't carry its page; the pages after it are written. DiskFault: the device failed. Memory: it wanted
    /// some for a record write, and had none. After each of them what is kept is as before; on a modelled disk a prefix of the record
    /// writes was done, whether the descriptor fits it or not, each in a sector that carries its page.
    pub fn close_pack<D: Disk>(&mut self, disk: &mut D, table: &BitTable) -> Result<(), DescError>
        requires shape { self.old.shape ≡ (D.tape disk.old).form }
        requires sized { length table.now ≡ pages_of (D.tape disk.old).form }
        ensures guarded { IsTrue D.told → WritesOwn self.old.pages (closes_kept table.now self.old) (2 * length self.old.pages) (D.tape disk.old) (D.tape disk.new) result }
        ensures writes { IsTrue D.told → Fits (pack (D.tape disk.old)) self.old → Writes DescError.Memory (closes (pack (D.tape disk.old)) table.now self.old) (2 * length self.old.pages) (D.tape disk.old) (D.tape disk.new) result }
        ensures fits { IsTrue D.told → FitsDisk (pack (D.tape disk.old)) self.old → OnOk result (FitsDisk (pack (D.tape disk.new)) self.new) }
        ensures quiet { self.old.mark ≡ mark_clean → (D.tape disk.new) ≡ (D.tape disk.old) }
        ensures describes { IsTrue D.told → FitsDisk (pack (D.tape disk.old)) self.old → self.old.mark ≢ mark_clean → OnOk result (Describes (pack (D.tape disk.old)) (pack (D.tape disk.new)) table.now) }
        ensures reads { IsTrue D.told → FitsDisk (pack (D.tape disk.old)) self.old → OnOk result (ReadsAs (read_as (pack (D.tape disk.old))) (pack (D.tape disk.old)) (pack (D.tape disk.new))) }
        ensures kept { OnOk result (self.new ≡ closed self.old) }
        ensures left { OnErr result (self.new ≡ self.old) }
        ensures held { IsTrue D.told → Fits (pack (D.tape disk.old)) self.old → IfHeld result (λ at found. ⊥) }
        ensures cause { HasCause (cause_of never) (D.tape disk.old) (D.tape disk.new) result }
        ensures alone { DiskAlone (D.tape disk.old) (D.tape disk.new) }
    {
        if self.mark == CLEAN {
            return Ok(());
        }
        let count = usize::from(data_pages(self.shape));
        write_pages(disk, self.last, &self.pages[..count], table)?;
        self.mark = CLEAN;
        Ok(())
    }
}
