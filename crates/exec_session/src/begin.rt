// A session as it begins, and as it goes on after a scavenge.
ghost use Rattle.alto_words.specs.Fid.{disk_descriptor};
ghost use Rattle.disk_descriptor.specs.Opening.{HasCleanPage};
ghost use Rattle.disk_records.specs.Causes.{HasCause};
ghost use Rattle.disk_records.specs.Tapes.{DiskAlone, added, pack};
ghost use Rattle.exec_session.specs.Meant.{kept};
ghost use Rattle.exec_session.specs.Opens.{GoesOn, IsFresh, Mended, Opens, OpensAgain, Renews, cause_of_open};
ghost use Rattle.pack_model.specs.reading.Sights.{sights};
ghost use Rattle.pack_model.specs.states.Sentences.{EachOnce};
ghost use Rattle.session_model.specs.Keeping.{Formed};
ghost use Rattle.std.specs.Prelude.{IfOk, IsTrue, OnErr, OnOk, [], ◌≡◌};

mod opening;
mod root;

use crate::begin::opening::open_pack;
use crate::session::Session;
use crate::streams::SessionStreams;
use alto_words::Memory;
use disk_descriptor::OpenError;
use disk_records::{Disk, Tally};
use hint_cache::{HintCache, Hints};
use std::alloc::Global;
use world_swap::World;

impl Session {
    /// Opens the pack: finds SysDir at sector 1 and DiskDescriptor by its name, and enters the pack. Nothing is written. Dates will be
    /// `moment`, in seconds since the start of 1901, and `limit` is the number of record writes up to which the tally counts.
    ///
    /// The first of these that holds: NoRoot, NoDescriptor, WrongLength, BadDescriptor, NotClean. Misled: an address on the way to SysDir's or
    /// DiskDescriptor's words is wrong. DiskFault: the device failed. Memory: none was left for what a session keeps, 131,072 bytes of it for
    /// the words of the memory. On a pack that carries a page twice too, a session begins only if a sector that carries DiskDescriptor's page 1 has the
    /// clean mark and the right words.
    pub fn begin<D: Disk>(
        alloc: Global,
        disk: &mut D,
        moment: u32,
        limit: u64,
    ) -> Result<Session, OpenError>
        ensures opens { IsTrue D.told → EachOnce (sights (pack (D.tape disk.old))) → Opens (pack (D.tape disk.old)) moment limit result }
        ensures clean_page { IsTrue D.told → IfOk result (λ s. HasCleanPage (pack (D.tape disk.old)) disk_descriptor) }
        ensures silent { IsTrue D.told → added (D.tape disk.old) (D.tape disk.new) ≡ [] }
        ensures fresh { IfOk result (λ s. IsFresh moment limit (kept s)) }
        ensures formed { IfOk result (λ s. Formed (D.tape disk.new).form (kept s)) }
        ensures cause { HasCause cause_of_open (D.tape disk.old) (D.tape disk.new) result }
        ensures alone { DiskAlone (D.tape disk.old) (D.tape disk.new) }
    {
        let world = match World::fresh(alloc) {
            Ok(world) => world,
            Err(Memory) => return Err(OpenError::Memory),
        };
        let opened = open_pack(alloc, disk)?;
        Ok(Session {
            descriptor: opened.descriptor,
            hints: opened.hints,
            tally: Tally {
                limit,
                passed: 0,
                all: 0,
            },
            moment,
            world,
            streams: SessionStreams::none(),
            need: false,
        })
    }

    /// Enters the pack again after a scavenge: what is kept of DiskDescriptor and the table are read anew, all addresses are forgotten, and no
    /// scavenge is needed. The tally, the moment and the memory stay. Nothing is written.
    ///
    /// It answers as `begin` does, so on a pack that a scavenge left only DiskFault, where the device failed, or Memory, where none was left.
    /// The session is then as before.
    pub fn renew<D: Disk>(&mut self, alloc: Global, disk: &mut D) -> Result<(), OpenError>
        requires formed { Formed (D.tape disk.old).form (kept self.old) }
        ensures opens { IsTrue D.told → EachOnce (sights (pack (D.tape disk.old))) → OpensAgain (pack (D.tape disk.old)) result }
        ensures renews { IsTrue D.told → Mended (pack (D.tape disk.old)) → Renews (pack (D.tape disk.old)) (kept self.old) (kept self.new) result }
        ensures clean_page { IsTrue D.told → OnOk result (HasCleanPage (pack (D.tape disk.old)) disk_descriptor) }
        ensures silent { IsTrue D.told → added (D.tape disk.old) (D.tape disk.new) ≡ [] }
        ensures goes_on { OnOk result (GoesOn (kept self.old) (kept self.new)) }
        ensures left { OnErr result (self.new ≡ self.old) }
        ensures formed { Formed (D.tape disk.new).form (kept self.new) }
        ensures cause { HasCause cause_of_open (D.tape disk.old) (D.tape disk.new) result }
        ensures alone { DiskAlone (D.tape disk.old) (D.tape disk.new) }
    {
        let cache = match HintCache::new(alloc) {
            Ok(cache) => cache,
            Err(Memory) => return Err(OpenError::Memory),
        };
        let opened = open_pack(alloc, disk)?;
        self.descriptor = opened.descriptor;
        self.hints = Hints {
            cache,
            table: opened.hints.table,
        };
        self.need = false;
        Ok(())
    }
}
