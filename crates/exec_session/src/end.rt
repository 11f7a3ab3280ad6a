// The end of a session.
ghost use Rattle.disk_descriptor.specs.Fields.{Fits, closed, closes};
ghost use Rattle.disk_descriptor.specs.Writing.{Writes};
ghost use Rattle.disk_records.specs.Causes.{HasCause, IsCause};
ghost use Rattle.disk_records.specs.Frames.{WritesUsable};
ghost use Rattle.disk_records.specs.Tapes.{DiskAlone, pack};
ghost use Rattle.exec_session.specs.Meant.{IfHint, IfRefused, kept};
ghost use Rattle.exec_session.specs.Stops.{cause_of_stop};
ghost use Rattle.exec_session.specs.Ends.{IsEndAnswer, cause_of_reply};
ghost use Rattle.session_model.specs.Answering.{IsByModel, TakesTurns};
ghost use Rattle.session_model.specs.Keeping.{Formed};
ghost use Rattle.pack_model.specs.states.Sound.{mark_clean};
ghost use Rattle.session_model.specs.Turning.{ended, typed};
ghost use Rattle.std.specs.Prelude.{IsTrue, OnErr, OnOk, false, length, true, ◌*◌, ◌≡◌, ◌≢◌};
ghost use Rattle.exec_words.specs.declared.line.Line.TheVariants as line;

use crate::answers::stopped;
use crate::session::Session;
use crate::stop::Stop;
use alto_words::List;
use disk_records::Disk;
use exec_words::Reply;
use std::alloc::Global;

/// Closes the pack, unless a scavenge is needed.
fn close<D: Disk>(session: &mut Session, disk: &mut D) -> Result<(), Stop>
    requires formed { Formed (D.tape disk.old).form (kept session.old) }
    ensures in_need { (kept session.old).need ≡ true → OnErr result ⊥ × ((D.tape disk.new) ≡ (D.tape disk.old)) × (session.new ≡ session.old) }
    ensures quiet { (kept session.old).mark ≡ mark_clean → (D.tape disk.new) ≡ (D.tape disk.old) }
    ensures closes { IsTrue D.told → Fits (pack (D.tape disk.old)) session.old.descriptor → (kept session.old).need ≡ false → Writes Stop.Memory (closes (pack (D.tape disk.old)) session.old.hints.table session.old.descriptor) (2 * length session.old.descriptor.pages) (D.tape disk.old) (D.tape disk.new) result }
    ensures unfailing { IsTrue D.told → Fits (pack (D.tape disk.old)) session.old.descriptor → IfHint result (λ place at wanted found. ⊥) }
    ensures unrefused { IfRefused result (λ r. ⊥) }
    ensures kept { (kept session.old).need ≡ false → OnOk result (session.new ≡ record session.old { descriptor = closed session.old.descriptor }) }
    ensures left { OnErr result (session.new ≡ session.old) }
    ensures cause { HasCause cause_of_stop (D.tape disk.old) (D.tape disk.new) result }
    ensures frame { WritesUsable D.told (D.tape disk.old) (D.tape disk.new) }
    ensures alone { DiskAlone (D.tape disk.old) (D.tape disk.new) }
{
    if session.need {
        return Ok(());
    }
    session.descriptor.close_pack(disk, &session.hints.table)?;
    Ok(())
}

impl Session {
    /// Ends the session: closes the pack, at most two sector commands and one record write for each data page of DiskDescriptor. In need of a
    /// scavenge, and where the mark is clean, nothing is done. The reply is done without text if the pack is closed or nothing was to be done.
    ///
    /// DiskFault: the device failed, and a prefix of the record writes is made, perhaps all. Memory: none was left for a record write. On a
    /// disk that isn't modelled HintFailed may come too, of a sector that is kept.
    pub fn end<D: Disk>(&mut self, alloc: Global, disk: &mut D) -> Reply
        requires formed { Formed (D.tape disk.old).form (kept self.old) }
        ensures turns { IsTrue D.told → TakesTurns (D.tape disk.old) (D.tape disk.new) (kept self.old) (kept self.new) ended result }
        ensures answers { IsEndAnswer result }
        ensures idle { (kept self.old).need ≡ true → (D.tape disk.new) ≡ (D.tape disk.old) }
        ensures quiet { (kept self.old).mark ≡ mark_clean → (D.tape disk.new) ≡ (D.tape disk.old) }
        ensures limit { (kept self.new).tally.limit ≡ (kept self.old).tally.limit }
        ensures formed { Formed (D.tape disk.new).form (kept self.new) }
        ensures cause { IsCause (D.tape disk.old) (D.tape disk.new) (cause_of_reply result) }
        ensures frame { WritesUsable D.told (D.tape disk.old) (D.tape disk.new) }
        ensures alone { DiskAlone (D.tape disk.old) (D.tape disk.new) }
    {
        match close(self, disk) {
            Ok(()) => Reply::Done {
                text: List::from_vec(Vec::new(alloc)),
            },
            Err(stop) => stopped(self, stop),
        }
    }
}

/// `quit`: ends the session as `Session::end` does, with the same errors, and the reply to a pack that was closed is the end.
pub fn quit<D: Disk>(session: &mut Session, disk: &mut D) -> Reply
    requires formed { Formed (D.tape disk.old).form (kept session.old) }
    ensures turns { IsTrue D.told → TakesTurns (D.tape disk.old) (D.tape disk.new) (kept session.old) (kept session.new) (typed line.Quit) result }
    ensures unrefused { IsByModel result → ⊥ }
    ensures unscavenged { result ≢ Reply.Scavenge }
    ensures idle { (kept session.old).need ≡ true → (D.tape disk.new) ≡ (D.tape disk.old) }
    ensures limit { (kept session.new).tally.limit ≡ (kept session.old).tally.limit }
    ensures formed { Formed (D.tape disk.new).form (kept session.new) }
    ensures cause { IsCause (D.tape disk.old) (D.tape disk.new) (cause_of_reply result) }
    ensures frame { WritesUsable D.told (D.tape disk.old) (D.tape disk.new) }
    ensures alone { DiskAlone (D.tape disk.old) (D.tape disk.new) }
{
    match close(session, disk) {
        Ok(()) => Reply::Quit,
        Err(stop) => stopped(session, stop),
    }
}
