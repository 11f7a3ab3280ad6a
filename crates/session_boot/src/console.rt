// What is shown on the display.
ghost use Rattle.disk_records.specs.Tapes.{Rose, ShowAlone};
ghost use Rattle.exec_words.specs.Texts.{reply_text};
ghost use Rattle.session_boot.specs.Faults.{HasShowCause, NoFault};
ghost use Rattle.session_boot.specs.Keys.{ShownAll};
ghost use Rattle.std.specs.Prelude.{IsOk, IsTrue, OnErr, OnOk, false, ◌≡◌};

use crate::status::Fault;
use disk_records::{Console, ConsoleError};
use executive::{Reply, reply_text};
use std::alloc::Global;

/// Shows these bytes, once all record writes are handed on; the machine may hold them back. If there are none, nothing is asked of the
/// display.
pub fn show_all<C: Console>(console: &mut C, bytes: &[u8]) -> Result<(), Fault>
    requires handed_on { C.handed_on console.old }
    ensures shown { IsTrue C.told → ShownAll bytes.now (C.tape console.old) (C.tape console.new) result }
    ensures cause { HasShowCause (C.tape console.old) (C.tape console.new) result }
    ensures unfailed { OnOk result (NoFault (C.tape console.old) (C.tape console.new)) }
    ensures handed_on { C.handed_on console.new }
    ensures alone { ShowAlone (C.tape console.old) (C.tape console.new) }
{
    if bytes.is_empty() {
        return Ok(());
    }
    match console.show(bytes) {
        Ok(()) => Ok(()),
        Err(ConsoleError::Failed) => Err(Fault::Display),
        Err(ConsoleError::Memory) => Err(Fault::Memory),
    }
}

/// Shows the text of a reply, which is built whole before: that of `Done` is there already.
pub(crate) fn show_reply<C: Console>(
    alloc: Global,
    console: &mut C,
    reply: &Reply,
) -> Result<(), Fault>
    requires handed_on { C.handed_on console.old }
    ensures shown { IsTrue C.told → ShownAll (reply_text reply.now) (C.tape console.old) (C.tape console.new) result }
    ensures cause { HasShowCause (C.tape console.old) (C.tape console.new) result }
    ensures unfailed { OnOk result (NoFault (C.tape console.old) (C.tape console.new)) }
    ensures handed_on { C.handed_on console.new }
    ensures alone { ShowAlone (C.tape console.old) (C.tape console.new) }
{
    if let Reply::Done { text } = reply {
        return show_all(console, text.as_slice());
    }
    let text = reply_text(alloc, reply)?;
    show_all(console, &text)
}

/// Hands on to the display what the machine holds back of the texts.
///
/// Display: the display failed, and of what was held back the last bytes may be lost.
pub fn flush_display<C: Console>(console: &mut C) -> Result<(), Fault>
    ensures told { IsTrue C.told → IsOk result × (C.tape console.new ≡ C.tape console.old) }
    ensures same { OnOk result (C.tape console.new ≡ C.tape console.old) }
    ensures displayed { OnOk result (C.displayed console.new) }
    ensures lines { C.waits console.new → C.waits console.old }
    ensures failed { OnErr result (Rose (C.tape console.old).show_faults (C.tape console.new).show_faults) }
    ensures cause { HasShowCause (C.tape console.old) (C.tape console.new) result }
    ensures unfailed { OnOk result (NoFault (C.tape console.old) (C.tape console.new)) }
    ensures handed_on { C.handed_on console.old → C.handed_on console.new }
    ensures alone { ShowAlone (C.tape console.old) (C.tape console.new) }
{
    match console.flush_display() {
        Ok(()) => Ok(()),
        Err(_) => Err(Fault::Display),
    }
}

/// Hands on to the display what the machine holds back of the texts, unless that may wait.
///
/// Display: the display failed, and of what was held back the last bytes may be lost.
pub(crate) fn flush_unless<C: Console>(console: &mut C, may_wait: bool) -> Result<(), Fault>
    ensures told { IsTrue C.told → IsOk result × (C.tape console.new ≡ C.tape console.old) }
    ensures same { OnOk result (C.tape console.new ≡ C.tape console.old) }
    ensures displayed { may_wait ≡ false → OnOk result (C.displayed console.new) }
    ensures lines { C.waits console.new → C.waits console.old }
    ensures cause { HasShowCause (C.tape console.old) (C.tape console.new) result }
    ensures unfailed { OnOk result (NoFault (C.tape console.old) (C.tape console.new)) }
    ensures alone { ShowAlone (C.tape console.old) (C.tape console.new) }
{
    if may_wait {
        return Ok(());
    }
    flush_display(console)
}
