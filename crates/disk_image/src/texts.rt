// Texts that are held back on their way to the display, so that many short ones take one write call.
//
// They stand one after the other in memory that is taken once. A text that finds no room after them has them handed on first, by one
// call; one that has no room alone is then written by a call of its own. After a call that failed nothing is held any more: what the
// display has of it isn't known, and to write it again could show a part of it twice.
ghost use Rattle.std.specs.Prelude.{◌≡◌, ◌++◌, vec_len};

use crate::placed::Failed;
use std::alloc::Global;
use std::io::Print;

/// How many bytes of texts there is memory for.
const TEXT_BYTES: usize = 4096;

/// The bytes of the texts that are held back, in the order in which they were shown.
#[derive(Drop)]
pub(crate) struct HeldTexts {
    // its capacity is the room for texts, and none where there is no memory for them
    buffer: Vec<u8>,
}

impl HeldTexts {
    ghost use Rattle.std.specs.Prelude.{◌≡◌, ◌++◌, length, IsTrue, IsFalse, OnOk, OnErr};
    ghost use Rattle.disk_image.specs.Texts.{held_text, FitsAfter, HoldsNoText, IsTooLong, TakesText};

    /// Holds nothing, and has memory for 4,096 bytes. Where that is refused it never holds any.
    pub(crate) fn new(alloc: Global) -> HeldTexts
        ensures { HoldsNoText result }
    {
        let buffer = match Vec::with_capacity(alloc, TEXT_BYTES) {
            Ok(buffer) => buffer,
            Err(_) => Vec::new(alloc),
        };
        HeldTexts { buffer }
    }

    /// Whether nothing is held.
    fn is_empty(&self) -> bool
        ensures { IsTrue result → HoldsNoText self.now }
    {
        self.buffer.is_empty()
    }

    /// The bytes that are held.
    fn bytes(&self) -> &[u8]
        ensures { result.now ≡ held_text self.now }
    {
        &self.buffer
    }

    /// Whether there is room for these bytes after those that are held.
    pub(crate) fn has_room(&self, bytes: &[u8]) -> bool
        ensures fits { IsTrue result → FitsAfter (length bytes.now) self.now }
        ensures too_long { IsFalse result → IsTooLong (length bytes.now) self.now }
    {
        bytes.len() <= self.buffer.capacity() - self.buffer.len()
    }

    /// Holds these bytes after those that are held. False, and then nothing changes: there is no room for them. It takes no memory.
    fn put(&mut self, bytes: &[u8]) -> bool
        ensures held { IsTrue result → held_text self.new ≡ held_text self.old ++ bytes.now }
        ensures fits { IsTrue result → FitsAfter (length bytes.now) self.old }
        ensures refused { IsFalse result → self.new ≡ self.old }
        ensures too_long { IsFalse result → IsTooLong (length bytes.now) self.old }
    {
        self.has_room(bytes) && self.buffer.extend_from_slice(bytes).is_ok()
    }

    /// Holds nothing any more.
    fn clear(&mut self)
        ensures { HoldsNoText self.new }
    {
        self.buffer.clear();
    }

    /// Takes a text for the display. It is held where there is room after what is held. Else what is held goes ahead, by one call, and the
    /// text is held; or it is written by a call of its own, where there is no room for it alone. After an error nothing is held.
    pub(crate) fn show<P: Print>(&mut self, display: &P, bytes: &[u8]) -> Result<(), Failed>
        ensures ok { OnOk result (TakesText bytes.now self.old self.new) }
        ensures err { OnErr result (HoldsNoText self.new) }
    {
        if self.put(bytes) {
            return Ok(());
        }
        self.hand_on(display)?;
        if self.put(bytes) {
            return Ok(());
        }
        Ok(display.write_all(bytes)?)
    }

    /// Hands on to the display what is held, by one call, or by none where nothing is. Nothing is held afterwards, whatever the answer.
    pub(crate) fn hand_on<P: Print>(&mut self, display: &P) -> Result<(), Failed>
        ensures { HoldsNoText self.new }
    {
        if self.is_empty() {
            return Ok(());
        }
        let answer = display.write_all(self.bytes());
        self.clear();
        Ok(answer?)
    }
}
