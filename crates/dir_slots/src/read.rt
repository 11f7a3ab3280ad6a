// The slots of a directory's words: the first one, and all.
ghost use Rattle.std.specs.Prelude.{◌≡◌, ◌≤◌, length, map, All, IfOk, IfSome};
ghost use Rattle.std.specs.Option.{option_map};
ghost use Rattle.disk_records.specs.Words.{word};
ghost use Rattle.pack_model.specs.reading.Slots.{item_words, slot_at, slots, all_words};
ghost use Rattle.pack_model.specs.reading.SlotWords.{address_at};
ghost use Rattle.dir_slots.specs.Items.{item_of, items_of, address_of, addresses_in, IsInRange, HasFreeLength};
ghost use Rattle.dir_slots.specs.Laws.{HasStoredName};

use crate::codec::slot_here;
use crate::slot::{MAX_ENTRY_WORDS, Slot};
use alto_words::{List, Memory};
use std::alloc::Global;

/// The slots of the longest prefix of these words that can be read, and its length in words. The first slot that can't be read
/// ends it: one of length 0, one that goes past the end, one of another type, or an entry that isn't one.
///
/// Memory: none was left for the slots.
pub fn read_slots(alloc: Global, words: &[u16]) -> Result<(List<Slot>, usize), Memory>
    ensures items { IfOk result (λ read. items_of read.0 ≡ slots words.now) }
    ensures addresses { IfOk result (λ read. map address_of read.0 ≡ addresses_in words.now) }
    ensures in_range { IfOk result (λ read. All IsInRange read.0) }
    ensures free { IfOk result (λ read. All HasFreeLength read.0) }
    ensures stored { IfOk result (λ read. All HasStoredName read.0) }
    ensures length { IfOk result (λ read. read.1 ≡ all_words (slots words.now)) }
    ensures within { IfOk result (λ read. read.1 ≤ length words.now) }
{
    let mut read = Vec::new(alloc);
    let mut at = 0;
    while let Some(slot) = first_slot(&words[at..]) {
        at += slot.words() as usize;
        read.push(slot)?;
    }
    Ok((List::from_vec(read), at))
}

/// The slot at the head of these words, those of a directory from its first word or from the end of a slot on. None if and only if
/// they begin with no slot that can be read, so also where there are none. It looks at 26 words at most and takes no memory. The
/// slot's length is its `words`: those after it are the ones to read on from.
pub fn first_slot(words: &[u16]) -> Option<Slot>
    ensures item { option_map item_of result ≡ slot_at words.now }
    ensures address { IfSome result (λ slot. address_of slot ≡ address_at words.now 0 (item_of slot)) }
    ensures in_range { IfSome result IsInRange }
    ensures stored { IfSome result HasStoredName }
    ensures least { IfSome result (λ slot. 1 ≤ item_words (item_of slot)) }
    ensures most { IfSome result (λ slot. item_words (item_of slot) ≤ length words.now) }
{
    let front = words.len().min(MAX_ENTRY_WORDS);
    slot_here(&words[..front], words.len())
}
