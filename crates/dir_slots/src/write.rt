// Slots as the words of a directory.
ghost use Rattle.std.specs.Prelude.{◌≡◌, ◌≤◌, ◌++◌, true, length, map, All, IfOk, OnOk};
ghost use Rattle.alto_words.specs.Names.{is_stored_name};
ghost use Rattle.pack_model.specs.reading.Slots.{slots as items_in, all_words};
ghost use Rattle.pack_model.specs.reading.SlotWords.{short_name_words, entry_words as words_of_entry, space_words};
ghost use Rattle.dir_slots.specs.Items.{items_of, address_of, addresses_in, slot_words, slots_words, IsInRange};
ghost use Rattle.dir_slots.specs.Laws.{HasStoredName};

use crate::codec::ENTRY_TYPE;
use crate::slot::{MAX_FREE_WORDS, Slot, entry_words};
use alto_words::{Fid, List, Memory, Name};
use leader_page::name_words;
use std::alloc::Global;

/// The words of these slots, one after the other: of a free one its length and zeros. Each free slot must have 1 to 1,023 words,
/// and each entry's serial and version must be in range.
///
/// Memory: none was left for the words.
pub fn write_slots(alloc: Global, slots: &[Slot]) -> Result<List<u16>, Memory>
    requires { All IsInRange slots.now }
    ensures words { IfOk result (λ words. words ≡ slots_words slots.now) }
    ensures length { IfOk result (λ words. length words ≡ all_words (items_of slots.now)) }
    ensures back { IfOk result (λ words. items_in words ≡ items_of slots.now) }
    ensures addresses { IfOk result (λ words. addresses_in words ≡ map address_of slots.now) }
{
    let mut words = Vec::new(alloc);
    for slot in slots {
        push_slot(&mut words, slot)?;
    }
    Ok(List::from_vec(words))
}

/// Appends the words of a slot.
fn push_slot(words: &mut Vec<u16>, slot: &Slot) -> Result<(), Memory>
    requires { IsInRange slot.now }
    ensures words { OnOk result (words.new.items ≡ words.old.items ++ slot_words slot.now) }
    ensures stored { OnOk result (HasStoredName slot.now) }
{
    match slot {
        Slot::Free { words: length } => push_free(words, *length),
        Slot::Entry {
            fid,
            leader_at,
            name,
        } => push_entry(words, fid, *leader_at, name),
    }
}

/// Appends the words of a free slot.
fn push_free(words: &mut Vec<u16>, length: u16) -> Result<(), Memory>
    requires least { 1 ≤ length }
    requires most { length ≤ 1023 }
    ensures { OnOk result (words.new.items ≡ words.old.items ++ space_words length) }
{
    let mut free = [0; MAX_FREE_WORDS as usize];
    free[0] = length;
    words.extend_from_slice(&free[..length as usize])?;
    Ok(())
}

/// Appends the words of a file's entry.
fn push_entry(words: &mut Vec<u16>, fid: &Fid, leader_at: u16, name: &Name) -> Result<(), Memory>
    ensures words { OnOk result (words.new.items ≡ words.old.items ++ words_of_entry fid.now leader_at name.now) }
    ensures stored { OnOk result (is_stored_name name.now ≡ true) }
{
    let first = ENTRY_TYPE + entry_words(name);
    words.extend_from_slice(&[first, fid.high, fid.low, fid.version, 0, leader_at])?;
    push_name(words, name)
}

/// Appends the words of a name: those that a leader page has of it, without the words of zeros after them.
fn push_name(words: &mut Vec<u16>, name: &Name) -> Result<(), Memory>
    ensures words { OnOk result (words.new.items ≡ words.old.items ++ short_name_words name.now) }
    ensures stored { OnOk result (is_stored_name name.now ≡ true) }
{
    let filled = name_words(name);
    words.extend_from_slice(&filled[..(name.as_bytes().len() + 2) / 2])?;
    Ok(())
}
