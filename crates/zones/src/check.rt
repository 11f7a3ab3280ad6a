// Whether the words of a memory are such as they have to be.
ghost use Rattle.std.specs.Prelude.{◌≡◌, ◌+◌, ◌<◌, ◌≤◌, OnOk, Some, cond, false, length, suc};
ghost use Rattle.laws_zone.specs.world_model.specs.ZoneWords.{first_broken, first_set, first_wrong, is_wrong_tag, memory_length, tag_size, wrong_in_gap, zone_start};
ghost use Rattle.zones.specs.Check.{checked};

use crate::tags::{ZONE_START, block_size, is_gap};

/// Checks that these words, the first of which is at the address `from`, are 0. The error is the address of the first that isn't.
fn check_zeros(words: &[u16], from: u32) -> Result<(), u32>
    requires { from + length words.now ≤ 65536 }
    ensures { result ≡ checked (first_set from words.now) }
{
    for (i, word) in words.iter().enumerate() {
        if *word != 0 {
            return Err(from + i as u32);
        }
    }
    Ok(())
}

/// Whether no block of a zone can have this tag, with these words after it: its size is 0 or reaches past them, or it is that of a free
/// block after a free one.
fn is_wrong(after_gap: bool, tag: u16, words: &[u16]) -> bool
    ensures { result ≡ is_wrong_tag after_gap tag words.now }
{
    let size = usize::from(block_size(tag));
    size == 0 || words.len() + 1 < size || (after_gap && is_gap(tag))
}

/// Checks the block with its tag at the address `at`, and `words` after the tag. The error is the address of the first word of the block
/// that no zone has.
fn check_block(after_gap: bool, tag: u16, words: &[u16], at: u32) -> Result<(), u32>
    requires { at + length words.now < 65536 }
    ensures checked { result ≡ checked (cond (is_wrong_tag after_gap tag words.now) (Some at) (wrong_in_gap at tag words.now)) }
    ensures fits { OnOk result ((1 ≤ tag_size tag) × (tag_size tag ≤ suc (length words.now))) }
{
    if is_wrong(after_gap, tag, words) {
        return Err(at);
    }
    if is_gap(tag) {
        check_zeros(&words[..usize::from(tag) - 1], at + 1)
    } else {
        Ok(())
    }
}

/// Checks the words of the zone, block by block. The error is the address of the first word that no zone has.
fn check_blocks(zone: &[u16]) -> Result<(), u32>
    requires { length zone.now ≤ 64512 }
    ensures { result ≡ checked (first_wrong (length zone.now) zone_start false zone.now) }
{
    let mut at = u32::from(ZONE_START);
    let mut after_gap = false;
    let mut rest = zone;
    while let Some((tag, words)) = rest.split_first() {
        check_block(after_gap, *tag, words, at)?;
        let size = usize::from(block_size(*tag));
        after_gap = is_gap(*tag);
        at += size as u32;
        rest = &words[size - 1..];
    }
    Ok(())
}

/// Checks that a memory of 65,536 words has a zone which ends before the word `top`, and zeros from there on. The words before 1,024 may be
/// any.
///
/// The error is the address of the first word that breaks this: a tag whose size is 0 or reaches past `top`, that of a free block after a
/// free one, a word of a free block that isn't 0, or a word from `top` on that isn't 0.
pub fn check_zone(memory: &[u16], top: u16) -> Result<(), u32>
    requires words { length memory.now ≡ memory_length }
    requires after_start { zone_start < top }
    ensures { result ≡ checked (first_broken top memory.now) }
{
    let top = usize::from(top);
    match check_blocks(&memory[usize::from(ZONE_START)..top]) {
        Err(at) => Err(at),
        Ok(()) => check_zeros(&memory[top..], top as u32),
    }
}
