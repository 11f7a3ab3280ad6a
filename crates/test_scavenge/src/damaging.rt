// Packs that are made by typed lines, and damaged by hand.
use crate::calling::{ANYTHING, does};
use disk_records::{Sector, Shape};
use std::alloc::Global;

/// What is done to a sector: a word of its header, label or value gets another number, its label becomes a free one, or it gets the label and
/// the value of another sector; or what is done to several: sectors in a row get the label and the value of another, or headers with a wrong
/// address, or all sectors get labels and values of ones.
pub(crate) enum Damage {
    /// The sector, the word's place in the header, and the number.
    Header(u16, usize, u16),
    /// The sector, the word's place in the label, and the number.
    Label(u16, usize, u16),
    /// The sector, the word's place in the value, and the number.
    Value(u16, usize, u16),
    /// The sector.
    Free(u16),
    /// The other sector, and the sector.
    Copy(u16, u16),
    /// The other sector, the first of those in a row, and the sector after the last.
    Copies(u16, u16, u16),
    /// The first of them, and the sector after the last.
    Headers(u16, u16),
    /// All from sector 1 on.
    Blank,
}

/// Puts a number in the place of a word. None if there is no such word.
fn put(words: &mut [u16], word: usize, number: u16) -> Option<()> {
    *words.get_mut(word)? = number;
    Some(())
}

/// Gives sectors in a row the label and the value of another. None if one of them isn't there.
fn copy_page(pack: &mut [Sector], from: u16, first: u16, end: u16) -> Option<()> {
    let source = *pack.get(usize::from(from))?;
    for at in first..end {
        let sector = pack.get_mut(usize::from(at))?;
        sector.label = source.label;
        sector.value = source.value;
    }
    Some(())
}

/// Gives the headers of sectors in a row a wrong address. None if one of them isn't there.
fn put_headers(pack: &mut [Sector], first: u16, end: u16) -> Option<()> {
    for at in first..end {
        pack.get_mut(usize::from(at))?.header[1] = 0;
    }
    Some(())
}

/// Gives all sectors from 1 on labels and values of ones.
fn blank(pack: &mut [Sector]) {
    for sector in pack.iter_mut().skip(1) {
        sector.label = [0xFFFF; 8];
        sector.value = [0xFFFF; 256];
    }
}

/// Does one damage to a pack. None if there is no such sector or no such word.
fn damage_sector(pack: &mut [Sector], damage: &Damage) -> Option<()> {
    match *damage {
        Damage::Header(at, word, number) => {
            put(&mut pack.get_mut(usize::from(at))?.header, word, number)
        }
        Damage::Label(at, word, number) => {
            put(&mut pack.get_mut(usize::from(at))?.label, word, number)
        }
        Damage::Value(at, word, number) => {
            put(&mut pack.get_mut(usize::from(at))?.value, word, number)
        }
        Damage::Free(at) => {
            pack.get_mut(usize::from(at))?.label = [0xFFFF; 8];
            Some(())
        }
        Damage::Copy(from, at) => copy_page(pack, from, at, at.checked_add(1)?),
        Damage::Copies(from, first, end) => copy_page(pack, from, first, end),
        Damage::Headers(first, end) => put_headers(pack, first, end),
        Damage::Blank => {
            blank(pack);
            Some(())
        }
    }
}

/// Does all of them, in order. Answers whether their sectors and words are there.
pub(crate) fn damage_pack(pack: &mut [Sector], damages: &[Damage]) -> bool {
    for damage in damages {
        if damage_sector(pack, damage).is_none() {
            return false;
        }
    }
    true
}

/// A pack of this shape whose sectors are zeros. None if no memory is left.
pub(crate) fn zeros(alloc: Global, shape: Shape) -> Option<Vec<Sector>> {
    match vec![in alloc; Sector::ZEROS; shape.pages() as usize] {
        Ok(pack) => Some(pack),
        Err(_) => None,
    }
}

/// A pack that is formatted, gets files by typed lines, and is damaged. None if that can't be done.
pub(crate) fn damaged_pack(
    alloc: Global,
    shape: Shape,
    typed: &'static str,
    damages: &[Damage],
) -> Option<Vec<Sector>> {
    let mut pack = zeros(alloc, shape)?;
    let made = does(alloc, shape, &mut pack, "format 1", "", ANYTHING)
        && does(alloc, shape, &mut pack, "boot", typed, ANYTHING)
        && damage_pack(&mut pack, damages);
    if made { Some(pack) } else { None }
}
