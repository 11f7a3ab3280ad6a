// Pages of files and of directories, put on sectors by their words.
use disk_records::Sector;
use std::alloc::Global;
use std::test::Fail;

/// A full name: the high and the low word of the serial, and the version.
pub type FullName = [u16; 3];

pub const FILE_3: FullName = [0, 3, 1];

pub const FILE_4: FullName = [0, 4, 1];

pub const FILE_8: FullName = [0, 8, 1];

pub const SYS_DIR: FullName = [0x8000, 1, 1];

pub const DIRECTORY_6: FullName = [0x8000, 6, 1];

/// One page of a file: its sector, its number, how many of its bytes count, and the words of its value.
#[derive(Clone, Copy)]
pub struct Written<'a> {
    pub at: usize,
    pub name: FullName,
    pub number: u16,
    pub bytes: u16,
    pub words: &'a [u16],
}

/// The first words of a leader's value: three dates, all moment 1000, and then its name after the name's length. Fail: the
/// name has more than 255 bytes, or no memory was left.
pub fn leader_words(alloc: Global, name: &[u8]) -> Result<Vec<u16>, Fail> {
    let mut words = Vec::new(alloc);
    words.extend_from_slice(&[0, 1000, 0, 1000, 0, 1000])?;
    push_name(&mut words, name)?;
    Ok(words)
}

/// Appends a name after its length, two bytes a word; an odd byte has a 0 beside it. Fail: the name has more than 255 bytes, or
/// no memory was left.
pub fn push_name(words: &mut Vec<u16>, name: &[u8]) -> Result<(), Fail> {
    let mut high = Some(u8::try_from(name.len())?);
    for byte in name {
        high = match high {
            Some(high) => {
                words.push(high as u16 * 256 + *byte as u16)?;
                None
            }
            None => Some(*byte),
        };
    }
    if let Some(high) = high {
        words.push(high as u16 * 256)?;
    }
    Ok(())
}

/// The slot of an entry: its kind and its length, the full name, a 0, the leader's address, and the name after its length. Fail:
/// the name has more than 255 bytes, or no memory was left.
pub fn push_entry(words: &mut Vec<u16>, fid: FullName, name: &[u8]) -> Result<(), Fail> {
    let length = u8::try_from(name.len())?;
    words.push(0x0400 + 6 + (length as u16 + 2) / 2)?;
    words.extend_from_slice(&fid)?;
    words.extend_from_slice(&[0, 5])?;
    push_name(words, name)
}

/// Puts a page on its sector. Links are left as ones.
pub fn put_page(sectors: &mut [Sector], page: Written<'_>) {
    let [high, low, version] = page.name;
    if let Some(sector) = sectors.get_mut(page.at) {
        sector.label = [
            0xFFFF,
            0xFFFF,
            0,
            page.bytes,
            page.number,
            version,
            high,
            low,
        ];
        sector.value = [0; 256];
        for (word, written) in sector.value.iter_mut().zip(page.words) {
            *word = *written;
        }
    }
}

/// Puts a leader on its sector. Fail: the name has more than 255 bytes, or no memory was left.
pub fn put_leader(
    alloc: Global,
    sectors: &mut [Sector],
    at: usize,
    fid: FullName,
    name: &[u8],
) -> Result<(), Fail> {
    let words = leader_words(alloc, name)?;
    put_page(
        sectors,
        Written {
            at,
            name: fid,
            number: 0,
            bytes: 512,
            words: &words,
        },
    );
    Ok(())
}

/// Puts a data page on its sector; its words are 0.
pub fn put_data(sectors: &mut [Sector], at: usize, name: FullName, number: u16, bytes: u16) {
    put_page(
        sectors,
        Written {
            at,
            name,
            number,
            bytes,
            words: &[],
        },
    );
}

/// Puts a directory: its leader, and one page with these slots, of fewer than 256 words, which count to their end. Fail: they
/// have 256 words or more, its name has more than 255 bytes, or no memory was left.
pub fn put_directory(
    alloc: Global,
    sectors: &mut [Sector],
    at: usize,
    fid: FullName,
    name: &[u8],
    slots: &[u16],
) -> Result<(), Fail> {
    put_leader(alloc, sectors, at, fid, name)?;
    let words = u8::try_from(slots.len())?;
    put_page(
        sectors,
        Written {
            at: at.saturating_add(1),
            name: fid,
            number: 1,
            bytes: words as u16 * 2,
            words: slots,
        },
    );
    Ok(())
}
