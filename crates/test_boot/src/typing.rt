// Calls of `alto` on a machine in memory, one after another on one pack.
use alto_top::{Status, alto};
use alto_words::read_number;
use disk_memory::SureMachine;
use disk_records::{Disk, Sector, Shape};
use std::alloc::Global;
use std::test::Fail;

/// The moment of all dates.
pub(crate) const MOMENT: u32 = 1000;

/// Passes if this holds.
pub(crate) fn expect(holds: bool, what: &'static str) -> Result<(), Fail> {
    if holds { Ok(()) } else { Ok(None.ok_or(what)?) }
}

/// A word of a sector that is put in the place of another between two calls: of its value below 256, and from there on of its label.
#[derive(Clone, Copy)]
pub(crate) struct Changed {
    pub at: usize,
    pub word: usize,
    pub number: u16,
}

/// A call: its words, the typed lines without the last byte 10, which is added, what is shown without the last byte, and how it ends.
pub(crate) struct Call {
    pub words: &'static str,
    pub typed: &'static str,
    pub shown: &'static str,
    pub status: Status,
}

/// A text in which a word `x*n` stands for n times x.
fn expanded(alloc: Global, text: &str) -> Result<Vec<u8>, Fail> {
    let mut whole = Vec::new(alloc);
    for line in text.split('\n') {
        for word in line.split(' ') {
            match word.split_once('*') {
                Some((piece, count)) => {
                    for _ in 0..read_number(count.as_bytes()).ok_or("no number")? {
                        whole.extend_from_slice(piece.as_bytes())?;
                    }
                }
                None => whole.extend_from_slice(word.as_bytes())?,
            }
            whole.push(b' ')?;
        }
        whole.pop();
        whole.push(b'\n')?;
    }
    Ok(whole)
}

/// The keys of these lines; none of an empty text.
pub(crate) fn keys_of(alloc: Global, typed: &str) -> Result<Vec<u8>, Fail> {
    if typed.is_empty() {
        return Ok(Vec::new(alloc));
    }
    expanded(alloc, typed)
}

/// The words of a command line.
pub(crate) fn words_of(alloc: Global, text: &str) -> Result<Vec<String>, Fail> {
    let mut words = Vec::new(alloc);
    for word in text.split(' ') {
        words.push(String::from_str(alloc, word)?)?;
    }
    Ok(words)
}

/// What a call shows, how it ends, and how many records it writes; the pack is what it leaves.
#[derive(Drop)]
pub(crate) struct Said {
    pub shown: Vec<u8>,
    pub status: Status,
    pub writes: u64,
}

/// Calls `alto` on this pack, with these keys.
pub(crate) fn make_call(
    alloc: Global,
    shape: Shape,
    pack: &mut Vec<Sector>,
    words: &str,
    keys: Vec<u8>,
) -> Result<Said, Fail> {
    let mut machine = SureMachine::new(alloc, shape, pack.to_vec(alloc)?, keys)?;
    let status = alto(alloc, &words_of(alloc, words)?, MOMENT, &mut machine);
    let shown = machine.shown(alloc)?;
    let writes = machine.writes();
    *pack = machine.into_sectors();
    Ok(Said {
        shown,
        status,
        writes,
    })
}

/// Puts these words in the place of others.
pub(crate) fn change(sectors: &mut [Sector], words: &[Changed]) -> Result<(), Fail> {
    for word in words {
        let sector = sectors.get_mut(word.at).ok_or("no sector")?;
        let there = if word.word < 256 {
            sector.value.get_mut(word.word)
        } else {
            sector.label.get_mut(word.word - 256)
        };
        *there.ok_or("no word")? = word.number;
    }
    Ok(())
}

/// The labels of the first five sectors, which a formatted pack of 48 sectors uses.
pub(crate) fn labels_in_use(sectors: &[Sector]) -> [[u16; 8]; 5] {
    let mut labels = [[0; 8]; 5];
    for (label, sector) in labels.iter_mut().zip(sectors) {
        *label = sector.label;
    }
    labels
}

/// A text that is shown whole.
pub(crate) fn text_of(alloc: Global, shown: &str) -> Result<Vec<u8>, Fail> {
    let mut text = Vec::new(alloc);
    text.extend_from_slice(shown.as_bytes())?;
    if !shown.is_empty() {
        text.push(b'\n')?;
    }
    Ok(text)
}

/// The shape of one drive with so many cylinders.
pub(crate) fn shape_of(cylinders: u16) -> Result<Shape, Fail> {
    Ok(Shape::new(1, cylinders).ok_or("no shape")?)
}

/// The sectors of a formatted pack of this shape.
pub(crate) fn formatted(alloc: Global, shape: Shape) -> Result<Vec<Sector>, Fail> {
    let mut pack = vec![in alloc; Sector::ZEROS; shape.pages() as usize]?;
    make_call(alloc, shape, &mut pack, "format 1", Vec::new(alloc))?;
    Ok(pack)
}
