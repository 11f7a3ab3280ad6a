// Twenty typed lines of every verb on files, on a formatted pack: what is shown of each, and what the pack shows after each operation.
use alto_words::{push_hex, push_number};
use disk_memory::MemMachine;
use disk_records::{Sector, Shape};
use pack_reading::{Shown, ShownFile, read_pack};
use std::alloc::Global;
use std::test::Fail;

/// A typed line, what is shown of it, and the place of the view that it leads to.
#[derive(Clone, Copy)]
pub(crate) struct Turn {
    pub line: &'static str,
    pub shown: &'static str,
    pub view: usize,
}

fn answered(line: &'static str, shown: &'static str, view: usize) -> Turn {
    Turn { line, shown, view }
}

/// The lines.
pub(crate) fn turns() -> [Turn; 20] {
    [
        answered("make A\n", "made #3\n", 1),
        answered("settime 2000\n", "done\n", 1),
        answered("append A 0102\n", "length 2\n", 3),
        answered(
            "stat A\n",
            "#3 length 2 pages 2 created 1000 written 2000 read 1000 name A.\n",
            3,
        ),
        answered("mkdir D\n", "made #4\n", 4),
        answered("copy A D>B\n", "made #5\n", 7),
        answered("patch D>B 0 09\n", "done\n", 8),
        answered("type D>B\n", "0902\n2 bytes\n", 8),
        answered("rename A D>C\n", "done\n", 10),
        answered("cut D>C 1\n", "length 1\n", 11),
        answered("list D\n", "B.\nC.\n2 entries\n", 11),
        answered("free\n", "37 pages free\n", 11),
        answered("delete D>B\n", "done\n", 12),
        answered("rename D>C A\n", "done\n", 13),
        answered("rmdir D\n", "done\n", 14),
        answered("rmdir D\n", "no such name\n", 14),
        answered("append A 03\n", "length 2\n", 15),
        answered("cut A 0\n", "length 0\n", 16),
        answered("list\n", "A.\nDiskDescriptor.\nSysDir.\n3 entries\n", 16),
        answered("quit\n", "done\n", 16),
    ]
}

/// What is shown after each operation that changes it, in order. A file whose entry isn't there yet, or no more, stands in SysDir by its
/// leader's name; so a copy into D, and a file that goes there, are seen in SysDir first.
pub(crate) const VIEWS: [&str; 17] = [
    "",
    "1>A. #3 1000 \n",
    "1>A. #3 1000 0102\n",
    "1>A. #3 2000 0102\n",
    "1>A. #3 2000 0102\n1>D. #4 2000 directory\n",
    "1>A. #3 2000 0102\n1>B. #5 2000 \n1>D. #4 2000 directory\n",
    "1>A. #3 2000 0102\n1>D. #4 2000 directory\n4>B. #5 2000 \n",
    "1>A. #3 2000 0102\n1>D. #4 2000 directory\n4>B. #5 2000 0102\n",
    "1>A. #3 2000 0102\n1>D. #4 2000 directory\n4>B. #5 2000 0902\n",
    "1>C. #3 2000 0102\n1>D. #4 2000 directory\n4>B. #5 2000 0902\n",
    "1>D. #4 2000 directory\n4>B. #5 2000 0902\n4>C. #3 2000 0102\n",
    "1>D. #4 2000 directory\n4>B. #5 2000 0902\n4>C. #3 2000 01\n",
    "1>D. #4 2000 directory\n4>C. #3 2000 01\n",
    "1>A. #3 2000 01\n1>D. #4 2000 directory\n",
    "1>A. #3 2000 01\n",
    "1>A. #3 2000 0103\n",
    "1>A. #3 2000 \n",
];

/// The keys of all lines.
pub(crate) fn keys(alloc: Global) -> Result<Vec<u8>, Fail> {
    let mut keys = Vec::new(alloc);
    for turn in &turns() {
        keys.extend_from_slice(turn.line.as_bytes())?;
    }
    Ok(keys)
}

/// What is shown of all lines.
pub(crate) fn replies(alloc: Global) -> Result<Vec<u8>, Fail> {
    let mut text = Vec::new(alloc);
    for turn in &turns() {
        text.extend_from_slice(turn.shown.as_bytes())?;
    }
    Ok(text)
}

/// How many keys the first so many lines have, or all lines if there are fewer.
pub(crate) fn keys_in(count: usize) -> usize {
    let mut keys = 0usize;
    for turn in turns().iter().take(count) {
        keys = keys.saturating_add(turn.line.len());
    }
    keys
}

/// How many bytes are shown of the first so many lines, or of all if there are fewer.
pub(crate) fn shown_in(count: usize) -> usize {
    let mut bytes = 0usize;
    for turn in turns().iter().take(count) {
        bytes = bytes.saturating_add(turn.shown.len());
    }
    bytes
}

/// How many replies stand whole in the first so many bytes of all replies.
pub(crate) fn replies_in(bytes: usize) -> usize {
    let mut whole = 0;
    for count in 1..=20usize {
        if shown_in(count) <= bytes {
            whole = count;
        }
    }
    whole
}

/// The place of the view after so many lines, or after all if there are fewer.
pub(crate) fn view_after(count: usize) -> usize {
    let mut view = 0;
    for turn in turns().iter().take(count) {
        view = turn.view;
    }
    view
}

/// Writes a file that is named: its serial, the moment of its bytes, and these in hex.
fn push_file(alloc: Global, out: &mut Vec<u8>, file: &ShownFile) -> Result<(), Fail> {
    out.extend_from_slice(b" #")?;
    push_number(alloc, out, u64::from(file.fid.serial()))?;
    out.extend_from_slice(b" ")?;
    push_number(alloc, out, u64::from(file.leader.written))?;
    out.extend_from_slice(b" ")?;
    match &file.bytes {
        Some(bytes) => push_hex(alloc, out, bytes.as_slice())?,
        None => out.extend_from_slice(b"directory")?,
    }
    out.push(b'\n')?;
    Ok(())
}

/// What is shown, with a line for each name: the serial of its directory, the name, and the file.
fn text_of(alloc: Global, shown: &Shown) -> Result<Vec<u8>, Fail> {
    let mut out = Vec::new(alloc);
    for name in shown.names.as_slice() {
        push_number(alloc, &mut out, u64::from(name.directory.serial()))?;
        out.extend_from_slice(b">")?;
        out.extend_from_slice(name.name.as_bytes())?;
        for file in shown.files.as_slice() {
            if file.fid == name.fid {
                push_file(alloc, &mut out, file)?;
            }
        }
    }
    Ok(out)
}

/// The place of the view that these sectors show.
pub(crate) fn view_of(alloc: Global, shape: Shape, sectors: Vec<Sector>) -> Result<usize, Fail> {
    let mut machine = MemMachine::new(alloc, shape, sectors, Vec::new(alloc))?;
    let text = text_of(alloc, &read_pack(alloc, &mut machine)?)?;
    for (place, view) in VIEWS.iter().enumerate() {
        if text.as_slice() == view.as_bytes() {
            return Ok(place);
        }
    }
    Ok(None.ok_or("no such view")?)
}
