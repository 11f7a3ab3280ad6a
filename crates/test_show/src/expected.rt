// What is expected of a pack: its files and names, and the bytes of a file.
use alto_words::push_number;
use pack_reading::Shown;
use std::alloc::Global;
use std::process::Abort;
use std::test::Fail;

/// A line for each file, with its serial, the moment when it was made and its length, and one for each name, with the serial of
/// its directory before it and that of its file after it.
pub fn lines_of(alloc: Global, shown: &Shown) -> Result<Vec<u8>, Fail> {
    let mut out = Vec::new(alloc);
    for file in shown.files.as_slice() {
        push_number(alloc, &mut out, u64::from(file.fid.serial()))?;
        out.extend_from_slice(b" ")?;
        push_number(alloc, &mut out, u64::from(file.leader.created))?;
        match &file.bytes {
            Some(bytes) => {
                out.extend_from_slice(b" ")?;
                push_number(alloc, &mut out, bytes.as_slice().len() as u64)?;
                out.extend_from_slice(b"\n")?;
            }
            None => out.extend_from_slice(b" directory\n")?,
        }
    }
    for name in shown.names.as_slice() {
        push_number(alloc, &mut out, u64::from(name.directory.serial()))?;
        out.extend_from_slice(b">")?;
        out.extend_from_slice(name.name.as_bytes())?;
        out.extend_from_slice(b" ")?;
        push_number(alloc, &mut out, u64::from(name.fid.serial()))?;
        out.extend_from_slice(b"\n")?;
    }
    Ok(out)
}

/// Compares the bytes of the file of least full name.
pub fn expect_first_bytes<A: Abort>(rt: &A, shown: &Shown, wanted: &[u8]) -> Result<(), Fail> {
    let file = shown.files.as_slice().first().ok_or("no file")?;
    let bytes = file.bytes.as_ref().ok_or("a directory")?;
    assert_eq!(rt; bytes.as_slice(), wanted);
    Ok(())
}
