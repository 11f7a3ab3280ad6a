// The listing of what a pack shows: one row for each name, and then the number of files.
ghost use Rattle.std.specs.Prelude.{◌≡◌, ◌++◌, ℕ, cond, length, map, Some, None, IfOk, OnOk};
ghost use Rattle.std.specs.List.{flat_map};
ghost use Rattle.std.specs.Option.{option_or};
ghost use Rattle.std.specs.BTreeMap.{get};
ghost use Rattle.alto_words.specs.declared.fid.Fid.{Fid as Named};
ghost use Rattle.alto_words.specs.Fid.{fid_cmp, is_fid};
ghost use Rattle.pack_model.specs.showing.View.{View};
ghost use Rattle.pack_model.specs.showing.Listing.{line_of, listed_cmp, in_order, size_of, shown_files};
ghost use Rattle.pack_reading.specs.Lengths.{shown_length, ShowsLengths};
ghost use Rattle.pack_reading.specs.Shows.{naming};
ghost use Rattle.alto_top.specs.Looking.{first_of, Knows, listed_in};
ghost use Rattle.std.specs.FinMap.{get as look_up};
ghost use Rattle.alto_top.specs.Showing.{stem, dir_text, listed_length, line_text, count_text, listing_text};

use crate::row::Row;
use alto_words::{Fid, Memory, Name, push_number};
use pack_reading::{FileLength, ShownLengths, ShownName};
use std::alloc::Global;
use std::collections::{BTreeMap, BTreeSet};

/// Keeps a name of a file, unless one is kept.
fn keep(map: &mut BTreeMap<Fid, Name>, fid: Fid, value: Name) -> Result<(), Memory>
    ensures { OnOk result ((f : Named) → get fid_cmp map.new f ≡ option_or (get fid_cmp map.old f) (cond (is_fid f fid) (Some value) None)) }
{
    if !map.contains_key(&fid) {
        map.insert(fid, value)?;
    }
    Ok(())
}

/// The names by file.
fn names_by_file(alloc: Global, names: &[ShownName]) -> Result<BTreeMap<Fid, Name>, Memory>
    ensures { IfOk result (λ map. (f : Named) → get fid_cmp map f ≡ first_of (λ n. n.fid) (λ n. n.name) names.now f) }
{
    let mut map = BTreeMap::new(alloc);
    for named in names {
        keep(&mut map, named.fid, named.name)?;
    }
    Ok(map)
}

/// The length in bytes of the file of this full name among these, which rise by full name; None of a directory, and where it
/// isn't there.
fn length_in(files: &[FileLength], fid: Fid) -> Option<u64>
    ensures { (v : View) → files.now ≡ map shown_length (shown_files v) → result ≡ size_of (look_up v.files fid) }
{
    match files.binary_search_by_key(&fid, |file| file.fid) {
        Ok(i) => files[i].length,
        Err(_) => None,
    }
}

/// The row of a name.
fn row_of(names: &BTreeMap<Fid, Name>, files: &[FileLength], named: ShownName) -> Row
    ensures { (v : View) → Knows (get fid_cmp names.now) files.now v → listed_in result ≡ line_of v (naming named) }
{
    Row {
        dir_name: names.get(&named.directory).copied(),
        named,
        length: length_in(files, named.fid),
    }
}

/// The rows of these names in the order in which they are shown.
fn rows_of(
    alloc: Global,
    by_file: &BTreeMap<Fid, Name>,
    files: &[FileLength],
    names: &[ShownName],
) -> Result<BTreeSet<Row>, Memory>
    ensures { (v : View) → Knows (get fid_cmp by_file.now) files.now v → IfOk result (λ rows. map listed_in rows.keys ≡ in_order listed_cmp (map (λ n. line_of v (naming n)) names.now)) }
{
    let mut rows = BTreeSet::new(alloc);
    // from the last name to the first, as the model's `in_order` inserts them
    for named in names.iter().rev() {
        rows.insert(row_of(by_file, files, *named))?;
    }
    Ok(rows)
}

/// Appends a row to a text, as one line.
fn push_row(alloc: Global, text: &mut Vec<u8>, row: &Row) -> Result<(), Memory>
    ensures { OnOk result (text.new.items ≡ text.old.items ++ line_text (listed_in row.now)) }
{
    match &row.dir_name {
        Some(name) => text.extend_from_slice(without_dot(name))?,
        None => text.extend_from_slice(b"SysDir")?,
    }
    text.extend_from_slice(b">")?;
    text.extend_from_slice(row.named.name.as_bytes())?;
    push_length(alloc, text, row.length)?;
    text.extend_from_slice(b"\n")?;
    Ok(())
}

/// A stored name without the `.` that ends it.
fn without_dot(name: &Name) -> &[u8]
    ensures { result.now ≡ stem name.now }
{
    let bytes = name.as_bytes();
    &bytes[..bytes.len().saturating_sub(1)]
}

/// Appends the length of a file, or the word `directory`.
fn push_length(alloc: Global, text: &mut Vec<u8>, length: Option<u64>) -> Result<(), Memory>
    ensures { OnOk result (text.new.items ≡ text.old.items ++ listed_length length) }
{
    match length {
        Some(length) => {
            text.extend_from_slice(b" length ")?;
            push_number(alloc, text, length)?;
        }
        None => text.extend_from_slice(b" directory")?,
    }
    Ok(())
}

/// The rows as a text.
fn text_of_rows(alloc: Global, rows: &BTreeSet<Row>) -> Result<Vec<u8>, Memory>
    ensures { IfOk result (λ text. text.items ≡ flat_map (λ r. line_text (listed_in r)) rows.now.keys) }
{
    let mut text = Vec::new(alloc);
    for row in rows {
        push_row(alloc, &mut text, row)?;
    }
    Ok(text)
}

/// Appends the number of files.
fn push_count(alloc: Global, text: &mut Vec<u8>, count: usize) -> Result<(), Memory>
    ensures { OnOk result (text.new.items ≡ text.old.items ++ count_text count) }
{
    push_number(alloc, text, count as u64)?;
    text.extend_from_slice(b" files\n")?;
    Ok(())
}

/// The listing of what is shown: a row for each name, SysDir's names first, and then the number of files.
pub fn listing_of(alloc: Global, shown: &ShownLengths) -> Result<Vec<u8>, Memory>
    ensures { (v : View) → ShowsLengths shown.now v → IfOk result (λ text. text.items ≡ listing_text v) }
{
    let by_file = names_by_file(alloc, shown.names.as_slice())?;
    let rows = rows_of(
        alloc,
        &by_file,
        shown.files.as_slice(),
        shown.names.as_slice(),
    )?;
    let mut text = text_of_rows(alloc, &rows)?;
    push_count(alloc, &mut text, shown.files.as_slice().len())?;
    Ok(text)
}
