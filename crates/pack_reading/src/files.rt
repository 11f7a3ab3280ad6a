// The living files, and those that are shown.
ghost use Rattle.std.specs.Prelude.{◌≡◌, map, IfOk};
ghost use Rattle.std.specs.BTreeMap.{IsOrdered};
ghost use Rattle.std.specs.List.{filter};
ghost use Rattle.alto_words.specs.Fid.{fid_cmp};
ghost use Rattle.pack_reading.specs.Kept.{found_in};
ghost use Rattle.pack_reading.specs.Files.{is_shown, shown_of};

use crate::bytes::file_bytes;
use crate::shown::ShownFile;
use crate::swept::{Leaders, Pages};
use alto_words::{Fid, List, Memory};
use kept_names::is_system;
use leader_page::Leader;
use std::alloc::Global;

/// A living file.
#[derive(Drop)]
pub(crate) struct Found {
    pub(crate) fid: Fid,
    pub(crate) leader: Leader,
    pub(crate) bytes: List<u8>,
}

/// The living files, rising by full name. The pages of each are let go as its bytes are joined.
pub(crate) fn find_files(
    alloc: Global,
    leaders: &Leaders,
    mut pages: Pages,
) -> Result<List<Found>, Memory>
    ensures files { IfOk result (λ files. files ≡ map (λ e. found_in pages e.0 e.1) leaders.now.kept.entries) }
    ensures ordered { IsOrdered fid_cmp leaders.now.kept }
{
    let mut files = Vec::with_capacity(alloc, leaders.kept.len())?;
    for (fid, leader) in &leaders.kept {
        let bytes = file_bytes(alloc, &mut pages, *fid)?;
        files.push(Found {
            fid: *fid,
            leader: *leader,
            bytes,
        })?;
    }
    Ok(List::from_vec(files))
}

/// A file as it is shown.
fn show_file(file: Found) -> ShownFile
    ensures { result ≡ shown_of file }
{
    ShownFile {
        fid: file.fid,
        leader: file.leader,
        bytes: if file.fid.is_directory() {
            None
        } else {
            Some(file.bytes)
        },
    }
}

/// All of these files but the system files, as they are shown.
pub(crate) fn show_files(alloc: Global, files: List<Found>) -> Result<List<ShownFile>, Memory>
    ensures { IfOk result (λ shown. shown ≡ map shown_of (filter is_shown files)) }
{
    let mut shown = Vec::with_capacity(alloc, files.as_slice().len())?;
    for file in files.into_vec() {
        if !is_system(file.fid) {
            shown.push(show_file(file))?;
        }
    }
    Ok(List::from_vec(shown))
}
