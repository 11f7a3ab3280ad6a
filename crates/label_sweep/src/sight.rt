// What a label says, in the words of pack_model.
ghost use Rattle.std.specs.Prelude.{◌≡◌, length};
ghost use Rattle.disk_records.specs.Labels.{tag};
ghost use Rattle.pack_model.specs.reading.Sights.{tag_sight};
ghost use Rattle.label_sweep.specs.Shown.{shown, IsCounted};

use alto_words::Fid;
use disk_records::{Page, Sector, bytes_in, is_free_label, page_of};

/// What a sector shows, except the words of its value.
#[derive(Clone, Copy, Debug, PartialEq, Eq)]
pub enum Sight {
    /// Its header is wrong.
    Hidden,
    /// A free sector.
    Free,
    /// Its label is neither free nor in range.
    Stray,
    /// The leader page of a file.
    Leads { fid: Fid },
    /// A data page, numbered from 1 as in its label, of which so many bytes count: 0 to 512.
    Holds { fid: Fid, number: u16, bytes: u16 },
}

/// What a sector shows whose header is right.
pub(crate) fn sight_in(sector: &Sector) -> Sight
    ensures shown { shown result sector.now.value ≡ tag_sight (tag sector.now.label) sector.now.value }
    ensures counted { IsCounted result }
    ensures whole { length sector.now.value ≡ 256 }
{
    match page_of(&sector.label) {
        Some(Page { fid, number }) => if number == 0 {
            Sight::Leads { fid }
        } else {
            Sight::Holds {
                fid,
                number,
                bytes: bytes_in(&sector.label),
            }
        },
        None => if is_free_label(&sector.label) {
            Sight::Free
        } else {
            Sight::Stray
        },
    }
}
