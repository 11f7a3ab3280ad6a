// Formatted packs of one drive, and words of them that are others.
use disk_descriptor::format;
use disk_memory::SureMachine;
use disk_records::{Sector, Shape};
use std::alloc::Global;

/// The moment of all dates.
pub(crate) const MOMENT: u32 = 1000;

/// Words of a sector's value that are others, from `from` on and before `to`.
pub(crate) struct Changed {
    pub at: usize,
    pub from: usize,
    pub to: usize,
    pub number: u16,
}

/// The sectors of a formatted pack of this shape. None if no memory is left.
pub(crate) fn formatted(alloc: Global, shape: Shape) -> Option<Vec<Sector>> {
    let Ok(zeros) = vec![in alloc; Sector::ZEROS; shape.pages() as usize] else {
        return None;
    };
    let Ok(mut machine) = SureMachine::new(alloc, shape, zeros, Vec::new(alloc)) else {
        return None;
    };
    if format(&mut machine, 1, MOMENT).is_err() {
        return None;
    }
    Some(machine.into_sectors())
}

/// Puts a number in the place of words of a sector, and answers whether there is such a sector.
pub(crate) fn change(sectors: &mut [Sector], changed: &Changed) -> bool {
    let Some(sector) = sectors.get_mut(changed.at) else {
        return false;
    };
    for (k, word) in sector.value.iter_mut().enumerate() {
        if changed.from <= k && k < changed.to {
            *word = changed.number;
        }
    }
    true
}

/// The labels of the first five sectors, which a formatted pack of 48 sectors uses.
pub(crate) fn labels_in_use(sectors: &[Sector]) -> [[u16; 8]; 5] {
    let mut labels = [[0; 8]; 5];
    for (label, sector) in labels.iter_mut().zip(sectors) {
        *label = sector.label;
    }
    labels
}
