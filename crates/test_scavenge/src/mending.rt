// Each damaged pack of the table, mended: the answer, what is shown at each event, and words that stand then.
ghost use Rattle.std.specs.Prelude.{◌≤◌};

use crate::calling::{NEVER, expect, machine_over, pack_at, shows};
use crate::damaging::damaged_pack;
use crate::mended::{COPIES, FILE, Mended, Wanted, rows};
use disk_memory::MemMachine;
use disk_records::{Sector, Shape};
use scav_pages::mend_pages;
use scav_table::{SweepError, Table, sweep};
use std::alloc::Global;
use std::test::Fail;

/// Whether this word stands.
fn has_word(pack: &[Sector], wanted: &Wanted) -> bool {
    match *wanted {
        Wanted::Label(at, word, number) => match pack.get(usize::from(at)) {
            Some(sector) => sector.label.get(word) == Some(&number),
            None => false,
        },
        Wanted::Value(at, word, number) => match pack.get(usize::from(at)) {
            Some(sector) => sector.value.get(word) == Some(&number),
            None => false,
        },
    }
}

/// Whether all of these words stand.
fn has_words(pack: &[Sector], wanted: &[Wanted]) -> bool {
    wanted.iter().all(|word| has_word(pack, word))
}

/// Whether a sector is DiskDescriptor's first data page by its label, and has the clean mark.
fn is_clean(pack: &[Sector]) -> bool {
    pack.iter().any(|sector| sector.label[4..] == [1, 1, 0, 2] && sector.value[6] == 1)
}

/// Mends the pages of a machine's pack by a table that is moved on from its window.
fn mend_by(machine: &mut MemMachine, table: &mut Table) -> Result<u32, SweepError> {
    table.advance(machine)?;
    mend_pages(machine, table)
}

/// Mends the pages of a machine's pack by a table that was swept, and moved on from its first window.
fn mend(alloc: Global, machine: &mut MemMachine) -> Result<u32, SweepError> {
    let mut table = sweep(alloc, machine)?;
    mend_by(machine, &mut table)
}

/// Looks at what is shown after so many events, and for a clean mark where there was none.
fn stays(
    alloc: Global,
    shape: Shape,
    row: &Mended,
    machine: &MemMachine,
    count: usize,
    was_clean: bool,
) -> bool {
    let Some(mut left) = pack_at(alloc, machine, count) else {
        return false;
    };
    (was_clean || !is_clean(&left)) && shows(alloc, shape, &mut left, row.shown)
}

/// Mends a pack on a machine, and looks at each event, or at one in so many.
fn mends(
    alloc: Global,
    shape: Shape,
    row: &Mended,
    machine: &mut MemMachine,
    was_clean: bool,
    step: usize,
) -> bool
    requires { 1 ≤ step }
{
    if mend(alloc, machine) != Ok(row.freed) {
        return false;
    }
    for count in (0..=machine.event_count()).step_by(step) {
        if !stays(alloc, shape, row, machine, count, was_clean) {
            return false;
        }
    }
    true
}

/// Mends a pack: the words of the row stand then. Mended again, nothing is freed, and nothing written.
fn is_mended(alloc: Global, shape: Shape, row: &Mended, pack: &[Sector]) -> bool {
    let Some(mut machine) = machine_over(alloc, shape, pack, "", NEVER, 0) else {
        return false;
    };
    mend(alloc, &mut machine) == Ok(0) && machine.event_count() == 0 && has_words(pack, row.then)
}

/// Mends a pack, and then again.
fn mends_twice(alloc: Global, shape: Shape, row: &Mended, pack: &[Sector]) -> bool {
    let Some(mut machine) = machine_over(alloc, shape, pack, "", NEVER, 0) else {
        return false;
    };
    mends(alloc, shape, row, &mut machine, is_clean(pack), 1)
        && is_mended(alloc, shape, row, &machine.into_sectors())
}

/// Ends a mending that met a fault: its pack shows what it showed, and a second one does all that is left.
fn ends(alloc: Global, shape: Shape, row: &Mended, pack: &mut Vec<Sector>) -> bool {
    if !shows(alloc, shape, pack, row.shown) {
        return false;
    }
    let Some(mut machine) = machine_over(alloc, shape, pack, "", NEVER, 0) else {
        return false;
    };
    mend(alloc, &mut machine).is_ok() && has_words(&machine.into_sectors(), row.then)
}

/// Lets this call of a mending fail, and ends it. Answers whether there was no such call; None if that fails otherwise.
fn survive_fault(
    alloc: Global,
    shape: Shape,
    row: &Mended,
    pack: &[Sector],
    call: u64,
) -> Option<bool> {
    let mut machine = machine_over(alloc, shape, pack, "", call, (call % 2) as u8)?;
    match mend(alloc, &mut machine) {
        Ok(_) => Some(true),
        Err(SweepError::Memory) => None,
        Err(SweepError::DiskFault) => {
            if ends(alloc, shape, row, &mut machine.into_sectors()) {
                Some(false)
            } else {
                None
            }
        }
    }
}

/// Lets every 31st call of a mending fail, one after another.
fn survives_faults(alloc: Global, shape: Shape, row: &Mended, pack: &[Sector]) -> bool {
    for call in (0..2000u64).step_by(31) {
        match survive_fault(alloc, shape, row, pack, call) {
            Some(true) => break,
            Some(false) => {}
            None => return false,
        }
    }
    true
}

/// Mends the pack of a row, with calls failing or without.
fn passes(alloc: Global, row: &Mended, fails: bool) -> bool {
    let Some(shape) = Shape::new(row.drives, 2) else {
        return false;
    };
    let Some(pack) = damaged_pack(alloc, shape, row.typed, row.damages) else {
        return false;
    };
    if fails {
        survives_faults(alloc, shape, row, &pack)
    } else {
        mends_twice(alloc, shape, row, &pack)
    }
}

/// Mends the pack of each row. The message of a failure is the row's name.
fn check_rows(alloc: Global, fails: bool) -> Result<(), Fail> {
    for row in rows() {
        expect(passes(alloc, row, fails), row.name)?;
    }
    Ok(())
}

#[test]
fn each_damage_is_mended(rt: HostRuntime) -> Result<(), Fail> {
    check_rows(rt.alloc(), false)
}

/// The disk fails at every 31st call, fewer than a sweep has, so that each pass fails once at least; before the record writes of the call and
/// after its first one in turn. The answer is DiskFault, what is shown stays, and a second mending ends the work.
#[test]
fn each_fault_is_mended_again(rt: HostRuntime) -> Result<(), Fail> {
    check_rows(rt.alloc(), true)
}

/// Mends a pack with copies of a page, and looks at every 300th event. Then the pack is as before.
fn mends_copies(alloc: Global, shape: Shape, before: &[Sector], pack: &[Sector]) -> bool {
    let Some(mut machine) = machine_over(alloc, shape, pack, "", NEVER, 0) else {
        return false;
    };
    mends(alloc, shape, &COPIES, &mut machine, true, 300)
        && machine.event_count() == 2400
        && machine.into_sectors().as_slice() == before
}

/// Copies a page and mends the pack.
fn copies_go(alloc: Global) -> Option<bool> {
    let shape = Shape::new(1, 60)?;
    let before = damaged_pack(alloc, shape, COPIES.typed, &[])?;
    let pack = damaged_pack(alloc, shape, COPIES.typed, COPIES.damages)?;
    Some(mends_copies(alloc, shape, &before, &pack))
}

/// One page stands in 1,201 sectors, so that its rows are more than a window has.
#[test]
fn copies_over_two_windows(rt: HostRuntime) -> Result<(), Fail> {
    expect(copies_go(rt.alloc()) == Some(true), COPIES.name)
}

/// The answer of a mending of a sound pack in which this call fails before its record writes. None if no memory is left.
fn answer_at(alloc: Global, call: u64) -> Option<Result<u32, SweepError>> {
    let shape = Shape::new(1, 2)?;
    let pack = damaged_pack(alloc, shape, FILE, &[])?;
    let mut machine = machine_over(alloc, shape, &pack, "", call, 0)?;
    Some(mend(alloc, &mut machine))
}

/// Of 48 sectors, 7 of which carry pages, all but the first are looked at in a sweep: one takes the table, one moves it on, and five passes
/// and the search for stray labels take one each. Besides SysDir's slots and DiskDescriptor's count are read in one page each, and links
/// in each of the 7. So 8 times 47 and 9 sector commands do, and one less doesn't.
#[test]
fn a_sound_pack_takes_few_commands(rt: HostRuntime) -> Result<(), Fail> {
    let alloc = rt.alloc();
    let enough = answer_at(alloc, 385) == Some(Ok(0));
    let fewer = answer_at(alloc, 384) == Some(Err(SweepError::DiskFault));
    expect(enough && fewer, "a sound pack")
}
