// Each damaged pack: scavenged; cut after each record write, and scavenged again, with cuts again; and with calls of a scavenge failing once.
use crate::calling::{
    ANYTHING, Call, NEVER, Said, check_call, does, expect, machine_over, make_call, pack_at, run,
    shows,
};
use crate::damaged::{Damaged, rows};
use crate::damaging::damaged_pack;
use alto_top::Status;
use disk_memory::MemMachine;
use disk_records::{Disk, Sector, Shape};
use std::alloc::Global;
use std::test::Fail;

/// A scavenge that is done, with this report.
fn scavenge(report: &'static str) -> Call {
    Call {
        words: "scavenge",
        typed: "",
        shown: report,
        status: Status::Done,
    }
}

/// Scavenges a pack. Answers whether it shows what that of the row shows, before and after, and this report comes.
fn scavenges(
    alloc: Global,
    shape: Shape,
    row: &Damaged,
    pack: &mut Vec<Sector>,
    report: &'static str,
) -> bool {
    shows(alloc, shape, pack, row.shown)
        && does(alloc, shape, pack, "scavenge", "", report)
        && shows(alloc, shape, pack, row.shown)
}

/// Whether a session on a pack that was scavenged has the replies of the row.
fn replies(alloc: Global, shape: Shape, row: &Damaged, pack: &mut Vec<Sector>) -> bool {
    does(alloc, shape, pack, "boot", row.lines, row.replies)
}

/// Scavenges a pack twice. The second time the mark and DiskDescriptor's data page are written: no record is that stands already.
fn scavenges_twice(alloc: Global, shape: Shape, row: &Damaged, pack: &mut Vec<Sector>) -> bool {
    scavenges(alloc, shape, row, pack, row.report)
        && check_call(alloc, shape, pack, &scavenge(row.again)) == Some(2)
        && replies(alloc, shape, row, pack)
}

/// Goes on with a pack that a stopped scavenge left: it shows what it showed, and once it is scavenged again it does so too, and a session has
/// the replies of the row.
fn goes_on(alloc: Global, shape: Shape, row: &Damaged, pack: &mut Vec<Sector>) -> bool {
    scavenges(alloc, shape, row, pack, ANYTHING) && replies(alloc, shape, row, pack)
}

/// Whether a session enters a pack, which stays as it is.
fn enters(alloc: Global, shape: Shape, pack: &[Sector]) -> bool {
    match machine_over(alloc, shape, pack, "", NEVER, 0) {
        Some(mut machine) => run(alloc, "boot", &mut machine) == Status::Done,
        None => true,
    }
}

/// Cuts a scavenge after so many record writes, and goes on with the pack; midway no session enters it.
fn survives_cut(
    alloc: Global,
    shape: Shape,
    row: &Damaged,
    whole: &MemMachine,
    writes: u64,
) -> bool {
    let Some(mut left) = pack_at(alloc, whole, whole.place_of_write(writes)) else {
        return false;
    };
    let midway = 0 < writes && writes < whole.writes();
    !(midway && enters(alloc, shape, &left)) && goes_on(alloc, shape, row, &mut left)
}

/// Cuts a scavenge before its first record write and after each.
fn survives_cuts(alloc: Global, shape: Shape, row: &Damaged, whole: &MemMachine) -> bool {
    for writes in 0..=whole.writes() {
        if !survives_cut(alloc, shape, row, whole, writes) {
            return false;
        }
    }
    true
}

/// A machine that has scavenged this pack whole. None if that isn't done.
fn scavenged(alloc: Global, shape: Shape, pack: &[Sector]) -> Option<MemMachine> {
    let mut machine = machine_over(alloc, shape, pack, "", NEVER, 0)?;
    if run(alloc, "scavenge", &mut machine) != Status::Done {
        return None;
    }
    Some(machine)
}

/// Cuts a scavenge after so many record writes, and the one after it before its first record write and after each.
fn survives_two_cuts(
    alloc: Global,
    shape: Shape,
    row: &Damaged,
    whole: &MemMachine,
    writes: u64,
) -> bool {
    let Some(left) = pack_at(alloc, whole, whole.place_of_write(writes)) else {
        return false;
    };
    match scavenged(alloc, shape, &left) {
        Some(second) => survives_cuts(alloc, shape, row, &second),
        None => false,
    }
}

/// Cuts a scavenge after every 13th record write, and the one after it too.
fn survives_second_cuts(alloc: Global, shape: Shape, row: &Damaged, whole: &MemMachine) -> bool {
    for writes in (1..=whole.writes()).step_by(13) {
        if !survives_two_cuts(alloc, shape, row, whole, writes) {
            return false;
        }
    }
    true
}

/// Whether this is the pack after so many record writes of a machine.
fn is_after(alloc: Global, whole: &MemMachine, writes: u64, pack: &[Sector]) -> bool {
    match pack_at(alloc, whole, whole.place_of_write(writes)) {
        Some(left) => left.as_slice() == pack,
        None => false,
    }
}

/// Lets this call of a scavenge fail after one of its record writes, on the pack that the whole scavenge began with. None if what it leaves
/// isn't as after as many record writes of the whole scavenge, or shows anything but what was shown, or if the scavenge shows any byte: a
/// scavenge that is done shows its report.
fn fail_call(
    alloc: Global,
    shape: Shape,
    row: &Damaged,
    whole: &MemMachine,
    call: u64,
) -> Option<Said> {
    let mut left = pack_at(alloc, whole, 0)?;
    let said = make_call(alloc, shape, &mut left, &scavenge(row.report), call, 1)?;
    let stays = is_after(alloc, whole, said.writes, &left)
        && shows(alloc, shape, &mut left, row.shown);
    if stays { Some(said) } else { None }
}

/// Lets each call of a scavenge fail, one after another. A scavenge that went on after the call would write more than one of which a later
/// call fails. The report is shown at once.
fn fails_at_once(alloc: Global, shape: Shape, row: &Damaged, whole: &MemMachine) -> bool {
    let mut displays = 0usize;
    let mut earlier = 0u64;
    for call in 0..5000u64 {
        let Some(said) = fail_call(alloc, shape, row, whole, call) else {
            return false;
        };
        if said.writes < earlier {
            return false;
        }
        earlier = said.writes;
        match said.status {
            Status::DiskFault => {}
            Status::DisplayFault => displays = displays.saturating_add(1),
            Status::Done => break,
            _ => return false,
        }
    }
    displays == 1
}

/// Lets this call of a scavenge fail, and goes on with the pack. Answers whether there was no such call; None if that fails otherwise.
fn survive_fault(
    alloc: Global,
    shape: Shape,
    row: &Damaged,
    pack: &[Sector],
    call: u64,
) -> Option<bool> {
    let Ok(mut left) = pack.to_vec(alloc) else {
        return None;
    };
    let after = (call % 2) as u8;
    let said = make_call(alloc, shape, &mut left, &scavenge(row.report), call, after)?;
    if said.status == Status::Done {
        return Some(true);
    }
    let failed = matches!(said.status, Status::DiskFault | Status::DisplayFault);
    if failed && goes_on(alloc, shape, row, &mut left) {
        Some(false)
    } else {
        None
    }
}

/// Lets every 31st call of a scavenge fail, one after another.
fn survives_faults(alloc: Global, shape: Shape, row: &Damaged, pack: &[Sector]) -> bool {
    for call in (0..5000u64).step_by(31) {
        match survive_fault(alloc, shape, row, pack, call) {
            Some(true) => break,
            Some(false) => {}
            None => return false,
        }
    }
    true
}

/// What is done with the pack of a row.
#[derive(Drop)]
enum Way {
    /// It is scavenged twice.
    Twice,
    /// The scavenge is cut.
    Cut,
    /// The scavenge is cut, and so is the one after it.
    CutTwice,
    /// Each call of the scavenge fails once.
    EachCall,
    /// Calls of the scavenge fail, and it is scavenged again.
    Again,
}

/// Scavenges a pack whole, and then does what is asked for.
fn passes_whole(alloc: Global, shape: Shape, row: &Damaged, pack: &[Sector], way: &Way) -> bool {
    let Some(whole) = scavenged(alloc, shape, pack) else {
        return false;
    };
    match way {
        Way::EachCall => fails_at_once(alloc, shape, row, &whole),
        Way::CutTwice => survives_second_cuts(alloc, shape, row, &whole),
        _ => survives_cuts(alloc, shape, row, &whole),
    }
}

/// Does this with the pack of a row.
fn passes(alloc: Global, shape: Shape, row: &Damaged, way: &Way) -> bool {
    let Some(mut pack) = damaged_pack(alloc, shape, row.typed, row.damages) else {
        return false;
    };
    match way {
        Way::Twice => scavenges_twice(alloc, shape, row, &mut pack),
        Way::Again => survives_faults(alloc, shape, row, &pack),
        _ => passes_whole(alloc, shape, row, &pack, way),
    }
}

/// Does this with the packs of the first rows, so many of them. The message of a failure is the row's name.
fn check_rows(alloc: Global, count: usize, way: &Way) -> Result<(), Fail> {
    let Some(shape) = Shape::new(1, 2) else {
        return Err(Fail::new("no shape"));
    };
    for row in rows().iter().take(count) {
        expect(passes(alloc, shape, row, way), row.name)?;
    }
    Ok(())
}

#[test]
fn each_damage_is_told(rt: HostRuntime) -> Result<(), Fail> {
    check_rows(rt.alloc(), rows().len(), &Way::Twice)
}

#[test]
fn each_cut_is_scavenged_again(rt: HostRuntime) -> Result<(), Fail> {
    check_rows(rt.alloc(), rows().len(), &Way::Cut)
}

/// The first cut leaves a pack that is scavenged again, and that scavenge is cut in its turn.
#[test]
fn each_second_cut_is_scavenged_again(rt: HostRuntime) -> Result<(), Fail> {
    check_rows(rt.alloc(), rows().len(), &Way::CutTwice)
}

#[test]
fn each_call_fails_once(rt: HostRuntime) -> Result<(), Fail> {
    check_rows(rt.alloc(), 1, &Way::EachCall)
}

#[test]
fn each_fault_is_scavenged_again(rt: HostRuntime) -> Result<(), Fail> {
    check_rows(rt.alloc(), rows().len(), &Way::Again)
}
