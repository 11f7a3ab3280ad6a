// The script, cut at each event, and with each of its calls failing once.
use crate::script::{keys, keys_in, replies, replies_in, shown_in, view_after, view_of};
use crate::typing::{MOMENT, expect, formatted, shape_of, words_of};
use alto_top::{Status, alto};
use disk_memory::MemMachine;
use disk_records::{Console, Disk, Sector, Shape};
use std::alloc::Global;
use std::test::Fail;

/// A machine over this pack, after a session over the script in which this call fails after so many of its record writes; and how it ended.
fn session(
    alloc: Global,
    shape: Shape,
    pack: &[Sector],
    fails: u64,
    after: u8,
) -> Result<(MemMachine, Status), Fail> {
    let mut machine = MemMachine::new(alloc, shape, pack.to_vec(alloc)?, keys(alloc)?)?;
    machine.fail_at(alloc, fails, after)?;
    let status = alto(alloc, &words_of(alloc, "boot")?, MOMENT, &mut machine);
    Ok((machine, status))
}

/// The place of the view of a cut, between those of the lines that are acknowledged and of one line more.
fn view_of_cut(alloc: Global, shape: Shape, cut: MemMachine) -> Result<usize, Fail> {
    let shown = cut.shown(alloc)?;
    expect(replies(alloc)?.starts_with(&shown), "another text")?;
    let count = replies_in(shown.len());
    let view = view_of(alloc, shape, cut.into_sectors())?;
    expect(view_after(count) <= view, "an acknowledged line is missing")?;
    expect(
        view <= view_after(count.saturating_add(1)),
        "a line was begun too early",
    )?;
    Ok(view)
}

#[test]
fn each_cut_shows_a_prefix(rt: HostRuntime) -> Result<(), Fail> {
    let alloc = rt.alloc();
    let shape = shape_of(2)?;
    let pack = formatted(alloc, shape)?;
    let (machine, status) = session(alloc, shape, &pack, u64::MAX, 0)?;
    assert!(rt; status == Status::Done);
    assert_eq!(rt;
        machine.shown(alloc)?.as_slice(),
        replies(alloc)?.as_slice()
    );
    let mut before = 0usize;
    for count in 0..=machine.event_count() {
        let view = view_of_cut(alloc, shape, machine.cut(alloc, count)?)?;
        assert!(rt;
            before <= view && view <= before.saturating_add(1),
            "{count}"
        );
        before = view;
    }
    assert!(rt; before == view_after(20));
    Ok(())
}

/// A pack is entered again before the first record write of a session and after the last one, which closes it, and at no cut between them.
/// The reply to `quit` has five bytes.
#[test]
fn each_cut_is_entered_if_closed(rt: HostRuntime) -> Result<(), Fail> {
    let alloc = rt.alloc();
    let shape = shape_of(2)?;
    let pack = formatted(alloc, shape)?;
    let (machine, _) = session(alloc, shape, &pack, u64::MAX, 0)?;
    let closed = machine.event_count().saturating_sub(5);
    for count in 0..=machine.event_count() {
        let (wanted, text) = if count == 0 || count >= closed {
            (Status::Done, b"".as_slice())
        } else {
            (
                Status::NeedsScavenge,
                b"pack not clean: mark 2\n".as_slice(),
            )
        };
        let mut cut = machine.cut(alloc, count)?;
        let before = cut.shown(alloc)?.len();
        let status = alto(alloc, &words_of(alloc, "boot")?, MOMENT, &mut cut);
        assert!(rt; status == wanted, "{count}");
        assert_eq!(rt; cut.shown(alloc)?.get(before..), Some(text), "{count}");
        assert!(rt; cut.event_count() == count.saturating_add(text.len()));
    }
    Ok(())
}

/// Scavenges a machine over a cut, and enters its pack. The place of the view then.
fn view_mended(alloc: Global, shape: Shape, mut cut: MemMachine) -> Result<usize, Fail> {
    let mended = alto(alloc, &words_of(alloc, "scavenge")?, MOMENT, &mut cut);
    expect(mended == Status::Done, "a cut isn't scavenged")?;
    let entered = alto(alloc, &words_of(alloc, "boot")?, MOMENT, &mut cut);
    expect(entered == Status::Done, "a mended pack isn't entered")?;
    view_of(alloc, shape, cut.into_sectors())
}

#[test]
fn every_tenth_cut_is_mended_and_entered(rt: HostRuntime) -> Result<(), Fail> {
    let alloc = rt.alloc();
    let shape = shape_of(2)?;
    let pack = formatted(alloc, shape)?;
    let (machine, _) = session(alloc, shape, &pack, u64::MAX, 0)?;
    for count in 0..=machine.event_count() {
        if count % 10 != 0 {
            continue;
        }
        let view = view_of_cut(alloc, shape, machine.cut(alloc, count)?)?;
        let mended = view_mended(alloc, shape, machine.cut(alloc, count)?)?;
        assert!(rt; mended == view, "{count}");
    }
    Ok(())
}

/// How a session ends in which this call fails after so many of its record writes. Replies are shown whole. After a fault of the disk or the
/// display the keys of the next line are taken and no other, and every line that ended has its reply after one of the keyboard.
fn status_at(
    alloc: Global,
    shape: Shape,
    pack: &[Sector],
    fails: u64,
    after: u8,
) -> Result<Status, Fail> {
    let (mut machine, status) = session(alloc, shape, pack, fails, after)?;
    let cut = machine.cut(alloc, machine.event_count())?;
    let bytes = cut.shown(alloc)?.len();
    let count = replies_in(bytes);
    let next = count.saturating_add(1);
    expect(bytes == shown_in(count), "half a reply")?;
    let view = view_of_cut(alloc, shape, cut)?;
    let holds = if status == Status::Done {
        count == 20
    } else {
        let taken = keys_in(20).saturating_sub(machine.read(&mut [0; 512])?);
        match status {
            Status::DiskFault => taken == keys_in(next) || taken == 0,
            Status::KeyFault => {
                keys_in(count) <= taken && taken < keys_in(next) && view == view_after(count)
            }
            Status::DisplayFault => taken == keys_in(next) && view == view_after(next),
            _ => false,
        }
    };
    expect(holds, "not as a session ends")?;
    Ok(status)
}

#[test]
fn each_call_fails_once(rt: HostRuntime) -> Result<(), Fail> {
    let alloc = rt.alloc();
    let shape = shape_of(2)?;
    let pack = formatted(alloc, shape)?;
    let mut keys = 0usize;
    let mut shows = 0usize;
    for call in 0..5000u64 {
        match status_at(alloc, shape, &pack, call, 0)? {
            Status::KeyFault => keys = keys.saturating_add(1),
            Status::DisplayFault => shows = shows.saturating_add(1),
            Status::DiskFault => {
                let again = status_at(alloc, shape, &pack, call, 1)?;
                assert!(rt; again == Status::DiskFault, "{call}");
            }
            _ => break,
        }
    }
    // one key a read, and one show a reply
    assert!(rt; keys == keys_in(20) && shows == 20);
    Ok(())
}
