// Power failures: what is done with a pack file that has any of the write calls that were made since the device was last waited for.
//
// Each write call is lost whole or stands whole. Those before the last wait stand.
use crate::outside::{Broken, Log, Outside, Taken};
use crate::samples::{MADE, MARK_AT, expect_done, start};
use alto_top::{Status, format_pack, scavenge_pack};
use disk_image::FileMachine;
use std::fs;
use std::test::Fail;

/// What is typed in sessions that write, one after the other, on the pack with the file A.
const SESSIONS: [&[u8]; 4] = [
    b"make B\nappend B 565758595A\n",
    b"mkdir D\nmake D>E\n",
    b"copy A C\nrename B F\n",
    b"delete A\n",
];

/// The most write calls between two waits.
const MOST_CALLS: usize = 10;

/// Where the label of a sector stands in its 532 bytes.
const LABEL_AT: u64 = 4;

/// How often the device was waited for.
fn waits_in(calls: &[Taken]) -> usize {
    let mut waits: usize = 0;
    for call in calls {
        if let Taken::Settled = call {
            waits = waits.saturating_add(1);
        }
    }
    waits
}

/// Makes a formatted pack file with the one file. Formatting waits for the device once, after the last write.
fn place_pack(host: &HostRuntime, path: &str) -> Result<(), Fail> {
    let alloc = host.alloc();
    let log = Log::new(alloc);
    let outside = Outside::new(host, MADE, Broken::Nothing, &log);
    let mut machine = FileMachine::create(&outside, alloc, path, 2)?;
    expect_done(format_pack(alloc, 1, 1000, &mut machine))?;
    let calls = log.take_taken(alloc)?;
    let is_last = matches!(calls.last(), Some(Taken::Settled));
    expect(
        is_last && waits_in(&calls) == 1,
        "formatting doesn't end with one wait for the device",
    )?;
    expect_done(start(alloc, &mut machine))
}

/// Passes if this holds.
fn expect(holds: bool, what: &'static str) -> Result<(), Fail> {
    if holds { Ok(()) } else { Ok(None.ok_or(what)?) }
}

/// Writes bytes to their place in a pack file's.
fn put(image: &mut [u8], at: u64, bytes: &[u8]) {
    for (place, byte) in image.iter_mut().skip(at as usize).zip(bytes) {
        *place = *byte;
    }
}

/// What a session without keys answers on a pack file with these bytes.
fn entering(rt: &HostRuntime, image: &[u8]) -> Result<Status, Fail> {
    let alloc = rt.alloc();
    fs::write(rt, "failed", image)?;
    let log = Log::new(alloc);
    let outside = Outside::new(rt, b"", Broken::Nothing, &log);
    let mut machine = FileMachine::reach(&outside, alloc, "failed")?;
    let answer = start(alloc, &mut machine);
    drop(machine);
    fs::remove_file(rt, "failed")?;
    Ok(answer)
}

/// A pack file before and after what was done with it, and what the device was asked to have meanwhile.
#[derive(Drop)]
struct Done {
    before: Vec<u8>,
    after: Vec<u8>,
    calls: Vec<Taken>,
}

impl Done {
    /// Tries each pack file that has some of these write calls, after those that stand in these bytes: it isn't entered, or it is the pack
    /// before or after. Counts those that aren't entered.
    fn try_all(
        &self,
        rt: &HostRuntime,
        settled: &[u8],
        since: &[(u64, &[u8])],
    ) -> Result<u32, Fail> {
        expect(
            since.len() <= MOST_CALLS,
            "so many calls are too many to try",
        )?;
        let mut refused: u32 = 0;
        for kept in 0u32..1 << MOST_CALLS {
            let mut image = settled.to_vec(rt.alloc())?;
            let mut rest = kept;
            for (at, bytes) in since {
                if rest % 2 == 1 {
                    put(&mut image, *at, bytes);
                }
                rest /= 2;
            }
            // each choice of them was made
            if rest > 0 {
                break;
            }
            match entering(rt, &image)? {
                Status::NeedsScavenge => refused = refused.saturating_add(1),
                Status::Done => {
                    let is_before = image.as_slice() == self.before.as_slice();
                    let is_after = image.as_slice() == self.after.as_slice();
                    expect(
                        is_before || is_after,
                        "a pack that is entered is another one",
                    )?;
                }
                _ => expect(false, "a session ends otherwise")?,
            }
        }
        Ok(refused)
    }

    /// Lets the power fail after each call. Counts the pack files that aren't entered.
    fn fail_everywhere(&self, rt: &HostRuntime) -> Result<u32, Fail> {
        let mut settled = self.before.clone()?;
        let mut since = Vec::new(rt.alloc());
        let mut refused: u32 = 0;
        for call in &self.calls {
            match call {
                Taken::Bytes { at, bytes } => since.push((*at, bytes.as_slice()))?,
                Taken::Settled => {
                    refused = refused.saturating_add(self.try_all(rt, &settled, &since)?);
                    for (at, bytes) in &since {
                        put(&mut settled, *at, bytes);
                    }
                    since.clear();
                }
            }
        }
        expect(since.is_empty(), "the device was not waited for at the end")?;
        let is_after = settled.as_slice() == self.after.as_slice();
        expect(is_after, "the device has something else")?;
        Ok(refused)
    }

    /// How often the device was waited for.
    fn waits(&self) -> usize {
        waits_in(&self.calls)
    }
}

/// What a session with these keys does with a pack file.
fn session_over(rt: &HostRuntime, path: &str, keys: &[u8]) -> Result<Done, Fail> {
    let alloc = rt.alloc();
    let before = fs::read(rt, path)?;
    let log = Log::new(alloc);
    let outside = Outside::new(rt, keys, Broken::Nothing, &log);
    let mut machine = FileMachine::reach(&outside, alloc, path)?;
    expect_done(start(alloc, &mut machine))?;
    drop(machine);
    let after = fs::read(rt, path)?;
    let calls = log.take_taken(alloc)?;
    Ok(Done {
        before,
        after,
        calls,
    })
}

/// What a scavenge does with a pack file.
fn scavenge_over(rt: &HostRuntime, path: &str) -> Result<Done, Fail> {
    let alloc = rt.alloc();
    let before = fs::read(rt, path)?;
    let log = Log::new(alloc);
    let outside = Outside::new(rt, b"", Broken::Nothing, &log);
    let mut machine = FileMachine::reach(&outside, alloc, path)?;
    expect_done(scavenge_pack(alloc, &mut machine))?;
    drop(machine);
    let after = fs::read(rt, path)?;
    let calls = log.take_taken(alloc)?;
    Ok(Done {
        before,
        after,
        calls,
    })
}

#[test]
fn the_power_fails_in_a_session(rt: HostRuntime) -> Result<(), Fail> {
    place_pack(&rt, "typed")?;
    for keys in SESSIONS {
        let done = session_over(&rt, "typed", keys)?;
        // one wait after the open mark, one before the clean one and one after it
        assert!(rt; done.waits() == 3);
        assert!(rt; done.fail_everywhere(&rt)? > 0);
    }
    // a bad line, and a session that only reads, write nothing and wait for nothing
    for keys in [b"mke\n".as_slice(), b"list\ntype F\n", b""] {
        let done = session_over(&rt, "typed", keys)?;
        assert!(rt; done.calls.is_empty());
        assert!(rt; done.before.as_slice() == done.after.as_slice());
    }
    fs::remove_file(&rt, "typed")?;
    Ok(())
}

#[test]
fn the_power_fails_in_a_scavenge(rt: HostRuntime) -> Result<(), Fail> {
    place_pack(&rt, "whole")?;
    let closed = fs::read(&rt, "whole")?;
    // a pack that a session left open: nothing is mended, and the mark is set
    let mut open = closed.clone()?;
    put(&mut open, MARK_AT as u64, &[2]);
    // the label of the page of DiskDescriptor is lost, and its mark is clean
    let mut freed = closed.clone()?;
    put(&mut freed, 4 * 532 + LABEL_AT, &[0xFF; 16]);
    // the labels of a leader page and of a page of the directory are lost too
    let mut lost = closed.clone()?;
    put(&mut lost, 5 * 532 + LABEL_AT, &[0xFF; 16]);
    put(&mut lost, 2 * 532 + LABEL_AT, &[0xFF; 16]);
    for (image, waits) in [(&open, 2), (&freed, 2), (&lost, 3), (&closed, 2)] {
        fs::write(&rt, "mended", image.as_slice())?;
        let done = scavenge_over(&rt, "mended")?;
        assert!(rt; done.waits() == waits, "{}", done.waits());
        let _refused = done.fail_everywhere(&rt)?;
    }
    fs::remove_file(&rt, "mended")?;
    fs::remove_file(&rt, "whole")?;
    Ok(())
}
