// What no clause says: texts, the moments of worked times, of what reading of the clock the moment of a run is, and which of two
// pack files is that of the first drive.
use crate::clock::moment_of;
use crate::end::{Complaint, Stop, exit_code, exit_complaint};
use crate::help::help_text;
use crate::run::run_words;
use crate::top::Runs;
use alto_top::Status;
use disk_image::ReachError;
use disk_records::{Act, Machine, Plan, Sector};
use std::alloc::{AllocError, Global};
use std::cell::Cell;
use std::io::ErrorKind;
use std::rt::Clock;
use std::test::Fail;
use std::time::{Duration, UNIX_EPOCH};
use std::{fs, io};

const HELP: &str = "The operating system of the Xerox Alto, over disk pack files

Usage: alto [--cylinders C] [--second PACK2] PACK WORDS

Arguments:
  <PACK>   The path of the pack file
  <WORDS>  boot: obeys the lines that are typed; show: lists what the pack holds; scavenge: mends the pack; format N: formats the pack, whose number is N, 1 to 65535; prepare N: prepares its second drive

Options:
      --cylinders <C>   Makes the pack file first, or both, new and of zeros, with 2 to 406 cylinders
      --second <PACK2>  The path of the pack file of a second drive, as long as PACK
      --help            Prints this help, where it is the only word
";

#[test]
fn text_of_help(rt: HostRuntime) -> Result<(), Fail> {
    assert_eq!(rt; help_text(rt.alloc())?.as_str(), HELP);
    Ok(())
}

#[test]
fn exit_codes_and_texts(rt: HostRuntime) -> Result<(), Fail> {
    let bad_length = ReachError::BadLength { bytes: 25_535 };
    let unlike = ReachError::Unlike {
        first: 25_536,
        second: 38_304,
    };
    let rows = [
        (Ok(Status::Done), 0, None),
        (Ok(Status::Usage), 1, None),
        (Ok(Status::NeedsScavenge), 2, None),
        (Ok(Status::DiskFault), 3, None),
        (Ok(Status::KeyFault), 4, None),
        (Ok(Status::DisplayFault), 5, None),
        (Ok(Status::Memory), 6, None),
        (Ok(Status::CannotScavenge), 7, None),
        (Err(Stop::Words), 1, Some("usage")),
        (Err(Stop::Pack(ReachError::NoFile)), 8, Some("no pack")),
        (Err(Stop::Pack(ReachError::InUse)), 8, Some("pack in use")),
        (Err(Stop::Pack(bad_length)), 8, Some("bad length 25535")),
        (Err(Stop::Pack(unlike)), 8, Some("unlike packs 25536 38304")),
        (Err(Stop::Pack(ReachError::Memory)), 6, None),
        (Err(Stop::Display), 5, None),
        (Err(Stop::Memory), 6, None),
    ];
    for (end, code, text) in rows {
        assert_eq!(rt; exit_code(end), code, "{text:?}");
        match (exit_complaint(end), text) {
            (Some(said), Some(text)) => {
                assert_eq!(rt; format!(in rt.alloc(); "{said}")?.as_str(), text);
            }
            (said, text) => assert!(rt; said.is_none() && text.is_none(), "{code}"),
        }
    }
    Ok(())
}

#[test]
fn moments(rt: HostRuntime) -> Result<(), Fail> {
    // 1970, 2000, the last second that a moment has, and the first one after it
    let rows = [
        (0, 2_177_452_800),
        (946_684_800, 3_124_137_600),
        (2_117_514_495, 4_294_967_295),
        (2_117_514_496, 4_294_967_295),
    ];
    for (seconds, moment) in rows {
        let time = UNIX_EPOCH.checked_add(Duration::from_secs(seconds));
        assert!(rt; time.is_some());
        if let Some(time) = time {
            assert_eq!(rt; moment_of(Ok(time)), moment, "{seconds}");
        }
    }
    assert_eq!(rt; moment_of(Err(io::Error::from(ErrorKind::Unsupported))), 0);
    Ok(())
}

/// A clock that is an hour later at each reading, the first one at the start of 1970.
#[derive(Drop)]
struct Ticking {
    readings: Cell<u64>,
}

impl Clock for Ticking {
    fn monotonic(&self) -> io::Result<Duration> {
        Err(io::Error::from(ErrorKind::Unsupported))
    }

    fn since_1970(&self) -> io::Result<Duration> {
        let reading = self.readings.get();
        self.readings.set(reading.saturating_add(1));
        Ok(Duration::from_secs(reading.saturating_mul(3_600)))
    }
}

/// A top call that does nothing and notes its calls, with the last moment. Memory is what each top call may answer.
#[derive(Drop)]
struct Noting {
    calls: Cell<u64>,
    moment: Cell<u32>,
}

impl Runs for Noting {
    fn may_write(&self, _: &[String]) -> bool {
        true
    }

    fn run<M: Machine>(&self, _: Global, _: &[String], moment: u32, _: &mut M) -> Status {
        self.calls.set(self.calls.get().saturating_add(1));
        self.moment.set(moment);
        Status::Memory
    }
}

/// The words of a line, which are parted by single spaces.
fn words_of(alloc: Global, line: &str) -> Result<Vec<String>, AllocError> {
    let mut words = Vec::new(alloc);
    for word in line.split(' ') {
        words.push(word.to_string(alloc)?)?;
    }
    Ok(words)
}

#[test]
fn moment_of_a_run(rt: HostRuntime) -> Result<(), Fail> {
    let clock = Ticking {
        readings: Cell::new(0),
    };
    let top = Noting {
        calls: Cell::new(0),
        moment: Cell::new(0),
    };
    // each line that has a machine reads the clock once, and the moment that the top call is given is that of its reading
    let rows = [
        (
            "--cylinders 2 clocked boot",
            Ok(Status::Memory),
            1,
            2_177_452_800,
        ),
        ("clocked boot", Ok(Status::Memory), 2, 2_177_456_400),
        ("clocked show", Ok(Status::Memory), 3, 2_177_460_000),
        ("clocked", Ok(Status::Memory), 4, 2_177_463_600),
        (
            "missing boot",
            Err(Stop::Pack(ReachError::NoFile)),
            4,
            2_177_463_600,
        ),
        ("--cylinders 2", Err(Stop::Words), 4, 2_177_463_600),
        ("--help", Ok(Status::Done), 4, 2_177_463_600),
    ];
    for (line, end, calls, moment) in rows {
        let words = words_of(rt.alloc(), line)?;
        assert!(rt; run_words(&rt, &clock, &top, &words) == end, "{line}");
        assert_eq!(rt; clock.readings.get(), calls, "{line}");
        assert_eq!(rt; top.calls.get(), calls, "{line}");
        assert_eq!(rt; top.moment.get(), moment, "{line}");
    }
    fs::remove_file(&rt, "clocked")?;
    Ok(())
}

const READ_ALL: Plan = Plan {
    header: Act::Read,
    label: Act::Read,
    value: Act::Read,
};

const WRITE_ALL: Plan = Plan {
    header: Act::Write,
    label: Act::Write,
    value: Act::Write,
};

/// A sector whose words are all one.
fn filled(word: u16) -> Sector {
    Sector {
        header: [word; 2],
        label: [word; 8],
        value: [word; 256],
    }
}

/// A top call that notes the first word of the pack's first sector, and fills that sector with a word of its own.
#[derive(Drop)]
struct Marking {
    mark: u16,
    found: Cell<Option<u16>>,
}

impl Runs for Marking {
    fn may_write(&self, _: &[String]) -> bool {
        true
    }

    fn run<M: Machine>(&self, _: Global, _: &[String], _: u32, machine: &mut M) -> Status {
        let mut memory = filled(9);
        if machine.shape().pages() > 0 && machine.run(0, READ_ALL, &mut memory).is_ok() {
            self.found.set(Some(memory.header[0]));
            let _ = machine.run(0, WRITE_ALL, &mut filled(self.mark));
            let _ = machine.flush();
        }
        Status::Memory
    }
}

/// Whether a pack file of two cylinders has words of two like bytes in its first sector, and zeros in all others.
fn is_marked(rt: &HostRuntime, path: &str, byte: u8) -> Result<bool, Fail> {
    let bytes = fs::read(rt, path)?;
    let (first, others) = bytes.as_slice().split_at_checked(532).ok_or("a sector")?;
    let is_first = first.iter().all(|it| *it == byte);
    Ok(bytes.len() == 25_536 && is_first && others.iter().all(|it| *it == 0))
}

#[test]
fn pack_is_the_first_drive(rt: HostRuntime) -> Result<(), Fail> {
    let clock = Ticking {
        readings: Cell::new(0),
    };
    // the first word that is found, the word that is written there, and then the bytes of the first sector of each file
    let rows = [
        ("--cylinders 2 --second back front boot", 0, 0x0101, 1, 0),
        ("--second back front boot", 0x0101, 0x0202, 2, 0),
        ("--second front back boot", 0, 0x0303, 2, 3),
        ("--second back front show", 0x0202, 0x0404, 4, 3),
        ("back boot", 0x0303, 0x0505, 4, 5),
    ];
    for (line, found, mark, front, back) in rows {
        let top = Marking {
            mark,
            found: Cell::new(None),
        };
        let words = words_of(rt.alloc(), line)?;
        let end = run_words(&rt, &clock, &top, &words);
        assert!(rt; end == Ok(Status::Memory), "{line}");
        assert!(rt; top.found.get() == Some(found), "{line}");
        assert!(rt; is_marked(&rt, "front", front)?, "{line}");
        assert!(rt; is_marked(&rt, "back", back)?, "{line}");
    }
    fs::remove_file(&rt, "front")?;
    fs::remove_file(&rt, "back")?;
    Ok(())
}
