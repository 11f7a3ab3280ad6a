// The word `format`: the worked row over a pack in memory, words that ask for nothing, and a device that fails.
use crate::obeying::{expect_no_key_taken, obey};
use alto_top::Status;
use disk_records::{Disk, Sector};
use std::test::Fail;
use test_packs::{DATA, LEADER, failing_machine, sectors_of, sure_machine};

/// What is shown of a formatted pack of 48 sectors, of which five are used.
const FORMATTED: &[u8] = b"formatted: 43 pages free\n";

/// The words of DiskDescriptor's page that aren't 0, all of them at its head: one drive of two cylinders, with two heads and twelve sectors
/// to a track; the last serial 2; the clean mark; 43 free sectors; three map words, of which the first has the five used sectors.
const DESCRIPTOR: [u16; 17] = [1, 2, 2, 12, 0, 2, 1, 43, 3, 0, 0, 0, 0, 0, 0, 0, 0xF800];

/// The header and the label of a sector. Of the label: next, previous, blank, bytes, page number, version, serial.
#[derive(Drop)]
struct Front {
    header: [u16; 2],
    label: [u16; 8],
}

fn headed(real: u16, label: [u16; 8]) -> Front {
    Front {
        header: [7, real],
        label,
    }
}

#[test]
fn worked_row(rt: HostRuntime) -> Result<(), Fail> {
    let alloc = rt.alloc();
    let keys = b"patch #3 1 4242\n";
    let mut machine = sure_machine(alloc, sectors_of(alloc, &[LEADER, DATA])?, keys)?;
    let status = obey(alloc, &["format", "7"], &mut machine)?;
    assert!(rt; status == Status::Done);
    assert_eq!(rt; machine.shown(alloc)?.as_slice(), FORMATTED);
    assert!(rt; machine.writes() == 144, "record writes");
    expect_no_key_taken(&rt, &mut machine, keys)?;
    let sectors = machine.into_sectors();
    // the first six
    let fronts = [
        headed(0, [0; 8]),
        headed(0x1000, [0x2000, 0xFFFF, 0, 512, 0, 1, 0x8000, 1]),
        headed(0x2000, [0xFFFF, 0x1000, 0, 510, 1, 1, 0x8000, 1]),
        headed(0x3000, [0x4000, 0xFFFF, 0, 512, 0, 1, 0, 2]),
        headed(0x4000, [0xFFFF, 0x3000, 0, 38, 1, 1, 0, 2]),
        headed(0x5000, [0xFFFF; 8]),
    ];
    for (front, found) in fronts.iter().zip(&sectors) {
        assert_eq!(rt; found.header, front.header);
        assert_eq!(rt; found.label, front.label);
    }
    let descriptor = sectors.get(4).copied().unwrap_or(Sector::ZEROS);
    assert_eq!(rt; descriptor.value.get(..17), Some(DESCRIPTOR.as_slice()));
    assert!(rt;
        descriptor.value.iter().skip(17).all(|word| *word == 0),
        "zeros"
    );
    let mut again = sure_machine(alloc, sectors, b"")?;
    let status = obey(alloc, &["show"], &mut again)?;
    assert!(rt; status == Status::Done);
    assert_eq!(rt; again.shown(alloc)?.as_slice(), b"0 files\n".as_slice());
    Ok(())
}

#[test]
fn words_that_format_nothing(rt: HostRuntime) -> Result<(), Fail> {
    let alloc = rt.alloc();
    let rows = [
        ["format", "0"],
        ["format", "65536"],
        ["format", ""],
        ["format", "1x"],
        ["Format", "1"],
        ["format", "4294967297"],
    ];
    for words in rows {
        let mut machine = sure_machine(alloc, sectors_of(alloc, &[LEADER, DATA])?, b"")?;
        let status = obey(alloc, &words, &mut machine)?;
        assert!(rt; status == Status::Usage);
        assert_eq!(rt; machine.shown(alloc)?.as_slice(), b"usage\n".as_slice());
        assert!(rt; machine.writes() == 0, "record writes");
    }
    Ok(())
}

/// The sixth sector command fails after two of its record writes: 17 are done, and nothing is shown.
#[test]
fn disk_that_fails(rt: HostRuntime) -> Result<(), Fail> {
    let alloc = rt.alloc();
    let mut machine = failing_machine(alloc, sectors_of(alloc, &[LEADER, DATA])?, b"")?;
    machine.fail_at(alloc, 5, 2)?;
    let status = obey(alloc, &["format", "7"], &mut machine)?;
    assert!(rt; status == Status::DiskFault);
    assert!(rt; machine.writes() == 17, "record writes");
    assert!(rt; machine.shown(alloc)?.is_empty(), "shown");
    Ok(())
}
