// Guarded sector commands: the sector that carries the page, and sectors that don't.
use alto_words::Fid;
use disk_memory::SureMachine;
use disk_records::{Disk, Page, Sector, page_of};
use label_check::{GuardError, PageInfo, claim, look, read_page, relabel, release, write_value};
use std::alloc::Global;
use std::process::Abort;
use std::test::Fail;
use test_packs::{Placed, sectors_of, sure_machine, value_of};

/// A label with false links.
const fn label(bytes: u16, page: Page) -> [u16; 8] {
    let Page { fid, number } = page;
    [
        0x1234,
        0x5678,
        0,
        bytes,
        number,
        fid.version,
        fid.high,
        fid.low,
    ]
}

const fn page(high: u16, low: u16, version: u16, number: u16) -> Page {
    Page {
        fid: Fid { high, low, version },
        number,
    }
}

const FREE: [u16; 8] = [0xFFFF; 8];

/// A machine where one sector has this label and a value that begins with 1, 2, 3.
fn machine_with(alloc: Global, at: u16, label: [u16; 8]) -> Result<SureMachine, Fail> {
    let placed = Placed {
        at,
        label,
        front: [1, 2, 3],
    };
    Ok(sure_machine(alloc, sectors_of(alloc, &[placed])?, b"")?)
}

/// The sectors that carry the page in turn: the first that is used, one between, the last.
const PLACES: [u16; 3] = [1, 6, 47];

/// The page that they carry, with five bytes.
const PAGE: Page = Page {
    fid: Fid {
        high: 0,
        low: 3,
        version: 1,
    },
    number: 1,
};

#[test]
fn pages_are_read(rt: HostRuntime) -> Result<(), Fail> {
    for at in PLACES {
        let mut machine = machine_with(rt.alloc(), at, label(5, PAGE))?;
        assert!(rt; 1 <= at && at < machine.shape().pages());
        let mut buf = Sector::ZEROS;
        assert!(rt; look(&mut machine, at, &mut buf)?);
        assert!(rt; buf == *machine.sector(at));

        buf = Sector::ZEROS;
        let info = read_page(&mut machine, at, PAGE, &mut buf)?;
        let wanted = PageInfo {
            bytes: 5,
            next: 0x1234,
            previous: 0x5678,
        };
        assert!(rt; info == wanted);
        assert!(rt; buf == *machine.sector(at));
        assert!(rt; machine.event_count() == 0);
    }
    Ok(())
}

#[test]
fn values_and_labels_are_written(rt: HostRuntime) -> Result<(), Fail> {
    for at in PLACES {
        let mut machine = machine_with(rt.alloc(), at, label(5, PAGE))?;
        assert!(rt; 1 <= at && at < machine.shape().pages());
        let mut sector = *machine.sector(at);
        sector.value = value_of([4, 5, 6]);
        write_value(&mut machine, at, PAGE, &sector.value)?;
        assert!(rt; *machine.sector(at) == sector);
        assert!(rt; machine.event_count() == 1);

        let next = label(512, PAGE);
        assert!(rt; page_of(&next) == Some(PAGE));
        relabel(&mut machine, at, PAGE, next)?;
        sector.label = next;
        assert!(rt; *machine.sector(at) == sector);
        assert!(rt; machine.event_count() == 3);
    }
    Ok(())
}

#[test]
fn sectors_are_released_and_claimed(rt: HostRuntime) -> Result<(), Fail> {
    for at in PLACES {
        let mut machine = machine_with(rt.alloc(), at, label(5, PAGE))?;
        assert!(rt; 1 <= at && at < machine.shape().pages());
        let mut sector = *machine.sector(at);
        sector.label = FREE;
        sector.value = [0xFFFF; 256];
        release(&mut machine, at, PAGE)?;
        assert!(rt; *machine.sector(at) == sector);
        assert!(rt; machine.event_count() == 2);

        let next = label(7, PAGE);
        assert!(rt; page_of(&next).is_some());
        sector.value = value_of([7, 8, 9]);
        claim(&mut machine, at, next, &sector.value)?;
        sector.label = next;
        assert!(rt; *machine.sector(at) == sector);
        assert!(rt; machine.event_count() == 5);
    }
    Ok(())
}

/// A sector that the guards refuse.
#[derive(Clone, Copy)]
struct Refused {
    at: u16,
    /// Its real address where that is wrong, and its label.
    real: Option<u16>,
    label: [u16; 8],
    /// The page that is asked for.
    asked: Page,
    /// The label that is found.
    found: Option<[u16; 8]>,
}

/// A machine where one sector has this label, and this real address if one is given.
fn machine_of(
    alloc: Global,
    at: u16,
    real: Option<u16>,
    label: [u16; 8],
) -> Result<SureMachine, Fail> {
    let mut sectors = sectors_of(alloc, &[])?;
    if let Some(sector) = sectors.get_mut(at as usize) {
        if let Some(real) = real {
            sector.header[1] = real;
        }
        sector.label = label;
    }
    Ok(sure_machine(alloc, sectors, b"")?)
}

#[test]
fn headers_are_looked_at(rt: HostRuntime) -> Result<(), Fail> {
    let alloc = rt.alloc();
    // a wrong header, a free sector, and a page that nobody asked for
    let rows = [
        (Some(0x7001), label(5, PAGE), false),
        (None, FREE, true),
        (None, label(9, page(7, 4, 2, 0)), true),
    ];
    for at in PLACES {
        for (real, label, right) in rows {
            let mut machine = machine_of(alloc, at, real, label)?;
            assert!(rt; 1 <= at && at < machine.shape().pages());
            let mut buf = Sector::ZEROS;
            assert!(rt; look(&mut machine, at, &mut buf)? == right);
            assert!(rt; buf == *machine.sector(at));
        }
    }
    Ok(())
}

/// Gives the page's sector another label for the same page, and sees that this is refused so.
fn check_relabel<A: Abort>(
    rt: &A,
    machine: &mut SureMachine,
    at: u16,
    asked: Page,
    wrong: GuardError,
) {
    assert!(rt; 1 <= at && at < machine.shape().pages());
    let next = label(5, asked);
    assert!(rt; page_of(&next) == Some(asked));
    assert!(rt; relabel(machine, at, asked, next) == Err(wrong));
}

/// Asks for the page in each of the four ways, and sees that nothing was written.
fn check_refused<R: Abort + AllocGlobal>(rt: &R, row: &Refused) -> Result<(), Fail> {
    let wrong = GuardError::Wrong { found: row.found };
    let at = row.at;
    let mut machine = machine_of(rt.alloc(), at, row.real, row.label)?;
    assert!(rt; 1 <= at && at < machine.shape().pages());
    let mut buf = Sector::ZEROS;
    assert!(rt; read_page(&mut machine, at, row.asked, &mut buf) == Err(wrong));
    assert!(rt; write_value(&mut machine, at, row.asked, &[0; 256]) == Err(wrong));
    assert!(rt; release(&mut machine, at, row.asked) == Err(wrong));
    check_relabel(rt, &mut machine, at, row.asked, wrong);
    assert!(rt; machine.event_count() == 0);
    Ok(())
}

#[test]
fn sectors_that_do_not_carry_the_page(rt: HostRuntime) -> Result<(), Fail> {
    let asked = PAGE;
    let others = [
        // another file, version or page number
        (label(5, page(0, 4, 1, 1)), asked),
        (label(5, page(0, 3, 2, 1)), asked),
        (label(5, page(0, 3, 1, 2)), asked),
        // words of 0 in memory, which the disk would take for any word
        (label(5, page(7, 3, 1, 1)), asked),
        (label(5, page(1, 3, 1, 1)), page(1, 0, 1, 1)),
        (label(5, asked), page(0, 3, 1, 0)),
        // words of 0 on the disk, which no other word matches
        (label(5, asked), page(7, 3, 1, 1)),
        (label(5, page(1, 0, 1, 1)), page(1, 3, 1, 1)),
        (label(512, page(0, 3, 1, 0)), asked),
        (label(5, page(0, 3, 0, 1)), asked),
        // a free sector, and labels out of range
        (FREE, asked),
        (label(513, asked), asked),
        ([0; 8], asked),
    ];
    for (label, asked) in others {
        for at in PLACES {
            let row = Refused {
                at,
                real: None,
                label,
                asked,
                found: Some(label),
            };
            check_refused(&rt, &row)?;
        }
    }
    // wrong headers: of another sector, with the restore bit, and of no sector
    for real in [0x7000, 0x6001, 0, 0xFFFF] {
        let row = Refused {
            at: 6,
            real: Some(real),
            label: label(5, asked),
            asked,
            found: None,
        };
        check_refused(&rt, &row)?;
    }
    Ok(())
}

#[test]
fn sectors_that_are_not_free(rt: HostRuntime) -> Result<(), Fail> {
    let asked = label(5, page(0, 3, 1, 1));
    let ones = 0xFFFF;
    let rows = [
        (None, asked, Some(asked)),
        // ones in two of the three words that make a label free
        (
            None,
            [ones, ones, ones, ones, ones, ones, ones, 0],
            Some([ones, ones, ones, ones, ones, ones, ones, 0]),
        ),
        (
            None,
            [ones, ones, ones, ones, ones, 0, ones, ones],
            Some([ones, ones, ones, ones, ones, 0, ones, ones]),
        ),
        (
            None,
            [ones, ones, ones, ones, ones, ones, 0, ones],
            Some([ones, ones, ones, ones, ones, ones, 0, ones]),
        ),
        (Some(0x7001), FREE, None),
    ];
    for at in PLACES {
        for (real, stands, found) in rows {
            let mut machine = machine_of(rt.alloc(), at, real, stands)?;
            assert!(rt; 1 <= at && at < machine.shape().pages());
            assert!(rt; page_of(&asked).is_some());
            let answer = claim(&mut machine, at, asked, &[0; 256]);
            assert!(rt; answer == Err(GuardError::Wrong { found }));
            assert!(rt; machine.event_count() == 0);
        }
    }
    Ok(())
}
