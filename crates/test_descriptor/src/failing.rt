// DiskDescriptor on a machine that has no memory for a record write, or fails there. Its two data pages are in sectors 4 and 5.
ghost use Rattle.std.specs.Prelude.{false};
ghost use Rattle.std.proofs.lemmas.Bool.{false≢true};

use crate::opening::{DESCRIPTOR, formatted_large};
use disk_descriptor::{DescError, FormatError, OpenError, enter_pack, format};
use disk_memory::SureMachine;
use disk_records::{Act, Disk, DiskError, Plan, Sector, Shape, Tape};
use std::test::Fail;

/// A machine that isn't modelled: so many commands that it counts are obeyed, and then they fail, or there is no memory for them.
#[derive(Drop)]
struct Limited {
    machine: SureMachine,
    reads_too: bool,
    left: u16,
    fails: bool,
    faults: u64,
}

impl Tape for Limited {
    ghost told = { false };

    ghost tape = { λ m. record (⟦<SureMachine as Tape>⟧.tape m.machine) { disk_faults = m.faults } };

    ghost handed_on = { λ m. Unit {0} };
}

impl Disk for Limited {
    fn shape(&self) -> Shape {
        self.machine.shape()
    }

    fn writes(&self) -> u64 {
        self.machine.writes()
    }

    fn run(&mut self, at: u16, plan: Plan, buf: &mut Sector) -> Result<(), DiskError> {
        if self.reads_too || plan.value == Act::Write {
            if self.left == 0 && self.fails {
                self.faults = self.faults.saturating_add(1);
                return Err(DiskError::Failed);
            }
            if self.left == 0 {
                return Err(DiskError::Memory);
            }
            self.left -= 1;
        }
        self.machine.run(at, plan, buf)
    }

    fn flush(&mut self) -> Result<(), DiskError> {
        Ok(())
    }

    ghost counted = { λ d told. absurd (false≢true told) };

    ghost sized = { λ d told. absurd (false≢true told) };

    ghost formed = { λ d told. absurd (false≢true told) };
}

/// Each call that writes answers what kept it from that, and the mark and the serial that are kept are as before.
#[test]
fn no_record_write(rt: HostRuntime) -> Result<(), Fail> {
    for (fails, wanted) in [(false, DescError::Memory), (true, DescError::DiskFault)] {
        let (machine, mut hints) = formatted_large(rt.alloc())?;
        let mut disk = Limited {
            machine,
            reads_too: false,
            left: 0,
            fails,
            faults: 0,
        };
        assert!(rt; hints.table.pages() == disk.shape().pages());
        let mut kept = enter_pack(&mut disk, &mut hints, &DESCRIPTOR)?;
        assert_eq!(rt; kept.mark_open(&mut disk), Err(wanted));
        disk.left = 1;
        kept.mark_open(&mut disk)?;
        assert_eq!(rt; kept.next_serial(&mut disk), Err(wanted));
        assert_eq!(rt; (kept.mark(), kept.last()), (2, 2));
        disk.left = 7;
        let events = disk.machine.event_count();
        let answer = format(&mut disk, 1, 0);
        let wanted = if fails {
            FormatError::DiskFault
        } else {
            FormatError::Memory
        };
        assert_eq!(rt; answer, Err(wanted));
        assert_eq!(rt; disk.machine.event_count(), events + 21);
    }
    Ok(())
}

/// A pack that isn't closed after one of two pages, which is the second: the first one stands as it was, and what is kept too.
#[test]
fn one_page_of_two(rt: HostRuntime) -> Result<(), Fail> {
    for (fails, wanted) in [(false, DescError::Memory), (true, DescError::DiskFault)] {
        let (machine, mut hints) = formatted_large(rt.alloc())?;
        let mut disk = Limited {
            machine,
            reads_too: false,
            left: 2,
            fails,
            faults: 0,
        };
        assert!(rt; hints.table.pages() == disk.shape().pages());
        let mut kept = enter_pack(&mut disk, &mut hints, &DESCRIPTOR)?;
        kept.mark_open(&mut disk)?;
        let first = *disk.machine.sector(4);
        let writes = disk.machine.writes();
        assert!(rt; hints.table.pages() == disk.shape().pages());
        assert_eq!(rt; kept.close_pack(&mut disk, &hints.table), Err(wanted));
        assert_eq!(rt; Some(disk.machine.writes()), writes.checked_add(1));
        assert!(rt; *disk.machine.sector(4) == first);
        assert_eq!(rt; (kept.mark(), kept.last()), (2, 2));
    }
    Ok(())
}

/// A pack isn't entered if a command fails. It takes three commands: the leader, and for each page one.
#[test]
fn a_read_that_fails(rt: HostRuntime) -> Result<(), Fail> {
    for left in 0..3 {
        let (machine, mut hints) = formatted_large(rt.alloc())?;
        let mut disk = Limited {
            machine,
            reads_too: true,
            left,
            fails: true,
            faults: 0,
        };
        assert!(rt; hints.table.pages() == disk.shape().pages());
        match enter_pack(&mut disk, &mut hints, &DESCRIPTOR) {
            Ok(_) => assert!(rt; false),
            Err(error) => assert_eq!(rt; error, OpenError::DiskFault),
        }
    }
    Ok(())
}
