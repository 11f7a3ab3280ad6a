// Words of a command line that ask for nothing, and the word `show`: no key is taken and nothing is written.
use crate::obeying::{expect_no_key_taken, obey};
use alto_top::Status;
use disk_records::Disk;
use std::test::Fail;
use test_packs::{DATA, LEADER, sectors_of, sure_machine};

/// Keys that nobody takes.
const KEYS: &[u8] = b"make A\n";

#[test]
fn words_that_ask_for_nothing(rt: HostRuntime) -> Result<(), Fail> {
    let alloc = rt.alloc();
    let lists = [
        [].as_slice(),
        &["boot", "boot"],
        &["alto", "boot"],
        &["Boot"],
        &["halt"],
        &["boot "],
        &[""],
    ];
    for words in lists {
        let mut machine = sure_machine(alloc, sectors_of(alloc, &[LEADER, DATA])?, KEYS)?;
        assert!(rt; obey(alloc, words, &mut machine)? == Status::Usage);
        assert_eq!(rt; machine.shown(alloc)?.as_slice(), b"usage\n".as_slice());
        assert!(rt; machine.event_count() == 6);
        expect_no_key_taken(&rt, &mut machine, KEYS)?;
    }
    Ok(())
}

#[test]
fn the_word_show_lists_the_files(rt: HostRuntime) -> Result<(), Fail> {
    let alloc = rt.alloc();
    let mut machine = sure_machine(alloc, sectors_of(alloc, &[LEADER, DATA])?, KEYS)?;
    assert!(rt; obey(alloc, &["show"], &mut machine)? == Status::Done);
    // the leader has no name, and 3 is 3 in octal
    let listing = b"SysDir>Lost3. length 5\n1 files\n".as_slice();
    assert_eq!(rt; machine.shown(alloc)?.as_slice(), listing);
    assert!(rt; machine.writes() == 0);
    expect_no_key_taken(&rt, &mut machine, KEYS)
}
