// Rows by hand of the table in leader.rt, one at each end of what a name may be.
use crate::{Leader, name_words};
use alto_words::{Fid, Name};
use std::test::Fail;

/// 38 letters.
const LETTERS: &str = "abcdefghijklmnopqrstuvwxyzABCDEFGHIJKL";

/// A leader page whose words 6 and on are these, the others counted up from 1,000.
fn page(name: &[u16; 3]) -> [u16; 256] {
    let mut value = [0; 256];
    for at in 0..256 {
        value[at] = 1000 + at as u16;
    }
    value[6] = name[0];
    value[7] = name[1];
    value[8] = name[2];
    value
}

#[test]
fn words_of_names(rt: HostRuntime) -> Result<(), Fail> {
    let short = name_words(&Name::parse(b"A").ok_or("no name")?);
    assert_eq!(rt; short[0], 577);
    assert_eq!(rt; short[1], 11776);
    assert_eq!(rt; short[2], 0);
    assert_eq!(rt; short[19], 0);
    // `A!2.`, of four characters
    let numbered = name_words(&Name::parse(b"A!2").ok_or("no name")?);
    assert_eq!(rt; numbered[0], 0x0441);
    assert_eq!(rt; numbered[1], 0x2132);
    assert_eq!(rt; numbered[2], 0x2E00);
    assert_eq!(rt; numbered[3], 0);
    // 39 characters: the length byte with `a`, .., `L` with the final `.`
    let long = name_words(&Name::parse(LETTERS.as_bytes()).ok_or("no name")?);
    assert_eq!(rt; long[0], 0x2761);
    assert_eq!(rt; long[1], 0x6263);
    assert_eq!(rt; long[19], 0x4C2E);
    Ok(())
}

#[test]
fn words_of_a_page(rt: HostRuntime) -> Result<(), Fail> {
    // `A.` and a byte after it
    let leader = Leader::decode(&page(&[577, 11864, 0x5858])).ok_or("no leader")?;
    assert_eq!(rt; leader.name.as_bytes(), b"A.".as_slice());
    assert_eq!(rt; leader.created, 65_537_001);
    assert_eq!(rt; leader.written, 65_668_075);
    assert_eq!(rt; leader.read, 65_799_149);
    assert_eq!(rt; leader.rest[0], 1026);
    assert_eq!(rt; leader.rest[219], 1245);
    assert_eq!(rt; leader.hints[0], 1246);
    assert_eq!(rt; leader.hints[9], 1255);
    // the bytes after the name are written 0, all else as it was
    let value = leader.encode();
    assert_eq!(rt; value[7], 11776);
    for at in 8..26 {
        assert_eq!(rt; value[at], 0);
    }
    for at in 26..256 {
        assert_eq!(rt; value[at], 1000 + at as u16);
    }
    for at in 0..6 {
        assert_eq!(rt; value[at], 1000 + at as u16);
    }
    assert_eq!(rt; Leader::decode(&value), Some(leader));
    Ok(())
}

#[test]
fn pages_that_spell_no_name(rt: HostRuntime) {
    let rows = [
        // length bytes 0 and 1, and 40, one more than there is room for
        [0x0041, 0x2E00, 0],
        [0x012E, 0x2E2E, 0],
        [0x282E, 0x2E2E, 0x2E2E],
        // no final `.`, which isn't added here
        [0x0241, 0x4200, 0],
        // `!A.`, `A!02.` and `A!1.`: nothing before the mark, a leading zero, and a version that isn't spelled
        [0x0321, 0x412E, 0],
        [0x0541, 0x2130, 0x322E],
        [0x0441, 0x2131, 0x2E00],
    ];
    for row in rows {
        assert!(rt; Leader::decode(&page(&row)).is_none());
    }
    assert!(rt; Leader::decode(&page(&[0x032E, 0x412E, 0])).is_some());
}

#[test]
fn a_name_with_a_version_in_a_page(rt: HostRuntime) -> Result<(), Fail> {
    let value = page(&[0x0441, 0x2132, 0x2E00]);
    let leader = Leader::decode(&value).ok_or("no leader")?;
    assert_eq!(rt; leader.name.as_bytes(), b"A!2.".as_slice());
    assert_eq!(rt; Leader::of_file(Fid::ordinary(9), &value), leader);
    let written = leader.encode();
    assert_eq!(rt; written[6], 0x0441);
    assert_eq!(rt; written[7], 0x2132);
    assert_eq!(rt; written[8], 0x2E00);
    Ok(())
}

#[test]
fn the_leader_of_a_file(rt: HostRuntime) -> Result<(), Fail> {
    // a length byte of 0; 9 is 11 in octal
    let lost = Leader::of_file(Fid::ordinary(9), &page(&[0x0041, 0x2E00, 0]));
    assert_eq!(rt; lost.name.as_bytes(), b"Lost11.".as_slice());
    assert_eq!(rt; lost.created, 65_537_001);
    assert_eq!(rt; lost.written, 65_668_075);
    assert_eq!(rt; lost.read, 65_799_149);
    assert_eq!(rt; lost.rest[219], 1245);
    assert_eq!(rt; lost.hints[0], 1246);
    let value = page(&[577, 11776, 0]);
    let named = Leader::of_file(Fid::ordinary(9), &value);
    assert_eq!(rt; Leader::decode(&value), Some(named));
    Ok(())
}

#[test]
fn the_longest_name_in_a_page(rt: HostRuntime) -> Result<(), Fail> {
    let name = Name::parse(LETTERS.as_bytes()).ok_or("no name")?;
    let mut value = page(&[0; 3]);
    value[6..26].copy_from_slice(&name_words(&name));
    let leader = Leader::decode(&value).ok_or("no leader")?;
    assert_eq!(rt; leader.name, name);
    assert_eq!(rt; leader.encode().as_slice(), value.as_slice());
    Ok(())
}
