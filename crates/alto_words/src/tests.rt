// Worked rows of names and of numbers in text, and each call that takes memory once with enough of it.
use crate::{
    Fid, HexError, List, Name, Wanted, push_hex, push_number, put_hex, read_hex, read_number,
};
use std::cmp::Ordering;
use std::test::Fail;

#[test]
fn full_names_that_a_file_can_have(rt: HostRuntime) {
    let rows = [
        (0, 1, 1, true),
        (0x8000, 1, 0xFFFE, true),
        (1, 0, 1, true),
        (0, 1, 0, false),
        (0, 1, 0xFFFF, false),
        (0, 0, 1, false),
        (0x8000, 0, 1, false),
    ];
    for (high, low, version, may) in rows {
        let fid = Fid { high, low, version };
        assert_eq!(rt; fid.is_full_name(), may);
    }
}

/// 38 letters.
const LETTERS: &str = "abcdefghijklmnopqrstuvwxyzABCDEFGHIJKL";

#[test]
fn texts_that_are_names(rt: HostRuntime) -> Result<(), Fail> {
    let rows = [
        ("A", "A."),
        ("a.", "a."),
        ("..", ".."),
        ("x.y", "x.y."),
        ("+-.$9", "+-.$9."),
        (LETTERS, "abcdefghijklmnopqrstuvwxyzABCDEFGHIJKL."),
        (
            "abcdefghijklmnopqrstuvwxyzABCDEFGHIJKL.",
            "abcdefghijklmnopqrstuvwxyzABCDEFGHIJKL.",
        ),
        ("A!2", "A!2."),
        ("A!2.", "A!2."),
        ("A!65534", "A!65534."),
        ("A!1", "A."),
        ("A!1.", "A."),
        ("A.!2", "A!2."),
        ("A..!2", "A.!2."),
        ("..!2", ".!2."),
        (
            "abcdefghijklmnopqrstuvwxyzABCDEFGHIJ!2",
            "abcdefghijklmnopqrstuvwxyzABCDEFGHIJ!2.",
        ),
    ];
    for (text, stored) in rows {
        let name = Name::parse(text.as_bytes()).ok_or("no name")?;
        assert_eq!(rt; name.as_bytes(), stored.as_bytes());
    }
    Ok(())
}

#[test]
fn texts_that_are_no_names(rt: HostRuntime) {
    let rows = [
        "",
        ".",
        "a b",
        "a/b",
        "caf\u{e9}",
        "abcdefghijklmnopqrstuvwxyzABCDEFGHIJKLM",
        "abcdefghijklmnopqrstuvwxyzABCDEFGHIJKLM.",
        "A!65535",
        "A!0",
        "A!01",
        "A!",
        "A!.",
        "A!2..",
        "A!2!3",
        "A!2x",
        "!2",
        ".!2",
        "abcdefghijklmnopqrstuvwxyzABCDEFGHIJKL!2",
        "abcdefghijklmnopqrstuvwxyzABCDEFGHIJK!2",
    ];
    for text in rows {
        assert!(rt; Name::parse(text.as_bytes()).is_none(), "{text}");
        assert!(rt; Wanted::parse(text.as_bytes()).is_none(), "{text}");
    }
}

#[test]
fn bytes_that_are_stored_names(rt: HostRuntime) {
    let rows = [
        ("A.", true),
        ("..", true),
        ("abcdefghijklmnopqrstuvwxyzABCDEFGHIJKL.", true),
        ("A", false),
        (".", false),
        ("", false),
        ("a b.", false),
        ("abcdefghijklmnopqrstuvwxyzABCDEFGHIJKLM.", false),
        ("A!2.", true),
        ("A.!2.", true),
        (".!2.", true),
        ("A!65534.", true),
        ("abcdefghijklmnopqrstuvwxyzABCDEFGHIJ!2.", true),
        ("A!2", false),
        ("A!1.", false),
        ("A!02.", false),
        ("A!65535.", false),
        ("A!.", false),
        ("A!2..", false),
        ("A!2!3.", false),
        ("!2.", false),
        ("abcdefghijklmnopqrstuvwxyzABCDEFGHIJK!2.", false),
    ];
    for (text, is_stored) in rows {
        let name = Name::stored(text.as_bytes());
        assert_eq!(rt; name.is_some(), is_stored, "{text}");
        if let Some(name) = name {
            assert_eq!(rt; name.as_bytes(), text.as_bytes());
        }
    }
}

#[test]
fn names_in_any_case(rt: HostRuntime) -> Result<(), Fail> {
    let rows = [
        ("A", "a.", Ordering::Equal),
        ("a", "B", Ordering::Less),
        ("Z", "a", Ordering::Greater),
        ("ab", "aB.c", Ordering::Less),
        ("a-", "a", Ordering::Less),
        ("A", "a!2", Ordering::Less),
        ("a!2", "A!2", Ordering::Equal),
        ("A!2", "A!10", Ordering::Less),
        ("A!10", "A.B", Ordering::Less),
        ("B", "A!9", Ordering::Greater),
    ];
    for (left, right, order) in rows {
        let left = Name::parse(left.as_bytes()).ok_or("no name")?;
        let right = Name::parse(right.as_bytes()).ok_or("no name")?;
        assert_eq!(rt; left.folded_cmp(&right), order);
        assert_eq!(rt; left.same(&right), order == Ordering::Equal);
        assert!(rt; left == left);
    }
    let capital = Name::parse(b"A").ok_or("no name")?;
    let small = Name::parse(b"a").ok_or("no name")?;
    assert!(rt; capital != small);
    Ok(())
}

#[test]
fn names_with_a_number(rt: HostRuntime) -> Result<(), Fail> {
    let rows = [
        ("A", 1, "A.$1."),
        (
            "abcdefghijklmnopqrstuvwxyzABCDEFGHI",
            1,
            "abcdefghijklmnopqrstuvwxyzABCDEFGHI.$1.",
        ),
        (
            "abcdefghijklmnopqrstuvwxyzABCDEFGHIJ",
            1,
            "abcdefghijklmnopqrstuvwxyzABCDEFGHIJ$1.",
        ),
        (LETTERS, 1, "abcdefghijklmnopqrstuvwxyzABCDEFGHIJ$1."),
        (LETTERS, 10, "abcdefghijklmnopqrstuvwxyzABCDEFGHI$10."),
        (LETTERS, 65_535, "abcdefghijklmnopqrstuvwxyzABCDEF$65535."),
        (
            "abcdefghijklmnopqrstuvwxyzABCDEFGHIJ$1",
            1,
            "abcdefghijklmnopqrstuvwxyzABCDEFGHIJ$1.",
        ),
        ("X!2", 1, "X.$1!2."),
        (
            "abcdefghijklmnopqrstuvwxyzABCDE!65534",
            1,
            "abcdefghijklmnopqrstuvwxyzABCD$1!65534.",
        ),
        (
            "abcdefghijklmnopqrstuvwxyzABCDE!65534",
            65_535,
            "abcdefghijklmnopqrstuvwxyz$65535!65534.",
        ),
    ];
    for (text, k, stored) in rows {
        assert!(rt; 1 <= k && k <= 65_535);
        let name = Name::parse(text.as_bytes()).ok_or("no name")?;
        assert_eq!(rt; name.suffixed(k).as_bytes(), stored.as_bytes());
    }
    Ok(())
}

#[test]
fn names_by_base_and_version(rt: HostRuntime) -> Result<(), Fail> {
    let rows = [
        ("A", "A.", 1),
        ("A!2", "A.", 2),
        ("a.!65534", "a.", 65_534),
        ("A..!10", "A..", 10),
        (LETTERS, "abcdefghijklmnopqrstuvwxyzABCDEFGHIJKL.", 1),
    ];
    for (text, base, version) in rows {
        let name = Name::parse(text.as_bytes()).ok_or("no name")?;
        assert_eq!(rt; name.base().as_bytes(), base.as_bytes());
        assert_eq!(rt; name.version(), version);
        assert_eq!(rt; name.is_bare(), version == 1);
        assert_eq!(rt; name.base().with_version(name.version()), Some(name));
    }
    Ok(())
}

#[test]
fn versions_of_bare_names(rt: HostRuntime) -> Result<(), Fail> {
    let rows = [
        ("A", 1, "A."),
        ("A", 2, "A!2."),
        ("A", 65_534, "A!65534."),
        (
            "abcdefghijklmnopqrstuvwxyzABCDEFGHIJ",
            9,
            "abcdefghijklmnopqrstuvwxyzABCDEFGHIJ!9.",
        ),
        ("abcdefghijklmnopqrstuvwxyzABCDEFGHIJ", 10, ""),
        (LETTERS, 1, "abcdefghijklmnopqrstuvwxyzABCDEFGHIJKL."),
        (LETTERS, 2, ""),
    ];
    for (text, n, stored) in rows {
        let base = Name::parse_bare(text.as_bytes()).ok_or("no name")?;
        assert!(rt; 1 <= n && n <= 65_534);
        assert_eq!(rt; base.with_version(n), Name::stored(stored.as_bytes()));
    }
    assert!(rt; Name::parse_bare(b"A!2").is_none());
    assert!(rt; Name::parse_bare(b"A!1").is_none());
    assert!(rt; Name::parse_bare(b"A b").is_none());
    Ok(())
}

#[test]
fn operands_that_want_a_file(rt: HostRuntime) -> Result<(), Fail> {
    let bare = Name::stored(b"A.").ok_or("no name")?;
    let numbered = Name::stored(b"A!2.").ok_or("no name")?;
    let rows = [
        ("A", Wanted::Newest { base: bare }),
        ("A.", Wanted::Newest { base: bare }),
        ("A!1", Wanted::Exact { name: bare }),
        ("A!2", Wanted::Exact { name: numbered }),
        ("A.!2.", Wanted::Exact { name: numbered }),
    ];
    for (text, wanted) in rows {
        assert_eq!(rt; Wanted::parse(text.as_bytes()), Some(wanted), "{text}");
        assert_eq!(rt; wanted.base(), bare);
    }
    Ok(())
}

#[test]
fn names_of_lost_files(rt: HostRuntime) {
    let rows = [
        (0, "Lost0."),
        (7, "Lost7."),
        (8, "Lost10."),
        (100, "Lost144."),
        (0x7fff_ffff, "Lost17777777777."),
        (u32::MAX, "Lost37777777777."),
    ];
    for (serial, stored) in rows {
        assert_eq!(rt;
            Name::lost(serial).as_bytes(),
            stored.as_bytes(),
            "{serial}"
        );
    }
}

#[test]
fn numbers_read(rt: HostRuntime) {
    let rows = [
        ("0", Some(0)),
        ("007", Some(7)),
        ("0000000010", Some(10)),
        ("4294967295", Some(u32::MAX)),
        ("4294967296", None),
        ("9999999999", None),
        ("00000000001", None),
        ("", None),
        ("1a", None),
        ("-1", None),
        ("+1", None),
    ];
    for (text, number) in rows {
        assert_eq!(rt; read_number(text.as_bytes()), number);
    }
}

#[test]
fn numbers_written(rt: HostRuntime) -> Result<(), Fail> {
    let mut out = Vec::new(rt.alloc());
    for n in [0, 7, u64::MAX] {
        push_number(rt.alloc(), &mut out, n)?;
        out.push(b' ')?;
    }
    assert_eq!(rt; out.as_slice(), b"0 7 18446744073709551615 ".as_slice());
    Ok(())
}

#[test]
fn bytes_read(rt: HostRuntime) -> Result<(), Fail> {
    assert_eq!(rt; read_hex(rt.alloc(), b"-")?.as_slice(), b"".as_slice());
    assert_eq!(rt;
        read_hex(rt.alloc(), b"09aFAf")?.as_slice(),
        b"\x09\xaf\xaf".as_slice()
    );
    for text in ["", "4", "a-", "0g", "123", "--"] {
        assert!(rt; matches!(read_hex(rt.alloc(), text.as_bytes()), Err(HexError::Bad)));
    }
    Ok(())
}

#[test]
fn bytes_written(rt: HostRuntime) -> Result<(), Fail> {
    let mut out = Vec::from_slice(rt.alloc(), b"x")?;
    push_hex(rt.alloc(), &mut out, b"")?;
    push_hex(rt.alloc(), &mut out, b"\x00\x9a\xff")?;
    assert_eq!(rt; out.as_slice(), b"x009aff".as_slice());
    Ok(())
}

/// All values of a byte, in order.
fn all_bytes() -> [u8; 256] {
    let mut bytes = [0; 256];
    for at in 0..256 {
        bytes[at] = at as u8;
    }
    bytes
}

/// Lengths around whole blocks of a vector's bytes.
const LENGTHS: [usize; 7] = [0, 1, 15, 16, 17, 33, 256];

#[test]
fn digits_put_as_they_are_pushed(rt: HostRuntime) -> Result<(), Fail> {
    let all = all_bytes();
    for length in LENGTHS {
        let bytes = all.get(..length).ok_or("so many bytes")?;
        let mut pushed = Vec::new(rt.alloc());
        push_hex(rt.alloc(), &mut pushed, bytes)?;
        let room = bytes.len().checked_mul(2).ok_or("room")?;
        let mut put = vec![in rt.alloc(); 0; room]?;
        put_hex(bytes, &mut put);
        assert_eq!(rt; put.as_slice(), pushed.as_slice());
    }
    Ok(())
}

#[test]
fn bytes_read_in_either_case(rt: HostRuntime) -> Result<(), Fail> {
    let all = all_bytes();
    for length in [1, 15, 16, 17, 33, 256] {
        let bytes = all.get(..length).ok_or("so many bytes")?;
        let mut digits = Vec::new(rt.alloc());
        push_hex(rt.alloc(), &mut digits, bytes)?;
        assert_eq!(rt; read_hex(rt.alloc(), &digits)?.as_slice(), bytes);
        digits.make_ascii_uppercase();
        assert_eq!(rt; read_hex(rt.alloc(), &digits)?.as_slice(), bytes);
    }
    Ok(())
}

#[test]
fn other_characters_refused_anywhere(rt: HostRuntime) -> Result<(), Fail> {
    for at in 0..70 {
        for other in [b'/', b':', b'@', b'G', b'`', b'g', 0xB0, 0xE1] {
            let mut text = vec![in rt.alloc(); b'a'; 70]?;
            *text.get_mut(at).ok_or("so many digits")? = other;
            assert!(rt; matches!(read_hex(rt.alloc(), &text), Err(HexError::Bad)));
        }
    }
    Ok(())
}

#[test]
fn each_byte_read_or_refused(rt: HostRuntime) -> Result<(), Fail> {
    let digits = b"0123456789abcdefABCDEF".as_slice();
    for byte in all_bytes() {
        for at in [2, 41] {
            let mut text = vec![in rt.alloc(); b'0'; 42]?;
            *text.get_mut(at).ok_or("so many digits")? = byte;
            let is_bad = matches!(read_hex(rt.alloc(), &text), Err(HexError::Bad));
            assert_eq!(rt; is_bad, !digits.contains(&byte));
        }
    }
    Ok(())
}

#[test]
fn lists_change_in_place(rt: HostRuntime) -> Result<(), Fail> {
    let mut list = List::from_vec(Vec::from_slice(rt.alloc(), &[1u16, 2])?);
    list.as_vec().push(3)?;
    assert_eq!(rt; list.as_slice(), [1, 2, 3].as_slice());
    assert_eq!(rt; list.into_vec().as_slice(), [1, 2, 3].as_slice());
    Ok(())
}
