// Texts of refusals, of replies and of lines that are done.
use alto_words::{Fid, List, Memory, Name};
use disk_records::Page;
use exec_words::{
    Place, Refusal, Reply, Stat, at_text, done_text, free_text, got_text, length_text, level_text,
    made_text, names_text, not_written_text, reply_text, report_text, stat_text, stream_text,
    type_text, word_text, written_text,
};
use std::process::Abort;
use std::test::Fail;

/// The leader page of the file with this serial, version 1.
fn leader_of(serial: u16) -> Page {
    Page {
        fid: Fid {
            high: 0,
            low: serial,
            version: 1,
        },
        number: 0,
    }
}

#[test]
fn texts_of_refusals(rt: HostRuntime) -> Result<(), Fail> {
    let label = [65_535, 20_480, 0, 0, 1, 1, 0, 3];
    let rows = [
        (Refusal::BadLine, "bad line\n"),
        (Refusal::NeedsScavenge, "needs scavenging\n"),
        (Refusal::NoService { level: 5 }, "needs level 5\n"),
        (Refusal::NoSuchName, "no such name\n"),
        (Refusal::NotADirectory, "not a directory\n"),
        (Refusal::IsADirectory, "is a directory\n"),
        (Refusal::SystemFile, "system file\n"),
        (Refusal::NameTaken, "name taken\n"),
        (Refusal::NotEmpty, "not empty\n"),
        (Refusal::Beyond { length: 512 }, "beyond length 512\n"),
        (Refusal::NoStream, "no stream\n"),
        (Refusal::TooManyStreams, "too many streams\n"),
        (Refusal::StreamsOpen, "streams open\n"),
        (
            Refusal::NoRoom { largest: 39_833 },
            "no room: largest 39833\n",
        ),
        (Refusal::NotABlock, "not a block\n"),
        (Refusal::InUse { at: 1025 }, "in use at 1025\n"),
        (Refusal::NotAWorld { length: 1 }, "not a world: length 1\n"),
        (Refusal::NotWhole { mark: 0 }, "not whole: mark 0\n"),
        (
            Refusal::Spoilt { word: 65_537 },
            "spoilt world: word 65537\n",
        ),
        (
            Refusal::SerialsSpent {
                last: 2_147_483_646,
            },
            "serials spent: last 2147483646\n",
        ),
        (
            Refusal::Full { needed: 2, free: 1 },
            "full: needed 2 free 1\n",
        ),
        (
            Refusal::HintFailed {
                place: Place::Entry {
                    dir: Fid::SYS_DIR,
                    word: 29,
                },
                at: 6,
                wanted: leader_of(3),
                found: Some(label),
            },
            "hint failed: entry #1 word 29 at 6 wanted #3 v 1 page 0 found 65535 20480 0 0 1 1 0 3\n",
        ),
        (
            Refusal::HintFailed {
                place: Place::Next { at: 5 },
                at: 65_535,
                wanted: Page {
                    number: 1,
                    ..leader_of(3)
                },
                found: Some(label),
            },
            "hint failed: next of 5 at 65535 wanted #3 v 1 page 1 found 65535 20480 0 0 1 1 0 3\n",
        ),
        (
            Refusal::HintFailed {
                place: Place::Root,
                at: 1,
                wanted: Page {
                    fid: Fid::SYS_DIR,
                    number: 0,
                },
                found: Some(label),
            },
            "hint failed: root at 1 wanted #1 v 1 page 0 found 65535 20480 0 0 1 1 0 3\n",
        ),
        (
            Refusal::HintFailed {
                place: Place::Held { at: 7 },
                at: 7,
                wanted: leader_of(4),
                found: Some(label),
            },
            "hint failed: held 7 at 7 wanted #4 v 1 page 0 found 65535 20480 0 0 1 1 0 3\n",
        ),
        (
            Refusal::HintFailed {
                place: Place::Held { at: 7 },
                at: 7,
                wanted: leader_of(4),
                found: None,
            },
            "hint failed: held 7 at 7 wanted #4 v 1 page 0 found none\n",
        ),
    ];
    for (refusal, text) in rows {
        let shown = reply_text(rt.alloc(), &Reply::Refused { refusal })?;
        assert_eq!(rt; shown.as_slice(), text.as_bytes(), "{text}");
    }
    Ok(())
}

#[test]
fn texts_of_replies(rt: HostRuntime) -> Result<(), Fail> {
    let text = List::from_vec(Vec::from_slice(rt.alloc(), b"0 bytes\n")?);
    let rows = [
        (Reply::Done { text }, "0 bytes\n"),
        (Reply::Quit, "done\n"),
        (Reply::Scavenge, ""),
        (Reply::DiskFault, ""),
        (Reply::Memory, ""),
    ];
    for (reply, text) in rows {
        let shown = reply_text(rt.alloc(), &reply)?;
        assert_eq!(rt; shown.as_slice(), text.as_bytes(), "{text}");
    }
    Ok(())
}

/// Compares a text, for which memory is left, with the one that is wanted.
fn expect_text<A: Abort>(rt: &A, shown: Result<Vec<u8>, Memory>, text: &str) -> Result<(), Fail> {
    let shown = shown?;
    assert_eq!(rt; shown.as_slice(), text.as_bytes(), "{text}");
    Ok(())
}

#[test]
fn texts_of_lines_that_are_done(rt: HostRuntime) -> Result<(), Fail> {
    let alloc = rt.alloc();
    let name = Name::parse(b"A").ok_or("no name")?;
    let names = [
        name,
        Name::parse(b"A!2").ok_or("no name")?,
        Name::parse(b"SysDir").ok_or("no name")?,
    ];
    let file = leader_of(3).fid;
    let stat = Stat {
        fid: file,
        length: 2,
        created: 1000,
        written: 1001,
        read: 1002,
        name,
    };
    let longer = Stat {
        fid: Fid::SYS_DIR,
        length: 1024,
        ..stat
    };
    expect_text(&rt, done_text(alloc), "done\n")?;
    expect_text(&rt, made_text(alloc, file), "made #3\n")?;
    expect_text(
        &rt,
        made_text(
            alloc,
            Fid {
                high: 0x8000,
                low: 4,
                version: 1,
            },
        ),
        "made #4\n",
    )?;
    expect_text(&rt, length_text(alloc, 20_480), "length 20480\n")?;
    expect_text(&rt, at_text(alloc, 1025), "at 1025\n")?;
    expect_text(&rt, level_text(alloc, 8), "level 8\n")?;
    expect_text(&rt, stream_text(alloc, 0), "stream 0\n")?;
    expect_text(&rt, free_text(alloc, 43), "43 pages free\n")?;
    expect_text(&rt, word_text(alloc, 7), "7\n")?;
    expect_text(&rt, got_text(alloc, b"ABC"), "414243\n")?;
    expect_text(&rt, got_text(alloc, b""), "-\n")?;
    expect_text(&rt, written_text(alloc), "written\n")?;
    expect_text(&rt, not_written_text(alloc, &[1, 0]), "not written 0100\n")?;
    expect_text(&rt, type_text(alloc, b""), "0 bytes\n")?;
    expect_text(&rt, type_text(alloc, b"ABBBE"), "4142424245\n5 bytes\n")?;
    expect_text(
        &rt,
        type_text(alloc, &[17; 32]),
        "1111111111111111111111111111111111111111111111111111111111111111\n32 bytes\n",
    )?;
    expect_text(
        &rt,
        type_text(alloc, &[17; 33]),
        "1111111111111111111111111111111111111111111111111111111111111111\n11\n33 bytes\n",
    )?;
    expect_text(
        &rt,
        names_text(alloc, &names),
        "A.\nA!2.\nSysDir.\n3 entries\n",
    )?;
    expect_text(&rt, names_text(alloc, &[]), "0 entries\n")?;
    expect_text(
        &rt,
        stat_text(alloc, &stat),
        "#3 length 2 pages 2 created 1000 written 1001 read 1002 name A.\n",
    )?;
    expect_text(
        &rt,
        stat_text(alloc, &longer),
        "#1 length 1024 pages 4 created 1000 written 1001 read 1002 name A.\n",
    )?;
    expect_text(
        &rt,
        report_text(alloc, 3, 1, 0, 2),
        "scavenged: files 3, freed 1, bad 0, adopted 2\n",
    )?;
    Ok(())
}
