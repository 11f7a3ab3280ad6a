// Lines that are read, those that are bad, and those that this program obeys.
use crate::written::written;
use exec_words::{Line, as_built, is_built, is_typed, read_line};
use std::test::Fail;

#[test]
fn lines_of_the_table(rt: HostRuntime) -> Result<(), Fail> {
    let rows = [
        ("list", "ListNames"),
        ("list D", "ListNames D."),
        ("list D.", "ListNames D."),
        ("type A", "TypeOut newest A."),
        ("type A!1", "TypeOut exact A."),
        ("type #3", "TypeOut serial 3"),
        ("type #0", "TypeOut serial 0"),
        ("stat D>A!2", "Stat in D. exact A!2."),
        ("stat #4294967295", "Stat serial 4294967295"),
        ("make A", "Make newest A."),
        ("make D>A!65534", "Make in D. exact A!65534."),
        ("append A 0aFf", "Append newest A. 0aff"),
        ("append #007 -", "Append serial 7 -"),
        ("patch A 4 4242", "Patch newest A. 4 4242"),
        ("patch #3 4294967295 -", "Patch serial 3 4294967295 -"),
        ("cut A 1000", "Cut newest A. 1000"),
        ("cut #3 0000000000", "Cut serial 3 0"),
        ("cut A 4294967295", "Cut newest A. 4294967295"),
        ("copy #3 D>B", "Copy serial 3 in D. newest B."),
        ("copy A..!2 B", "Copy exact A.!2. newest B."),
        ("rename D>A D>B", "Rename in D. newest A. in D. newest B."),
        ("delete A!1.", "Delete exact A."),
        ("mkdir D", "MakeDir D."),
        ("rmdir SysDir.", "RemoveDir SysDir."),
        ("free", "Free"),
        ("settime 0", "SetTime 0"),
        ("settime 4294967295", "SetTime 4294967295"),
        ("open A", "OpenStream newest A."),
        ("get 0 1", "Get 0 1"),
        ("get 7 1024", "Get 7 1024"),
        ("putb 0 414243", "PutBytes 0 414243"),
        ("putb 7 -", "PutBytes 7 -"),
        ("seek 0 0", "Seek 0 0"),
        ("seek 7 4294967295", "Seek 7 4294967295"),
        ("close 0", "Close 0"),
        ("close 7", "Close 7"),
        ("store 0 65535", "Store 0 65535"),
        ("store 65535 0", "Store 65535 0"),
        ("fetch 0", "Fetch 0"),
        ("fetch 65535", "Fetch 65535"),
        ("block 1", "Block 1"),
        ("block 65535", "Block 65535"),
        ("unblock 0", "Unblock 0"),
        ("unblock 65535", "Unblock 65535"),
        ("junta 1", "Junta 1"),
        ("junta 8", "Junta 8"),
        ("counterjunta", "CounterJunta"),
        ("outload D>W", "OutLoad in D. newest W."),
        ("inload W -", "InLoad newest W. -"),
        ("inload W!2 0102", "InLoad exact W!2. 0102"),
        ("scavenge", "Scavenge"),
        ("quit", "Quit"),
    ];
    for (text, line) in rows {
        let read = read_line(rt.alloc(), text.as_bytes())?;
        assert_eq!(rt;
            written(rt.alloc(), &read)?.as_slice(),
            line.as_bytes(),
            "{text}"
        );
        assert!(rt; is_typed(&read), "{text}");
    }
    Ok(())
}

#[test]
fn lines_that_are_bad(rt: HostRuntime) -> Result<(), Fail> {
    let rows = [
        "",
        " ",
        "Free",
        "FREE",
        "freed",
        "fre",
        "free ",
        " free",
        "free  ",
        "free A",
        "free\t",
        "quit quit",
        "list ",
        "list D E",
        "list D!2",
        "list D!1",
        "list D>E",
        "list #3",
        "type",
        "type ",
        "type A B",
        "type  A",
        "type A ",
        "type #",
        "type #4294967296",
        "type ##3",
        "type A>B>C",
        "type D!2>A",
        "type >A",
        "type D>",
        "type A!0",
        "type A!02",
        "type A!65535",
        "type A_B",
        "type aaaaaaaaaaaaaaaaaaaaaaaaaaaaaaaaaaaaaaa",
        "make #3",
        "make",
        "make A B",
        "append A",
        "append A 4",
        "append A 4g",
        "append A 41 42",
        "append  A 41",
        "append A  41",
        "append A --",
        "patch A 4",
        "patch A 4 41 42",
        "patch A -1 41",
        "patch A 4294967296 41",
        "patch 41 4",
        "cut A",
        "cut A x",
        "cut A 00000000001",
        "cut A 4294967296",
        "copy A #3",
        "copy A",
        "rename A",
        "rename #3 A",
        "delete #3",
        "mkdir D!2",
        "mkdir D!1",
        "mkdir E>D",
        "rmdir D!2",
        "rmdir",
        "settime",
        "settime -1",
        "settime 4294967296",
        "get 8 1",
        "get 0 0",
        "get 0 1025",
        "get 0",
        "putb 8 41",
        "putb 0",
        "seek 8 0",
        "seek 0 4294967296",
        "close 8",
        "close",
        "store 65536 0",
        "store 0 65536",
        "store 0",
        "fetch 65536",
        "block 0",
        "block 65536",
        "unblock 65536",
        "junta 0",
        "junta 9",
        "junta",
        "counterjunta 8",
        "outload",
        "outload #3",
        "inload W",
        "inload #3 -",
        "inload W 4",
        "scavenge now",
        "swat",
    ];
    for text in rows {
        let read = read_line(rt.alloc(), text.as_bytes())?;
        assert!(rt; matches!(read, Line::Bad), "{text}");
    }
    Ok(())
}

#[test]
fn lines_of_many_bytes(rt: HostRuntime) -> Result<(), Fail> {
    // What is written of the line before its bytes; nothing where it is bad. The longest names: 38 letters and a `.`, which may be left
    // out.
    let rows = [
        ("append A ", 2000, 4009, "Append newest A. "),
        ("append A ", 2001, 4011, ""),
        ("patch #3 0 ", 2000, 4011, "Patch serial 3 0 "),
        ("patch #3 0 ", 2001, 4013, ""),
        ("putb 0 ", 2000, 4007, "PutBytes 0 "),
        ("putb 0 ", 2001, 4009, ""),
        ("inload W ", 40, 89, "InLoad newest W. "),
        ("inload W ", 41, 91, ""),
        (
            "patch aaaaaaaaaaaaaaaaaaaaaaaaaaaaaaaaaaaaaa>bbbbbbbbbbbbbbbbbbbbbbbbbbbbbbbbbbbbbb 4294967295 ",
            2000,
            4095,
            "Patch in aaaaaaaaaaaaaaaaaaaaaaaaaaaaaaaaaaaaaa. newest bbbbbbbbbbbbbbbbbbbbbbbbbbbbbbbbbbbbbb. 4294967295 ",
        ),
        (
            "patch aaaaaaaaaaaaaaaaaaaaaaaaaaaaaaaaaaaaaa.>bbbbbbbbbbbbbbbbbbbbbbbbbbbbbbbbbbbbbb 4294967295 ",
            2000,
            4096,
            "Patch in aaaaaaaaaaaaaaaaaaaaaaaaaaaaaaaaaaaaaa. newest bbbbbbbbbbbbbbbbbbbbbbbbbbbbbbbbbbbbbb. 4294967295 ",
        ),
        (
            "patch aaaaaaaaaaaaaaaaaaaaaaaaaaaaaaaaaaaaaa.>bbbbbbbbbbbbbbbbbbbbbbbbbbbbbbbbbbbbbb. 4294967295 ",
            2000,
            4097,
            "",
        ),
    ];
    for (front, count, length, line) in rows {
        let mut text = Vec::from_slice(rt.alloc(), front.as_bytes())?;
        let mut wanted = Vec::from_slice(rt.alloc(), line.as_bytes())?;
        for _ in 0..count {
            text.extend_from_slice(b"41")?;
            wanted.extend_from_slice(b"41")?;
        }
        assert_eq!(rt; text.len(), length, "{front}{count}");
        let read = read_line(rt.alloc(), text.as_slice())?;
        if line.is_empty() {
            assert!(rt; matches!(read, Line::Bad), "{front}{count}");
        } else {
            assert_eq!(rt;
                written(rt.alloc(), &read)?.as_slice(),
                wanted.as_slice(),
                "{front}{count}"
            );
        }
    }
    Ok(())
}

#[test]
fn verbs_that_are_built(rt: HostRuntime) -> Result<(), Fail> {
    let rows = [
        ("list D", "ListNames D."),
        ("type A", "TypeOut newest A."),
        ("stat #3", "Stat serial 3"),
        ("make A", "Make newest A."),
        ("append A 4242", "Append newest A. 4242"),
        ("patch A 1 4242", "Patch newest A. 1 4242"),
        ("patch #3 1 4242", "Patch serial 3 1 4242"),
        ("cut A 1000", "Cut newest A. 1000"),
        ("copy A B", "Copy newest A. newest B."),
        ("rename A B", "Rename newest A. newest B."),
        ("delete A!1", "Delete exact A."),
        ("mkdir D", "MakeDir D."),
        ("rmdir D", "RemoveDir D."),
        ("free", "Free"),
        ("settime 0", "SetTime 0"),
        ("quit", "Quit"),
        ("open A", "Bad"),
        ("get 0 1", "Bad"),
        ("putb 0 41", "Bad"),
        ("seek 0 0", "Bad"),
        ("close 0", "Bad"),
        ("store 0 0", "Store 0 0"),
        ("fetch 0", "Fetch 0"),
        ("block 1", "Block 1"),
        ("unblock 0", "Unblock 0"),
        ("junta 1", "Junta 1"),
        ("counterjunta", "CounterJunta"),
        ("outload W", "Bad"),
        ("inload W -", "Bad"),
        ("scavenge", "Bad"),
        ("Free", "Bad"),
    ];
    for (text, line) in rows {
        let read = read_line(rt.alloc(), text.as_bytes())?;
        assert_eq!(rt; is_built(&read), line != "Bad", "{text}");
        let built = as_built(read);
        assert_eq!(rt;
            written(rt.alloc(), &built)?.as_slice(),
            line.as_bytes(),
            "{text}"
        );
    }
    Ok(())
}
