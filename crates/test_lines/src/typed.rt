// Lines as values: which of them some text is read as.
use alto_words::{List, Memory, Name};
use exec_words::{Line, Path, Target, Wanted, is_typed};
use std::alloc::Global;
use std::process::Abort;
use std::test::Fail;

/// A file that is named by its serial.
const FILE: Target = Target::BySerial { serial: 3 };

/// So many bytes.
fn bytes_of(alloc: Global, count: usize) -> Result<List<u8>, Memory> {
    let mut bytes = Vec::new(alloc);
    for _ in 0..count {
        bytes.push(0x41)?;
    }
    Ok(List::from_vec(bytes))
}

/// The newest version of a name in a directory.
fn path_of(dir: &str, base: &str) -> Option<Path> {
    Some(Path {
        dir: Some(Name::parse(dir.as_bytes())?),
        wanted: Wanted::parse(base.as_bytes())?,
    })
}

#[test]
fn values_without_bytes(rt: HostRuntime) -> Result<(), Fail> {
    let bare = Name::parse(b"D").ok_or("no name")?;
    let numbered = Name::parse(b"D!2").ok_or("no name")?;
    let exact = Path {
        dir: Some(bare),
        wanted: Wanted::Exact { name: numbered },
    };
    let newest = Path {
        dir: Some(bare),
        wanted: Wanted::Newest { base: numbered },
    };
    let inside = Path {
        dir: Some(numbered),
        wanted: Wanted::Newest { base: bare },
    };
    let rows = [
        ("list", Line::ListNames { dir: None }, true),
        ("list D", Line::ListNames { dir: Some(bare) }, true),
        (
            "list D!2",
            Line::ListNames {
                dir: Some(numbered),
            },
            false,
        ),
        ("mkdir D", Line::MakeDir { name: bare }, true),
        ("mkdir D!2", Line::MakeDir { name: numbered }, false),
        ("rmdir D!2", Line::RemoveDir { name: numbered }, false),
        ("make D>D!2", Line::Make { path: exact }, true),
        (
            "make D>D!2, its newest version",
            Line::Make { path: newest },
            false,
        ),
        ("make D!2>D", Line::Make { path: inside }, false),
        (
            "get 7 1",
            Line::Get {
                stream: 7,
                count: 1,
            },
            true,
        ),
        (
            "get 0 1024",
            Line::Get {
                stream: 0,
                count: 1024,
            },
            true,
        ),
        (
            "get 0 0",
            Line::Get {
                stream: 0,
                count: 0,
            },
            false,
        ),
        (
            "get 0 1025",
            Line::Get {
                stream: 0,
                count: 1025,
            },
            false,
        ),
        (
            "get 8 1",
            Line::Get {
                stream: 8,
                count: 1,
            },
            false,
        ),
        ("seek 8 0", Line::Seek { stream: 8, to: 0 }, false),
        ("close 8", Line::Close { stream: 8 }, false),
        ("block 0", Line::Block { words: 0 }, false),
        ("block 1", Line::Block { words: 1 }, true),
        ("junta 0", Line::Junta { level: 0 }, false),
        ("junta 1", Line::Junta { level: 1 }, true),
        ("junta 8", Line::Junta { level: 8 }, true),
        ("junta 9", Line::Junta { level: 9 }, false),
        ("scavenge", Line::Scavenge, true),
        ("a bad line", Line::Bad, false),
    ];
    for (text, line, typed) in rows {
        assert_eq!(rt; is_typed(&line), typed, "{text}");
    }
    Ok(())
}

#[test]
fn values_with_bytes(rt: HostRuntime) -> Result<(), Fail> {
    for (count, typed) in [(0, true), (2000, true), (2001, false)] {
        let append = Line::Append {
            file: FILE,
            bytes: bytes_of(rt.alloc(), count)?,
        };
        assert_eq!(rt; is_typed(&append), typed, "append {count}");
        let patch = Line::Patch {
            file: FILE,
            offset: 0,
            bytes: bytes_of(rt.alloc(), count)?,
        };
        assert_eq!(rt; is_typed(&patch), typed, "patch {count}");
        let put = Line::PutBytes {
            stream: 0,
            bytes: bytes_of(rt.alloc(), count)?,
        };
        assert_eq!(rt; is_typed(&put), typed, "putb {count}");
    }
    for (count, typed) in [(0, true), (40, true), (41, false)] {
        let inload = Line::InLoad {
            path: path_of("D", "W").ok_or("no path")?,
            message: bytes_of(rt.alloc(), count)?,
        };
        assert_eq!(rt; is_typed(&inload), typed, "inload {count}");
    }
    Ok(())
}

#[test]
fn patches_of_long_names(rt: HostRuntime) -> Result<(), Fail> {
    // 38 characters before the final `.`, which is left out where no other `.` stands before it.
    let plain = "aaaaaaaaaaaaaaaaaaaaaaaaaaaaaaaaaaaaaa.";
    let dotted = "aaaaaaaaaaaaaaaaaaaaaaaaaaaaaaaaaaaaa..";
    // The shortest texts have 4,095, 4,096, 4,097, 4,096 and 4,095 characters.
    let rows = [
        (plain, plain, 4_294_967_295, 2000, true),
        (plain, dotted, 4_294_967_295, 2000, true),
        (dotted, dotted, 4_294_967_295, 2000, false),
        (dotted, dotted, 999_999_999, 2000, true),
        (dotted, dotted, 4_294_967_295, 1999, true),
    ];
    for (dir, base, offset, count, typed) in rows {
        let path = path_of(dir, base).ok_or("no path")?;
        let patch = Line::Patch {
            file: Target::ByPath { path },
            offset,
            bytes: bytes_of(rt.alloc(), count)?,
        };
        assert_eq!(rt;
            is_typed(&patch),
            typed,
            "patch {dir}>{base} {offset} {count}"
        );
    }
    Ok(())
}
