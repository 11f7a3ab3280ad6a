// What stands in the main directory of a formatted pack: 10 words of SysDir's entry, 14 of DiskDescriptor's, and 231 free ones.
use crate::pack::{ROOT, formatted};
use alto_words::{Fid, Name, Wanted};
use dir_slots::Slot;
use directory::{DirError, FileRef, VersionFound, greatest, list, lookup, room};
use disk_records::{Place, Sector};
use std::test::Fail;

/// Its slots are these, with the addresses of the leaders.
#[test]
fn slots(rt: HostRuntime) -> Result<(), Fail> {
    let (mut machine, mut hints) = formatted(rt.alloc())?;
    let slots = list(rt.alloc(), &mut machine, &mut hints, &ROOT)?;
    let root = Slot::Entry {
        fid: Fid::SYS_DIR,
        leader_at: 1,
        name: Name::parse(b"SysDir").ok_or("no name")?,
    };
    let descriptor = Slot::Entry {
        fid: Fid::DISK_DESCRIPTOR,
        leader_at: 3,
        name: Name::parse(b"DiskDescriptor").ok_or("no name")?,
    };
    assert_eq!(rt; slots.len(), 3);
    assert_eq!(rt; slots[0], root);
    assert_eq!(rt; slots[1], descriptor);
    assert_eq!(rt; slots[2], Slot::Free { words: 231 });
    let mut buf = Sector::ZEROS;
    assert_eq!(rt; room(&mut machine, &mut hints, &ROOT, &mut buf)?, 231);
    Ok(())
}

/// A name is found in whatever case of its letters, with the name that its entry has and the place of the address in it; another is absent.
#[test]
fn names(rt: HostRuntime) -> Result<(), Fail> {
    let (mut machine, mut hints) = formatted(rt.alloc())?;
    let mut buf = Sector::ZEROS;
    let wanted = Wanted::parse(b"diskdescriptor").ok_or("no operand")?;
    let (file, name) = lookup(&mut machine, &mut hints, &ROOT, &wanted, &mut buf)?;
    assert_eq!(rt;
        file,
        FileRef {
            fid: Fid::DISK_DESCRIPTOR,
            leader_at: 3,
            from: Place::Entry {
                dir: Fid::SYS_DIR,
                word: 15,
            },
        }
    );
    assert_eq!(rt; name, Name::parse(b"DiskDescriptor").ok_or("no name")?);
    let other = Wanted::parse(b"DiskDescriptor!2").ok_or("no operand")?;
    assert_eq!(rt;
        lookup(&mut machine, &mut hints, &ROOT, &other, &mut buf),
        Err(DirError::NoSuchName)
    );
    Ok(())
}

/// The name of a directory is held, and has the version 1; a name that no entry has is free.
#[test]
fn versions(rt: HostRuntime) -> Result<(), Fail> {
    let (mut machine, mut hints) = formatted(rt.alloc())?;
    let mut buf = Sector::ZEROS;
    let held = Name::parse_bare(b"sysdir").ok_or("no name")?;
    assert_eq!(rt;
        greatest(&mut machine, &mut hints, &ROOT, &held, &mut buf)?,
        VersionFound {
            version: 1,
            held: true
        }
    );
    let free = Name::parse_bare(b"Memo").ok_or("no name")?;
    assert_eq!(rt;
        greatest(&mut machine, &mut hints, &ROOT, &free, &mut buf)?,
        VersionFound {
            version: 0,
            held: false
        }
    );
    Ok(())
}
