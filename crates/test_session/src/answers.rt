// What a line answers for a call that wrote: no refusal, but a hint that misled, the address of the leader.
use alto_words::Fid;
use directory::DirError;
use disk_records::{Page, Place};
use exec_session::{FileRef, Stop, entered, written};
use page_seeking::FileError;
use std::process::Abort;
use std::test::Fail;

/// A file whose leader was read on sector 7.
const FILE: FileRef = FileRef {
    fid: Fid::SYS_DIR,
    leader_at: 7,
    from: Place::Root,
};

/// The hint that misled then.
const MISFIT: Stop = Stop::Misled {
    place: Place::Held { at: 7 },
    at: 7,
    wanted: Page {
        fid: Fid::SYS_DIR,
        number: 0,
    },
    found: None,
};

#[test]
fn no_refusal_of_a_call_that_wrote(rt: HostRuntime) -> Result<(), Fail> {
    let beyond = FileError::Beyond { length: 3 };
    let errors = [
        DirError::NoSuchName,
        DirError::NameTaken,
        DirError::NoSlot { largest: 3 },
        DirError::File { fault: beyond },
    ];
    for error in errors {
        assert_eq!(rt; entered(&FILE, Err(error)).err(), Some(MISFIT));
    }
    assert_eq!(rt; written(&FILE, Err(beyond)).err(), Some(MISFIT));
    assert_eq!(rt;
        written(&FILE, Err(FileError::DiskFault)).err(),
        Some(Stop::DiskFault)
    );
    Ok(())
}
