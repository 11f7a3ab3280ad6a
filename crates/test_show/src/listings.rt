// Listings that faults end.
use alto_top::{Status, show_pack};
use std::test::Fail;
use test_packs::{DATA, LEADER, failing_machine, sectors_of};

#[test]
fn faults_while_showing(rt: HostRuntime) -> Result<(), Fail> {
    let alloc = rt.alloc();
    let rows = [
        (0, Status::DiskFault, b"".as_slice()),
        (46, Status::DiskFault, b""),
        (47, Status::DisplayFault, b""),
        (48, Status::Done, b"SysDir>Lost3. length 5\n1 files\n"),
    ];
    for (call, ended, shown) in rows {
        let mut machine = failing_machine(alloc, sectors_of(alloc, &[LEADER, DATA])?, b"")?;
        machine.fail_at(alloc, call, 0)?;
        assert!(rt; show_pack(alloc, &mut machine) == ended, "{call}");
        assert_eq!(rt; machine.shown(alloc)?.as_slice(), shown, "{call}");
    }
    Ok(())
}
