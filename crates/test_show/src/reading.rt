// What packs made by hand show, as values: files with their dates, rest and bytes, and the files of the names.
use crate::expected::{expect_first_bytes, lines_of};
use crate::pages::{
    DIRECTORY_6, FILE_3, FILE_4, FILE_8, SYS_DIR, Written, push_entry, push_name, put_data,
    put_directory, put_leader, put_page,
};
use pack_reading::{ReadingError, read_pack};
use std::test::Fail;
use test_packs::{failing_machine, sectors_of, sure_machine};

#[test]
fn files_and_names_with_their_full_names(rt: HostRuntime) -> Result<(), Fail> {
    let alloc = rt.alloc();
    let mut sectors = sectors_of(alloc, &[])?;
    let mut slots = Vec::new(alloc);
    push_entry(&mut slots, DIRECTORY_6, b"D.")?;
    push_entry(&mut slots, FILE_3, b"A.")?;
    put_directory(alloc, &mut sectors, 1, SYS_DIR, b"SysDir.", &slots)?;
    // the directory 7 may not stand in this one
    let mut slots = Vec::new(alloc);
    push_entry(&mut slots, [0x8000, 7, 1], b"E.")?;
    push_entry(&mut slots, FILE_8, b"C.")?;
    put_directory(alloc, &mut sectors, 9, DIRECTORY_6, b"Z.", &slots)?;
    put_data(&mut sectors, 6, FILE_3, 1, 5);
    // a nameless file, and on 20 a second leader of file 3; the files 10 and 11 don't live
    let leaders = [
        (5, FILE_3, b"Z.".as_slice()),
        (7, FILE_4, b"a."),
        (8, [0, 5, 1], b""),
        (11, [0x8000, 7, 1], b"Y."),
        (12, FILE_8, b"Z."),
        (20, FILE_3, b"X."),
        (30, [0, 10, 1], b"V."),
        (31, [0, 11, 1], b"W."),
    ];
    for (at, name, letters) in leaders {
        put_leader(alloc, &mut sectors, at, name, letters)?;
    }
    for (at, sector) in sectors.iter_mut().enumerate() {
        match at {
            // made later than the lower one
            20 => sector.value[1] = 2000,
            30 => sector.label[3] = 513,
            31 => sector.header[1] = 0,
            _ => (),
        }
    }
    let lines = b"3 1000 5\n4 1000 0\n5 1000 0\n8 1000 0\n6 1000 directory\n7 1000 directory\n\
        1>A. 3\n1>a.$1. 4\n1>D. 6\n1>Lost5. 5\n1>Y. 7\n6>C. 8\n";
    let mut machine = sure_machine(alloc, sectors, b"")?;
    let shown = read_pack(alloc, &mut machine)?;
    assert_eq!(rt; lines_of(alloc, &shown)?.as_slice(), lines.as_slice());
    Ok(())
}

#[test]
fn all_that_a_file_shows(rt: HostRuntime) -> Result<(), Fail> {
    let alloc = rt.alloc();
    let mut sectors = sectors_of(alloc, &[])?;
    // three dates, each with its high word first, and then the name, the rest and the hints; what stands after the name doesn't count
    let mut leader = [1, 30, 2, 31, 3, 32].to_vec(alloc)?;
    push_name(&mut leader, b"A.")?;
    leader.resize(256, 7)?;
    let mut first = [0; 256];
    first[0] = 0x4142;
    first[23] = 0x4344;
    // the sixth byte of the last page doesn't count
    let pages = [
        (5, 512, leader.as_slice()),
        (6, 512, &first),
        (7, 5, &[0x4546, 0x4748, 0x494A]),
    ];
    for (number, (at, bytes, words)) in (0..).zip(pages) {
        let name = FILE_3;
        put_page(
            &mut sectors,
            Written {
                at,
                name,
                number,
                bytes,
                words,
            },
        );
    }
    // a copy of the first page on a higher sector, and a next link of that page to its own sector
    put_data(&mut sectors, 20, FILE_3, 1, 512);
    if let Some(sector) = sectors.get_mut(6) {
        sector.label[0] = 0x6000;
    }
    let mut machine = sure_machine(alloc, sectors, b"")?;
    let shown = read_pack(alloc, &mut machine)?;
    assert_eq!(rt; shown.files.as_slice().len(), 1);
    let leader = &shown.files.as_slice().first().ok_or("no file")?.leader;
    assert_eq!(rt; leader.created, 65_566);
    assert_eq!(rt; leader.written, 131_103);
    assert_eq!(rt; leader.read, 196_640);
    assert_eq!(rt; leader.name.as_bytes(), b"A.".as_slice());
    assert_eq!(rt; leader.rest.as_slice(), [7; 220].as_slice());
    assert_eq!(rt; leader.hints.as_slice(), [0; 10].as_slice());
    let mut bytes = [0; 517];
    bytes[..2].copy_from_slice(b"AB");
    bytes[46..48].copy_from_slice(b"CD");
    bytes[512..].copy_from_slice(b"EFGHI");
    expect_first_bytes(&rt, &shown, &bytes)
}

#[test]
fn a_fault_ends_the_reading(rt: HostRuntime) -> Result<(), Fail> {
    let alloc = rt.alloc();
    let mut sectors = sectors_of(alloc, &[])?;
    put_leader(alloc, &mut sectors, 5, FILE_3, b"B.")?;
    let mut machine = failing_machine(alloc, sectors, b"")?;
    machine.fail_at(alloc, 46, 0)?;
    match read_pack(alloc, &mut machine) {
        Ok(_) => assert!(rt; false, "the last sector failed"),
        Err(error) => assert_eq!(rt; error, ReadingError::DiskFault),
    }
    let shown = read_pack(alloc, &mut machine)?;
    let lines = lines_of(alloc, &shown)?;
    assert_eq!(rt; lines.as_slice(), b"3 1000 0\n1>B. 3\n".as_slice());
    Ok(())
}
