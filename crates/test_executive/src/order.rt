// In which order the pages of a line take free sectors.
use crate::rows::{NOTHING, Row, run};
use crate::talk::{ANY, expect};
use disk_records::Sector;
use std::test::Fail;

/// In an earlier session come a file of 512 bytes, and two directories without room for one more of the longest entries: D has nine of them, and
/// SysDir eight. The copy needs a page of SysDir, one of D, and three of the new file.
const COPIED: Row = Row {
    name: "a copy to full directories",
    cylinders: 3,
    earlier: "mkdir D\n\
        make A\n\
        append A 41*512\n\
        make D>aaaaaaaaaaaaaaaaaaaaaaaaaaaaaaaaaaaaaa\n\
        make D>bbbbbbbbbbbbbbbbbbbbbbbbbbbbbbbbbbbbbb\n\
        make D>cccccccccccccccccccccccccccccccccccccc\n\
        make D>dddddddddddddddddddddddddddddddddddddd\n\
        make D>eeeeeeeeeeeeeeeeeeeeeeeeeeeeeeeeeeeeee\n\
        make D>ffffffffffffffffffffffffffffffffffffff\n\
        make D>gggggggggggggggggggggggggggggggggggggg\n\
        make D>hhhhhhhhhhhhhhhhhhhhhhhhhhhhhhhhhhhhhh\n\
        make D>iiiiiiiiiiiiiiiiiiiiiiiiiiiiiiiiiiiiii\n\
        make a*38\n\
        make b*38\n\
        make c*38\n\
        make d*38\n\
        make e*38\n\
        make f*38\n\
        make g*38\n\
        make h*38",
    changed: NOTHING,
    typed: "copy A D>jjjjjjjjjjjjjjjjjjjjjjjjjjjjjjjjjjjjjj",
    shown: "made #22",
    most: ANY,
    stays: false,
};

/// The first sector that is free before it: 5 by the formatted pack, 2 and 3 by D and A, 18 and 16 by the others.
const FIRST_FREE: usize = 44;

/// The page number, and both words of the serial, that the labels of five sectors from there on have then. The lowest one is SysDir's, then come
/// D's, the leader, and the pages of the bytes.
const TAKEN: [[u16; 3]; 5] = [
    [2, 0x8000, 1],
    [2, 0x8000, 3],
    [0, 0, 22],
    [1, 0, 22],
    [2, 0, 22],
];

/// Whether the labels have them.
fn is_taken(pack: &[Sector]) -> bool {
    for (k, page) in TAKEN.iter().enumerate() {
        let Some(sector) = pack.get(FIRST_FREE + k) else {
            return false;
        };
        if [sector.label[4], sector.label[6], sector.label[7]] != *page {
            return false;
        }
    }
    true
}

#[test]
fn free_sectors_in_order(rt: HostRuntime) -> Result<(), Fail> {
    let alloc = rt.alloc();
    let mut pack = Vec::new(alloc);
    run(alloc, &COPIED, &mut pack)?;
    expect(is_taken(&pack), "other pages")
}
