// The values of DiskDescriptor's data pages with a table of ones but for the last sector.
use disk_descriptor::descriptor_page;
use disk_records::Shape;
use hint_cache::BitTable;
use std::test::Fail;

/// A value with these words at its head, then so many words of ones, then this word; the others are 0.
fn value_of(heading: &[u16], ones: usize, last: u16) -> [u16; 256] {
    let mut value = [0; 256];
    for (word, given) in value.iter_mut().zip(heading) {
        *word = *given;
    }
    for word in value.iter_mut().skip(heading.len()).take(ones) {
        *word = 0xFFFF;
    }
    for word in value.iter_mut().skip(heading.len()).skip(ones).take(1) {
        *word = last;
    }
    value
}

/// The words before the map: the shape, the last serial 0x12345678, the open mark, one free sector, and the number of map words.
const fn heading(disks: u16, cylinders: u16, map_words: u16) -> [u16; 16] {
    [
        disks, cylinders, 2, 12, 0x1234, 0x5678, 2, 1, map_words, 0, 0, 0, 0, 0, 0, 0,
    ]
}

/// 48 sectors have three map words; 3,840 have 240, which fill the first page, so that the second has none; 19,488 have 1,218 in five pages.
#[test]
fn values(rt: HostRuntime) -> Result<(), Fail> {
    let (small, middle, large) = (
        heading(1, 2, 3),
        heading(1, 160, 240),
        heading(2, 406, 1218),
    );
    let rows = [
        (1, 2, 1, small.as_slice(), 2, 0xFFFE),
        (1, 160, 1, middle.as_slice(), 239, 0xFFFE),
        (1, 160, 2, &[], 0, 0),
        (2, 406, 1, large.as_slice(), 240, 0),
        (2, 406, 2, &[], 256, 0),
        (2, 406, 5, &[], 209, 0xFFFE),
    ];
    for (disks, cylinders, page, heading, ones, last) in rows {
        let shape = Shape::new(disks, cylinders).ok_or("no shape")?;
        let mut table = BitTable::new(rt.alloc(), shape.pages())?;
        table.set(shape.pages() - 1, false);
        assert!(rt; table.pages() == shape.pages());
        assert!(rt; 1 <= page && u32::from(page) <= shape.descriptor_length() / 512 + 1);
        let value = descriptor_page(shape, 0x1234_5678, 2, &table, page);
        assert!(rt;
            value == value_of(heading, ones, last),
            "{cylinders} {page}"
        );
    }
    Ok(())
}
