// Shapes of one drive and of two: which there are, the real and virtual addresses of their sectors, and how long DiskDescriptor is.
use disk_records::Shape;
use std::test::Fail;

/// The shape of these drives. An error where there is none.
fn shape_of(disks: u16, cylinders: u16) -> Result<Shape, Fail> {
    match Shape::new(disks, cylinders) {
        Some(shape) => Ok(shape),
        None => Err(Fail::new(format_args!("{disks} drives of {cylinders} cylinders"))),
    }
}

#[test]
fn shapes_have_one_or_two_drives_of_2_to_406_cylinders(rt: HostRuntime) -> Result<(), Fail> {
    for (disks, cylinders, pages) in [
        (1, 2, 48),
        (1, 203, 4872),
        (1, 406, 9744),
        (2, 2, 96),
        (2, 203, 9744),
        (2, 406, 19488),
    ] {
        let shape = shape_of(disks, cylinders)?;
        assert_eq!(rt; shape.disks(), disks);
        assert_eq!(rt; shape.cylinders(), cylinders);
        assert_eq!(rt; shape.pages(), pages);
    }
    for (disks, cylinders) in [(0, 203), (3, 203), (1, 1), (2, 1), (1, 407), (2, 407)] {
        assert!(rt; Shape::new(disks, cylinders) == None, "{disks} {cylinders}");
    }
    Ok(())
}

#[test]
fn second_drive_follows_the_last_sector_of_the_first(rt: HostRuntime) -> Result<(), Fail> {
    // drives, cylinders, virtual and real address. Of a real one the first digit is the sector; of the others the bits below 3 are
    // head, disk and restore, and those above are the cylinder
    for (disks, cylinders, at, real) in [
        (1, 2, 1, 0x1000),
        (1, 2, 12, 0x0004),
        (1, 2, 24, 0x0008),
        (1, 2, 47, 0xB00C),
        (1, 203, 4871, 0xB654),
        (1, 406, 4872, 0x0658),
        (1, 406, 9743, 0xBCAC),
        (2, 2, 47, 0xB00C),
        (2, 2, 48, 0x0002),
        (2, 2, 60, 0x0006),
        (2, 2, 72, 0x000A),
        (2, 2, 95, 0xB00E),
        (2, 203, 4871, 0xB654),
        (2, 203, 4872, 0x0002),
        (2, 203, 4901, 0x500A),
        (2, 203, 9743, 0xB656),
        (2, 406, 9743, 0xBCAC),
        (2, 406, 9744, 0x0002),
        (2, 406, 19487, 0xBCAE),
    ] {
        let shape = shape_of(disks, cylinders)?;
        assert!(rt; at < shape.pages());
        assert_eq!(rt; shape.real_of(at), real, "{disks} {cylinders} {at}");
        assert!(rt;
            shape.virtual_of(real) == Some(at),
            "{disks} {cylinders} {at}"
        );
    }
    Ok(())
}

#[test]
fn other_words_are_no_real_address(rt: HostRuntime) -> Result<(), Fail> {
    for (disks, cylinders, real) in [
        // sector 12, the restore bit, the second drive of one, and the first cylinder past the last
        (1, 2, 0xC000),
        (1, 2, 0x1001),
        (1, 2, 0x1002),
        (1, 2, 0x0010),
        (1, 203, 0x0658),
        (1, 406, 0x0CB0),
        (1, 406, 0xBCAE),
        // the same on the second of two, and the greatest cylinder that a word can name
        (2, 2, 0xC002),
        (2, 2, 0x0003),
        (2, 2, 0x0012),
        (2, 203, 0x065A),
        (2, 406, 0x0CB2),
        (2, 406, 0x0FFA),
        (2, 406, 0xFFFF),
    ] {
        assert!(rt;
            shape_of(disks, cylinders)?.virtual_of(real) == None,
            "{disks} {cylinders} {real}"
        );
    }
    Ok(())
}

#[test]
fn descriptor_has_32_bytes_and_two_for_16_sectors(rt: HostRuntime) -> Result<(), Fail> {
    for (disks, cylinders, length) in [
        (1, 2, 38),
        (2, 2, 44),
        (1, 203, 642),
        (1, 406, 1250),
        (2, 203, 1250),
        (2, 406, 2468),
    ] {
        assert_eq!(rt;
            shape_of(disks, cylinders)?.descriptor_length(),
            length,
            "{disks} {cylinders}"
        );
    }
    Ok(())
}
