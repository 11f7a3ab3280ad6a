// Packs and their bytes: that calls answer with memory left, and where each word stands.
use crate::samples::bytes_from;
use disk_image::{ReachError, decode_pack, decode_two, encode_pack, encode_two};
use std::test::Fail;

#[test]
fn a_file_is_read_and_written_back(rt: HostRuntime) -> Result<(), Fail> {
    let bytes = bytes_from(rt.alloc(), 0, 25_536)?;
    let (shape, sectors) = decode_pack(rt.alloc(), &bytes)?;
    assert_eq!(rt; shape.cylinders(), 2);
    assert_eq!(rt; sectors.len(), 48);
    // Sector 1 begins at byte 532, its label at 536, its value at 552.
    let one = sectors[1];
    for (word, at) in [
        (one.header[1], 534),
        (one.label[0], 536),
        (one.value[255], 1062),
    ] {
        assert!(rt; at + 1 < bytes.len());
        assert_eq!(rt;
            word,
            u16::from_be_bytes([bytes[at], bytes[at + 1]]),
            "at {at}"
        );
    }
    assert_eq!(rt;
        encode_pack(rt.alloc(), shape, &sectors)?.as_slice(),
        bytes.as_slice()
    );
    Ok(())
}

#[test]
fn two_files_are_read_and_written_back(rt: HostRuntime) -> Result<(), Fail> {
    let first = bytes_from(rt.alloc(), 0, 25_536)?;
    let second = bytes_from(rt.alloc(), 5_000, 25_536)?;
    let (shape, sectors) = decode_two(rt.alloc(), &first, &second)?;
    assert_eq!(rt; shape.disks(), 2);
    assert_eq!(rt; shape.cylinders(), 2);
    assert_eq!(rt; sectors.len(), 96);
    // sector 47 is the last one of the first file, and 48 the first of the second, whose header begins at byte 0
    for (word, file, at) in [
        (sectors[47].header[0], &first, 25_004usize),
        (sectors[48].header[0], &second, 0),
        (sectors[95].value[255], &second, 25_534),
    ] {
        assert!(rt; at + 1 < file.len());
        assert_eq!(rt;
            word,
            u16::from_be_bytes([file[at], file[at + 1]]),
            "at {at}"
        );
    }
    let (again, also) = encode_two(rt.alloc(), shape, &sectors)?;
    assert!(rt; again.as_slice() == first.as_slice());
    assert!(rt; also.as_slice() == second.as_slice());
    Ok(())
}

#[test]
fn text_that_no_run_shows(rt: HostRuntime) -> Result<(), Fail> {
    let error = ReachError::Memory;
    assert_eq!(rt; format!(in rt.alloc(); "{error}")?.as_str(), "no memory");
    Ok(())
}
