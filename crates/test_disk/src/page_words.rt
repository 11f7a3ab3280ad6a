// Words of a page as bytes and back, and bytes put into them.
use disk_records::{bytes_into_words, put_in_words, words_into_bytes};

#[test]
fn high_bytes_come_first(rt: HostRuntime) {
    let mut bytes = [7; 4];
    words_into_bytes(&[0x0241, 0xFF00], &mut bytes);
    assert_eq!(rt; bytes, [0x02, 0x41, 0xFF, 0x00]);
    let mut words = [7; 2];
    bytes_into_words(&bytes, &mut words);
    assert_eq!(rt; words, [0x0241, 0xFF00]);
}

#[test]
fn words_stand_after_the_bytes(rt: HostRuntime) {
    let mut value = [0x1122; 256];
    put_in_words(&mut value, 1, &[0x41, 0x42, 0x43], &[0x5657]);
    assert_eq!(rt; value[0], 0x1141);
    assert_eq!(rt; value[1], 0x4243);
    assert_eq!(rt; value[2], 0x5657);
    assert_eq!(rt; value[3], 0x1122);
    put_in_words(&mut value, 510, &[], &[0x5859]);
    assert_eq!(rt; value[254], 0x1122);
    assert_eq!(rt; value[255], 0x5859);
}
