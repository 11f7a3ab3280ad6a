// How many sector commands it takes to locate a page where each hint that is passed over is wrong.
use crate::long_file::{FID, file_at, long_file, real_of, sector_of};
use disk_memory::MemMachine;
use disk_records::{Disk, Page, Sector, Shape};
use hint_cache::{BitTable, HintCache, Hints};
use page_seeking::{FileError, locate};
use std::alloc::Global;
use std::test::Fail;

/// The pages of the file that the cache has, all in the free sector 1: its last page, its leader, and pages 2 to 47. These are 48.
fn wrong_cache(alloc: Global) -> Result<HintCache, Fail> {
    let mut cache = HintCache::new(alloc)?;
    for number in 2..48 {
        cache.note(Page { fid: FID, number }, 1)?;
    }
    for number in [0, 118] {
        cache.note(Page { fid: FID, number }, 1)?;
    }
    Ok(cache)
}

/// The long file with its leader in sector 50, so that its pages aren't in a row after it. The leader says that they are, and that the last
/// one, page 118, is in the free sector 1.
fn wrong_leader(alloc: Global) -> Result<Vec<Sector>, Fail> {
    let mut sectors = long_file(alloc)?;
    let mut leader = sector_of(100);
    leader.header = [1, real_of(50)];
    leader.value[247] = 1;
    leader.value[253] = 1;
    leader.value[254] = 118;
    *sectors.get_mut(50).ok_or("no sector")? = leader;
    Ok(sectors)
}

/// Page 118 is located in 169 sector commands, which are 51 more than its number: one for the last page by the cache and one for the
/// leader, one for the leader by the address of the file, two for what it says of the last page, one for each of the 46 other pages that
/// the cache has wrong and one for page 1 that the leader's link named, and one for each of the 117 pages after it. The call after them,
/// which is number 169 from 0, would fail. Then the cache has the page, and it is located by one: call 170 finds it, and call 171 would
/// fail.
#[test]
fn all_hints_wrong(rt: HostRuntime) -> Result<(), Fail> {
    let shape = Shape::new(1, 203).ok_or("no shape")?;
    let mut machine = MemMachine::new(
        rt.alloc(),
        shape,
        wrong_leader(rt.alloc())?,
        Vec::new(rt.alloc()),
    )?;
    machine.fail_at(rt.alloc(), 169, 0)?;
    machine.fail_at(rt.alloc(), 171, 0)?;
    let mut hints = Hints {
        cache: wrong_cache(rt.alloc())?,
        table: BitTable::new(rt.alloc(), machine.shape().pages())?,
    };
    let file = file_at(50);
    let mut buf = Sector::ZEROS;
    for _ in 0..2 {
        let (at, info) = locate(&mut machine, &mut hints, &file, 118, &mut buf)?;
        assert_eq!(rt; at, 218);
        assert_eq!(rt; info.bytes, 96);
        assert_eq!(rt; buf.value[0], 118);
        let answer = locate(&mut machine, &mut hints, &file, 118, &mut buf);
        assert_eq!(rt; answer, Err(FileError::DiskFault));
    }
    Ok(())
}
